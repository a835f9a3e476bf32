//! Names that are no signals.
ghost use Rattle.std.specs.Prelude.{◌≡◌};
ghost use Rattle.grammar.specs.Scan.{foreign, unknown as unknown_of};

use words::{Leaf, Word};

/// Whether a word is a name that is no signal.
fn is_foreign(word: Word, signals: u8) -> bool
    ensures { result ≡ foreign signals word }
{
    matches!(word, Word::Atom(Leaf::Signal(p)) if signals <= p)
}

/// The place, from 0, of the first name that is no signal.
pub fn unknown(words: &[Word], signals: u8) -> Option<usize>
    ensures { result ≡ unknown_of signals words.now }
{
    words.iter().position(|word| is_foreign(*word, signals))
}
