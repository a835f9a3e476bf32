//! What words a text is cut into.
ghost use Rattle.std.specs.Prelude.{◌≡◌, ◌≤◌, map, length};
ghost use Rattle.std.specs.List.{prefix_len};
ghost use Rattle.words.specs.Names.{name_byte};
ghost use Rattle.words.specs.Texts.{constant_of, sign as sign_of, word_of};

use crate::named::{Named, place_of};
use crate::naming::{is_name, is_name_byte};
use crate::word::{Connective, Leaf, Word};
use parts::Unary;

/// A text has a byte that is in no word.
#[derive(Clone, Copy, PartialEq, Eq, Debug)]
pub struct ForeignByte;

/// The word that a character is by itself.
pub(crate) fn sign(c: char) -> Option<Word>
    ensures { result ≡ sign_of c }
{
    match c {
        '!' => Some(Word::Prefix(Unary::Not)),
        'X' => Some(Word::Prefix(Unary::Next)),
        'F' => Some(Word::Prefix(Unary::Finally)),
        'G' => Some(Word::Prefix(Unary::Globally)),
        '|' => Some(Word::Infix(Connective::Or)),
        '&' => Some(Word::Infix(Connective::And)),
        'U' => Some(Word::Infix(Connective::Until)),
        '(' => Some(Word::Open),
        ')' => Some(Word::Close),
        _ => None,
    }
}

/// How many name bytes a text begins with.
pub(crate) fn run_len(text: &[u8]) -> usize
    ensures value { result ≡ prefix_len name_byte text.now }
    ensures bound { result ≤ length text.now }
{
    text.iter().take_while(|b| is_name_byte(**b)).count()
}

/// The constant that a run of name bytes is.
fn constant(run: &[u8]) -> Option<bool>
    ensures { result ≡ constant_of run.now }
{
    match run {
        b"true" => Some(true),
        b"false" => Some(false),
        _ => None,
    }
}

/// The word that a run of name bytes is.
pub(crate) fn word<T: Named>(run: &[u8], signals: &[T]) -> Word
    requires { length signals.now ≤ 32 }
    ensures { result ≡ word_of (map T.Named.label signals.now) run.now }
{
    if let Some(value) = constant(run) {
        return Word::Atom(Leaf::Const(value));
    }
    if !is_name(run) {
        return Word::Stray;
    }
    let place = place_of(run, signals).unwrap_or(signals.len());
    Word::Atom(Leaf::Signal(place as u8))
}
