//! A rule while it is read.
ghost use Rattle.std.specs.Prelude.{◌≤◌, List, length};
ghost use Rattle.parts.specs.Tables.{parts_of};
ghost use Rattle.reader.specs.Waiting.{load, reach};
ghost use Rattle.words.specs.Lists.{Holds};
ghost use Rattle.words.specs.declared.word.Word.{Word};
ghost use Rattle.sheet.specs.Rulings.{Ruled, Worded};

use compact::Workspace;
use reader::{Reader, unknown};
use roster::{Place, RuleFault, WordFault};
use rule::Rule;
use std::alloc::{AllocError, Global};
use words::{MOST_WORDS, Word, WordList};

/// The words of a rule, with the memory in which they are read: few parts were made, and every place that waits is one of the
/// reader's table.
#[derive(Drop)]
pub struct RuleReader {
    pub(crate) words: WordList,
    pub(crate) reader: Reader,
    pub(crate) space: Workspace,
    ghost few: { load (parts_of reader.table) reader.frames.items ≤ 400 },
    ghost waiting_inside: { reach reader.frames.items ≤ length (parts_of reader.table) },
}

/// The place of the words' formula in the reader's table.
fn read_words(
    reader: &mut Reader,
    words: &[Word],
    signals: u8,
    line: usize,
) -> Result<u16, WordFault>
    requires { length words.now ≤ 200 }
    ensures worded { Worded words.now signals line (parts_of reader.new.table) result }
    ensures few { load (parts_of reader.new.table) reader.new.frames.items ≤ 400 }
    ensures waiting_inside { reach reader.new.frames.items ≤ length (parts_of reader.new.table) }
{
    let top = reader.read(words).map_err(|fault| {
        let word = fault.word + 1;
        WordFault::Misplaced(Place { line, word })
    })?;
    if let Some(at) = unknown(words, signals) {
        let word = at + 1;
        return Err(WordFault::Unknown(Place { line, word }));
    }
    Ok(top)
}

impl RuleReader {
    /// A reader of rules; all its memory is taken here.
    pub(crate) fn new(heap: Global) -> Result<RuleReader, AllocError> {
        let words = WordList::new(heap)?;
        let reader = Reader::new(heap)?;
        let space = Workspace::new(heap)?;
        Ok(RuleReader {
            words,
            reader,
            space,
        })
    }

    /// Makes `rule` the one that the words are.
    pub(crate) fn read(
        &mut self,
        rule: &mut Rule,
        signals: u8,
        line: usize,
    ) -> Result<(), RuleFault>
        requires { signals ≤ 32 }
        ensures { (ws : List Word) → Holds ws self.old.words → Ruled ws signals line rule.new result }
    {
        if self.words.count() > MOST_WORDS {
            return Err(RuleFault::Long(line));
        }
        let top = read_words(&mut self.reader, self.words.as_slice(), signals, line)?;
        // every name is a signal, so that it can only have too many parts
        rule.become_part(self.reader.table(), top, signals, &mut self.space)
            .map_err(|_| RuleFault::Large(line))
    }
}
