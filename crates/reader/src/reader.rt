//! A reader of rules.
ghost use Rattle.std.specs.Prelude.{◌≡◌, ◌≤◌, [], length, IfOk, vec_capacity};
ghost use Rattle.parts.specs.Tables.{parts_of};
ghost use Rattle.reader.specs.Answers.{Answers};
ghost use Rattle.reader.specs.Waiting.{load, reach};

use crate::frame::Frame;
use crate::misplaced::Misplaced;
use crate::progress::Progress;
use parts::Table;
use std::alloc::{AllocError, Global};
use words::{MOST_WORDS, Word};

/// The memory in which rules are read: the parts that were made, and room for what waits for its operand in 200 words.
#[derive(Drop)]
pub struct Reader {
    pub table: Table,
    pub(crate) frames: Vec<Frame>,
    ghost room: { 200 ≤ vec_capacity frames },
}

impl Reader {
    /// A reader; all its memory is taken here.
    pub fn new(heap: Global) -> Result<Reader, AllocError>
        ensures empty { IfOk result (λ reader. parts_of reader.table ≡ []) }
        ensures none_waits { IfOk result (λ reader. reader.frames.items ≡ []) }
    {
        let table = Table::new(heap)?;
        let frames = Vec::with_capacity(heap, MOST_WORDS)?;
        Ok(Reader { table, frames })
    }

    /// The parts that were made.
    pub fn table(&self) -> &Table
        ensures { result.now ≡ self.now.table }
    {
        &self.table
    }

    /// Reads the words of a rule: the place of its formula, shortened, in the table; or the first word at fault. Either way at
    /// most 400 parts were made, and every place that waits is one of the table's.
    pub fn read(&mut self, words: &[Word]) -> Result<u16, Misplaced>
        requires { length words.now ≤ 200 }
        ensures answers { Answers words.now (parts_of self.new.table) result }
        ensures few { load (parts_of self.new.table) self.new.frames.items ≤ 400 }
        ensures waiting_inside { reach self.new.frames.items ≤ length (parts_of self.new.table) }
    {
        self.table.cut(0);
        self.frames.clear();
        let mut progress = Progress {
            table: &mut self.table,
            frames: &mut self.frames,
            held: None,
        };
        progress.read(words)
    }
}

#[cfg(test)]
mod tests {
    use super::*;
    use parts::{Part, Unary};
    use words::Leaf;

    /// What stands at the place of the words' formula, if they are a rule.
    fn read(reader: &mut Reader, words: &[Word]) -> Option<Part>
        requires { length words.now ≤ 200 }
    {
        let top = reader.read(words).ok()?;
        Some(reader.table().part(top))
    }

    /// One reader reads rules of up to 200 words, and what is none, one after another.
    #[test]
    fn reads_in_turn(rt: HostRuntime) -> Result<(), AllocError> {
        let mut reader = Reader::new(rt.alloc())?;
        assert_eq!(rt; reader.table().used(), 0);
        let mut words = [Word::Prefix(Unary::Not); 200];
        assert_eq!(rt; reader.read(&words), Err(Misplaced { word: 200 }));
        words[199] = Word::Atom(Leaf::Signal(3));
        let top = read(&mut reader, &words);
        assert!(rt; matches!(top, Some(Part::One(Unary::Not, _))));
        assert_eq!(rt; reader.table().used(), 200);
        words[100] = Word::Close;
        assert_eq!(rt; reader.read(&words), Err(Misplaced { word: 100 }));
        assert_eq!(rt; read(&mut reader, &words[199..]), Some(Part::Signal(3)));
        assert_eq!(rt; reader.table().used(), 1);
        Ok(())
    }
}
