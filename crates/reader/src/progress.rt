//! A rule while it is read.
ghost use Rattle.std.specs.Prelude.{◌<◌, ◌≤◌, length, vec_capacity};
ghost use Rattle.std.specs.Option.{ForSome};
ghost use Rattle.parts.specs.Tables.{parts_of};
ghost use Rattle.reader.specs.Waiting.{load, reach};

use crate::building::{level, put_connective, put_leaf};
use crate::frame::Frame;
use crate::misplaced::Misplaced;
use parts::Table;
use words::Word;

/// What was read of a rule, in the memory of a reader: the parts made so far, what waits for its operand, and the place of the
/// formula just read, or `None` where an operand is wanted. There is room for what waits in 200 words; every place is one of
/// the table's.
// Each function that takes it as `&mut` says that what is lent stays the same (`SameMemory`): the reader is told so by that alone.
#[derive(Drop)]
pub(crate) struct Progress<'a> {
    pub(crate) table: &'a mut Table,
    pub(crate) frames: &'a mut Vec<Frame>,
    pub(crate) held: Option<u16>,
    ghost room: { 200 ≤ vec_capacity frames.now },
    ghost waiting_inside: { reach frames.now.items ≤ length (parts_of table.now) },
    ghost held_inside: { ForSome held (λ i. i < length (parts_of table.now)) },
    ghost few: { load (parts_of table.now) frames.now.items ≤ 400 },
}

impl Progress<'_> {
    ghost use Rattle.std.specs.Prelude.{◌≡◌, []};
    ghost use Rattle.grammar.specs.Machine.{want};
    ghost use Rattle.reader.specs.Answers.{Answers};
    ghost use Rattle.reader.specs.Steps.{Ends, Reduces, SameMemory, Takes, load_of, state};

    /// Lets what waits take its operand, at first `start`, from level `bound` on and back to the last open bracket; answers
    /// the place of what was made last.
    fn reduce(&mut self, bound: u8, start: u16) -> u16
        requires { start < length (parts_of self.old.table.now) }
        ensures memory { SameMemory self.old self.new }
        ensures reduced { Reduces bound self.old start self.new result }
    {
        let mut x = start;
        while let Some(frame) = self.frames.pop() {
            match frame {
                Frame::Before(sign) => {
                    x = self.table.unary(sign, x).unwrap();
                }
                Frame::Between(by, left) => {
                    if level(by) < bound {
                        self.frames.push_reserved(frame);
                        return x;
                    }
                    x = put_connective(self.table, by, left, x);
                }
                Frame::Bracket => {
                    self.frames.push_reserved(frame);
                    return x;
                }
            }
        }
        x
    }

    /// Takes the next word, if it can stand there.
    fn take(&mut self, word: Word) -> Option<()>
        requires { load_of self.old ≤ 398 }
        ensures memory { SameMemory self.old self.new }
        ensures takes { Takes word self.old self.new result }
    {
        match (self.held, word) {
            (None, Word::Atom(leaf)) => {
                self.held = Some(put_leaf(self.table, leaf));
                Some(())
            }
            (None, Word::Prefix(sign)) => {
                self.frames.push_reserved(Frame::Before(sign));
                Some(())
            }
            (None, Word::Open) => {
                self.frames.push_reserved(Frame::Bracket);
                Some(())
            }
            (Some(x), Word::Infix(by)) => {
                let left = self.reduce(level(by) + 1, x);
                self.frames.push_reserved(Frame::Between(by, left));
                self.held = None;
                Some(())
            }
            (Some(x), Word::Close) => {
                self.held = Some(self.reduce(0, x));
                let Some(Frame::Bracket) = self.frames.pop() else {
                    return None;
                };
                Some(())
            }
            _ => None,
        }
    }

    /// The place of the formula, if the rule may end here.
    fn finish(&mut self) -> Option<u16>
        ensures memory { SameMemory self.old self.new }
        ensures ends { Ends self.old (parts_of self.new.table.now) result }
    {
        let x = self.held?;
        let top = self.reduce(0, x);
        self.frames.is_empty().then_some(top)
    }

    /// Reads the words of a rule: the place of its formula, shortened, in the table; or the first word at fault.
    pub(crate) fn read(&mut self, words: &[Word]) -> Result<u16, Misplaced>
        requires long { length words.now ≤ 200 }
        requires starts { state self.old ≡ want [] }
        requires empty { load_of self.old ≡ 0 }
        ensures memory { SameMemory self.old self.new }
        ensures answers { Answers words.now (parts_of self.new.table.now) result }
    {
        for (i, word) in words.iter().enumerate() {
            self.take(*word).ok_or(Misplaced { word: i })?;
        }
        self.finish().ok_or(Misplaced { word: words.len() })
    }
}
