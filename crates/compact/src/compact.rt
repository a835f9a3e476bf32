//! One formula, in memory of its own.
ghost use Rattle.std.specs.Prelude.{◌≡◌, ◌<◌, ◌≤◌, true, length};
ghost use Rattle.temporal.specs.Parts.{parts, final, alike};
ghost use Rattle.parts.specs.Places.{formulas};
ghost use Rattle.parts.specs.Tables.{parts_of};

use crate::earliest::earliest_ticks;
use crate::numbering::Numbering;
use crate::workspace::Workspace;
use parts::{Part, Table};
use progression::{Closing, Known, Rewrite, Row};
use std::alloc::{AllocError, Global};

/// How many parts a formula may have.
pub const MOST: usize = 256;

/// A table whose parts in use are those of one formula, at most 256, in the order of the walk, so that the formula is the last.
#[derive(Drop)]
pub struct Compact {
    pub table: Table,
    ghost some: { 0 < length (parts_of table) },
    ghost few: { length (parts_of table) ≤ 256 },
    ghost walked: { alike (formulas (parts_of table)) (parts (final (formulas (parts_of table)))) ≡ true },
}

/// A formula would have more parts than it may.
#[derive(Clone, Copy, PartialEq, Eq, Debug)]
pub struct TooMany;

impl Compact {
    ghost use Rattle.std.specs.Prelude.{◌+◌, IfOk, slice_index_or};
    ghost use Rattle.temporal.specs.Formula.{never};
    ghost use Rattle.temporal.specs.Earliest.{earliest};
    ghost use Rattle.temporal.specs.Progress.{step, close};
    ghost use Rattle.parts.specs.Places.{blank, formula};
    ghost use Rattle.progression.specs.Readings.{assigned, closed_by};
    ghost use Rattle.compact.specs.Compacts.{Became, compact_parts, constant, formula_of};

    /// The formula `false`; all the memory is taken here.
    pub fn new(heap: Global) -> Result<Compact, AllocError>
        ensures { IfOk result (λ c. formula_of c ≡ never) }
    {
        let mut table = Table::new(heap)?;
        table.constant(false).unwrap();
        Ok(Compact { table })
    }

    /// How many parts it has: at least one, and no more than it may.
    pub fn count(&self) -> usize
        ensures parts { result ≡ length (parts (formula_of self.now)) }
        ensures places { result ≡ length (compact_parts self.now) }
        ensures some { 0 < result }
        ensures few { result ≤ 256 }
    {
        self.table.used()
    }

    /// The parts: operands stand before their users, the formula last.
    pub fn parts(&self) -> &[Part]
        ensures { result.now ≡ compact_parts self.now }
    {
        self.table.parts()
    }

    /// The part at a place.
    pub fn part(&self, at: u16) -> Part
        requires { at < length (compact_parts self.now) }
        ensures { result ≡ slice_index_or (compact_parts self.now) at blank }
    {
        self.table.part(at)
    }

    /// The place of the formula.
    fn top(&self) -> u16
        ensures { result + 1 ≡ length (compact_parts self.now) }
    {
        (self.table.used() - 1) as u16
    }

    /// The constant that it is, if it is one.
    pub fn value(&self) -> Option<bool>
        ensures { result ≡ constant (formula_of self.now) }
    {
        match self.table.part(self.top()) {
            Part::Const(value) => Some(value),
            _ => None,
        }
    }

    /// Becomes the formula that was numbered.
    pub fn become_numbered(&mut self, numbering: &mut Numbering) -> Result<(), TooMany>
        requires { formulas (parts_of numbering.old.out) ≡ parts (final (formulas (parts_of numbering.old.out))) }
        ensures { Became self.old self.new (final (formulas (parts_of numbering.old.out))) result }
    {
        if numbering.out.used() > MOST {
            return Err(TooMany);
        }
        self.table.adopt(&mut numbering.out);
        Ok(())
    }

    /// Becomes what the rewriting makes of it.
    fn rewrite<R: Rewrite>(&mut self, by: &R, space: &mut Workspace) -> Result<(), TooMany>
        ensures { Became self.old self.new (R.to by.now (formula_of self.old)) result }
    {
        let n = self.table.used();
        space.write_image(&mut self.table, by);
        self.table.cut(n);
        self.become_numbered(&mut space.numbering)
    }

    /// Becomes the formula at a place of a table.
    pub fn become_part(
        &mut self,
        table: &Table,
        at: u16,
        space: &mut Workspace,
    ) -> Result<(), TooMany>
        requires { at < length (parts_of table.now) }
        ensures { Became self.old self.new (formula (parts_of table.now) at) result }
    {
        space.numbering.number(table, at);
        self.become_numbered(&mut space.numbering)
    }

    /// Becomes what another is.
    // No `Clone`: all its memory was taken when it was made.
    pub fn copy(&mut self, other: &Compact, space: &mut Workspace)
        ensures { formula_of self.new ≡ formula_of other.now }
    {
        self.become_part(&other.table, other.top(), space).unwrap();
    }

    /// One step of progression at the row's tick, by what the row knows; signals that it does not know stay as open readings.
    pub fn step(&mut self, row: &Row<'_>, space: &mut Workspace) -> Result<(), TooMany>
        ensures { Became self.old self.new (step (assigned row.now.tick row.now.signals.now) (formula_of self.old)) result }
    {
        self.rewrite(row, space)
    }

    /// Closes the open readings that are known.
    pub fn close<K: Known>(&mut self, known: &K, space: &mut Workspace) -> Result<(), TooMany>
        ensures { Became self.old self.new (close (closed_by (K.Known.known known.now)) (formula_of self.old)) result }
    {
        self.rewrite(&Closing { known }, space)
    }

    /// The earliest open tick.
    pub fn earliest_open(&self, space: &mut Workspace) -> Option<u32>
        ensures { result ≡ earliest (formula_of self.now) }
    {
        earliest_ticks(self.table.parts(), &mut space.ticks);
        space.ticks[self.top() as usize]
    }
}
