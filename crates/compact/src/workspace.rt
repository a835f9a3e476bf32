//! The memory of a rewriting.
ghost use Rattle.std.specs.Prelude.{◌≡◌, vec_len};

use crate::compact::MOST;
use crate::numbering::Numbering;
use parts::{Lent, Table};
use progression::{Rewrite, rewrite_all};
use std::alloc::{AllocError, Global};

/// For each part of a formula the place of what became of it, and its earliest open tick; and what became of the formula, its
/// parts in the walk's order. What a call finds in it is of no account; of what it leaves there only the lengths are promised.
#[derive(Drop)]
pub struct Workspace {
    pub images: Vec<u16>,
    pub ticks: Vec<Option<u32>>,
    pub numbering: Numbering,
    ghost images_long: { vec_len images ≡ 256 },
    ghost ticks_long: { vec_len ticks ≡ 256 },
}

impl Workspace {
    ghost use Rattle.std.specs.Prelude.{◌+◌, ◌*◌, ◌<◌, ◌≤◌, [], length, IfOk};
    ghost use Rattle.temporal.specs.Parts.{parts, final};
    ghost use Rattle.parts.specs.Places.{room, formulas, Grown};
    ghost use Rattle.parts.specs.Tables.{parts_of};

    /// All the memory is taken here, for formulas of 256 parts and what one step makes of them.
    pub fn new(heap: Global) -> Result<Workspace, AllocError>
        ensures empty { IfOk result (λ w. parts_of w.numbering.out ≡ []) }
        ensures lengths { IfOk result (λ w. (vec_len w.images ≡ 256) × (vec_len w.ticks ≡ 256) × (vec_len w.numbering.numbers ≡ room) × (vec_len w.numbering.out.places ≡ room + 1)) }
    {
        let images = vec![in heap; 0; MOST]?;
        let ticks = vec![in heap; None; MOST]?;
        let numbering = Numbering::new(heap)?;
        Ok(Workspace {
            images,
            ticks,
            numbering,
        })
    }

    /// Makes what the rewriting makes of a table's last part, and writes its parts in the walk's order.
    pub(crate) fn write_image<R: Rewrite>(&mut self, table: &mut Table, by: &R)
        requires some { 0 < length (parts_of table.old) }
        requires few { length (parts_of table.old) ≤ 256 }
        ensures grown { Grown (2 * length (parts_of table.old)) (parts_of table.old) (parts_of table.new) }
        ensures walked { formulas (parts_of self.new.numbering.out) ≡ parts (R.to by.now (final (formulas (parts_of table.old)))) }
    {
        let n = table.used;
        let mut lent = Lent {
            places: &mut table.places,
            used: &mut table.used,
        };
        rewrite_all(&mut lent, by, &mut self.images);
        let top = self.images[n - 1];
        self.numbering.number(table, top);
    }
}
