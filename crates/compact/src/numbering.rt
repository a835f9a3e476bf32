//! The walk that numbers the parts of a formula.
ghost use Rattle.std.specs.Prelude.{◌≡◌, ◌<◌, ◌≤◌, [], ◌∷◌, ◌++◌, length, Some, slice_set, vec_len};
ghost use Rattle.temporal.specs.Parts.{parts, walk as walked};
ghost use Rattle.parts.specs.Places.{room, formula, formulas, Sound, Stands, Grown};
ghost use Rattle.parts.specs.Tables.{parts_of};
ghost use Rattle.compact.specs.Numbered.{Numbered};

use parts::{Part, Table};
use std::alloc::{AllocError, Global};

/// Writes a part behind the others, as that of the place `at`.
fn write(at: u16, part: Part, numbers: &mut [Option<u16>], out: &mut Table) -> u16
    requires at { at < length numbers.old }
    requires room { length (parts_of out.old) < room }
    requires sound { Sound (parts_of out.old ++ part ∷ []) }
    ensures value { result ≡ length (parts_of out.old) }
    ensures numbers { numbers.new ≡ slice_set numbers.old at (Some result) }
    ensures out { parts_of out.new ≡ parts_of out.old ++ part ∷ [] }
{
    let number = out.push(part);
    numbers[at as usize] = Some(number);
    number
}

/// Writes what the part at `at` needs and is not written yet, left before right, and then the part; answers its number.
fn walk(table: &Table, at: u16, numbers: &mut [Option<u16>], out: &mut Table) -> u16
    requires at { at < length (parts_of table.now) }
    requires numbered { Numbered (parts_of table.now) numbers.old (parts_of out.old) }
    ensures numbered { Numbered (parts_of table.now) numbers.new (parts_of out.new) }
    ensures walked { formulas (parts_of out.new) ≡ walked (formula (parts_of table.now) at) (formulas (parts_of out.old)) }
    ensures stands { Stands (parts_of out.new) (formula (parts_of table.now) at) result }
    ensures grown { Grown room (parts_of out.old) (parts_of out.new) }
{
    if let Some(number) = numbers[at as usize] {
        return number;
    }
    match table.part(at) {
        Part::One(sign, a) => {
            let x = walk(table, a, numbers, out);
            write(at, Part::One(sign, x), numbers, out)
        }
        Part::Two(sign, a, b) => {
            let x = walk(table, a, numbers, out);
            let y = walk(table, b, numbers, out);
            write(at, Part::Two(sign, x, y), numbers, out)
        }
        leaf => write(at, leaf, numbers, out),
    }
}

/// Writes the parts of the formula at a place of a table in the walk's order into a table of the caller's, in place of what was
/// there; answers how many there are. `numbers` is room to work in, whatever it holds.
pub fn number(table: &Table, at: u16, numbers: &mut [Option<u16>], out: &mut Table) -> usize
    requires at { at < length (parts_of table.now) }
    requires numbers { length (parts_of table.now) ≤ length numbers.old }
    ensures count { result ≡ length (parts_of out.new) }
    ensures walked { formulas (parts_of out.new) ≡ parts (formula (parts_of table.now) at) }
{
    numbers[..table.used()].fill(None);
    out.cut(0);
    walk(table, at, numbers, out);
    out.used()
}

/// The parts of a formula in the walk's order, and for each place of the table that they come from its number, once it has one.
#[derive(Drop)]
pub struct Numbering {
    pub numbers: Vec<Option<u16>>,
    pub out: Table,
    ghost long: { vec_len numbers ≡ room },
}

impl Numbering {
    ghost use Rattle.std.specs.Prelude.{IfOk};

    /// Nothing is numbered; all the memory is taken here.
    pub fn new(heap: Global) -> Result<Numbering, AllocError>
        ensures { IfOk result (λ n. parts_of n.out ≡ []) }
    {
        let numbers = vec![in heap; None; parts::ROOM]?;
        let out = Table::new(heap)?;
        Ok(Numbering { numbers, out })
    }

    /// Writes the parts of the formula at a place of a table in the walk's order, in place of what was written before.
    pub fn number(&mut self, table: &Table, at: u16)
        requires { at < length (parts_of table.now) }
        ensures { formulas (parts_of self.new.out) ≡ parts (formula (parts_of table.now) at) }
    {
        number(table, at, &mut self.numbers, &mut self.out);
    }
}
