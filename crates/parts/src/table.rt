//! A table of interned parts.
ghost use Rattle.std.specs.Prelude.{◌≡◌, ◌+◌, ◌≤◌, vec_len};
ghost use Rattle.parts.specs.Places.{in_use, room, OperandsFirst, NoneTwice, AllShort};

use crate::lent::{Lent, ROOM};
use crate::part::{Binary, Part, Unary};
use crate::shape::Shape;
use std::alloc::{AllocError, Global};

/// The parts in use are the first `used` places: operands before their users, no formula twice, every formula shortened.
/// There is room for 768, and one spare place behind them.
// The count stands beside the places, and not in a shorter `Vec`: a guard is to hold it borrowed while parts are made.
#[derive(Drop)]
pub struct Table {
    pub places: Vec<Part>,
    pub used: usize,
    ghost long: { vec_len places ≡ room + 1 },
    ghost fits: { used ≤ room },
    ghost ordered: { OperandsFirst (in_use used places) },
    ghost once: { NoneTwice (in_use used places) },
    ghost short: { AllShort (in_use used places) },
}

impl Table {
    ghost use Rattle.std.specs.Prelude.{◌<◌, [], ◌∷◌, ◌++◌, length, take, IfOk, slice_index_or};
    ghost use Rattle.temporal.specs.Formula.Formula.{const, signal as signal_of, reading};
    ghost use Rattle.parts.specs.Places.{Interned, Sound, blank, formula, leaf, oneˢ, reach, twoˢ};
    ghost use Rattle.parts.specs.Tables.{parts_of};

    /// An empty table; all its memory is taken here.
    pub fn new(heap: Global) -> Result<Table, AllocError>
        ensures { IfOk result (λ t. parts_of t ≡ []) }
    {
        let places = vec![in heap; Part::Const(false); ROOM + 1]?;
        Ok(Table { places, used: 0 })
    }

    /// How many parts are in use.
    pub fn used(&self) -> usize
        ensures { result ≡ length (parts_of self.now) }
    {
        self.used
    }

    /// The parts, operands before their users.
    pub fn parts(&self) -> &[Part]
        ensures { result.now ≡ parts_of self.now }
    {
        &self.places[0..self.used]
    }

    /// The part at a place.
    pub fn part(&self, at: u16) -> Part
        requires { at < length (parts_of self.now) }
        ensures { result ≡ slice_index_or (parts_of self.now) at blank }
    {
        self.places[at as usize]
    }

    /// The place of a part without operands; `None` where there is no room for it.
    fn leaf(&mut self, part: Part) -> Option<u16>
        requires { reach part ≡ 0 }
        ensures { Interned (parts_of self.old) (parts_of self.new) (leaf part) result }
    {
        let mut lent = Lent {
            places: &mut self.places,
            used: &mut self.used,
        };
        lent.intern(Shape::Is(part))
    }

    /// The place of a constant; `None` where there is no room for it.
    pub fn constant(&mut self, value: bool) -> Option<u16>
        ensures { Interned (parts_of self.old) (parts_of self.new) (const value) result }
    {
        self.leaf(Part::Const(value))
    }

    /// The place of a signal; `None` where there is no room for it.
    pub fn signal(&mut self, p: u8) -> Option<u16>
        ensures { Interned (parts_of self.old) (parts_of self.new) (signal_of p) result }
    {
        self.leaf(Part::Signal(p))
    }

    /// The place of the open reading of a signal at a tick; `None` where there is no room for it.
    pub fn open(&mut self, p: u8, tick: u32) -> Option<u16>
        ensures { Interned (parts_of self.old) (parts_of self.new) (reading p tick) result }
    {
        self.leaf(Part::Open(p, tick))
    }

    /// The place of not, X, F or G over the part at `x`, shortened; `None` where there is no room for it.
    pub fn unary(&mut self, sign: Unary, x: u16) -> Option<u16>
        requires { x < length (parts_of self.old) }
        ensures { Interned (parts_of self.old) (parts_of self.new) (oneˢ sign (formula (parts_of self.old) x)) result }
    {
        let mut lent = Lent {
            places: &mut self.places,
            used: &mut self.used,
        };
        lent.unary(sign, x)
    }

    /// The place of and, or or U over the parts at `x` and `y`, shortened; `None` where there is no room for it.
    pub fn binary(&mut self, sign: Binary, x: u16, y: u16) -> Option<u16>
        requires x { x < length (parts_of self.old) }
        requires y { y < length (parts_of self.old) }
        ensures { Interned (parts_of self.old) (parts_of self.new) (twoˢ sign (formula (parts_of self.old) x) (formula (parts_of self.old) y)) result }
    {
        let mut lent = Lent {
            places: &mut self.places,
            used: &mut self.used,
        };
        lent.binary(sign, x, y)
    }

    /// Writes a part behind the others, where its formula is new; answers its place.
    pub fn push(&mut self, part: Part) -> u16
        requires room { length (parts_of self.old) < room }
        requires sound { Sound (parts_of self.old ++ part ∷ []) }
        ensures place { result ≡ length (parts_of self.old) }
        ensures parts { parts_of self.new ≡ parts_of self.old ++ part ∷ [] }
    {
        let at = self.used;
        self.places[at] = part;
        self.used = at + 1;
        at as u16
    }

    /// Takes what another table has for its own, and leaves it its own.
    pub fn adopt(&mut self, other: &mut Table)
        ensures this { self.new ≡ other.old }
        ensures other { other.new ≡ self.old }
    {
        std::mem::swap(self, other);
    }

    /// Back to the first `n` parts.
    pub fn cut(&mut self, n: usize)
        requires { n ≤ length (parts_of self.old) }
        ensures { parts_of self.new ≡ take n (parts_of self.old) }
    {
        self.used = n;
    }
}
