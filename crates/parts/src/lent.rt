//! A table's places and their count, lent apart for making parts.
ghost use Rattle.std.specs.Prelude.{◌≡◌, ◌+◌, ◌<◌, ◌≤◌, length, vec_len};
ghost use Rattle.parts.specs.Places.{in_use, room, AllShort, NoneTwice, OperandsFirst};

use crate::part::{Binary, Junction, Part, Unary};
use crate::shape::Shape;

/// How many parts may be in use.
pub const ROOM: usize = 768;

/// Of the places the first `used` are in use. The two are lent apart, since a guard may hold the count while parts are made.
// Each function that takes it as `&mut` says that what is lent stays the same (`SameLoan`): the lender is told so by that alone.
#[derive(Drop)]
pub struct Lent<'a> {
    pub places: &'a mut Vec<Part>,
    pub used: &'a mut usize,
    ghost long: { vec_len places.now ≡ room + 1 },
    ghost fits: { used.now ≤ room },
    ghost ordered: { OperandsFirst (in_use used.now places.now) },
    ghost once: { NoneTwice (in_use used.now places.now) },
    ghost short: { AllShort (in_use used.now places.now) },
}

impl Lent<'_> {
    ghost use Rattle.std.specs.Prelude.{MatchOption, slice_index_or, ◌≢◌, ℕ};
    ghost use Rattle.temporal.specs.Formula.Formula.{const};
    ghost use Rattle.temporal.specs.Shorten.{same, begins};
    ghost use Rattle.parts.specs.Places.{Interned, Made, Shapes, blank, formula, leaf, meant, oneˢ, op, reach, twoˢ};
    ghost use Rattle.parts.specs.Tables.{SameLoan, parts_in};

    /// The part at a place.
    pub fn part(&self, at: u16) -> Part
        requires { at < length (parts_in self.now) }
        ensures { result ≡ slice_index_or (parts_in self.now) at blank }
    {
        self.places[at as usize]
    }

    /// The place of a part, where it has one.
    // Inlined, as `intern` and `put_leaf`: where the kind of the part is known, the search need not tell kinds apart at each place.
    #[inline(always)]
    fn place_of(&self, part: Part) -> Option<u16>
        ensures { MatchOption result ((k : ℕ) → k < length (parts_in self.now) → slice_index_or (parts_in self.now) k blank ≢ part) (λ i. (i < length (parts_in self.now)) × (slice_index_or (parts_in self.now) i blank ≡ part)) }
    {
        let at = self.places[0..*self.used]
            .iter()
            .position(|other| *other == part)?;
        Some(at as u16)
    }

    /// The place of a shape's formula, which is taken where it has none; `None` where there is no room for it.
    #[inline(always)]
    pub(crate) fn intern(&mut self, shape: Shape) -> Option<u16>
        requires { Shapes (parts_in self.old) (meant (parts_in self.old) shape) shape }
        ensures loan { SameLoan self.old self.new }
        ensures interned { Interned (parts_in self.old) (parts_in self.new) (meant (parts_in self.old) shape) result }
    {
        let part = match shape {
            Shape::At(at) => return Some(at),
            Shape::Is(part) => part,
        };
        if let Some(at) = self.place_of(part) {
            return Some(at);
        }
        let n = *self.used;
        if n == ROOM {
            return None;
        }
        self.places[n] = part;
        *self.used = n + 1;
        Some(n as u16)
    }

    /// Whether the part at `x` is a constant.
    fn is_const(&self, x: u16, value: bool) -> bool
        requires { x < length (parts_in self.now) }
        ensures { result ≡ same (formula (parts_in self.now) x) (const value) }
    {
        self.part(x) == Part::Const(value)
    }

    /// Whether the part at `y` is an *and* (or an *or*) that begins with the part at `x`.
    fn is_begun(&self, by: Junction, x: u16, y: u16) -> bool
        requires x { x < length (parts_in self.now) }
        requires y { y < length (parts_in self.now) }
        ensures { result ≡ begins (op by) (formula (parts_in self.now) x) (formula (parts_in self.now) y) }
    {
        let part = self.part(y);
        match part {
            Part::Two(_, _, right) => part == Part::Two(Binary::Join(by), x, right),
            _ => false,
        }
    }

    /// And, or.
    fn join_shape(&self, by: Junction, x: u16, y: u16) -> Shape
        requires x { x < length (parts_in self.now) }
        requires y { y < length (parts_in self.now) }
        ensures { Shapes (parts_in self.now) (twoˢ (Binary.Join by) (formula (parts_in self.now) x) (formula (parts_in self.now) y)) result }
    {
        let unit = by.unit();
        if self.is_const(x, unit) {
            return Shape::At(y);
        }
        if self.is_const(y, unit) {
            return Shape::At(x);
        }
        if self.is_const(x, !unit) {
            return Shape::At(x);
        }
        if self.is_const(y, !unit) {
            return Shape::At(y);
        }
        if x == y {
            return Shape::At(x);
        }
        if self.is_begun(by, x, y) {
            return Shape::At(y);
        }
        Shape::Is(Part::Two(Binary::Join(by), x, y))
    }

    /// Not, X, F, G.
    fn unary_shape(&self, sign: Unary, x: u16) -> Shape
        requires { x < length (parts_in self.now) }
        ensures { Shapes (parts_in self.now) (oneˢ sign (formula (parts_in self.now) x)) result }
    {
        match sign {
            Unary::Not => match self.part(x) {
                Part::Const(value) => Shape::Is(Part::Const(!value)),
                _ => Shape::Is(Part::One(Unary::Not, x)),
            },
            time => Shape::Is(Part::One(time, x)),
        }
    }

    /// And, or, U.
    fn binary_shape(&self, sign: Binary, x: u16, y: u16) -> Shape
        requires x { x < length (parts_in self.now) }
        requires y { y < length (parts_in self.now) }
        ensures { Shapes (parts_in self.now) (twoˢ sign (formula (parts_in self.now) x) (formula (parts_in self.now) y)) result }
    {
        match sign {
            Binary::Join(by) => self.join_shape(by, x, y),
            Binary::Until => Shape::Is(Part::Two(Binary::Until, x, y)),
        }
    }

    /// The place of not, X, F or G over the part at `x`, shortened; `None` where there is no room for it.
    pub(crate) fn unary(&mut self, sign: Unary, x: u16) -> Option<u16>
        requires { x < length (parts_in self.old) }
        ensures loan { SameLoan self.old self.new }
        ensures interned { Interned (parts_in self.old) (parts_in self.new) (oneˢ sign (formula (parts_in self.old) x)) result }
    {
        self.intern(self.unary_shape(sign, x))
    }

    /// The place of and, or or U over the parts at `x` and `y`, shortened; `None` where there is no room for it.
    pub(crate) fn binary(&mut self, sign: Binary, x: u16, y: u16) -> Option<u16>
        requires x { x < length (parts_in self.old) }
        requires y { y < length (parts_in self.old) }
        ensures loan { SameLoan self.old self.new }
        ensures interned { Interned (parts_in self.old) (parts_in self.new) (twoˢ sign (formula (parts_in self.old) x) (formula (parts_in self.old) y)) result }
    {
        self.intern(self.binary_shape(sign, x, y))
    }

    /// The place of a constant, a signal or an open reading, where there is room for one part more.
    #[inline(always)]
    pub fn put_leaf(&mut self, part: Part) -> u16
        requires room { length (parts_in self.old) < room }
        requires leaf { reach part ≡ 0 }
        ensures loan { SameLoan self.old self.new }
        ensures made { Made 1 (parts_in self.old) (parts_in self.new) (leaf part) result }
    {
        self.intern(Shape::Is(part)).unwrap()
    }

    /// The place of a sign over the part at `x`, where there is room for one part more.
    pub fn put_unary(&mut self, sign: Unary, x: u16) -> u16
        requires room { length (parts_in self.old) < room }
        requires x { x < length (parts_in self.old) }
        ensures loan { SameLoan self.old self.new }
        ensures made { Made 1 (parts_in self.old) (parts_in self.new) (oneˢ sign (formula (parts_in self.old) x)) result }
    {
        self.unary(sign, x).unwrap()
    }

    /// The place of a sign over the parts at `x` and `y`, where there is room for one part more.
    pub fn put_binary(&mut self, sign: Binary, x: u16, y: u16) -> u16
        requires room { length (parts_in self.old) < room }
        requires x { x < length (parts_in self.old) }
        requires y { y < length (parts_in self.old) }
        ensures loan { SameLoan self.old self.new }
        ensures made { Made 1 (parts_in self.old) (parts_in self.new) (twoˢ sign (formula (parts_in self.old) x) (formula (parts_in self.old) y)) result }
    {
        self.binary(sign, x, y).unwrap()
    }
}
