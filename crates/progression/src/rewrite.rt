//! Rewritings that go part by part: one step, and the closing of open readings.
ghost use Rattle.std.specs.Prelude.{◌≡◌, ◌+◌, ◌<◌, ◌≤◌, length};
ghost use Rattle.temporal.specs.Formula.{Formula};
ghost use Rattle.parts.specs.Places.{Made, formula, room};
ghost use Rattle.parts.specs.Tables.{SameLoan, parts_in};
ghost use Rattle.progression.specs.Passes.{Imaged, stepped_one, stepped_two};
ghost use Rattle.temporal.specs.Progress.{step, close};
ghost use Rattle.progression.specs.Readings.{assigned, closed_by};

use crate::reading::{Known, Row};
use parts::{Binary, Junction, Lent, Part, Unary};

/// What it makes of a formula depends on its top part and on what it makes of the operands.
pub trait Rewrite {
    ghost to: { Self → Formula → Formula };

    /// The place of what it makes of the part at `at`, where `images` has the places of what it made of the parts before.
    fn image(&self, lent: &mut Lent<'_>, at: u16, images: &[u16]) -> u16
        requires room { length (parts_in lent.old) + 2 ≤ room }
        requires inside { at < length (parts_in lent.old) }
        requires before { at ≤ length images.now }
        requires imaged { Imaged (to self.now) (parts_in lent.old) images.now at }
        ensures loan { SameLoan lent.old lent.new }
        ensures made { Made 2 (parts_in lent.old) (parts_in lent.new) (to self.now (formula (parts_in lent.old) at)) result };
}

/// A step of not, X, F or G: of the part at `at`, whose operand at `a` became the part at `x`.
fn step_unary(lent: &mut Lent<'_>, sign: Unary, at: u16, a: u16, x: u16) -> u16
    requires room { length (parts_in lent.old) < room }
    requires inside { (at < length (parts_in lent.old)) × ((a < length (parts_in lent.old)) × (x < length (parts_in lent.old))) }
    ensures loan { SameLoan lent.old lent.new }
    ensures made { Made 1 (parts_in lent.old) (parts_in lent.new) (stepped_one sign (formula (parts_in lent.old) at) (formula (parts_in lent.old) a) (formula (parts_in lent.old) x)) result }
{
    match sign {
        Unary::Not => lent.put_unary(Unary::Not, x),
        Unary::Next => a,
        Unary::Finally => lent.put_binary(Binary::Join(Junction::Or), x, at),
        Unary::Globally => lent.put_binary(Binary::Join(Junction::And), x, at),
    }
}

/// A step of and, or or U: of the part at `at`, whose operands became the parts at `x` and `y`.
fn step_binary(lent: &mut Lent<'_>, sign: Binary, at: u16, x: u16, y: u16) -> u16
    requires room { length (parts_in lent.old) + 2 ≤ room }
    requires inside { (at < length (parts_in lent.old)) × ((x < length (parts_in lent.old)) × (y < length (parts_in lent.old))) }
    ensures loan { SameLoan lent.old lent.new }
    ensures made { Made 2 (parts_in lent.old) (parts_in lent.new) (stepped_two sign (formula (parts_in lent.old) at) (formula (parts_in lent.old) x) (formula (parts_in lent.old) y)) result }
{
    match sign {
        Binary::Join(_) => lent.put_binary(sign, x, y),
        Binary::Until => {
            let z = lent.put_binary(Binary::Join(Junction::And), x, at);
            lent.put_binary(Binary::Join(Junction::Or), y, z)
        }
    }
}

/// One step at a row's tick.
impl Rewrite for Row<'_> {
    ghost to = { λ r f. step (assigned r.tick r.signals.now) f };

    fn image(&self, lent: &mut Lent<'_>, at: u16, images: &[u16]) -> u16 {
        match lent.part(at) {
            Part::Const(_) | Part::Open(_, _) => at,
            Part::Signal(p) => match self.at(p) {
                Some(value) => lent.put_leaf(Part::Const(value)),
                None => lent.put_leaf(Part::Open(p, self.tick)),
            },
            Part::One(sign, a) => step_unary(lent, sign, at, a, images[a as usize]),
            Part::Two(sign, a, b) => {
                let x = images[a as usize];
                let y = images[b as usize];
                step_binary(lent, sign, at, x, y)
            }
        }
    }
}

/// Closing open readings by what is known.
#[derive(Drop)]
pub struct Closing<'a, K> {
    pub known: &'a K,
}

impl<K: Known> Rewrite for Closing<'_, K> {
    ghost to = { λ s f. close (closed_by (K.Known.known s.known.now)) f };

    fn image(&self, lent: &mut Lent<'_>, at: u16, images: &[u16]) -> u16 {
        match lent.part(at) {
            Part::Const(_) | Part::Signal(_) => at,
            Part::Open(p, tick) => match self.known.look_up(p, tick) {
                Some(value) => lent.put_leaf(Part::Const(value)),
                None => at,
            },
            Part::One(sign, a) => match sign {
                Unary::Not => lent.put_unary(Unary::Not, images[a as usize]),
                _ => at,
            },
            Part::Two(sign, a, b) => match sign {
                Binary::Join(_) => lent.put_binary(sign, images[a as usize], images[b as usize]),
                Binary::Until => at,
            },
        }
    }
}
