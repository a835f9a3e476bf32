//! The earliest open tick.
ghost use Rattle.std.specs.Prelude.{◌≡◌, ◌≤◌, length, take};
ghost use Rattle.temporal.specs.Earliest.{earlier};
ghost use Rattle.parts.specs.Places.{Sound, reach};
ghost use Rattle.compact.specs.Ticks.{Ticked, tick_in};

use parts::Part;

/// The earlier of two ticks, each of which may be missing.
pub fn earlier_of(a: Option<u32>, b: Option<u32>) -> Option<u32>
    ensures { result ≡ earlier a b }
{
    match (a, b) {
        (Some(x), Some(y)) => Some(x.min(y)),
        _ => a.or(b),
    }
}

/// The earliest open tick of a part, where `ticks` has those of its operands.
fn tick_of(part: Part, ticks: &[Option<u32>]) -> Option<u32>
    requires { reach part ≤ length ticks.now }
    ensures { result ≡ tick_in ticks.now part }
{
    match part {
        Part::Const(_) | Part::Signal(_) => None,
        Part::Open(_, tick) => Some(tick),
        Part::One(_, a) => ticks[a as usize],
        Part::Two(_, a, b) => earlier_of(ticks[a as usize], ticks[b as usize]),
    }
}

/// The earliest open ticks of all parts.
// By their places, as the images of a pass: any memory will do that is long enough.
pub(crate) fn earliest_ticks(parts: &[Part], ticks: &mut [Option<u32>])
    requires sound { Sound parts.now }
    requires room { length parts.now ≤ length ticks.old }
    ensures { Ticked parts.now (take (length parts.now) ticks.new) }
{
    for (at, part) in parts.iter().enumerate() {
        ticks[at] = tick_of(*part, &ticks[..at]);
    }
}
