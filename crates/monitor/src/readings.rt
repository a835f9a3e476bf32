//! Whole readings.
ghost use Rattle.std.specs.Prelude.{◌≡◌, ℕ, ◌^◌, ◌<◌, ◌≤◌, Some, None, nat_le, slice_index_or};
ghost use Rattle.monitor.specs.Monitoring.{bit};

use std::array;

/// Whether a reading has a bit beyond the signals.
pub(crate) fn is_beyond(signals: u8, reading: u32) -> bool
    requires { signals ≤ 32 }
    ensures { result ≡ nat_le (2 ^ signals) reading }
{
    signals < 32 && (reading >> signals) != 0
}

/// What one bit of a reading shows.
fn bit_of(reading: u32, j: usize) -> bool
    requires { j < 32 }
    ensures { result ≡ bit reading j }
{
    (reading >> j) % 2 == 1
}

/// What each bit of a reading shows.
// 32 and not `SIGNALS`: that is a `u8`, and a const argument cannot be computed.
pub(crate) fn row_of(reading: u32) -> [Option<bool>; 32]
    ensures { (k : ℕ) → k < 32 → slice_index_or result k None ≡ Some (bit reading k) }
{
    array::from_fn(|j| Some(bit_of(reading, j)))
}
