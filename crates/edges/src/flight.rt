//! The readings that are given to a monitor.
use monitor::{Hold, Monitor};

/// Gives the same reading so many times, or until it is held back; answers how often it was accepted, and the hold.
pub(crate) fn repeat(monitor: &mut Monitor, reading: u32, times: u32) -> (u32, Option<Hold>) {
    for accepted in 0..times {
        if let Err(hold) = monitor.step(reading) {
            return (accepted, Some(hold));
        }
    }
    (times, None)
}
