//! Reads a tick line.
ghost use Rattle.std.specs.Prelude.{◌≡◌, map, length, reverse};
ghost use Rattle.std.specs.List.{filter, fold};
ghost use Rattle.roster.specs.Rosters.{owned};
ghost use Rattle.listing.specs.Ticks.{each_fits, groups, is_group as is_a_group, is_no_space, owned_by, with_digit};

use roster::Signal;

/// How many groups a line has.
pub(crate) fn count_groups(line: &[u8]) -> usize
    ensures { result ≡ length (groups line.now) }
{
    // No `split`: it would stop at each space, also of a line that has far too many.
    line.iter().filter(|b| **b == b' ').count() + 1
}

/// How many signals a post owns.
fn count_owned(signals: &[Signal], post: usize) -> usize
    ensures { result ≡ owned_by post (map owned signals.now) }
{
    signals
        .iter()
        .filter(|signal| usize::from(signal.owner) == post)
        .count()
}

/// Whether a group has exactly so many digits, and no other byte.
fn is_group(group: &[u8], digits: usize) -> bool
    ensures { result ≡ is_a_group digits group.now }
{
    group.len() == digits && group.iter().all(|b| *b == b'0' || *b == b'1')
}

/// Whether each group has one digit for each signal of its post.
pub(crate) fn do_groups_fit(line: &[u8], signals: &[Signal]) -> bool
    ensures { result ≡ each_fits (map owned signals.now) 1 (groups line.now) }
{
    (1..).zip(line.split(|b| *b == b' ')).all(|(post, group)| is_group(
        group,
        count_owned(signals, post),
    ))
}

/// The whole reading of a line: each digit, from the last on, moves those behind it up by one bit and becomes bit 0.
pub(crate) fn whole_reading(line: &[u8]) -> u32
    ensures { result ≡ fold with_digit 0 (filter is_no_space (reverse line.now)) }
{
    line.iter()
        .rev()
        .filter(|b| **b != b' ')
        .fold(0, |reading, b| (reading << 1) | u32::from(*b == b'1'))
}
