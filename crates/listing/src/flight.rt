//! A sheet, its monitor, and the tick lines.
ghost use Rattle.std.specs.Iterator.{YieldsFirst, item_count};
ghost use Rattle.sheet.specs.Sheets.{draft_of};
ghost use Rattle.monitor.specs.Monitors.{state_of};
ghost use Rattle.listing.specs.Faults.{Reads, Ticked};

use crate::fault::TickFault;
use crate::input::split_line;
use crate::line::Line;
use crate::tick::{count_groups, do_groups_fit, whole_reading};
use monitor::Monitor;
use sheet::Sheet;

/// The tick lines that are left are those of `rest`.
#[derive(Drop)]
pub struct Flight<'a> {
    pub(crate) sheet: Sheet,
    pub(crate) monitor: Monitor,
    pub(crate) rest: &'a [u8],
}

/// The whole reading of a tick line.
fn read(sheet: &Sheet, line: &[u8]) -> Result<u32, TickFault>
    ensures { Reads (draft_of sheet.now).entries line.now result }
{
    if count_groups(line) != sheet.posts().len() {
        return Err(TickFault::Groups);
    }
    if !do_groups_fit(line, sheet.signals()) {
        return Err(TickFault::Digits);
    }
    Ok(whole_reading(line))
}

/// One tick: the row of its line.
fn tick(monitor: &mut Monitor, sheet: &Sheet, line: &[u8]) -> Result<Line, TickFault>
    ensures { Ticked (state_of monitor.old) (draft_of sheet.now).entries line.now (state_of monitor.new) result }
{
    let reading = read(sheet, line)?;
    let tick = monitor.next_tick();
    monitor.step(reading)?;
    let verdict = monitor.verdict();
    Ok(Line::Row { tick, verdict })
}

impl Iterator for Flight<'_> {
    ghost use Rattle.listing.specs.Flights.{rows_left};

    type Item = Line;

    ghost next_gives = { YieldsFirst rows_left };

    ghost remaining = { item_count rows_left };

    /// The next row, or the hold that ends the rows.
    fn next(&mut self) -> Option<Line> {
        let (line, rest) = split_line(self.rest)?;
        match tick(&mut self.monitor, &self.sheet, line) {
            Ok(row) => {
                self.rest = rest;
                Some(row)
            }
            Err(fault) => {
                self.rest = &[];
                Some(fault.into())
            }
        }
    }
}
