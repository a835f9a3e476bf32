//! A listing, line by line.
ghost use Rattle.std.specs.Prelude.{◌≡◌, IfOk};
ghost use Rattle.std.specs.Iterator.{YieldsFirst, item_count};

use crate::flight::Flight;
use crate::input::split_input;
use crate::line::Line;
use monitor::Monitor;
use sheet::Blank;
use std::alloc::{AllocError, Global};

/// The first line, until it was given, and the flight that makes the rows; a sheet that is held back has none.
#[derive(Drop)]
pub struct Listing<'a> {
    pub(crate) first: Option<Line>,
    pub(crate) flight: Option<Flight<'a>>,
}

impl<'a> Listing<'a> {
    ghost use Rattle.listing.specs.Flights.{left};
    ghost use Rattle.listing.specs.Listings.{listing as listing_of};

    /// The listing of an input; all the memory is taken here.
    pub fn new(heap: Global, input: &'a [u8]) -> Result<Listing<'a>, AllocError>
        ensures { IfOk result (λ l. left l ≡ listing_of input.now) }
    {
        let (text, rest) = split_input(input);
        let blank = Blank::new(heap)?;
        let sheet = match blank.read(text) {
            Ok(sheet) => sheet,
            Err(fault) => {
                return Ok(Listing {
                    first: Some(fault.into()),
                    flight: None,
                });
            }
        };
        let monitor = Monitor::new(heap, sheet.rule())?;
        let flight = Flight {
            sheet,
            monitor,
            rest,
        };
        Ok(Listing {
            first: Some(Line::Columns),
            flight: Some(flight),
        })
    }
}

impl Iterator for Listing<'_> {
    ghost use Rattle.listing.specs.Flights.{left};

    type Item = Line;

    ghost next_gives = { YieldsFirst left };

    ghost remaining = { item_count left };

    /// The next line; no memory is taken.
    fn next(&mut self) -> Option<Line> {
        if let Some(line) = self.first.take() {
            return Some(line);
        }
        self.flight.as_mut()?.next()
    }
}
