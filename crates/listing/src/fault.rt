//! Why a tick is held back.
ghost use Rattle.std.specs.Prelude.{◌≡◌};

use monitor::Hold;

/// The line has not one group for each post, a group has not one digit for each signal of its post, or the step is held back.
#[derive(Clone, Copy, PartialEq, Eq, Debug)]
pub enum TickFault {
    Groups,
    Digits,
    Step(Hold),
}

impl TickFault {
    ghost use Rattle.listing.specs.Faults.{fault_number};

    /// Its number.
    pub(crate) fn number(self) -> u8
        ensures { result ≡ fault_number self }
    {
        match self {
            TickFault::Groups => 14,
            TickFault::Digits => 15,
            TickFault::Step(hold) => hold.number(),
        }
    }
}

impl From<Hold> for TickFault {
    ghost use Rattle.listing.specs.declared.fault.TickFault.TheVariants.{Step};

    ghost from_gives = { λ hold fault. fault ≡ Step hold };

    fn from(hold: Hold) -> TickFault {
        TickFault::Step(hold)
    }
}
