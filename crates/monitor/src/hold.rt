//! Why a step is held back.
ghost use Rattle.std.specs.Prelude.{◌≡◌};
ghost use Rattle.monitor.specs.Verdicts.{number as number_of};
ghost use Rattle.monitor.specs.declared.hold.Hold.TheVariants.{Parts};

use compact::TooMany;

/// A bit of the reading lies beyond the signals; the tick would be above 999,999; the new obligation would have over 256 parts.
#[derive(Clone, Copy, PartialEq, Eq, Debug)]
pub enum Hold {
    Reading = 15,
    Tick = 16,
    Parts = 18,
}

impl Hold {
    /// Its number.
    pub fn number(self) -> u8
        ensures { result ≡ number_of self }
    {
        self as u8
    }
}

impl From<TooMany> for Hold {
    ghost from_gives = { λ _ h. h ≡ Parts };

    fn from(_: TooMany) -> Hold {
        Hold::Parts
    }
}
