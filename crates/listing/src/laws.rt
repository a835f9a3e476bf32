//! What a whole reading is.
ghost use Rattle.listing.specs.Laws.{DigitsAreSignals, WholeMeans};

/// A whole reading has no bit beyond its digits, and its bit j is digit j.
pub fn whole_means()
    ensures { WholeMeans }
{}

/// An accepted tick line has one digit for each signal, and digit j stands in the group of the post that owns signal j.
pub fn digits_are_signals()
    ensures { DigitsAreSignals }
{}
