//! The order in which a call is judged.
#![tactic(auto)]

ghost use Rattle.holds.specs.Order.{FirstFitMeans};
ghost use Rattle.holds.specs.Cases.{FirstCaseMeans, Hold};

/// The first number that fits: no number just if none fits, and a number only if it fits and none before it does.
pub fn order_means()
    ensures { FirstFitMeans }
{}

/// The same for numbers with their places on a sheet.
pub fn cases_mean()
    ensures { FirstCaseMeans Hold }
{}
