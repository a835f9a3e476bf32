//! The laws of formulas, shortening, progression and closing: each function has one for its contract.
ghost use Rattle.temporal.specs.Laws.{RebuildingCommutes, StepsAndClosingsCommute, ShorteningKeepsMeaning, SteppingKeepsMeaning, ClosingKeepsMeaning, TimeSignsAgree, VerdictOfEveryRun, RunsAbound, ShortenedIsOwed, ObligationIsProper, ClosingMeetsStepping, ClosingLeavesAlone, PartsListed, PartsInOrder, ClosingAddsNoPart, StepMakesTwo, ShorteningCommutes, ObligationsLast};
ghost use Rattle.temporal.specs.Earliest.{EarliestIsFirst};
ghost use Rattle.temporal.specs.Examples.{WorkedExamples};

/// What keeps constants and rebuilds not, and, or with the shortening constructors commutes with those constructors.
pub fn rebuilding_commutes()
    ensures { RebuildingCommutes }
{}

/// A step and a closing commute with the shortening constructors.
pub fn steps_and_closings_commute()
    ensures { StepsAndClosingsCommute }
{}

/// Shortening commutes with a step and with a closing.
pub fn shortening_commutes()
    ensures { ShorteningCommutes }
{}

/// Shortening keeps the meaning.
pub fn shortening_keeps_meaning()
    ensures { ShorteningKeepsMeaning }
{}

/// A step by what the run has at a tick moves the meaning on by that tick.
pub fn stepping_keeps_meaning()
    ensures { SteppingKeepsMeaning }
{}

/// Closing open readings by what the run has keeps the meaning.
pub fn closing_keeps_meaning()
    ensures { ClosingKeepsMeaning }
{}

/// `F f` is `true U f`, and `G !!f` is `!F !f`.
pub fn time_signs_agree()
    ensures { TimeSignsAgree }
{}

/// A rule that progresses to a constant has that truth on every endless run that begins with the readings.
pub fn verdict_of_every_run()
    ensures { VerdictOfEveryRun }
{}

/// Every list of readings begins some run, and some rule is kept by one run and broken by another.
pub fn runs_abound()
    ensures { RunsAbound }
{}

/// A formula with no open reading, once shortened, is an obligation for tick 0.
pub fn shortened_is_owed()
    ensures { ShortenedIsOwed }
{}

/// An obligation, said by recursion.
pub fn obligation_is_proper()
    ensures { ObligationIsProper }
{}

/// A step and a closing keep an obligation one.
pub fn obligations_last()
    ensures { ObligationsLast }
{}

/// Closing after a step is the step with the closed assignment, after closing.
pub fn closing_meets_stepping()
    ensures { ClosingMeetsStepping }
{}

/// What has nothing to close is left alone.
pub fn closing_leaves_alone()
    ensures { ClosingLeavesAlone }
{}

/// The walk lists the formula and everything below it, each once.
pub fn parts_listed()
    ensures { PartsListed }
{}

/// Each part stands before what it is a part of, the formula last.
pub fn parts_in_order()
    ensures { PartsInOrder }
{}

/// Closing open readings adds no part.
pub fn closing_adds_no_part()
    ensures { ClosingAddsNoPart }
{}

/// A step makes at most two new parts for each.
pub fn step_makes_two()
    ensures { StepMakesTwo }
{}

/// The earliest open tick is open, and none is earlier; without one nothing is open.
pub fn earliest_is_first()
    ensures { EarliestIsFirst }
{}

/// The worked examples about rewriting.
pub fn worked_examples()
    ensures { WorkedExamples }
{}
