//! The laws of the grammar: each function has one for its contract.
ghost use Rattle.grammar.specs.Laws.{OneFormula, RawMeans, ShortIsShortened, MisplacedMeans, KnownMeans, WorkedReadings};

/// Words have at most one formula.
pub fn one_formula()
    ensures { OneFormula }
{}

/// The machine makes the formula that the grammar gives.
pub fn raw_means()
    ensures { RawMeans }
{}

/// To shorten as the machine builds is to shorten what it builds.
pub fn short_is_shortened()
    ensures { ShortIsShortened }
{}

/// The scan passes exactly the words of a rule, and otherwise stops at the first word at fault.
pub fn misplaced_means()
    ensures { MisplacedMeans }
{}

/// A rule whose names are all signals has, shortened, no open reading and no other signal.
pub fn known_means()
    ensures { KnownMeans }
{}

/// Some rules, as they are read.
pub fn worked_readings()
    ensures { WorkedReadings }
{}
