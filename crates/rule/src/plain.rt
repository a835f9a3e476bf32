//! Which parts may stand in a rule.
ghost use Rattle.std.specs.Prelude.{◌≡◌};
ghost use Rattle.parts.specs.Places.{Sound, formulas};
ghost use Rattle.rule.specs.Rules.{PlainMeans, all_plain, plain_part};

use parts::Part;

/// Whether a part may stand in a rule over so many signals.
fn is_plain(part: Part, signals: u8) -> bool
    ensures { result ≡ plain_part signals part }
{
    match part {
        Part::Signal(p) => p < signals,
        Part::Open(_, _) => false,
        _ => true,
    }
}

/// Whether all parts may.
pub(crate) fn are_plain(parts: &[Part], signals: u8) -> bool
    requires { Sound parts.now }
    ensures { result ≡ all_plain signals (formulas parts.now) }
{
    parts.iter().all(|part| is_plain(*part, signals))
}

/// That all parts of a formula are plain says that nothing is open and that every signal is below the number of signals.
pub fn plain_means()
    ensures { PlainMeans }
{}
