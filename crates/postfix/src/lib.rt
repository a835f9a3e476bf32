//! Formulas and monitors from text in which operands stand before their sign, as `pqU` for `p U q`: for programs that show and
//! try others.
#![tactic(auto)]

ghost use Rattle.std.specs.Prelude.{◌≡◌, ◌<◌, length, None, IfOk, IfSome};
ghost use Rattle.parts.specs.Tables.{parts_of};
ghost use Rattle.rule.specs.Rules.{misfit};
ghost use Rattle.monitor.specs.Monitoring.{fresh};
ghost use Rattle.monitor.specs.Monitors.{state_of};

mod unfit;

use compact::Workspace;
use monitor::Monitor;
use parts::{Binary, Junction, Table, Unary};
use rule::Rule;
use std::alloc::{AllocError, Global};
pub use unfit::Unfit;

/// A sign over the last part that the stack has.
fn unary(table: &mut Table, stack: &mut Vec<u16>, sign: Unary) -> Option<u16> {
    let x = stack.pop()?;
    if (x as usize) >= table.used() {
        return None;
    }
    table.unary(sign, x)
}

/// A sign over the last two parts that the stack has.
fn binary(table: &mut Table, stack: &mut Vec<u16>, sign: Binary) -> Option<u16> {
    let y = stack.pop()?;
    let x = stack.pop()?;
    if (x as usize) >= table.used() || (y as usize) >= table.used() {
        return None;
    }
    table.binary(sign, x, y)
}

/// One sign over what the stack has, or a leaf; `z` is the last signal, `@` an open reading.
fn one(table: &mut Table, stack: &mut Vec<u16>, sign: u8) -> Option<u16> {
    match sign {
        b'p' => table.signal(0),
        b'q' => table.signal(1),
        b'z' => table.signal(31),
        b'@' => table.open(0, 3),
        b't' => table.constant(true),
        b'f' => table.constant(false),
        b'!' => unary(table, stack, Unary::Not),
        b'X' => unary(table, stack, Unary::Next),
        b'F' => unary(table, stack, Unary::Finally),
        b'G' => unary(table, stack, Unary::Globally),
        b'&' => binary(table, stack, Binary::Join(Junction::And)),
        b'|' => binary(table, stack, Binary::Join(Junction::Or)),
        b'U' => binary(table, stack, Binary::Until),
        _ => None,
    }
}

/// The place of a formula in the table; none where the text is no formula, or not one that the table has room for.
pub fn make(heap: Global, table: &mut Table, text: &str) -> Result<Option<u16>, AllocError>
    ensures { IfOk result (λ made. IfSome made (λ at. at < length (parts_of table.new))) }
{
    let mut stack = Vec::new(heap);
    for sign in text.bytes() {
        let Some(made) = one(table, &mut stack, sign) else {
            return Ok(None);
        };
        stack.push(made)?;
    }
    Ok(stack.pop().filter(|at| usize::from(*at) < table.used()))
}

/// A monitor of the formula over so many signals, before tick 0, if that is a rule.
pub fn monitor_of(
    heap: Global,
    text: &str,
    signals: u8,
) -> Result<Result<Monitor, Unfit>, AllocError>
    ensures fresh { IfOk result (λ made. IfOk made (λ m. state_of m ≡ fresh signals (state_of m).rule)) }
    ensures fit { IfOk result (λ made. IfOk made (λ m. misfit signals (state_of m).rule ≡ None)) }
{
    let mut table = Table::new(heap)?;
    let mut space = Workspace::new(heap)?;
    let mut rule = Rule::new(heap)?;
    let top = match make(heap, &mut table, text) {
        Ok(Some(top)) => top,
        Ok(None) => return Ok(Err(Unfit::NoFormula)),
        Err(error) => return Ok(Err(Unfit::TooLong(error))),
    };
    if let Err(misfit) = rule.become_part(&table, top, signals, &mut space) {
        return Ok(Err(misfit.into()));
    }
    Ok(Ok(Monitor::new(heap, &rule)?))
}
