//! Formulas as a sheet writes them, with no more brackets than reading back needs.
ghost use Rattle.std.specs.Prelude.{◌<◌, length};
ghost use Rattle.compact.specs.Compacts.{compact_parts};

use compact::Compact;
use parts::{Binary, Junction, Part, Unary};
use std::alloc::{AllocError, Global};

/// The names of the two signals that the examples use.
fn name(signal: u8) -> &'static str {
    match signal {
        0 => "p",
        1 => "q",
        _ => "?",
    }
}

/// How tightly a part binds, the loosest first.
#[derive(Clone, Copy, PartialEq, Eq, PartialOrd, Ord, Debug)]
enum Tightness {
    Or,
    And,
    Until,
    Prefix,
    Leaf,
}

/// How tightly a part binds.
fn tightness_of(part: Part) -> Tightness {
    match part {
        Part::Two(Binary::Join(Junction::Or), _, _) => Tightness::Or,
        Part::Two(Binary::Join(Junction::And), _, _) => Tightness::And,
        Part::Two(Binary::Until, _, _) => Tightness::Until,
        Part::One(_, _) => Tightness::Prefix,
        Part::Const(_) | Part::Signal(_) | Part::Open(_, _) => Tightness::Leaf,
    }
}

/// Writes a part without brackets round it.
#[cycle(writing)]
fn write_bare(formula: &Compact, at: u16, out: &mut String) -> Result<(), AllocError>
    requires { at < length (compact_parts formula.now) }
{
    let part = formula.part(at);
    match part {
        Part::Const(value) => write!(out, "{value}"),
        Part::Signal(p) => out.push_str(name(p)),
        Part::Open(p, tick) => {
            let name = name(p);
            write!(out, "{name}@{tick}")
        }
        Part::One(sign, a) => {
            write!(out, "{sign}")?;
            if sign != Unary::Not {
                out.push_str(" ")?;
            }
            let is_loose = tightness_of(formula.part(a)) < Tightness::Prefix;
            write_part(formula, a, is_loose, out)
        }
        Part::Two(sign, a, b) => {
            let own = tightness_of(part);
            let is_first_loose = tightness_of(formula.part(a)) <= own;
            let is_second_loose = tightness_of(formula.part(b)) < own;
            write_part(formula, a, is_first_loose, out)?;
            write!(out, " {sign} ")?;
            write_part(formula, b, is_second_loose, out)
        }
    }
}

/// Writes a part, in brackets if it binds too loosely for where it stands.
#[cycle(writing)]
fn write_part(
    formula: &Compact,
    at: u16,
    is_loose: bool,
    out: &mut String,
) -> Result<(), AllocError>
    requires { at < length (compact_parts formula.now) }
{
    if !is_loose {
        return write_bare(formula, at, out);
    }
    out.push_str("(")?;
    write_bare(formula, at, out)?;
    out.push_str(")")
}

/// The text of a formula.
pub(crate) fn text_of(heap: Global, formula: &Compact) -> Result<String, AllocError> {
    let mut out = String::new(heap);
    let top = formula.count() - 1;
    write_bare(formula, top as u16, &mut out)?;
    Ok(out)
}
