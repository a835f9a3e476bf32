//! A full table, a formula whose tree is as large as 2 to the power 256, and the closing of open readings.
ghost use Rattle.std.specs.Prelude.{◌<◌, length, IfSome};
ghost use Rattle.parts.specs.Tables.{parts_of};

use anyhow::anyhow;
use compact::{Compact, TooMany, Workspace};
use monitor::Verdict;
use parts::{Binary, Table, Unary};
use progression::Row;
use std::alloc::Global;

/// A signal, X of it and X X of it; `None` where the table has no room for one of them.
fn nexts(table: &mut Table, p: u8) -> Option<u16> {
    let s = table.signal(p)?;
    let x = table.unary(Unary::Next, s)?;
    table.unary(Unary::Next, x)
}

/// Fills a table with signals, X of them and X X of them; answers how many parts it then has.
fn fill(table: &mut Table) -> usize {
    for p in 0..=255u8 {
        if nexts(table, p).is_none() {
            break;
        }
    }
    table.used()
}

/// A chain of U parts whose two operands are the part before; answers the last.
fn chain(table: &mut Table, count: u16) -> Option<u16>
    ensures { IfSome result (λ at. at < length (parts_of table.new)) }
{
    let mut top = table.signal(0)?;
    for _ in 0..count {
        top = table.binary(Binary::Until, top, top)?;
    }
    Some(top)
}

/// A table's part as a formula of its own.
fn formula_at(
    heap: Global,
    table: &Table,
    at: u16,
    space: &mut Workspace,
) -> anyhow::Result<Compact>
    requires { at < length (parts_of table.now) }
{
    let mut formula = Compact::new(heap)?;
    formula
        .become_part(table, at, space)
        .map_err(|_| anyhow!("over 256 parts"))?;
    Ok(formula)
}

/// Prints what a step or a closing left.
fn print_formula(
    rt: &impl Print,
    what: &str,
    formula: &Compact,
    done: Result<(), TooMany>,
    space: &mut Workspace,
) -> anyhow::Result<()> {
    let count = formula.count();
    let verdict = Verdict::from(formula.value());
    let accepted = done.is_ok();
    let open = formula.earliest_open(space);
    println!(rt; "{what}: {accepted}, {count} parts, {verdict}, open from {open:?}")?;
    Ok(())
}

fn print_chain(rt: &HostRuntime, signals: &[Option<bool>], what: &str) -> anyhow::Result<()> {
    let heap = rt.alloc();
    let mut table = Table::new(heap)?;
    let mut space = Workspace::new(heap)?;
    let top = chain(&mut table, 255).ok_or_else(|| anyhow!("no room"))?;
    let mut formula = formula_at(heap, &table, top, &mut space)?;
    let done = formula.step(&Row { tick: 0, signals }, &mut space);
    print_formula(rt, what, &formula, done, &mut space)
}

/// Closes what q was at a tick, as on.
fn print_closed(
    rt: &impl Print,
    formula: &mut Compact,
    tick: u32,
    what: &str,
    space: &mut Workspace,
) -> anyhow::Result<()> {
    let done = formula.close(
        &Row {
            tick,
            signals: &[None, Some(true)],
        },
        space,
    );
    print_formula(rt, what, formula, done, space)
}

/// The gate's rule, of which one post knows only p: at tick 1 it leaves !q@1 & G (!q | p).
fn print_gate(rt: &HostRuntime) -> anyhow::Result<()> {
    let heap = rt.alloc();
    let mut table = Table::new(heap)?;
    let mut space = Workspace::new(heap)?;
    // Where it cannot be made it stays `false`.
    let mut formula = match postfix::make(heap, &mut table, "q!p|G") {
        Ok(Some(top)) => formula_at(heap, &table, top, &mut space)?,
        _ => Compact::new(heap)?,
    };
    let done = formula.step(
        &Row {
            tick: 1,
            signals: &[Some(false)],
        },
        &mut space,
    );
    print_formula(rt, "stepped", &formula, done, &mut space)?;
    print_closed(rt, &mut formula, 2, "closed at 2", &mut space)?;
    print_closed(rt, &mut formula, 1, "closed at 1", &mut space)
}

pub(crate) fn print_all(rt: &HostRuntime) -> anyhow::Result<()> {
    let mut table = Table::new(rt.alloc())?;
    let used = fill(&mut table);
    let more = table.constant(true).is_some();
    let old = table.signal(0).is_some();
    println!(rt; "full at {used}: a new part {more}, an old one {old}")?;
    print_chain(rt, &[Some(true)], "chain, on")?;
    print_chain(rt, &[Some(false)], "chain, off")?;
    print_chain(rt, &[], "chain, open")?;
    print_gate(rt)
}
