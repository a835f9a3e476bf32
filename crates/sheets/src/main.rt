//! Reads sheets from standard input, one to a line, and prints what becomes of each: the hold with its line and word, or the
//! posts, the signals with their owners, and the parts of the rule.
#![tactic(auto)]

mod show;

use sheet::Blank;
use show::print_sheet;
use std::alloc::{AllocError, Global};

/// The bytes of a sheet as a line writes them: `/` is a line end, `~` byte 200, `^` a tab; all else stands for itself.
fn decoded(heap: Global, line: &str) -> Result<Vec<u8>, AllocError> {
    line.bytes()
        .map(|b| match b {
            b'/' => b'\n',
            b'~' => 200,
            b'^' => b'\t',
            other => other,
        })
        .collect(heap)
}

/// Reads one sheet.
fn print_reading(rt: &HostRuntime, line: &str, number: u32) -> anyhow::Result<()> {
    let heap = rt.alloc();
    let text = decoded(heap, line)?;
    let blank = Blank::new(heap)?;
    print!(rt; "{number} ")?;
    match blank.read(text.as_slice()) {
        Err(fault) => println!(rt; "hold {fault}")?,
        Ok(sheet) => print_sheet(rt, &sheet)?,
    }
    Ok(())
}

fn run(rt: &HostRuntime) -> anyhow::Result<()> {
    let sheets = rt.lines(rt.alloc()).filter(
        |line| !matches!(line, Ok(text) if text.as_str().starts_with('#')),
    );
    for (line, before) in sheets.zip(0u64..) {
        let number = u32::try_from(before).unwrap_or(u32::MAX).saturating_add(1);
        print_reading(rt, line?.as_str(), number)?;
    }
    Ok(())
}

fn main(rt: HostRuntime) -> anyhow::Result<()> {
    run(&rt)
}
