//! Takes rules and readings from standard input, and prints what the monitor makes of them: the limits from both sides.
#![tactic(auto)]

mod flight;
mod shared;

use anyhow::anyhow;
use flight::repeat;
use monitor::Monitor;
use postfix::monitor_of;
use std::alloc::{AllocError, Global};

/// Prints what became of one reading, given so many times.
fn print_steps(
    rt: &impl Print,
    monitor: &mut Monitor,
    reading: u32,
    times: u32,
) -> anyhow::Result<()> {
    let (accepted, hold) = repeat(monitor, reading, times);
    // A number and no `Option`: the program prints 0 where there is no hold.
    let held = hold.map_or(0, |hold| hold.number());
    let next = monitor.next_tick();
    let count = monitor.obligation().count();
    let verdict = monitor.verdict();
    let decided = monitor.deciding_tick();
    println!(rt;
        "  {reading}: {accepted} of {times}, hold {held}, next {next}, {count} parts, {verdict} {decided:?}"
    )?;
    Ok(())
}

/// Prints the steps of one line.
fn print_flight(rt: &impl Print, monitor: &mut Monitor, words: &[u32]) -> anyhow::Result<()> {
    for [reading, times] in words.as_chunks::<2>().0 {
        print_steps(rt, monitor, *reading, *times)?;
    }
    Ok(())
}

/// The numbers among the words of a text.
fn numbers_of(heap: Global, text: &str) -> Result<Vec<u32>, AllocError> {
    text.split(' ')
        .filter_map(|word| word.parse::<u32>().ok())
        .collect(heap)
}

/// Prints what a formula comes to over so many signals, and the steps of its monitor.
fn print_rule(rt: &HostRuntime, text: &str, signals: u8, words: &[u32]) -> anyhow::Result<()> {
    match monitor_of(rt.alloc(), text, signals)? {
        Err(why) => println!(rt; "{text} over {signals}: {why}")?,
        Ok(mut monitor) => {
            let count = monitor.obligation().count();
            let verdict = monitor.verdict();
            println!(rt; "{text} over {signals}: {count} parts, {verdict}")?;
            print_flight(rt, &mut monitor, words)?;
        }
    }
    Ok(())
}

/// Prints one line: a formula, how many signals, and pairs of a reading and how often it is given.
fn print_line(rt: &HostRuntime, line: &str) -> anyhow::Result<()> {
    let text = line.split(' ').next().unwrap_or("");
    let numbers = numbers_of(rt.alloc(), line)?;
    match numbers.as_slice() {
        [signals, words @ ..] => {
            print_rule(rt, text, u8::try_from(*signals).unwrap_or(u8::MAX), words)
        }
        [] => Err(anyhow!("no number of signals")),
    }
}

fn run(rt: &HostRuntime) -> anyhow::Result<()> {
    for line in rt.lines(rt.alloc()) {
        let text = line?;
        print_line(rt, text.as_str())?;
    }
    shared::print_all(rt)
}

fn main(rt: HostRuntime) -> anyhow::Result<()> {
    run(&rt)
}
