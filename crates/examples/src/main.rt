//! Takes the worked examples through the global monitor: for each the rule, each reading, the obligation after it and the verdict.
#![tactic(auto)]

mod sample;
mod show;

use monitor::{Monitor, Verdict};
use postfix::{Unfit, monitor_of};
use sample::Sample;
use show::text_of;

/// The verdict in words.
// No `Display`: a verdict prints as its letter.
fn word(verdict: Verdict) -> &'static str {
    match verdict {
        Verdict::True => "true",
        Verdict::False => "false",
        Verdict::Undecided => "undecided",
    }
}

/// What is read of the two signals, in words.
fn words(signals: u8, reading: u32) -> &'static str {
    match (signals, reading % 4) {
        (1, 0) => "p off",
        (1, _) => "p on",
        (_, 0) => "both off",
        (_, 1) => "p on, q off",
        (_, 2) => "p off, q on",
        (_, _) => "both on",
    }
}

/// Prints what the monitor makes of one reading.
fn print_step(
    rt: &HostRuntime,
    monitor: &mut Monitor,
    signals: u8,
    reading: u32,
) -> anyhow::Result<()> {
    let tick = monitor.next_tick();
    if let Err(hold) = monitor.step(reading) {
        let n = hold.number();
        println!(rt; "  tick {tick}: hold {n}")?;
        return Ok(());
    }
    let read = words(signals, reading);
    let after = text_of(rt.alloc(), monitor.obligation())?;
    let verdict = word(monitor.verdict());
    match monitor.deciding_tick() {
        Some(decided) => println!(rt;
            "  tick {tick}: {read} gives {after}, {verdict} since tick {decided}"
        )?,
        None => println!(rt; "  tick {tick}: {read} gives {after}, {verdict}")?,
    }
    Ok(())
}

/// Prints one example from its start.
fn print_run(rt: &HostRuntime, sample: Sample, readings: &[u32]) -> anyhow::Result<()> {
    let mut monitor = match monitor_of(rt.alloc(), sample.postfix, sample.signals)? {
        Err(Unfit::TooLong(error)) => return Err(error.into()),
        made => made?,
    };
    let rule = sample.text;
    let start = text_of(rt.alloc(), monitor.obligation())?;
    println!(rt; "rule {rule} is read as {start}")?;
    for reading in readings {
        print_step(rt, &mut monitor, sample.signals, *reading)?;
    }
    Ok(())
}

fn run(rt: &HostRuntime) -> anyhow::Result<()> {
    print_run(rt, sample::FINALLY_P, &[0, 1, 0])?;
    print_run(rt, sample::P_UNTIL_Q, &[1, 0])?;
    print_run(rt, sample::P_UNTIL_Q, &[2])?;
    print_run(rt, sample::NEXT_P, &[0, 1])?;
    print_run(rt, sample::ALWAYS_FINALLY_P, &[0, 0, 1])?;
    print_run(rt, sample::P_AND_P_AND_Q, &[3])?;
    print_run(rt, sample::P_OR_NOT_P, &[0])?;
    print_run(rt, sample::ALWAYS_TRUE, &[0, 1])?;
    print_run(rt, sample::FINALLY_P, &[2, 1])
}

fn main(rt: HostRuntime) -> anyhow::Result<()> {
    run(&rt)
}
