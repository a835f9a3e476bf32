//! Prints the listing of each input that stands on standard input. Inputs are ended by `=` and a line end.
#![tactic(auto)]

ghost use Rattle.std.specs.Prelude.{◌<◌, length, IfOk};

use listing::Listing;
use std::io::Read;

/// Prints the listing of one input.
fn print_listing(rt: &HostRuntime, input: &[u8]) -> anyhow::Result<()> {
    let listing = Listing::new(rt.alloc(), input)?;
    println!(rt; "=")?;
    for line in listing {
        println!(rt; "{line}")?;
    }
    Ok(())
}

/// Prints the listing of the first input, and says what is left behind its end.
fn print_first<'a>(rt: &HostRuntime, inputs: &'a [u8]) -> anyhow::Result<&'a [u8]>
    requires { 0 < length inputs.now }
    ensures { IfOk result (λ rest. length rest.now < length inputs.now) }
{
    // No `split` or `lines`: whatever byte stands behind the mark is skipped, and bytes need not be text.
    match inputs.iter().position(|b| *b == b'=') {
        Some(at) => {
            print_listing(rt, &inputs[..at])?;
            Ok(inputs.get(at + 2..).unwrap_or(&[]))
        }
        None => {
            print_listing(rt, inputs)?;
            Ok(&[])
        }
    }
}

fn run(rt: &HostRuntime) -> anyhow::Result<()> {
    let mut inputs = Vec::new(rt.alloc());
    rt.stdin().read_to_end(&mut inputs)?;
    let mut rest = inputs.as_slice();
    while !rest.is_empty() {
        rest = print_first(rt, rest)?;
    }
    Ok(())
}

fn main(rt: HostRuntime) -> anyhow::Result<()> {
    run(&rt)
}
