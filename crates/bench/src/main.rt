//! Reads a sheet and tick lines from standard input, and prints their listing.
#![tactic(auto)]

use listing::Listing;
use std::io::Read;

fn main(rt: HostRuntime) -> anyhow::Result<()> {
    let mut input = Vec::new(rt.alloc());
    rt.stdin().read_to_end(&mut input)?;
    for line in Listing::new(rt.alloc(), &input)? {
        println!(rt; "{line}")?;
    }
    Ok(())
}
