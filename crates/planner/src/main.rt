// Reads a sheet of jobs from standard input and prints the sheet of plans.
#![tactic(auto)]

use sheet::{MOST_BYTES, plan_sheet};
use std::io::{Read, Write};

// One byte more than a sheet may have: enough to see that it is too long. No `From` takes a `usize` to 64 bits; nothing
// is lost.
const READ_AT_MOST: u64 = MOST_BYTES as u64 + 1;

fn main(rt: HostRuntime) -> anyhow::Result<()> {
    let mut input = Vec::new(rt.alloc());
    rt.stdin().take(READ_AT_MOST).read_to_end(&mut input)?;
    let plans = plan_sheet(rt.alloc(), input.as_slice())?;
    rt.stdout().write_all(plans.as_slice())?;
    Ok(())
}
