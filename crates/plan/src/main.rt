// Reads a sheet from standard input, and prints its best plans.
#![tactic(auto)]

use anyhow::ensure;
use std::io::Read;

// A refusal is printed too, and the process then ends with status 1.
fn main(rt: HostRuntime) -> anyhow::Result<()> {
    let heap = rt.alloc();
    let mut input = Vec::new(heap);
    // one byte more than is taken, so that a longer one is seen to be too long
    let limit = engine::MOST_BYTES as u64 + 1;
    rt.stdin().take(limit).read_to_end(&mut input)?;
    let listing = engine::listing(heap, &input)?;
    rt.print(listing.text.as_str())?;
    ensure!(listing.answer.is_ok(), "the sheet is refused");
    Ok(())
}
