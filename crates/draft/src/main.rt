// Reads a job list from standard input, and writes its order sheet to standard output.
#![tactic(auto)]

use std::io::{Read, Write};

// A refusal goes to standard error, and the process then ends with status 1.
fn main(rt: HostRuntime) -> anyhow::Result<()> {
    let heap = rt.alloc();
    let mut text = Vec::new(heap);
    // one byte more than a job list may have, so that a longer one is seen to be too long
    let limit = joblist::MOST_BYTES as u64 + 1;
    rt.stdin().take(limit).read_to_end(&mut text)?;
    let sheet = joblist::to_sheet(heap, &text)??;
    rt.stdout().write_all(&sheet)?;
    Ok(())
}
