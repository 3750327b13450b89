// Reads a page as a PGM file from standard input, and writes its split into lines and tones to standard output, as a PBM file.
#![tactic(auto)]

use std::io::Read;

// A refusal goes to standard error, and the process then ends with status 1.
fn main(rt: HostRuntime) -> anyhow::Result<()> {
    let heap = rt.alloc();
    let mut file = Vec::new(heap);
    rt.stdin().read_to_end(&mut file)?;
    let text = prepress::split_file(heap, &file)??;
    rt.print(text.as_str())?;
    Ok(())
}
