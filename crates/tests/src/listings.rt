// Inputs with the text that tells their answers.
use std::alloc::Global;
use std::process::Abort;
use std::test::Fail;

fn listed(rt: &impl Abort, heap: Global, input: &[u8], text: &str) -> Result<(), Fail> {
    let listing = engine::listing(heap, input)?;
    assert!(rt; listing.text.as_str() == text, "{}", text);
    Ok(())
}

#[test]
fn text_of_an_answer(rt: HostRuntime) -> Result<(), Fail> {
    let heap = rt.alloc();
    listed(
        &rt,
        heap,
        &[0x00],
        "entries 1 needs 0\nleast 0 net 0\n0 either\n",
    )?;
    listed(
        &rt,
        heap,
        &[0x04, 0, 1, 0x00],
        "entries 2 needs 1\nleast 0 net 0\n0 either\n1 either\n",
    )?;
    // entry 0 earns 9 and needs entry 1, which costs 4
    let sheet = [0x05, 0, 0, 0, 9, 0, 1, 0x02, 0, 0, 0, 4];
    listed(
        &rt,
        heap,
        &sheet,
        "entries 2 needs 1\nleast 4 net 5\n0 in\n1 in\n",
    )
}

#[test]
fn text_of_a_refusal(rt: HostRuntime) -> Result<(), Fail> {
    let heap = rt.alloc();
    listed(&rt, heap, &[], "refused 11 record 0 byte 0\n")?;
    listed(
        &rt,
        heap,
        &[0x00, 0x00, 0x40],
        "refused 13 record 2 byte 2\n",
    )
}

// The table has 2,048 records, and an entry takes one.
#[test]
fn at_most_2048_records(rt: HostRuntime) -> Result<(), Fail> {
    let heap = rt.alloc();
    let bytes = [0u8; 2049];
    let fits = engine::plan(heap, &bytes[..2048])?;
    assert!(rt; fits.is_ok());
    listed(&rt, heap, &bytes, "refused 19 record 0 byte 0\n")
}

#[test]
fn at_most_8192_bytes(rt: HostRuntime) -> Result<(), Fail> {
    let heap = rt.alloc();
    let bytes = [0u8; 8193];
    listed(&rt, heap, &bytes, "refused 30 record 0 byte 0\n")?;
    listed(
        &rt,
        heap,
        &bytes[0..8192],
        "refused 12 record 4096 byte 4096\n",
    )
}
