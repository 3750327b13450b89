// Job lists with the sheets that are drafted of them, and the lines at which they are refused.
use joblist::{JobRefusal, Told};
use std::alloc::Global;
use std::process::Abort;
use std::test::Fail;

// The sheet of the text is drafted.
fn drafts(rt: &impl Abort, heap: Global, text: &[u8], sheet: &[u8]) -> Result<(), Fail> {
    match joblist::to_sheet(heap, text)? {
        Ok(bytes) => assert!(rt; bytes.as_slice() == sheet),
        Err(refusal) => assert!(rt; false, "{}", refusal),
    }
    Ok(())
}

// Each text is refused with the number of a question, at a line.
fn refuses(rt: &impl Abort, heap: Global, texts: &[(&[u8], u8, usize)]) -> Result<(), Fail> {
    for (text, number, line) in texts {
        let told = Told {
            number: *number,
            line: *line,
        };
        match joblist::to_sheet(heap, text)? {
            Ok(_) => assert!(rt; false, "line {} is refused", line),
            Err(refusal) => assert_eq!(rt; refusal.told(), told),
        }
    }
    Ok(())
}

// The text is refused with these words.
fn says(rt: &impl Abort, heap: Global, text: &[u8], words: &str) -> Result<(), Fail> {
    if let Err(refusal) = joblist::to_sheet(heap, text)? {
        let said = format!(in heap; "{refusal}")?;
        assert!(rt; said.as_str() == words, "{}", said);
    } else {
        assert!(rt; false, "{}", words);
    }
    Ok(())
}

// A name may be any word, and what is needed may stand below.
#[test]
fn lines_of_every_kind(rt: HostRuntime) -> Result<(), Fail> {
    let heap = rt.alloc();
    drafts(&rt, heap, b"job flyer 50", b"\x01\0\0\0\x32")?;
    drafts(
        &rt,
        heap,
        b"# jobs first\r\n\njob job 50 7 die\n\tboth  both 7 8 die\nset-up die 258\r\nset-up 7 0\n#set-up 8 1",
        b"\x0d\0\0\0\x32\0\x02\0\x03\
            \x07\0\0\0\x07\0\0\0\x08\0\x02\
            \x02\0\0\x01\x02\
            \x00",
    )
}

// A name that is a number or has other bytes than letters, amounts of 0 and with zeros in front, and four needs.
#[test]
fn words_of_every_kind(rt: HostRuntime) -> Result<(), Fail> {
    let heap = rt.alloc();
    drafts(
        &rt,
        heap,
        b"job #1 007 4 \xe4\xff 3 2\njob 2 0\nset-up 3 0\nset-up 4 0\nboth \xe4\xff 0 1",
        b"\x3d\0\0\0\x07\0\x01\0\x02\0\x03\0\x04\x00\x00\x00\x02\0\0\0\x01",
    )
}

#[test]
fn lines_by_themselves(rt: HostRuntime) -> Result<(), Fail> {
    let heap = rt.alloc();
    let texts: [(&[u8], u8, usize); 15] = [
        (b"jobs a 1", 51, 1),
        (b"\n\njob a", 51, 3),
        (b"job", 51, 1),
        (b"Job a 1", 51, 1),
        (b"both a 1", 51, 1),
        (b"job a b", 52, 1),
        (b"job a -1", 52, 1),
        (b"job a +1", 52, 1),
        (b"job a 99999999999999999999999999999999999999", 52, 1),
        (b"job a 1000001", 52, 1),
        (b"both a 1 1000001", 52, 1),
        (b"both a x 1", 52, 1),
        (b"job a 1\nset-up a 2", 53, 2),
        (b"job a 1 b c d e f", 55, 1),
        (b"job a 1 a\njob b 1 x\njob c", 51, 3),
    ];
    refuses(&rt, heap, &texts)
}

#[test]
fn names_that_are_needed(rt: HostRuntime) -> Result<(), Fail> {
    let heap = rt.alloc();
    let texts: [(&[u8], u8, usize); 7] = [
        (b"job a 1 b", 56, 1),
        (b"job a 1 # no remark", 56, 1),
        (b"job a 1\rjob a 2", 56, 1),
        (b"job a 1\njob b 1 a B", 56, 2),
        (b"job a 1 a", 57, 1),
        (b"job a 1 b b\nset-up b 2", 58, 1),
        (b"set-up b 2\njob a 1 b c\njob d 1 b b", 56, 2),
    ];
    refuses(&rt, heap, &texts)?;
    drafts(
        &rt,
        heap,
        b"set-up b 1000000\njob a 1 b",
        b"\x02\0\x0f\x42\x40\x05\0\0\0\x01\0\0",
    )
}

// A text without entries tells a book without entries, whose sheet has no byte.
#[test]
fn texts_without_entries(rt: HostRuntime) -> Result<(), Fail> {
    let heap = rt.alloc();
    drafts(&rt, heap, b"", b"")?;
    drafts(&rt, heap, b"\n# nothing to do\n  \n", b"")?;
    let longest = vec![in heap; b'\n'; 1_048_576]?;
    drafts(&rt, heap, &longest, b"")
}

#[test]
fn words_of_refusals(rt: HostRuntime) -> Result<(), Fail> {
    let heap = rt.alloc();
    says(
        &rt,
        heap,
        b"\njob a 1\njob a 2",
        "line 3: an earlier line has this name (53)",
    )?;
    says(
        &rt,
        heap,
        b"job a 1 b",
        "line 1: it needs a name that no line has (56)",
    )?;
    let long = vec![in heap; b'\n'; 1_048_577]?;
    says(
        &rt,
        heap,
        &long,
        "the text has more than 1048576 bytes (50)",
    )
}

// 4,096 entries with four needs each, and the line of one more.
#[test]
fn the_longest_list(rt: HostRuntime) -> Result<(), Fail> {
    let heap = rt.alloc();
    let mut text = String::new(heap);
    for i in 0..4096u32 {
        let (next, after) = ((i + 1) % 4096, (i + 2) % 4096);
        let (last, before) = ((i + 4095) % 4096, (i + 4094) % 4096);
        writeln!(text, "both {i} 1 1 {next} {last} {after} {before}")?;
    }
    let sheet = joblist::to_sheet(heap, text.as_bytes())?;
    assert!(rt; sheet.is_ok_and(|bytes| bytes.len() == 69_632));
    writeln!(text, "job more 1")?;
    refuses(&rt, heap, &[(text.as_bytes(), 54, 4097)])
}
