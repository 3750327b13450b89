// One example of each public call: files of both forms, a file for each question, and a page that is written.
use super::{ImageRefusal, read_pgm, write_pbm};
use std::alloc::Global;
use std::process::Abort;
use std::test::Fail;

// The file is a page of this width and height with these greys.
fn reads(
    rt: &impl Abort,
    heap: Global,
    file: &[u8],
    width: usize,
    height: usize,
    greys: &[u8],
) -> Result<(), Fail> {
    match read_pgm(heap, file)? {
        Ok(page) => {
            assert_eq!(rt; page.width(), width);
            assert_eq!(rt; page.height(), height);
            assert!(rt; page.greys() == greys);
        }
        Err(refusal) => assert!(rt; false, "{}", refusal),
    }
    Ok(())
}

// The file is refused, with the number of the question.
fn refuses(
    rt: &impl Abort,
    heap: Global,
    file: &[u8],
    refusal: ImageRefusal,
    question: u8,
) -> Result<(), Fail> {
    match read_pgm(heap, file)? {
        Ok(_) => assert!(rt; false, "{}", refusal),
        Err(told) => assert_eq!(rt; told, refusal),
    }
    assert_eq!(rt; refusal.question(), question);
    Ok(())
}

#[test]
fn pages_of_both_forms(rt: HostRuntime) -> Result<(), Fail> {
    let heap = rt.alloc();
    reads(
        &rt,
        heap,
        b"P5\n3 2\n255\n\0\x01#\n\xfe\xff and more",
        3,
        2,
        b"\0\x01#\n\xfe\xff",
    )?;
    reads(
        &rt,
        heap,
        b"P2#a page\r3\t# of three\n2 \x0b\x0c15\n0 3 7\r\n#second row\n011 15\n0x",
        3,
        2,
        b"\0\x33\x77\xbb\xff\0",
    )
}

#[test]
fn files_that_are_refused(rt: HostRuntime) -> Result<(), Fail> {
    let heap = rt.alloc();
    refuses(&rt, heap, b"P1 1 1 1 0", ImageRefusal::NotPgm, 60)?;
    refuses(&rt, heap, b"P2 1 16385 1 0", ImageRefusal::SizeRange, 61)?;
    refuses(
        &rt,
        heap,
        b"P2 99999999999999999999999999999999999999999 1 1 0",
        ImageRefusal::SizeRange,
        61,
    )?;
    refuses(
        &rt,
        heap,
        b"P5 1 1 255#\n\0",
        ImageRefusal::LargestRange,
        62,
    )?;
    refuses(
        &rt,
        heap,
        b"P5 2 1 255 \0",
        ImageRefusal::NoGrey { pixel: 1 },
        63,
    )?;
    refuses(
        &rt,
        heap,
        b"P2 3 1 15 15 16",
        ImageRefusal::AboveLargest { pixel: 1 },
        64,
    )
}

#[test]
fn a_page_that_is_written(rt: HostRuntime) -> Result<(), Fail> {
    let heap = rt.alloc();
    match read_pgm(heap, b"P5 3 2 255 abcdef")? {
        Ok(page) => {
            let text = write_pbm(heap, &page, &[true, false, true, true], 2, 37)?;
            assert_eq!(rt; text.as_str(), "P1\n# 2 tiles, energy 37\n3 2\n101\n100\n");
        }
        Err(refusal) => assert!(rt; false, "{}", refusal),
    }
    Ok(())
}
