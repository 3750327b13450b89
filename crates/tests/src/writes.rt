// Sheets written of order books: their bytes, the buffers that they fit, and what loads back.
use super::books::{UNUSED, counts, open};
use book::{OpenBook, Record};
use filing::WriteRefusal;
use std::process::Abort;
use std::test::Fail;

// Entries with no amount, an earning, a cost and both, and needs from none to four, entered in no order.
const ENTRIES: [(u32, u32); 5] = [(0, 0), (50, 0), (0, 1_000_000), (258, 1), (0, 0)];

const NEEDS: [(usize, usize); 8] = [
    (4, 3),
    (1, 4),
    (4, 2),
    (3, 0),
    (4, 1),
    (1, 2),
    (4, 0),
    (3, 4),
];

const SHEET: &[u8] = b"\x00\
    \x0d\0\0\0\x32\0\x02\0\x04\
    \x02\0\x0f\x42\x40\
    \x0f\0\0\x01\x02\0\0\0\x01\0\0\0\x04\
    \x3c\0\0\0\x01\0\x02\0\x03";

// What stands in each byte of a buffer before a sheet is written into it.
const OLD: u8 = 0xa5;

// The book's sheet is written into the buffer, and what follows it is as it was.
fn writes(rt: &impl Abort, book: &OpenBook, buffer: &mut [u8], sheet: &[u8]) {
    buffer.fill(OLD);
    assert_eq!(rt; filing::write(book, buffer), Ok(sheet.len()));
    assert!(rt; buffer.starts_with(sheet));
    assert!(rt; buffer.iter().skip(sheet.len()).all(|byte| *byte == OLD));
}

// The book's sheet is longer than the buffer, which is as it was.
fn too_long(rt: &impl Abort, book: &OpenBook, buffer: &mut [u8]) {
    buffer.fill(OLD);
    let answer = filing::write(book, buffer);
    assert_eq!(rt; answer.map_err(WriteRefusal::question), Err(20));
    assert!(rt; buffer.iter().all(|byte| *byte == OLD));
}

// The sheet, loaded into a new book over the table, gives a book that has the same sheet.
fn loads_back(rt: &impl Abort, table: &mut [Record], sheet: &[u8], buffer: &mut [u8]) {
    let mut book = OpenBook::new(table);
    assert!(rt; filing::load(&mut book, sheet).is_ok());
    writes(rt, &book, buffer, sheet);
}

// 37 bytes are just enough, and 36 are not.
#[test]
fn a_sheet_is_written(rt: HostRuntime) {
    let mut table = [UNUSED; 21];
    let book = open(&rt, &mut table, &ENTRIES, &NEEDS);
    writes(&rt, &book, &mut [0; 40], SHEET);
    writes(&rt, &book, &mut [0; 37], SHEET);
    too_long(&rt, &book, &mut [0; 36]);
    too_long(&rt, &book, &mut []);
    assert_eq!(rt; counts(&book), (5, 8, 308));
    loads_back(&rt, &mut [UNUSED; 21], SHEET, &mut [0; 37]);
}

// The sheet of a book without entries has no byte.
#[test]
fn a_book_without_entries(rt: HostRuntime) {
    let book = OpenBook::new(&mut []);
    writes(&rt, &book, &mut [], &[]);
    writes(&rt, &book, &mut [0; 3], &[]);
}

// Enters 4,096 entries with both amounts, each of which needs the four before it, the nearest first.
fn enter_most(rt: &impl Abort, book: &mut OpenBook) {
    for i in 0..4096 {
        assert_eq!(rt; book.enter(1_000_000, 999_999), Ok(i));
    }
    for i in 0..4096 {
        for j in 1..5 {
            assert_eq!(rt; book.need(i, (4096 + i - j) % 4096), Ok(()));
        }
    }
}

// Each record of the largest book has 17 bytes.
#[test]
fn the_largest_book(rt: HostRuntime) -> Result<(), Fail> {
    let heap = rt.alloc();
    let mut table = vec![in heap; UNUSED; 36_864]?;
    let mut book = OpenBook::new(&mut table);
    enter_most(&rt, &mut book);
    let mut short = vec![in heap; OLD; 69_631]?;
    too_long(&rt, &book, &mut short);
    let mut sheet = vec![in heap; OLD; filing::MOST_SHEET_BYTES]?;
    assert_eq!(rt; filing::write(&book, &mut sheet), Ok(69_632));
    assert_eq!(rt; sheet.len(), 69_632);
    let last = b"\x3f\0\x0f\x42\x40\0\x0f\x42\x3f\x0f\xfb\x0f\xfc\x0f\xfd\x0f\xfe";
    assert!(rt; sheet.ends_with(last));
    let mut other_table = vec![in heap; UNUSED; 36_864]?;
    let mut other = vec![in heap; OLD; 69_632]?;
    loads_back(&rt, &mut other_table, &sheet, &mut other);
    Ok(())
}
