// Sheets loaded into order books: what the book then holds, and what is refused.
use super::books::{UNUSED, counts, holds, is_the_shop, open, spared};
use book::{OpenBook, Record};
use filing::LoadRefusal;
use sheet::{Counts, Told};
use std::process::Abort;

// The shop of the order books: two jobs that share a set-up, the second of which also needs an entry that both earns and costs.
// 4 entries and 3 needs take 10 records.
const SHOP: &[u8] = b"\x05\0\0\0\x32\0\x02\
    \x0d\0\0\0\x1e\0\x02\0\x03\
    \x02\0\0\0\x3c\
    \x03\0\0\0\x07\0\0\0\x08";

// The book refuses each of these sheets with a number, a record and a byte.
fn refuses(rt: &impl Abort, book: &mut OpenBook, sheets: &[(&[u8], u8, usize, usize)]) {
    let before = counts(book);
    for (sheet, number, record, byte) in sheets {
        let told = Told {
            number: *number,
            record: *record,
            byte: *byte,
        };
        let answer = filing::load(book, sheet);
        assert_eq!(rt; answer.map_err(LoadRefusal::told), Err(told));
        assert_eq!(rt; counts(book), before);
    }
}

// A book over the table takes in the whole shop.
fn loads_the_shop(rt: &impl Abort, table: &mut [Record]) {
    let mut book = OpenBook::new(table);
    let answer = filing::load(&mut book, SHOP);
    let all = Counts {
        entries: 4,
        needs: 3,
    };
    assert_eq!(rt; answer, Ok(all));
    assert_eq!(rt; counts(&book), (4, 3, 87));
    let sealed = book.seal();
    is_the_shop(rt, &sealed);
    spared(rt, sealed.release(), 4, 3);
}

// Ten records are just enough for the shop; of twelve, two stay as they were.
#[test]
fn a_sheet_stands_in_the_book(rt: HostRuntime) {
    loads_the_shop(&rt, &mut [UNUSED; 10]);
    loads_the_shop(&rt, &mut [UNUSED; 12]);
}

// A book that has an entry is asked about before the sheet and the room.
#[test]
fn a_book_with_entries(rt: HostRuntime) {
    let mut table = [UNUSED; 11];
    let mut book = open(&rt, &mut table, &[(5, 6)], &[]);
    let sheets: [(&[u8], u8, usize, usize); 3] = [
        (SHOP, 10, 0, 0),
        (&[], 10, 0, 0),
        (&[0x00, 0x40], 10, 0, 0),
    ];
    refuses(&rt, &mut book, &sheets);
    holds(&rt, book.release(), &[(5, 6)], &[]);
    let mut full = [UNUSED; 1];
    let mut one = open(&rt, &mut full, &[(5, 6)], &[]);
    refuses(&rt, &mut one, &[(SHOP, 10, 0, 0)]);
}

#[test]
fn refused_sheets(rt: HostRuntime) {
    let mut table = [UNUSED; 12];
    let mut book = OpenBook::new(&mut table);
    let sheets: [(&[u8], u8, usize, usize); 4] = [
        (&[], 11, 0, 0),
        (&[0x00, 0x40], 13, 1, 1),
        (&[0x05, 0, 0, 0, 1, 0, 1], 18, 0, 0),
        (&[0x00, 0x04, 0, 2], 18, 1, 1),
    ];
    refuses(&rt, &mut book, &sheets);
    spared(&rt, book.release(), 0, 0);
}

// The sheet is asked about before the room. After a refused load the book can be loaded.
#[test]
fn short_tables(rt: HostRuntime) {
    let mut nine = [UNUSED; 9];
    let mut book = OpenBook::new(&mut nine);
    refuses(&rt, &mut book, &[(SHOP, 19, 0, 0)]);
    spared(&rt, book.release(), 0, 0);
    let mut none = OpenBook::new(&mut []);
    let sheets: [(&[u8], u8, usize, usize); 4] = [
        (&[0x00], 19, 0, 0),
        (&[], 11, 0, 0),
        (&[0x00, 0x40], 13, 1, 1),
        (&[0x04, 0, 1], 18, 0, 0),
    ];
    refuses(&rt, &mut none, &sheets);
    let mut table = [UNUSED; 1];
    let mut one = OpenBook::new(&mut table);
    refuses(&rt, &mut one, &[(&[0x04, 0, 1, 0x00], 19, 0, 0)]);
    let alone = Counts {
        entries: 1,
        needs: 0,
    };
    assert_eq!(rt; filing::load(&mut one, &[0x00]), Ok(alone));
    assert_eq!(rt; counts(&one), (1, 0, 0));
}
