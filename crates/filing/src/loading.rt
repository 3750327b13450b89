// Loading: an open book without entries is filled with all of a sheet, or with nothing.
ghost use Rattle.std.specs.Prelude.{◌≡◌, true, ℕ, List, Result as Outcome};
ghost use Rattle.sheet.specs.Answers.{SheetOf};
ghost use Rattle.sheet.specs.Format.{Entry};
ghost use Rattle.sheet.specs.Places.{entry_at};
ghost use Rattle.sheet.specs.Readers.{sheet_of};
ghost use Rattle.sheet.specs.Wholes.{TheAnswer};
ghost use Rattle.book.specs.Books.{empty};
ghost use Rattle.book.specs.Calls.{Open};
ghost use Rattle.book.specs.Values.{open_of};
ghost use Rattle.filing.specs.Loads.{Loaded};
ghost use Rattle.filing.specs.Passes.{Fitting, entries_alone, Filled, NeedsFit, with_needs};
ghost use Rattle.filing.specs.Books.{book_of};

use super::refusal::LoadRefusal;
use book::OpenBook;
use sheet::{Counts, Reader, Record, SheetRefusal};
use std::marker::Model;

// Fills a book that has no entries with all that a sheet tells. A refusal leaves the book as it was.
pub fn load(book: &mut OpenBook, sheet: &[u8]) -> Result<Counts, LoadRefusal>
    ensures loaded { Loaded (open_of book.old) sheet.now result (open_of book.new) }
    ensures only { (r : Outcome Counts LoadRefusal) (t : Open) → Loaded (open_of book.old) sheet.now r t → (r ≡ result) × (t.book ≡ (open_of book.new).book) }
{
    CheckedSheet::new(sheet).load_into(book)
}

// A sheet and the answer to its own questions: whoever learns from the answer how long a table has to be loads the sheet without having
// it read again. Contracts see its bytes.
#[derive(Debug, Drop)]
pub struct CheckedSheet<'a> {
    sheet: &'a [u8],
    answer: Result<Counts, SheetRefusal>,
}

impl<'a> Model for CheckedSheet<'a> {
    ghost Value = { List ℕ };

    ghost view = { λ s. s.sheet.now };

    ghost invariant = { λ s. TheAnswer s.sheet.now s.answer };
}

impl<'a> CheckedSheet<'a> {
    // Puts the sheet's own questions.
    pub fn new(sheet: &'a [u8]) -> CheckedSheet<'a>
        ensures { result ≡ sheet.now }
    {
        CheckedSheet {
            sheet,
            answer: sheet::read(sheet),
        }
    }

    // How many entries and needs the sheet has, or why it is refused.
    pub fn answer(&self) -> Result<Counts, SheetRefusal>
        ensures { TheAnswer self.now result }
    {
        self.answer
    }

    // Does what `load` does, and does not put the sheet's own questions again.
    pub fn load_into(&self, book: &mut OpenBook) -> Result<Counts, LoadRefusal>
        ensures loaded { Loaded (open_of book.old) self.now result (open_of book.new) }
        ensures only { (r : Outcome Counts LoadRefusal) (t : Open) → Loaded (open_of book.old) self.now r t → (r ≡ result) × (t.book ≡ (open_of book.new).book) }
    {
        if book.entry_count() > 0 {
            return Err(LoadRefusal::HasEntries);
        }
        let counts = self.answer?;
        if book.record_count() < counts.entries + 2 * counts.needs {
            return Err(LoadRefusal::ShortTable);
        }
        enter_all(book, self.sheet);
        need_all(book, self.sheet);
        Ok(counts)
    }
}

// Enters the sheet's entries, of which the load has asked all. A need may be of a later entry, so the needs wait for a second pass. Neither
// pass is put in line, where a program's own loops would have fewer registers left.
#[inline(never)]
fn enter_all(book: &mut OpenBook, sheet: &[u8])
    requires fits { Fitting sheet.now (open_of book.old) }
    requires new { (open_of book.old).book ≡ empty }
    ensures { (es : List Entry) → SheetOf sheet.now es → Filled (entries_alone es) (open_of book.old) (open_of book.new) }
{
    let mut reader = Reader::new(sheet);
    while let Some(found) = reader.next_sound() {
        let entered = book.enter(reader.earning(&found), reader.cost(&found));
        known(entered.is_ok());
    }
}

// Enters the needs of the sheet's entries, in its order.
#[inline(never)]
fn need_all(book: &mut OpenBook, sheet: &[u8])
    requires fits { Fitting sheet.now (open_of book.old) }
    requires entered { (es : List Entry) → SheetOf sheet.now es → (open_of book.old).book ≡ entries_alone es }
    ensures { (es : List Entry) → SheetOf sheet.now es → Filled (book_of es) (open_of book.old) (open_of book.new) }
{
    let mut reader = Reader::new(sheet);
    while let Some(found) = reader.next_sound() {
        enter_needs(book, &reader, &found);
    }
}

// Enters the needs of the entry that stands at the places of a record.
fn enter_needs(book: &mut OpenBook, reader: &Reader, found: &Record)
    requires { NeedsFit (open_of book.old) found.now.number (entry_at (sheet_of reader.now) found.now).needs }
    ensures { Filled (with_needs (open_of book.old).book found.now.number (entry_at (sheet_of reader.now) found.now).needs) (open_of book.old) (open_of book.new) }
{
    for j in 0..found.count {
        let needed = reader.need(found, j).unwrap();
        known(book.need(found.number, needed).is_ok());
    }
}

// Tells the compiler what is proved, so that it drops the test and all that serves the test alone; `unwrap` would leave both, and a trap.
// The way that is never taken writes to an element of an empty array, which means nothing to a compiler, so that it leaves the way out.
#[inline(always)]
fn known(holds: bool)
    requires { holds ≡ true }
{
    let mut none: [&mut u8; 0] = [];
    if !holds {
        *none[0] = 0;
    }
}
