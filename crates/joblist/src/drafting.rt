// The order sheet of a job list.
ghost use Rattle.std.specs.Prelude.{◌≡◌, map, IfOk, vec_items};
ghost use Rattle.book.specs.Values.{open_of};
ghost use Rattle.filing.specs.Sheets.{sheet_of};
ghost use Rattle.filing.specs.Writes.{LoadsBack};
ghost use Rattle.joblist.specs.Drafts.{bytes_of, Drafted};
ghost use Rattle.joblist.specs.Passes.{value_of, Sound, EntriesDrafted};

use super::entry::Entry;
use super::filling::{enter_all, need_all};
use super::reading::read_lines;
use super::refusal::JobRefusal;
use book::{MOST_ENTRIES, MOST_NEEDS, OpenBook, Record};
use filing::MOST_SHEET_BYTES;
use std::alloc::{AllocError, Global};

// The most bytes that a job list may have.
pub const MOST_BYTES: usize = 1_048_576;

// How many records the largest book uses: one for each entry, and two for each need.
const RECORDS: usize = MOST_ENTRIES * (1 + 2 * MOST_NEEDS);

// The order sheet of the book that a job list tells. A text that is longer than a job list may be is refused unread.
pub fn to_sheet(heap: Global, text: &[u8]) -> Result<Result<Vec<u8>, JobRefusal>, AllocError>
    ensures { IfOk result (λ answer. Drafted text.now (bytes_of answer)) }
{
    if text.len() > MOST_BYTES {
        return Ok(Err(JobRefusal::TooLong));
    }
    match read_lines(heap, text)? {
        Ok(entries) => draft(heap, &entries),
        Err(refusal) => Ok(Err(refusal)),
    }
}

// The order sheet of the book of some entries, or the first fault of a name that one needs.
fn draft(heap: Global, entries: &[Entry]) -> Result<Result<Vec<u8>, JobRefusal>, AllocError>
    requires { Sound (map value_of entries.now) }
    ensures { IfOk result (λ answer. EntriesDrafted (map value_of entries.now) (bytes_of answer)) }
{
    let mut table = vec![in heap; Record::default(); RECORDS]?;
    let mut book = OpenBook::new(&mut table);
    enter_all(&mut book, entries);
    if let Err(refusal) = need_all(&mut book, entries) {
        return Ok(Err(refusal));
    }
    let sheet = write_sheet(heap, &book)?;
    Ok(Ok(sheet))
}

// The sheet of a book.
fn write_sheet(heap: Global, book: &OpenBook) -> Result<Vec<u8>, AllocError>
    ensures whole { IfOk result (λ sheet. vec_items sheet ≡ sheet_of (open_of book.now).book) }
    ensures back { IfOk result (λ sheet. LoadsBack (open_of book.now).book (vec_items sheet)) }
{
    let mut sheet = vec![in heap; 0; MOST_SHEET_BYTES]?;
    let length = filing::write(book, &mut sheet).unwrap();
    sheet.truncate(length);
    Ok(sheet)
}
