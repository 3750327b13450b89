// The second and the third pass: the entries, and then what they need, are put into a book.
ghost use Rattle.std.specs.Prelude.{◌≡◌, ◌<◌, ◌≤◌, length, map, IfOk};
ghost use Rattle.std.specs.Result.{result_err};
ghost use Rattle.book.specs.Books.{empty};
ghost use Rattle.book.specs.Values.{open_of};
ghost use Rattle.filing.specs.Passes.{Filled};
ghost use Rattle.joblist.specs.Faults.{is_among, number_of, need_fault};
ghost use Rattle.joblist.specs.Passes.{value_of, place_of, Sound, NeedsFit, NeedsEntered, with_entries, with_needs_of, AllNeedsEntered};

use super::entry::Entry;
use super::refusal::{Fault, JobRefusal};
use book::OpenBook;

// Enters the entries. What one needs may stand on a later line, so the needs wait.
pub(crate) fn enter_all(book: &mut OpenBook, entries: &[Entry])
    requires sound { Sound (map value_of entries.now) }
    requires new { (open_of book.old).book ≡ empty }
    requires room { 36864 ≤ length (open_of book.old).table.now }
    ensures { Filled (with_entries (map value_of entries.now)) (open_of book.old) (open_of book.new) }
{
    for entry in entries {
        book.enter(entry.earning, entry.cost).unwrap();
    }
}

// Enters what the entries need, as far as the first name with a fault.
pub(crate) fn need_all(book: &mut OpenBook, entries: &[Entry]) -> Result<(), JobRefusal>
    requires sound { Sound (map value_of entries.now) }
    requires entered { (open_of book.old).book ≡ with_entries (map value_of entries.now) }
    requires room { 36864 ≤ length (open_of book.old).table.now }
    ensures { AllNeedsEntered (map value_of entries.now) (open_of book.old) result (open_of book.new) }
{
    for (number, entry) in entries.iter().enumerate() {
        if let Err(fault) = enter_needs(book, entries, number) {
            return Err(JobRefusal::Faulty {
                fault,
                line: entry.line,
            });
        }
    }
    Ok(())
}

// Enters what one entry needs, as far as the first name with a fault.
fn enter_needs(book: &mut OpenBook, entries: &[Entry], number: usize) -> Result<(), Fault>
    requires { NeedsFit (map value_of entries.now) number (open_of book.old) }
    ensures { NeedsEntered (map value_of entries.now) number (open_of book.old) result (open_of book.new) }
{
    let names = entries[number].needs.as_slice();
    for (place, name) in names.iter().enumerate() {
        let needed = find(entries, number, &names[..place], name)?;
        book.need(number, needed).unwrap();
    }
    Ok(())
}

// The number of the entry with this name, for entry `number`, whose line has the names `before` in front of it.
fn find(entries: &[Entry], number: usize, before: &[&[u8]], name: &[u8]) -> Result<usize, Fault>
    ensures fault { result_err result ≡ need_fault (map value_of entries.now) number (map (λ other. other.now) before.now) name.now }
    ensures number { IfOk result (λ needed. needed ≡ number_of (map value_of entries.now) name.now) }
{
    let needed = place_of(entries, name).ok_or(Fault::Unknown)?;
    if needed == number {
        Err(Fault::Itself)
    } else if is_among(before, name) {
        Err(Fault::Repeated)
    } else {
        Ok(needed)
    }
}

// The number of the first entry with a name.
fn place_of(entries: &[Entry], name: &[u8]) -> Option<usize>
    ensures { result ≡ place_of (map value_of entries.now) name.now }
{
    entries.iter().position(|entry| entry.name == name)
}

// Whether a name is one of some.
fn is_among(names: &[&[u8]], name: &[u8]) -> bool
    ensures { result ≡ is_among (map (λ other. other.now) names.now) name.now }
{
    names.iter().any(|other| *other == name)
}
