// The answer to a whole sheet: how many entries and needs it has, or the first question that fails.
ghost use Rattle.std.specs.Prelude.{ℕ, ◌<◌, Err, MatchResult};
ghost use Rattle.sheet.specs.Places.{entry_at};
ghost use Rattle.sheet.specs.Readers.{sheet_of};
ghost use Rattle.sheet.specs.Sound.{Ordered, There};
ghost use Rattle.sheet.specs.Wholes.{Counted, Tallied, TheAnswer};

use super::Counts;
use super::reading::Reader;
use super::records::Record;
use super::refusal::SheetRefusal;

// Reads a whole sheet: the first question that fails is the refusal. Only where an entry is missing is it gone through a second time, for
// the first record that needs one. It is not put in line, where a program's own loops would have fewer registers left.
#[inline(never)]
pub fn read(sheet: &[u8]) -> Result<Counts, SheetRefusal>
    ensures { TheAnswer sheet.now result }
{
    let (counts, highest) = count(sheet)?;
    if highest < counts.entries {
        return Ok(counts);
    }
    find_missing(sheet, counts)
}

// Puts the questions of each record by itself, and answers how many entries and needs there are, and the highest need of all.
fn count(sheet: &[u8]) -> Result<(Counts, usize), SheetRefusal>
    ensures { MatchResult result (λ t. Tallied sheet.now t.0 t.1) (λ x. TheAnswer sheet.now (Err x)) }
{
    if sheet.is_empty() {
        return Err(SheetRefusal::Empty);
    }
    let mut reader = Reader::new(sheet);
    let mut counts = Counts::default();
    let mut highest = 0;
    while let Some(found) = reader.next()? {
        counts.entries += 1;
        counts.needs += usize::from(found.count);
        highest = highest.max(highest_need(&reader, &found));
    }
    Ok((counts, highest))
}

// Asks of each record in turn whether the entries that it needs are there, and answers the counts if all are.
fn find_missing(sheet: &[u8], counts: Counts) -> Result<Counts, SheetRefusal>
    requires { Counted sheet.now counts }
    ensures { TheAnswer sheet.now result }
{
    let mut reader = Reader::new(sheet);
    while let Some(found) = reader.next()? {
        if highest_need(&reader, &found) >= counts.entries {
            return Err(SheetRefusal::Missing {
                record: found.number,
                byte: found.byte,
            });
        }
    }
    Ok(counts)
}

// The highest need of a record, or 0 where it has none. Its needs ascend, so the last one tells.
#[inline(always)]
fn highest_need(reader: &Reader, found: &Record) -> usize
    requires { (i : ℕ) × Ordered i (entry_at (sheet_of reader.now) found.now).needs }
    ensures there { (n : ℕ) → result < n → There n (entry_at (sheet_of reader.now) found.now) }
    ensures least { (n : ℕ) → 0 < n → There n (entry_at (sheet_of reader.now) found.now) → result < n }
{
    reader
        .need(found, found.count.saturating_sub(1))
        .unwrap_or(0)
}
