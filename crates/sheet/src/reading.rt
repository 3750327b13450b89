// A reader: a cursor over a borrowed sheet that hands out its records, one after another, and copies nothing.
ghost use Rattle.std.specs.Prelude.{◌≡◌, Ok};
ghost use Rattle.std.specs.List.{slice_get};
ghost use Rattle.sheet.specs.Layout.{laid_ahead, behind};
ghost use Rattle.sheet.specs.Places.{Handed, InTurn, NoneRefused, amount, amount_at, entry_at, start};
ghost use Rattle.sheet.specs.Readers.{sheet_of, cursor};

use super::bytes::{amount_at, need_at};
use super::records::{Record, record_at, sound_record_at};
use super::refusal::SheetRefusal;

// No `Iterator`: at a record that is refused it would hand out the same refusal for ever.
#[derive(Clone, Copy, PartialEq, Eq, Debug)]
pub struct Reader<'a> {
    sheet: &'a [u8],
    // the place of the next record's first byte, and that record's number
    at: usize,
    number: usize,
}

impl<'a> Reader<'a> {
    // A reader that stands before the first record.
    #[inline(always)]
    pub fn new(sheet: &'a [u8]) -> Reader<'a>
        ensures sheet { sheet_of result ≡ sheet.now }
        ensures cursor { cursor result ≡ start }
    {
        Reader {
            sheet,
            at: 0,
            number: 0,
        }
    }

    // The next record, or none at the sheet's end. A record that is refused leaves the cursor where it is.
    #[inline(always)]
    pub fn next(&mut self) -> Result<Option<Record>, SheetRefusal>
        ensures sheet { sheet_of self.new ≡ sheet_of self.old }
        ensures handed { Handed (sheet_of self.old) (cursor self.old) (cursor self.new) result }
        ensures in_turn { InTurn (sheet_of self.old) (cursor self.old) result }
    {
        if self.at >= self.sheet.len() {
            return Ok(None);
        }
        let refused = |fault| SheetRefusal::Faulty {
            fault,
            record: self.number,
            byte: self.at,
        };
        let found = record_at(self.sheet, self.number, self.at).map_err(refused)?;
        self.at = found.end;
        self.number += 1;
        Ok(Some(found))
    }

    // The record that the next bit map lays out: no question is put to it. It is what `next` answers where that would refuse nothing, as
    // in a sheet that was read and accepted.
    #[inline(always)]
    pub fn next_sound(&mut self) -> Option<Record>
        ensures sheet { sheet_of self.new ≡ sheet_of self.old }
        ensures handed { NoneRefused (sheet_of self.old) (cursor self.old) → Handed (sheet_of self.old) (cursor self.old) (cursor self.new) (Ok result) }
        ensures in_turn { InTurn (sheet_of self.old) (cursor self.old) (Ok result) }
        ensures laid { result ≡ laid_ahead (sheet_of self.old) (cursor self.old) }
        ensures behind { cursor self.new ≡ behind (cursor self.old) result }
    {
        if self.at >= self.sheet.len() {
            return None;
        }
        let found = sound_record_at(self.sheet, self.number, self.at);
        self.at = found.end;
        self.number = self.number.saturating_add(1);
        Some(found)
    }

    // The amount at a place, and 0 where there is no place. Which records have one is not foreseen, so some is read in any case.
    #[inline(always)]
    fn amount(&self, place: Option<usize>) -> u32
        ensures { result ≡ amount (amount_at (sheet_of self.now) place) }
    {
        let amount = amount_at(self.sheet, place.unwrap_or(0));
        if place.is_some() { amount } else { 0 }
    }

    // What the entry earns that stands at the places of a record; 0 where it has no earning.
    #[inline(always)]
    pub fn earning(&self, found: &Record) -> u32
        ensures { result ≡ amount (entry_at (sheet_of self.now) found.now).earning }
    {
        self.amount(found.kind.earning())
    }

    // What the entry costs that stands at the places of a record; 0 where it has no cost. It and `earning` are both public, and what
    // they share is `amount`.
    #[inline(always)]
    pub fn cost(&self, found: &Record) -> u32
        ensures { result ≡ amount (entry_at (sheet_of self.now) found.now).cost }
    {
        self.amount(found.kind.cost())
    }

    // Need number `j` of the entry that stands at the places of a record; none past its last need.
    #[inline(always)]
    pub fn need(&self, found: &Record, j: u8) -> Option<usize>
        ensures { result ≡ slice_get (entry_at (sheet_of self.now) found.now).needs j }
    {
        (j < found.count).then(|| usize::from(need_at(self.sheet, found.needs, j)))
    }
}
