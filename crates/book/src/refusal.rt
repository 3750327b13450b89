// Why an open book refuses an entry or a need, and the number of each refusal.
ghost use Rattle.std.specs.Prelude.{◌≡◌, ◌≤◌, length, OnOk};
ghost use Rattle.std.specs.Result.{result_err};
ghost use Rattle.book.specs.Refusals.{enter_question, enter_refusal, need_question, need_refusal};
ghost use Rattle.book.specs.Accepted.{Enters, Needs};
ghost use Rattle.book.specs.Tables.{columns, AtMostFour};

use super::record::Record;

// The largest amount of an entry. It and the most entries are those of a sheet, on whose crate the book does not stand.
pub const MOST_AMOUNT: u32 = 1_000_000;

// The most entries that a book may have.
pub const MOST_ENTRIES: usize = 4_096;

// The most needs that an entry may have.
pub const MOST_NEEDS: usize = 4;

// The questions put to an entry, in this order.
#[derive(Clone, Copy, PartialEq, Eq, Debug)]
pub enum EnterRefusal {
    // the earning is above 1,000,000
    LargeEarning,
    // the cost is above 1,000,000
    LargeCost,
    // there are 4,096 entries
    ManyEntries,
    // no record is unused
    NoRecord,
}

impl EnterRefusal {
    // Puts the questions to an entry, where the book has so many entries and its table so many unused records.
    #[inline(always)]
    pub(crate) fn check(
        earning: u32,
        cost: u32,
        entries: usize,
        unused: usize,
    ) -> Result<(), EnterRefusal>
        ensures refusal { result_err result ≡ enter_refusal earning cost entries unused }
        ensures accepted { OnOk result (Enters earning cost entries unused) }
    {
        if earning > MOST_AMOUNT {
            Err(EnterRefusal::LargeEarning)
        } else if cost > MOST_AMOUNT {
            Err(EnterRefusal::LargeCost)
        } else if entries >= MOST_ENTRIES {
            Err(EnterRefusal::ManyEntries)
        } else if unused == 0 {
            Err(EnterRefusal::NoRecord)
        } else {
            Ok(())
        }
    }

    // The number of the question whose answer is no; a rule of the project has a method answer it.
    pub fn question(self) -> u8
        ensures { result ≡ enter_question self }
    {
        // each case has a number of its own, shared with no other enum; no discriminants, since an edit that gives two cases one must build
        match self {
            EnterRefusal::LargeEarning => 1,
            EnterRefusal::LargeCost => 2,
            EnterRefusal::ManyEntries => 3,
            EnterRefusal::NoRecord => 4,
        }
    }
}

// The questions put to a need, in this order.
#[derive(Clone, Copy, PartialEq, Eq, Debug)]
pub enum NeedRefusal {
    // one of the two entries is not there
    NoEntry,
    // an entry does not need itself
    Itself,
    // the book has this need
    Repeated,
    // the entry has four needs
    ManyNeeds,
    // fewer than two records are unused
    FewRecords,
}

impl NeedRefusal {
    // Puts the questions to a need, where the book's entries have these records and its table so many unused ones.
    #[inline(always)]
    pub(crate) fn check(
        entry: usize,
        needed: usize,
        entries: &[Record],
        unused: usize,
    ) -> Result<(), NeedRefusal>
        requires few { length entries.now ≤ 4096 }
        requires four { AtMostFour (columns entries.now (length entries.now) 0) (length entries.now) }
        ensures refusal { result_err result ≡ need_refusal entry needed ((columns entries.now (length entries.now) 0).needed entry) (length entries.now) unused }
        ensures accepted { OnOk result (Needs entry needed ((columns entries.now (length entries.now) 0).needed entry) (length entries.now) unused) }
    {
        if entry >= entries.len() || needed >= entries.len() {
            return Err(NeedRefusal::NoEntry);
        }
        let record = &entries[entry];
        if entry == needed {
            Err(NeedRefusal::Itself)
        } else if record.has_need(needed as u16) {
            Err(NeedRefusal::Repeated)
        } else if usize::from(record.needs_or_index) >= MOST_NEEDS {
            Err(NeedRefusal::ManyNeeds)
        } else if unused < 2 {
            Err(NeedRefusal::FewRecords)
        } else {
            Ok(())
        }
    }

    // The number of the question whose answer is no; a rule of the project has a method answer it.
    pub fn question(self) -> u8
        ensures { result ≡ need_question self }
    {
        // each case has a number of its own, shared with no other enum; no discriminants, since an edit that gives two cases one must build
        match self {
            NeedRefusal::NoEntry => 5,
            NeedRefusal::Itself => 6,
            NeedRefusal::Repeated => 7,
            NeedRefusal::ManyNeeds => 8,
            NeedRefusal::FewRecords => 9,
        }
    }
}
