// Why a sheet is refused, and the number, record and byte that each refusal tells.
ghost use Rattle.std.specs.Prelude.{◌≡◌, Some};
ghost use Rattle.sheet.specs.Refusals.{question, told};
ghost use Rattle.sheet.specs.Texts.{told_text};

use std::fmt;

// A fault of one record by itself. Each is a question that is put to the record, in this order.
#[derive(Clone, Copy, PartialEq, Eq, Debug)]
pub enum Fault {
    // it is past the first 4,096 records
    TooMany,
    // bit 6 or bit 7 of its bit map stands
    HighBits,
    // its need bits leave a gap from bit 2 up
    NeedGap,
    // the sheet ends within it
    CutShort,
    // an amount that is present is 0 or above 1,000,000
    AmountRange,
    // its needs do not ascend, or one is its own number
    NeedOrder,
}

impl Fault {
    // The number of the question that the record failed; a rule of the project has a method answer it.
    pub fn question(self) -> u8
        ensures { result ≡ question self }
    {
        // each case has a number of its own, shared with no other enum; no discriminants, since an edit that gives two cases one must build
        match self {
            Fault::TooMany => 12,
            Fault::HighBits => 13,
            Fault::NeedGap => 14,
            Fault::CutShort => 15,
            Fault::AmountRange => 16,
            Fault::NeedOrder => 17,
        }
    }
}

// Why a sheet is refused. A record goes by its number and the place of its first byte, both counted from 0.
#[derive(Clone, Copy, PartialEq, Eq, Debug)]
pub enum SheetRefusal {
    // there is no byte at all
    Empty,
    // a record has a fault by itself
    Faulty {
        fault: Fault,
        record: usize,
        byte: usize,
    },
    // all records are sound, and this one needs an entry that is not there
    Missing {
        record: usize,
        byte: usize,
    },
}

// What a refusal tells: the number of the question that failed, and the record by its number and first byte.
#[derive(Clone, Copy, PartialEq, Eq, Debug)]
pub struct Told {
    pub number: u8,
    pub record: usize,
    pub byte: usize,
}

impl fmt::Display for Told {
    ghost output = { λ t. Some (told_text t) };

    fn fmt<W: fmt::Write>(&self, f: &mut fmt::Formatter<W>) -> fmt::Result {
        write!(
            f,
            "refused {} record {} byte {}",
            self.number, self.record, self.byte
        )
    }
}

impl SheetRefusal {
    // The number of the question, and the record, that the refusal tells: a rule of the project has a method answer these.
    pub fn told(self) -> Told
        ensures { result ≡ told self }
    {
        let (number, record, byte) = match self {
            SheetRefusal::Empty => (11, 0, 0),
            SheetRefusal::Faulty {
                fault,
                record,
                byte,
            } => (fault.question(), record, byte),
            SheetRefusal::Missing { record, byte } => (18, record, byte),
        };
        Told {
            number,
            record,
            byte,
        }
    }
}
