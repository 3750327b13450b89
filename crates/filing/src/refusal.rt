// Why a sheet is not loaded or not written, and what each refusal tells.
ghost use Rattle.std.specs.Prelude.{◌≡◌};
ghost use Rattle.filing.specs.Refusals.{told, question};
ghost use Rattle.filing.specs.declared.refusal.LoadRefusal.TheVariants.{Sheet};

use sheet::{SheetRefusal, Told};

#[derive(Clone, Copy, PartialEq, Eq, Debug)]
pub enum LoadRefusal {
    // the book has entries already
    HasEntries,
    // the sheet itself is refused
    Sheet(SheetRefusal),
    // the table has too few records for the sheet's entries and needs
    ShortTable,
}

impl From<SheetRefusal> for LoadRefusal {
    ghost from_gives = { λ refusal load. load ≡ Sheet refusal };

    fn from(refusal: SheetRefusal) -> Self {
        Self::Sheet(refusal)
    }
}

impl LoadRefusal {
    // The number of the question whose answer is no, and the record of the sheet that it is about: a rule of the project has a method
    // answer these. A refusal that is about no record tells the first one.
    pub fn told(self) -> Told
        ensures { result ≡ told self }
    {
        let number = match self {
            LoadRefusal::HasEntries => 10,
            LoadRefusal::Sheet(refusal) => return refusal.told(),
            LoadRefusal::ShortTable => 19,
        };
        Told {
            number,
            record: 0,
            byte: 0,
        }
    }
}

#[derive(Clone, Copy, PartialEq, Eq, Debug)]
pub enum WriteRefusal {
    // the buffer is shorter than the sheet
    ShortBuffer,
}

impl WriteRefusal {
    // The number of the question whose answer is no; a rule of the project has a method answer it.
    pub fn question(self) -> u8
        ensures { result ≡ question self }
    {
        match self {
            WriteRefusal::ShortBuffer => 20,
        }
    }
}
