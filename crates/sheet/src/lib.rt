// The order sheet: what a sheet of bytes stands for, read where it lies.
#![tactic(auto)]

ghost use Rattle.std.specs.Prelude.{Some};
ghost use Rattle.sheet.specs.Texts.{counts_text};

mod bytes;
mod reading;
mod records;
mod refusal;
mod whole;

pub use reading::Reader;
pub use records::{Kind, Record};
pub use refusal::{Fault, SheetRefusal, Told};
use std::fmt;
pub use whole::read;

// How many entries a sheet has, and how many needs all of them together.
#[derive(Clone, Copy, PartialEq, Eq, Default, Debug)]
pub struct Counts {
    pub entries: usize,
    pub needs: usize,
}

impl fmt::Display for Counts {
    ghost output = { λ c. Some (counts_text c) };

    fn fmt<W: fmt::Write>(&self, f: &mut fmt::Formatter<W>) -> fmt::Result {
        write!(f, "entries {} needs {}", self.entries, self.needs)
    }
}
