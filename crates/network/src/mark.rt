// What is said of a node, given all cheapest selections.
ghost use Rattle.std.specs.Prelude.{◌≡◌, Some, MatchOption};
ghost use Rattle.network.specs.declared.mark.Mark.{Mark};
ghost use Rattle.network.specs.Marks.{mark_byte, mark_word};

use std::fmt;

#[derive(Clone, Copy, PartialEq, Eq, Debug)]
pub enum Mark {
    // every cheapest selection holds the node
    In,
    // none does
    Out,
    // some do and some do not
    Either,
}

// The byte that stands for the mark in a table of marks.
impl From<Mark> for u8 {
    ghost from_gives = { λ mark byte. byte ≡ mark_byte mark };

    fn from(mark: Mark) -> u8 {
        // each case has a number of its own, shared with no other enum; no discriminants, since an edit that gives two cases one must build
        match mark {
            Mark::In => 1,
            Mark::Out => 2,
            Mark::Either => 3,
        }
    }
}

impl Mark {
    // The mark that a byte stands for, if it stands for one.
    pub fn of(byte: u8) -> Option<Mark>
        ensures { MatchOption result ((m : Mark) → mark_byte m ≡ byte → ⊥) (λ m. mark_byte m ≡ byte) }
    {
        match byte {
            1 => Some(Mark::In),
            2 => Some(Mark::Out),
            3 => Some(Mark::Either),
            _ => None,
        }
    }
}

// The word that a listing has for the mark.
impl fmt::Display for Mark {
    ghost output = { λ m. Some (mark_word m) };

    fn fmt<W: fmt::Write>(&self, f: &mut fmt::Formatter<W>) -> fmt::Result {
        match self {
            Mark::In => write!(f, "in"),
            Mark::Out => write!(f, "out"),
            Mark::Either => write!(f, "either"),
        }
    }
}
