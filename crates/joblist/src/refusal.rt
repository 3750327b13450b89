// Why a job list is refused, and the number, line and text that each refusal tells.
ghost use Rattle.std.specs.Prelude.{◌≡◌, Some};
ghost use Rattle.joblist.specs.Refusals.{question, told};
ghost use Rattle.joblist.specs.Texts.{fault_text, refusal_text};

use std::error::Error;
use std::fmt;

// A fault of a line. Each is a question that is put to it: the first five to the line by itself, in this order, and once all lines have
// passed those, the others to each name that it needs.
#[derive(Clone, Copy, PartialEq, Eq, Debug)]
pub enum Fault {
    // it is not `job` or `set-up` with a name and an amount, nor `both` with a name and two
    NoEntry,
    // an amount is not a number from 0 to 1,000,000
    AmountRange,
    // an earlier line has its name
    NameTaken,
    // it is past the first 4,096 entries
    TooMany,
    // it needs more than four
    ManyNeeds,
    // no line has the name
    Unknown,
    // the name is its own
    Itself,
    // it needs that name already
    Repeated,
}

impl Fault {
    // The number of the question whose answer is no; a rule of the project has a method answer it.
    pub fn question(self) -> u8
        ensures { result ≡ question self }
    {
        // each case has a number of its own, shared with no other enum; no discriminants, since an edit that gives two cases one must build
        match self {
            Fault::NoEntry => 51,
            Fault::AmountRange => 52,
            Fault::NameTaken => 53,
            Fault::TooMany => 54,
            Fault::ManyNeeds => 55,
            Fault::Unknown => 56,
            Fault::Itself => 57,
            Fault::Repeated => 58,
        }
    }
}

impl fmt::Display for Fault {
    ghost output = { λ fault. Some (fault_text fault) };

    fn fmt<W: fmt::Write>(&self, f: &mut fmt::Formatter<W>) -> fmt::Result {
        match self {
            Fault::NoEntry => write!(
                f,
                "it is not job or set-up, a name and an amount, nor both, a name and two amounts"
            ),
            Fault::AmountRange => write!(
                f,
                "what stands behind its name is not a number from 0 to 1000000"
            ),
            Fault::NameTaken => write!(f, "an earlier line has this name"),
            Fault::TooMany => write!(f, "it is past the first 4096 entries"),
            Fault::ManyNeeds => write!(f, "it needs more than four"),
            Fault::Unknown => write!(f, "it needs a name that no line has"),
            Fault::Itself => write!(f, "it needs itself"),
            Fault::Repeated => write!(f, "it needs the same name twice"),
        }
    }
}

// Why a job list is refused.
#[derive(Clone, Copy, PartialEq, Eq, Debug)]
pub enum JobRefusal {
    // the text has more than 1,048,576 bytes
    TooLong,
    // a line has a fault
    Faulty { fault: Fault, line: usize },
}

// What a refusal tells: the number of the question whose answer is no, and of the line that it is about, from 1; 0 stands for the text.
#[derive(Clone, Copy, PartialEq, Eq, Debug)]
pub struct Told {
    pub number: u8,
    pub line: usize,
}

impl JobRefusal {
    // The numbers of the question and the line: a rule of the project has a method answer these.
    pub fn told(self) -> Told
        ensures { result ≡ told self }
    {
        match self {
            JobRefusal::TooLong => Told {
                number: 50,
                line: 0,
            },
            JobRefusal::Faulty { fault, line } => Told {
                number: fault.question(),
                line,
            },
        }
    }
}

impl fmt::Display for JobRefusal {
    ghost output = { λ refusal. Some (refusal_text refusal) };

    fn fmt<W: fmt::Write>(&self, f: &mut fmt::Formatter<W>) -> fmt::Result {
        match self {
            JobRefusal::TooLong => write!(f, "the text has more than 1048576 bytes (50)"),
            JobRefusal::Faulty { fault, line } => {
                write!(f, "line {line}: {fault} ({})", fault.question())
            }
        }
    }
}

impl Error for JobRefusal {}
