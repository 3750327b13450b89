// Why an image file is refused, and the number and the text that each refusal tells.
ghost use Rattle.std.specs.Prelude.{◌≡◌, Some};
ghost use Rattle.netpbm.specs.Refusals.{question};
ghost use Rattle.netpbm.specs.Texts.{refusal_text};

use std::error::Error;
use std::fmt;

// Why an image file is refused. Each is a question that is put to it, in this order; the last two to each pixel in turn, which goes by
// its number, counted from 0 in rows from the top.
#[derive(Clone, Copy, PartialEq, Eq, Debug)]
pub enum ImageRefusal {
    // it begins with neither `P2` nor `P5`
    NotPgm,
    // its width or its height is not there, or not from 1 to 16,384
    SizeRange,
    // its largest value is not there, or not from 1 to 255, or a raw file has no white space byte behind it
    LargestRange,
    // there is no grey for this pixel
    NoGrey { pixel: usize },
    // the grey of this pixel is above the largest value
    AboveLargest { pixel: usize },
}

impl ImageRefusal {
    // The number of the question whose answer is no; a rule of the project has a method answer it.
    pub fn question(self) -> u8
        ensures { result ≡ question self }
    {
        // each case has a number of its own, shared with no other enum; no discriminants, since an edit that gives two cases one must build
        match self {
            ImageRefusal::NotPgm => 60,
            ImageRefusal::SizeRange => 61,
            ImageRefusal::LargestRange => 62,
            ImageRefusal::NoGrey { .. } => 63,
            ImageRefusal::AboveLargest { .. } => 64,
        }
    }
}

impl fmt::Display for ImageRefusal {
    ghost output = { λ refusal. Some (refusal_text refusal) };

    fn fmt<W: fmt::Write>(&self, f: &mut fmt::Formatter<W>) -> fmt::Result {
        match self {
            ImageRefusal::NotPgm => write!(f, "the file begins with neither P2 nor P5 (60)"),
            ImageRefusal::SizeRange => write!(
                f,
                "its width and height are not two numbers from 1 to 16384 (61)"
            ),
            ImageRefusal::LargestRange => write!(
                f,
                "its largest value is not a number from 1 to 255 with white space behind it (62)"
            ),
            ImageRefusal::NoGrey { pixel } => write!(f, "pixel {pixel} has no grey (63)"),
            ImageRefusal::AboveLargest { pixel } => write!(
                f,
                "the grey of pixel {pixel} is above the largest value (64)"
            ),
        }
    }
}

impl Error for ImageRefusal {}
