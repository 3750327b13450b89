// The words of a line, and the amounts that words tell.
ghost use Rattle.std.specs.Prelude.{◌≡◌, IfOk, map, vec_items};
ghost use Rattle.joblist.specs.Passes.{amount_of};
ghost use Rattle.joblist.specs.Lines.{is_blank, words_of, says};

use book::MOST_AMOUNT;
use std::alloc::{AllocError, Global};

// Whether a byte stands between words.
fn is_blank(byte: u8) -> bool
    ensures { result ≡ is_blank byte }
{
    byte == b' ' || byte == b'\t' || byte == b'\r'
}

// The words of a line stand between blanks.
pub(crate) fn words_of<'a>(heap: Global, line: &'a [u8]) -> Result<Vec<&'a [u8]>, AllocError>
    ensures { IfOk result (λ words. map (λ word. word.now) (vec_items words) ≡ words_of line.now) }
{
    line.split(|byte| is_blank(*byte))
        .filter(|word| !word.is_empty())
        .collect(heap)
}

// Whether a line of these words says something: it has a word, and is no remark.
pub(crate) fn says(words: &[&[u8]]) -> bool
    ensures { result ≡ says (map (λ word. word.now) words.now) }
{
    match words.first() {
        Some(first) => first.first() != Some(&b'#'),
        None => false,
    }
}

// The amount that a word tells, if it tells one.
pub(crate) fn amount_of(word: &[u8]) -> Option<u32>
    ensures { result ≡ amount_of word.now }
{
    let mut amount = 0;
    for byte in word {
        if !byte.is_ascii_digit() {
            return None;
        }
        amount = amount * 10 + u32::from(*byte - b'0');
        if amount > MOST_AMOUNT {
            return None;
        }
    }
    Some(amount)
}
