// The best plans of a sheet: its book is loaded, sealed and run.
ghost use Rattle.std.specs.Prelude.{IfOk};
ghost use Rattle.engine.specs.Plans.{ThePlan};
ghost use Rattle.engine.specs.Values.{result_of};

use super::answer::Plan;
use super::cutting::cheapest_cut;
use super::refusal::PlanRefusal;
use book::{OpenBook, Record};
use std::alloc::{AllocError, Global};

// The most bytes that an input may have.
pub const MOST_BYTES: usize = 8_192;

// How many records the book's table has.
const RECORDS: usize = 2_048;

// How many words the trail of each run has.
const TRAIL_WORDS: usize = 4_096;

// The answer to an input. One of too many bytes is refused unread.
pub fn plan(heap: Global, input: &[u8]) -> Result<Result<Plan, PlanRefusal>, AllocError>
    ensures { IfOk result (λ answer. ThePlan input.now (result_of answer)) }
{
    if input.len() > MOST_BYTES {
        return Ok(Err(PlanRefusal::TooLong));
    }
    let mut table = vec![in heap; Record::default(); RECORDS]?;
    let mut book = OpenBook::new(&mut table);
    let counts = match filing::load(&mut book, input) {
        Ok(counts) => counts,
        Err(refusal) => return Ok(Err(refusal.into())),
    };
    let earnings = book.total_earnings();
    let mut sealed = book.seal();
    let cut = cheapest_cut(heap, &mut sealed, TRAIL_WORDS)?;
    Ok(Ok(Plan {
        counts,
        least: cut.cost,
        net: earnings - cut.cost,
        marks: cut.marks,
    }))
}
