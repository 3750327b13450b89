// The text that tells an answer.
ghost use Rattle.std.specs.Prelude.{◌≡◌, IfOk, string_bytes};
ghost use Rattle.engine.specs.Listings.{Listed, listing_text};
ghost use Rattle.engine.specs.Values.{result_of};

use super::answer::Plan;
use super::page::Listing;
use super::planning::plan;
use super::refusal::PlanRefusal;
use std::alloc::{AllocError, Global};

// The answer to an input, and the text that tells it.
pub fn listing(heap: Global, input: &[u8]) -> Result<Listing, AllocError>
    ensures { IfOk result (λ l. Listed input.now l) }
{
    let answer = plan(heap, input)?;
    let text = lines(heap, &answer)?;
    Ok(Listing { answer, text })
}

// The lines that tell an answer.
fn lines(heap: Global, answer: &Result<Plan, PlanRefusal>) -> Result<String, AllocError>
    ensures { IfOk result (λ s. string_bytes s ≡ listing_text (result_of answer.now)) }
{
    match answer {
        Ok(plan) => format!(in heap; "{plan}"),
        Err(refusal) => format!(in heap; "{}\n", refusal.told()),
    }
}
