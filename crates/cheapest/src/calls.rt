// The exported calls.
ghost use Rattle.engine.specs.Lendings.{PlanInto, SplitInto};
ghost use Rattle.cheapest.specs.Answers.{Tells, plan_answer, split_answer};

use super::answer::{PlanAnswer, SplitAnswer};
use engine::{plan_into, split_into};
use std::alloc::Global;

// Finds the best plans of a sheet. What they say of each entry is written to the marks.
#[unsafe(no_mangle)]
pub extern "C" fn cheapest_plan(heap: Global, sheet: &[u8], marks: &mut [u8]) -> PlanAnswer
    ensures { Tells plan_answer (PlanInto sheet.now marks.old marks.new) result }
{
    PlanAnswer::of(plan_into(heap, sheet, marks))
}

// Finds the least energy of the tile of these costs, in rows of `width` pixels. What the selections of that energy say of each pixel is
// written to the marks.
#[unsafe(no_mangle)]
pub extern "C" fn cheapest_split(
    heap: Global,
    width: usize,
    height: usize,
    costs: &[u8],
    marks: &mut [u8],
) -> SplitAnswer
    ensures { Tells split_answer (SplitInto width height costs.now marks.old marks.new) result }
{
    SplitAnswer::of(split_into(heap, width, height, costs, marks))
}
