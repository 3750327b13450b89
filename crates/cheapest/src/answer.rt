// What the calls answer, as numbers.
ghost use Rattle.std.specs.Prelude.{◌≡◌};
ghost use Rattle.cheapest.specs.Answers.{plan_answer, split_answer};

use engine::{Best, LentRefusal};
use std::alloc::AllocError;

// The number that stands for want of memory; that of no refusal is 0.
const NO_MEMORY: u8 = 255;

// The best plans of a sheet, or why there are none.
#[repr(C)]
#[derive(Clone, Copy, PartialEq, Eq, Debug, Default)]
pub struct PlanAnswer {
    // 0, the number of a refusal, or 255 where memory ran out
    pub number: u8,
    // the record that a refusal is about, and the place of its first byte
    pub record: usize,
    pub byte: usize,
    // how many entries and needs there are
    pub entries: usize,
    pub needs: usize,
    // what the cheapest selections cost, and the net of the best plans
    pub least: u64,
    pub net: u64,
}

// The least energy of a tile, or why there is none.
#[repr(C)]
#[derive(Clone, Copy, PartialEq, Eq, Debug, Default)]
pub struct SplitAnswer {
    // 0, the number of a refusal, or 255 where memory ran out
    pub number: u8,
    pub energy: u64,
}

impl PlanAnswer {
    // The answer that tells a result.
    pub(crate) fn of(found: Result<Result<Best, LentRefusal>, AllocError>) -> PlanAnswer
        ensures { result ≡ plan_answer found }
    {
        match found {
            Ok(Ok(best)) => PlanAnswer {
                entries: best.counts.entries,
                needs: best.counts.needs,
                least: best.least,
                net: best.net,
                ..PlanAnswer::default()
            },
            Ok(Err(refusal)) => {
                let told = refusal.told();
                PlanAnswer {
                    number: told.number,
                    record: told.record,
                    byte: told.byte,
                    ..PlanAnswer::default()
                }
            }
            Err(AllocError) => PlanAnswer {
                number: NO_MEMORY,
                ..PlanAnswer::default()
            },
        }
    }
}

impl SplitAnswer {
    // The answer that tells a result.
    pub(crate) fn of(found: Result<Result<u64, LentRefusal>, AllocError>) -> SplitAnswer
        ensures { result ≡ split_answer found }
    {
        match found {
            Ok(Ok(energy)) => SplitAnswer { number: 0, energy },
            Ok(Err(refusal)) => SplitAnswer {
                number: refusal.told().number,
                energy: 0,
            },
            Err(AllocError) => SplitAnswer {
                number: NO_MEMORY,
                energy: 0,
            },
        }
    }
}
