// What programs in C call: the best plans of a sheet, and the least energy of a tile. The header is cheapest.h.
#![tactic(auto)]

mod answer;
mod calls;

pub use answer::{PlanAnswer, SplitAnswer};
