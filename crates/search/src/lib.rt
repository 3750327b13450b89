// The run: two search trees over any network, from the first path to the last.
#![tactic(auto)]

mod adoption;
mod carrying;
mod growth;
mod marking;
mod planting;
mod reading;
mod refusal;
mod report;
mod running;
mod starting;
mod table;
mod tracing;

pub use refusal::RunRefusal;
pub use report::{Log, Outcome, Report};
pub use running::run;
