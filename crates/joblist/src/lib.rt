// A job list: a readable text of jobs and set-ups, and the order sheet that it makes.
#![tactic(auto)]

mod drafting;
mod entry;
mod filling;
mod reading;
mod refusal;
mod words;

pub use drafting::{MOST_BYTES, to_sheet};
pub use refusal::{Fault, JobRefusal, Told};
