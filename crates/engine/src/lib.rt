// The calls that a user makes: runs of a book and of a tile, the cheapest selections, the answer to a sheet, and the text that tells it.
#![tactic(auto)]

mod answer;
mod books;
mod cutting;
mod lending;
mod page;
mod planning;
mod refusal;
mod running;
mod telling;
mod tiles;

pub use answer::Plan;
pub use cutting::{Cut, cheapest_cut, cut_into};
pub use lending::{Best, plan_into, split_into};
pub use page::Listing;
pub use planning::{MOST_BYTES, plan};
pub use refusal::{LentRefusal, PlanRefusal};
pub use running::Runnable;
pub use telling::listing;
