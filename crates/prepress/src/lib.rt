// Prepress: a page is divided into areas, each laid on a tile, and split into lines and tones of the least energy.
#![tactic(auto)]

mod area;
mod cutting;
mod greys;
mod page_file;
mod pricing;
mod splitting;
mod theorems;

pub use greys::{line_cost, penalty, tone_cost};
pub use page_file::split_file;
pub use splitting::{Split, split_page};
