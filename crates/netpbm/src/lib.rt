// Pages as image files: a page read from a PGM file, and a page of lines and tones as the text of a PBM file.
#![tactic(auto)]

mod header;
mod numbers;
mod page;
mod reading;
mod refusal;
#[cfg(test)]
mod tests;
mod writing;

pub use page::{MOST_SIDE, Page};
pub use reading::read_pgm;
pub use refusal::ImageRefusal;
pub use writing::write_pbm;
