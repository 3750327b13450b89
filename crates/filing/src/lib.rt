// Between an open book and its sheet: loading fills a book with all of a sheet, writing puts a book's sheet into a buffer.
#![tactic(auto)]

mod loading;
mod packing;
mod refusal;
mod writing;

pub use loading::{CheckedSheet, load};
pub use refusal::{LoadRefusal, WriteRefusal};
pub use writing::{MOST_SHEET_BYTES, write};
