// The two search trees, kept in a table with one record for each node.
#![tactic(auto)]

mod lane;
mod ring;
mod work;

pub use lane::{Lane, Lanes};
pub use ring::{Queues, Ring};
pub use work::{Parent, Tree, Work};
