// The page tile: a network of pixels, each joined to its neighbours, over one borrowed table.
#![tactic(auto)]

mod answering;
mod asking;
mod costs;
mod direction;
mod laying;
mod neighbours;
mod pixel;
mod refusal;
mod theorems;
mod tile;

pub use direction::Direction;
pub use pixel::Pixel;
pub use refusal::{LayRefusal, MOST_SIDE};
pub use tile::Tile;
