// The questions that a tile answers besides those of a network.
ghost use Rattle.std.specs.Prelude.{◌≡◌};
ghost use Rattle.tile.specs.Values.{tile_of};

use super::tile::Tile;

impl<'a> Tile<'a> {
    // How many pixels a row has; 0 where nothing is laid.
    pub fn width(&self) -> usize
        ensures { result ≡ (tile_of self.now).width }
    {
        self.width
    }

    // How many rows there are; 0 where nothing is laid.
    pub fn height(&self) -> usize
        ensures { result ≡ (tile_of self.now).height }
    {
        self.height
    }
}
