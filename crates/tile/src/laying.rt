// The calls that make, lay and end a tile.
ghost use Rattle.std.specs.Prelude.{◌≡◌, ◌+◌, ◌*◌, ◌<◌, ◌≤◌, length};
ghost use Rattle.tile.specs.Calls.{new_tile, Laid};
ghost use Rattle.tile.specs.Values.{tile_of};
ghost use Rattle.tile.specs.Layings.{AllLaid};

use super::costs::read_pixel;
use super::direction::steps;
use super::neighbours::{Neighbours, column_after};
use super::pixel::Pixel;
use super::refusal::LayRefusal;
use super::tile::Tile;

impl<'a> Tile<'a> {
    // A tile without pixels over the table, which stays as it is.
    pub fn new(table: &'a mut [Pixel]) -> Tile<'a>
        ensures { tile_of result ≡ new_tile table.entry }
    {
        Tile {
            table,
            width: 0,
            height: 0,
            steps: steps(0),
        }
    }

    // Lays so many pixels in rows, in place of those that were laid before: four bytes a pixel, its cost as line, its cost as tone, the
    // penalty to its neighbour at the right, and the penalty to the one below.
    pub fn lay(&mut self, width: usize, height: usize, costs: &[u8]) -> Result<(), LayRefusal>
        ensures { Laid (tile_of self.old) width height costs.now result (tile_of self.new) }
    {
        LayRefusal::check(width, height, costs, self.table.len())?;
        write_pixels(&mut self.table[..width * height], width, costs);
        self.width = width;
        self.height = height;
        self.steps = steps(width);
        Ok(())
    }

    // Ends the tile and gives its table back.
    pub fn release(self) -> &'a mut [Pixel]
        ensures { result ≡ (tile_of self.entry).table }
    {
        self.table
    }
}

// Writes what four bytes a pixel tell.
fn write_pixels(pixels: &mut [Pixel], width: usize, costs: &[u8])
    requires narrow { width ≤ 64 }
    requires some { 0 < width }
    requires few { length pixels.old ≤ 4096 }
    requires long { length costs.now ≡ 4 * length pixels.old }
    ensures as_long { length pixels.new ≡ length pixels.old }
    ensures written { AllLaid width (length pixels.old) costs.now pixels.new }
{
    let count = pixels.len();
    let mut column = 0;
    for (number, pixel) in pixels.iter_mut().enumerate() {
        let neighbours = Neighbours::of(width, count, number, column);
        *pixel = read_pixel(costs, width, number, neighbours);
        column = column_after(width, column);
    }
}
