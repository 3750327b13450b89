// A page tile: pixels in rows over a borrowed table, of which a part may be laid.
ghost use Rattle.std.specs.Prelude.{◌≡◌, ◌*◌, ◌≤◌, length, take};
ghost use Rattle.tile.specs.Grids.{steps_of};
ghost use Rattle.tile.specs.Tables.{Told, SmallPairs, of_pixels};

use super::pixel::Pixel;

// No derived equality: a `&mut` to a slice has none.
#[derive(Debug, Drop)]
pub struct Tile<'a> {
    pub(crate) table: &'a mut [Pixel],
    pub(crate) width: usize,
    pub(crate) height: usize,
    // how far the neighbours of a pixel lie from it, by the numbers of the directions
    pub(crate) steps: [usize; 4],
    ghost narrow: { width ≤ 64 },
    ghost low: { height ≤ 64 },
    ghost stepped: { steps ≡ steps_of width },
    ghost room: { width * height ≤ length table.now },
    ghost told: { Told width (take (width * height) table.now) },
    ghost pairs: { SmallPairs (of_pixels width (take (width * height) table.now)) },
}
