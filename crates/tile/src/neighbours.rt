// Which neighbours of a pixel are on the tile.
ghost use Rattle.std.specs.Prelude.{◌≡◌, ◌+◌, ◌%◌, ◌<◌, ◌≤◌, cond, filter, nat_lt};
ghost use Rattle.std.specs.List.{slice_get};
ghost use Rattle.tile.specs.declared.direction.Direction.TheVariants.{Right};
ghost use Rattle.tile.specs.Grids.{direction_of, directions, joined};
ghost use Rattle.tile.specs.Tables.{Known};
ghost use Rattle.tile.specs.Pixels.{has};

use super::direction::Direction;
use Direction::{Above, Below, Left, Right};

// The column of the next pixel, in rows of `width`.
pub(crate) fn column_after(width: usize, column: usize) -> usize
    requires { column < width }
    ensures { result ≡ cond (nat_lt (column + 1) width) (column + 1) 0 }
{
    if column + 1 < width { column + 1 } else { 0 }
}

// Whether a pixel of a column has a neighbour at its right, on a tile of so many pixels.
fn has_right(width: usize, pixels: usize, pixel: usize, column: usize) -> bool
    requires narrow { width ≤ 64 }
    requires some { 0 < width }
    requires there { pixel < pixels }
    requires column { column ≡ pixel % width }
    ensures { result ≡ joined width pixels Right pixel }
{
    column + 1 < width && pixel + 1 < pixels
}

// A set of directions: in one byte, since each pixel's record holds one.
#[derive(Clone, Copy, PartialEq, Eq, Debug, Default)]
pub(crate) struct Neighbours {
    pub(crate) bits: u8,
}

// The directions at the places of a pixel, by the bits of those that are there. It is looked up at each arc, and a loop over the bits would
// take a jump for each.
static AT_PLACES: [[Option<Direction>; 4]; 16] = [
    [None, None, None, None],
    [Some(Right), None, None, None],
    [Some(Left), None, None, None],
    [Some(Right), Some(Left), None, None],
    [Some(Below), None, None, None],
    [Some(Right), Some(Below), None, None],
    [Some(Left), Some(Below), None, None],
    [Some(Right), Some(Left), Some(Below), None],
    [Some(Above), None, None, None],
    [Some(Right), Some(Above), None, None],
    [Some(Left), Some(Above), None, None],
    [Some(Right), Some(Left), Some(Above), None],
    [Some(Below), Some(Above), None, None],
    [Some(Right), Some(Below), Some(Above), None],
    [Some(Left), Some(Below), Some(Above), None],
    [Some(Right), Some(Left), Some(Below), Some(Above)],
];

impl Neighbours {
    // Which neighbours of a pixel are on a tile of so many pixels. Its column is told, since to find it takes a division.
    pub(crate) fn of(width: usize, pixels: usize, pixel: usize, column: usize) -> Neighbours
        requires narrow { width ≤ 64 }
        requires some { 0 < width }
        requires there { pixel < pixels }
        requires column { column ≡ pixel % width }
        ensures { Known width pixels pixel result }
    {
        let right = has_right(width, pixels, pixel, column);
        let left = column > 0;
        let below = pixels - pixel > width;
        let above = pixel >= width;
        Neighbours {
            bits: u8::from(right) + 2 * u8::from(left) + 4 * u8::from(below) + 8 * u8::from(above),
        }
    }

    #[inline(always)]
    pub(crate) fn has(self, direction: Direction) -> bool
        ensures { result ≡ has self direction }
    {
        self.has_number(direction.number())
    }

    // The same by the number of a direction.
    #[inline(always)]
    pub(crate) fn has_number(self, number: usize) -> bool
        requires { number < 4 }
        ensures { result ≡ has self (direction_of number) }
    {
        (self.bits >> number) % 2 == 1
    }

    // The direction at a place of those that are there.
    #[inline(always)]
    pub(crate) fn at(self, place: usize) -> Option<Direction>
        ensures { result ≡ slice_get (filter (has self) directions) place }
    {
        if place < 4 {
            AT_PLACES[usize::from(self.bits % 16)][place]
        } else {
            None
        }
    }
}
