// Why a tile refuses a lay, and the number of each refusal.
ghost use Rattle.std.specs.Prelude.{◌≡◌, ◌+◌, ◌*◌, ◌/◌, ◌<◌, ◌≤◌, ◌&&◌, OnOk, length, nat_lt, not};
ghost use Rattle.std.specs.Result.{result_err};
ghost use Rattle.tile.specs.Grids.{LeadsBack};
ghost use Rattle.tile.specs.Pixels.{has};
ghost use Rattle.tile.specs.Tiles.{penalty_to};
ghost use Rattle.tile.specs.Refusals.{question, lay_refusal, off_tile, sized};
ghost use Rattle.tile.specs.Accepted.{Lays};

use super::costs::penalty;
use super::direction::Direction;
use super::neighbours::{Neighbours, column_after};

// The most pixels of a side.
pub const MOST_SIDE: usize = 64;

// The questions put to a lay, in this order.
#[derive(Clone, Copy, PartialEq, Eq, Debug)]
pub enum LayRefusal {
    // width or height is not from 1 to 64
    WrongSize,
    // there are not exactly four bytes a pixel
    WrongLength,
    // the table has fewer records than there are pixels
    ShortTable,
    // there is a penalty to a neighbour that is not on the tile
    PenaltyOffTile,
}

impl LayRefusal {
    // Puts the questions to a lay over a table of so many records.
    pub(crate) fn check(
        width: usize,
        height: usize,
        costs: &[u8],
        records: usize,
    ) -> Result<(), LayRefusal>
        ensures refusal { result_err result ≡ lay_refusal width height costs.now records }
        ensures accepted { OnOk result (Lays width height costs.now records) }
    {
        if !is_sized(width) || !is_sized(height) {
            return Err(LayRefusal::WrongSize);
        }
        let pixels = width * height;
        if costs.len() != 4 * pixels {
            Err(LayRefusal::WrongLength)
        } else if records < pixels {
            Err(LayRefusal::ShortTable)
        } else if is_off_tile(width, pixels, costs) {
            Err(LayRefusal::PenaltyOffTile)
        } else {
            Ok(())
        }
    }

    // The number of the question whose answer is no; a rule of the project has a method answer it.
    pub fn question(self) -> u8
        ensures { result ≡ question self }
    {
        // each case has a number of its own, shared with no other enum; no discriminants, since an edit that gives two cases one must build
        match self {
            LayRefusal::WrongSize => 21,
            LayRefusal::WrongLength => 22,
            LayRefusal::ShortTable => 23,
            LayRefusal::PenaltyOffTile => 24,
        }
    }
}

// Whether a side may have so many pixels.
fn is_sized(pixels: usize) -> bool
    ensures { result ≡ sized pixels }
{
    (1..=MOST_SIDE).contains(&pixels)
}

// Whether there is a penalty between a pixel and one that is not on the tile.
fn is_off_tile(width: usize, pixels: usize, costs: &[u8]) -> bool
    requires narrow { width ≤ 64 }
    requires some { 0 < width }
    requires few { pixels ≤ 4096 }
    requires long { length costs.now ≡ 4 * pixels }
    ensures { result ≡ off_tile width pixels costs.now }
{
    let mut column = 0;
    for pixel in 0..pixels {
        let neighbours = Neighbours::of(width, pixels, pixel, column);
        if has_penalty_off(width, costs, Direction::Right, pixel, neighbours)
            || has_penalty_off(width, costs, Direction::Below, pixel, neighbours)
        {
            return true;
        }
        column = column_after(width, column);
    }
    false
}

// Whether a pixel has a penalty in a direction where it has no neighbour.
fn has_penalty_off(
    width: usize,
    costs: &[u8],
    direction: Direction,
    pixel: usize,
    neighbours: Neighbours,
) -> bool
    requires told { 4 * pixel + 3 < length costs.now }
    requires ahead { LeadsBack width direction pixel }
    ensures { result ≡ (nat_lt 0 (penalty_to width direction costs.now pixel) && not (has neighbours direction)) }
{
    penalty(costs, width, direction, pixel) > 0 && !neighbours.has(direction)
}
