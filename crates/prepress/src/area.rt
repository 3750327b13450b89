// The areas that a page is divided into: of at most 64 by 64 pixels, row by row from the top.
ghost use Rattle.std.specs.Prelude.{◌≡◌, ◌+◌, ◌*◌, ◌/◌, ◌<◌, ◌≤◌};
ghost use Rattle.prepress.specs.Areas.{part_count, part_length, area_of, area_count, place};

use tile::MOST_SIDE;

#[derive(Clone, Copy, PartialEq, Eq, Debug)]
pub(crate) struct Area {
    // where its first row and its first column stand on the page
    pub(crate) top: usize,
    pub(crate) left: usize,
    pub(crate) width: usize,
    pub(crate) height: usize,
}

// How many parts a side of so many pixels is divided into.
fn part_count(side: usize) -> usize
    ensures { result ≡ part_count side }
{
    side.div_ceil(MOST_SIDE)
}

// How many pixels a part of a side has.
fn part_length(side: usize, part: usize) -> usize
    requires few { side ≤ 16384 }
    requires there { part < part_count side }
    ensures { result ≡ part_length side part }
{
    MOST_SIDE.min(side - part * MOST_SIDE)
}

// How many areas a page of these sides is divided into.
pub(crate) fn area_count(width: usize, height: usize) -> usize
    requires few_columns { width ≤ 16384 }
    requires few_rows { height ≤ 16384 }
    ensures { result ≡ area_count width height }
{
    part_count(width) * part_count(height)
}

impl Area {
    // The area of a number, counted from 0.
    pub(crate) fn of(width: usize, height: usize, number: usize) -> Area
        requires few_columns { width ≤ 16384 }
        requires few_rows { height ≤ 16384 }
        requires there { number < area_count width height }
        ensures { result ≡ area_of width height number }
    {
        let across = part_count(width);
        let (row, column) = (number / across, number % across);
        Area {
            top: row * MOST_SIDE,
            left: column * MOST_SIDE,
            width: part_length(width, column),
            height: part_length(height, row),
        }
    }

    // The number, on a page of this width, of a pixel of the area.
    pub(crate) fn place(self, page_width: usize, pixel: usize) -> usize
        requires some { 0 < self.width }
        requires column { self.left + self.width ≤ page_width }
        requires few_columns { page_width ≤ 16384 }
        requires few_rows { self.top + pixel / self.width ≤ 16384 }
        ensures { result ≡ place page_width self pixel }
    {
        (self.top + pixel / self.width) * page_width + (self.left + pixel % self.width)
    }
}
