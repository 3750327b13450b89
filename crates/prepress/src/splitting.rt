// The split of a page into lines and tones: each area is cut by itself.
ghost use Rattle.std.specs.Prelude.{◌≡◌, ◌≤◌, ◌*◌, IfOk, length, vec_items};
ghost use Rattle.netpbm.specs.Values.{image_of};
ghost use Rattle.prepress.specs.Areas.{OnPage, pixel_count};
ghost use Rattle.prepress.specs.Cuts.{Blackened};
ghost use Rattle.prepress.specs.Splits.{is_line, SplitOf, OnlySplit, EnergyAddsUp};

use super::area::{Area, area_count};
use super::cutting::cut_area;
use netpbm::Page;
use network::Mark;
use std::alloc::{AllocError, Global};
use tile::{MOST_SIDE, Pixel};

// How many records a tile's table has: one for each pixel of the largest tile.
const RECORDS: usize = MOST_SIDE * MOST_SIDE;

// How a page is split: which of its pixels are lines, which are black, on how many tiles, and for which energy.
#[derive(PartialEq, Eq, Debug, Drop)]
pub struct Split {
    // row by row from the top
    pub black: Vec<bool>,
    pub tiles: usize,
    pub energy: u64,
}

// Whether a pixel of this mark is line. One that may as well be tone is tone: all that are in are a cheapest selection, and so are all
// that are not out, but not each choice between them.
fn is_line(mark: Mark) -> bool
    ensures { result ≡ is_line mark }
{
    mark == Mark::In
}

// Writes the lines of an area on a page of this width.
fn blacken(black: &mut [bool], width: usize, height: usize, area: Area, marks: &[Mark])
    requires area { OnPage width height area }
    requires few_columns { width ≤ 16384 }
    requires few_rows { height ≤ 16384 }
    requires pixels { length marks.now ≡ pixel_count area }
    requires whole { length black.old ≡ width * height }
    ensures { Blackened width area (pixel_count area) marks.now black.old black.new }
{
    for (pixel, mark) in marks.iter().enumerate() {
        black[area.place(width, pixel)] = is_line(*mark);
    }
}

// Splits a page into lines and tones. It is divided into areas of at most 64 by 64 pixels, each of which is laid on a tile and split for
// the least energy; penalties between pixels of two areas are left out.
#[tactic(auto, using(crate::proofs::Energies::energy_adds_up))]
pub fn split_page(heap: Global, page: &Page) -> Result<Split, AllocError>
    ensures split { IfOk result (λ split. SplitOf (image_of page.now) (vec_items split.black) split.tiles split.energy) }
    ensures energy { EnergyAddsUp (image_of page.now) }
    ensures only { IfOk result (λ split. OnlySplit (image_of page.now) (vec_items split.black) split.tiles split.energy) }
{
    let (width, height) = (page.width(), page.height());
    let mut table = vec![in heap; Pixel::default(); RECORDS]?;
    let mut black = vec![in heap; false; width * height]?;
    let tiles = area_count(width, height);
    let mut energy = 0;
    for number in 0..tiles {
        let area = Area::of(width, height, number);
        let cut = cut_area(heap, &mut table, page, area)?;
        blacken(&mut black, width, height, area, &cut.marks);
        energy += cut.cost;
    }
    Ok(Split {
        black,
        tiles,
        energy,
    })
}
