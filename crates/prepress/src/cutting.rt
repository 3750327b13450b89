// The split of one area, by the cheapest selections of a tile that is laid from it.
ghost use Rattle.std.specs.Prelude.{◌≡◌, ◌*◌, ◌≤◌, IfOk, length, vec_items};
ghost use Rattle.netpbm.specs.Values.{image_of};
ghost use Rattle.prepress.specs.Areas.{OnPage, pixel_count};
ghost use Rattle.prepress.specs.Cuts.{AreaCut};

use super::area::Area;
use super::pricing::area_costs;
use engine::{Cut, cheapest_cut};
use netpbm::Page;
use std::alloc::{AllocError, Global};
use tile::{Pixel, Tile};

// How many words the trail of each run has: most areas are cut by one run.
const TRAIL_WORDS: usize = 65_536;

// The cheapest selections of an area, laid over a table that is long enough.
pub(crate) fn cut_area(
    heap: Global,
    table: &mut [Pixel],
    page: &Page,
    area: Area,
) -> Result<Cut, AllocError>
    requires area { OnPage (image_of page.now).width (image_of page.now).height area }
    requires room { pixel_count area ≤ length table.old }
    ensures cut { IfOk result (λ cut. AreaCut (image_of page.now) area cut.cost (vec_items cut.marks)) }
    ensures same_length { length table.new ≡ length table.old }
{
    let costs = area_costs(heap, page, area)?;
    let mut tile = Tile::new(table);
    tile.lay(area.width, area.height, &costs).unwrap();
    cheapest_cut(heap, &mut tile, TRAIL_WORDS)
}
