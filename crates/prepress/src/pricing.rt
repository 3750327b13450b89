// What is laid of an area: four bytes a pixel.
ghost use Rattle.std.specs.Prelude.{◌≡◌, ◌+◌, ◌<◌, IfOk, true, length, cond, slice_index, vec_items};
ghost use Rattle.netpbm.specs.Values.{image_of};
ghost use Rattle.prepress.specs.Areas.{OnPage, pixel_count};
ghost use Rattle.prepress.specs.Cuts.{Bytes};
ghost use Rattle.prepress.specs.Greys.{penalty, pixel_costs, area_costs};

use super::area::Area;
use super::greys::{line_cost, penalty, tone_cost};
use netpbm::Page;
use std::alloc::{AllocError, Global};

// The penalty between two pixels of a page; none where they are not neighbours.
fn penalty_between(greys: &[u8], neighbours: bool, place: usize, other: usize) -> u8
    requires there { place < length greys.now }
    requires other_there { neighbours ≡ true → other < length greys.now }
    ensures { result ≡ cond neighbours (penalty (slice_index greys.now place) (slice_index greys.now other)) 0 }
{
    if neighbours {
        penalty(greys[place], greys[other])
    } else {
        0
    }
}

// The costs of a pixel of an area.
fn pixel_costs(page: &Page, area: Area, pixel: usize) -> [u8; 4]
    requires area { OnPage (image_of page.now).width (image_of page.now).height area }
    requires pixel { pixel < pixel_count area }
    ensures costs { result ≡ pixel_costs (image_of page.now) area pixel }
    ensures bytes { Bytes result }
{
    let greys = page.greys();
    let width = page.width();
    let place = area.place(width, pixel);
    let grey = greys[place];
    let has_right = pixel % area.width + 1 < area.width;
    let has_below = pixel / area.width + 1 < area.height;
    [
        line_cost(grey),
        tone_cost(grey),
        penalty_between(greys, has_right, place, place + 1),
        penalty_between(greys, has_below, place, place + width),
    ]
}

// The costs of all pixels of an area.
pub(crate) fn area_costs(heap: Global, page: &Page, area: Area) -> Result<Vec<u8>, AllocError>
    requires { OnPage (image_of page.now).width (image_of page.now).height area }
    ensures costs { IfOk result (λ costs. vec_items costs ≡ area_costs (image_of page.now) area) }
    ensures bytes { IfOk result (λ costs. Bytes (vec_items costs)) }
{
    let count = area.width * area.height;
    let mut costs = Vec::with_capacity(heap, 4 * count)?;
    for pixel in 0..count {
        costs.extend_from_slice(&pixel_costs(page, area, pixel))?;
    }
    Ok(costs)
}
