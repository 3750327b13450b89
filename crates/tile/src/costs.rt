// The bytes that are laid, four a pixel, and what they tell of one.
ghost use Rattle.std.specs.Prelude.{◌≡◌, ◌+◌, ◌*◌, ◌<◌, ◌≤◌, cond, length, true};
ghost use Rattle.tile.specs.declared.direction.Direction.{Direction};
ghost use Rattle.tile.specs.Grids.{LeadsBack};
ghost use Rattle.tile.specs.Pixels.{has, Fresh};
ghost use Rattle.tile.specs.Tiles.{penalty_to};
ghost use Rattle.tile.specs.Layings.{laid_pixel, first_residual};

use super::direction::Direction;
use super::neighbours::Neighbours;
use super::pixel::Pixel;

// The penalty between a pixel and its neighbour in a direction, which the one of the two at the left or above tells.
pub(crate) fn penalty(costs: &[u8], width: usize, direction: Direction, pixel: usize) -> u8
    requires told { 4 * pixel + 3 < length costs.now }
    requires there { LeadsBack width direction pixel }
    ensures is { result ≡ penalty_to width direction costs.now pixel }
    ensures small { result ≤ 255 }
{
    match direction {
        Direction::Right => costs[4 * pixel + 2],
        Direction::Left => costs[4 * (pixel - 1) + 2],
        Direction::Below => costs[4 * pixel + 3],
        Direction::Above => costs[4 * (pixel - width) + 3],
    }
}

// What can be sent at first to the neighbour in a direction, if there is one.
fn residual(
    costs: &[u8],
    width: usize,
    direction: Direction,
    pixel: usize,
    neighbours: Neighbours,
) -> u16
    requires told { 4 * pixel + 3 < length costs.now }
    requires there { has neighbours direction ≡ true → LeadsBack width direction pixel }
    ensures is { result ≡ first_residual width costs.now pixel neighbours direction }
    ensures small { result ≤ 255 }
{
    if neighbours.has(direction) {
        u16::from(penalty(costs, width, direction, pixel))
    } else {
        0
    }
}

// What the bytes tell of a pixel that has these neighbours. Line is the source's side of a cut, so it is what is paid to the sink.
pub(crate) fn read_pixel(costs: &[u8], width: usize, pixel: usize, neighbours: Neighbours) -> Pixel
    requires told { 4 * pixel + 3 < length costs.now }
    requires there { (d : Direction) → has neighbours d ≡ true → LeadsBack width d pixel }
    ensures is { result ≡ laid_pixel width costs.now pixel neighbours }
    ensures fresh { Fresh result }
{
    Pixel {
        source: costs[4 * pixel + 1],
        sink: costs[4 * pixel],
        neighbours,
        residuals: [
            residual(costs, width, Direction::Right, pixel, neighbours),
            residual(costs, width, Direction::Left, pixel, neighbours),
            residual(costs, width, Direction::Below, pixel, neighbours),
            residual(costs, width, Direction::Above, pixel, neighbours),
        ],
    }
}
