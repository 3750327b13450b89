// The directions from a pixel to its neighbours, and the arcs that lead there.
ghost use Rattle.std.specs.Prelude.{◌≡◌};
ghost use Rattle.tile.specs.Grids.{number, steps_of};

// No call takes one, but what a lay promises speaks of them.
#[derive(Clone, Copy, PartialEq, Eq, Debug)]
pub enum Direction {
    Right,
    Left,
    Below,
    Above,
}

impl Direction {
    #[inline(always)]
    pub(crate) fn number(self) -> usize
        ensures { result ≡ number self }
    {
        self as usize
    }
}

// How far the neighbours of a pixel lie from it, in rows of `width`, by the numbers of the directions: a place in a row or a whole row. A
// step back is one forth that wraps, so that each is a sum and no jump.
pub(crate) fn steps(width: usize) -> [usize; 4]
    ensures { result ≡ steps_of width }
{
    [1, usize::MAX, width, width.wrapping_neg()]
}
