// Runs of a tile, and what they promise.
ghost use Rattle.std.specs.Prelude.{◌≡◌, OnErr};
ghost use Rattle.search.specs.Runs.{Run};
ghost use Rattle.tile.specs.Calls.{StillLaid};
ghost use Rattle.tile.specs.Values.{tile_of, tile_value};
ghost use Rattle.engine.specs.Histories.{TilePromise};

use super::running::Runnable;
use search::{Report, RunRefusal};
use tile::Tile;
use trees::Work;

// What a run of a tile promises holds of every list of lays and runs on the tile that led to it.
impl<'a> Runnable for Tile<'a> {
    fn run(
        &mut self,
        work: &mut [Work],
        trail: &mut [u64],
        marks: &mut [u8],
    ) -> Result<Report, RunRefusal>
        ensures ran { Run (tile_value self.old) (record { work = work.old; trail = trail.old; marks = marks.old }) result (tile_value self.new) (record { work = work.new; trail = trail.new; marks = marks.new }) }
        ensures kept { StillLaid (tile_of self.old) (tile_of self.new) }
        ensures refused { OnErr result (self.new ≡ self.old) }
        ensures promise { TilePromise (tile_value self.old) result (tile_value self.new) (record { work = work.new; trail = trail.new; marks = marks.new }) }
    {
        search::run(self, work, trail, marks)
    }
}
