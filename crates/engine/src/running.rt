// What networks have that the engine runs: a run of their own.
ghost use Rattle.std.specs.Prelude.{◌≡◌, OnErr};
ghost use Rattle.search.specs.Runs.{Run};

use network::Network;
use search::{Report, RunRefusal};
use trees::Work;

// A network with a run of its own, which may promise more than that of any network.
pub trait Runnable: Network {
    fn run(
        &mut self,
        work: &mut [Work],
        trail: &mut [u64],
        marks: &mut [u8],
    ) -> Result<Report, RunRefusal>
        ensures ran { Run (Self.value self.old) (record { work = work.old; trail = trail.old; marks = marks.old }) result (Self.value self.new) (record { work = work.new; trail = trail.new; marks = marks.new }) }
        ensures kept { Self.keeps self.old self.new }
        ensures refused { OnErr result (self.new ≡ self.old) };
}
