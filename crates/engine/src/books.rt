// Runs of a sealed book, and what they promise.
ghost use Rattle.std.specs.Prelude.{◌≡◌, OnErr};
ghost use Rattle.search.specs.Runs.{Run};
ghost use Rattle.book.specs.Calls.{StillSealed};
ghost use Rattle.book.specs.Values.{sealed_of, sealed_value};
ghost use Rattle.engine.specs.Histories.{BookPromise};

use super::running::Runnable;
use book::SealedBook;
use search::{Report, RunRefusal};
use trees::Work;

// What a run of a sealed book promises holds of every list of calls on the book that led to it.
impl<'a> Runnable for SealedBook<'a> {
    fn run(
        &mut self,
        work: &mut [Work],
        trail: &mut [u64],
        marks: &mut [u8],
    ) -> Result<Report, RunRefusal>
        ensures ran { Run (sealed_value self.old) (record { work = work.old; trail = trail.old; marks = marks.old }) result (sealed_value self.new) (record { work = work.new; trail = trail.new; marks = marks.new }) }
        ensures kept { StillSealed (sealed_of self.old) (sealed_of self.new) }
        ensures refused { OnErr result (self.new ≡ self.old) }
        ensures promise { BookPromise (sealed_value self.old) result (sealed_value self.new) (record { work = work.new; trail = trail.new; marks = marks.new }) }
    {
        search::run(self, work, trail, marks)
    }
}
