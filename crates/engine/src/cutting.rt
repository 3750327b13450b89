// The cheapest selections of a network, by runs that are repeated until one finishes.
ghost use Rattle.std.specs.Prelude.{◌≡◌, ℕ, ◌+◌, ◌<◌, ◌≤◌, IfOk, OnErr, length, map, slice_index, vec_items};
ghost use Rattle.network.specs.declared.mark.Mark.{Mark as TheMark};
ghost use Rattle.network.specs.Marks.{mark_byte};
ghost use Rattle.network.specs.Cuts.{CheapestCost, AllMarked};
ghost use Rattle.search.specs.Runs.{MarksOf, Beyond};
ghost use Rattle.engine.specs.Gains.{Gained, RunsLed, CutInto};

use super::running::Runnable;
use network::Mark;
use search::{Outcome, RunRefusal};
use std::alloc::{AllocError, Global};
use trees::Work;

// What the cheapest selections of a network cost, and what they say of each node.
#[derive(PartialEq, Eq, Debug, Drop)]
pub struct Cut {
    pub cost: u64,
    pub marks: Vec<Mark>,
}

// What the cheapest selections of a network cost; what they say of each node is written to bytes that the caller lends. Runs are
// repeated until one finishes, each with a trail of so many words, or of as many as one path may need where that is more. A run that
// pauses begins its trees afresh, so a longer trail makes for fewer runs.
pub fn cut_into<N: Runnable>(
    heap: Global,
    net: &mut N,
    words: usize,
    marks: &mut [u8],
) -> Result<Result<u64, RunRefusal>, AllocError>
    ensures cut { CutInto (N.value net.old) (N.value net.new) marks.old marks.new result }
    ensures kept { N.keeps net.old net.new }
    ensures unmade { OnErr result (net.new ≡ net.old) }
    ensures refused { IfOk result (λ answer. OnErr answer (net.new ≡ net.old)) }
{
    let nodes = net.node_count();
    if marks.len() < nodes {
        return Ok(Err(RunRefusal::FewMarks));
    }
    let mut work = vec![in heap; Work::blank(); nodes]?;
    let mut trail = vec![in heap; 0; words.max(nodes + 2)]?;
    Ok(Ok(finish(net, &mut work, &mut trail, marks)))
}

// The cheapest selections of a network, found by runs as `cut_into` makes them.
pub fn cheapest_cut<N: Runnable>(heap: Global, net: &mut N, words: usize) -> Result<Cut, AllocError>
    ensures cut { IfOk result (λ cut. CheapestCost (N.value net.old) cut.cost × AllMarked (N.value net.old) (vec_items cut.marks)) }
    ensures runs { RunsLed (N.value net.old) (N.value net.new) result }
    ensures kept { N.keeps net.old net.new }
{
    let mut bytes = vec![in heap; 0; net.node_count()]?;
    let cost = cut_into(heap, net, words, &mut bytes)?.unwrap();
    let marks = read_marks(heap, &bytes)?;
    Ok(Cut { cost, marks })
}

// Repeats runs until one finishes, and answers what all of them gained.
fn finish<N: Runnable>(net: &mut N, work: &mut [Work], trail: &mut [u64], marks: &mut [u8]) -> u64
    requires records { (N.value net.old).graph.nodes ≤ length work.old }
    requires words { (N.value net.old).graph.nodes + 2 ≤ length trail.old }
    requires bytes { (N.value net.old).graph.nodes ≤ length marks.old }
    ensures least { CheapestCost (N.value net.old) result }
    ensures runs { Gained (N.value net.old) (N.value net.new) result }
    ensures marks { MarksOf (N.value net.old) (N.value net.old).graph.nodes marks.new }
    ensures beyond { Beyond (N.value net.old).graph.nodes marks.old marks.new }
    ensures kept { N.keeps net.old net.new }
{
    let mut gain = 0;
    loop {
        let report = net.run(work, trail, marks).unwrap();
        gain += report.log.gain;
        if report.outcome == Outcome::Finished {
            return gain;
        }
    }
}

// The marks that bytes stand for.
fn read_marks(heap: Global, bytes: &[u8]) -> Result<Vec<Mark>, AllocError>
    requires { (u : ℕ) → u < length bytes.now → (m : TheMark) × (slice_index bytes.now u ≡ mark_byte m) }
    ensures { IfOk result (λ marks. map mark_byte (vec_items marks) ≡ bytes.now) }
{
    let mut marks = Vec::new(heap);
    for byte in bytes {
        marks.push(Mark::of(*byte).unwrap())?;
    }
    Ok(marks)
}
