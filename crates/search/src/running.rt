// The run itself: paths of single nodes, then growth, augmentation and adoption until no path is left or the trail is too short.
ghost use Rattle.std.specs.Prelude.{◌≡◌, ◌+◌, ◌≤◌, length, OnErr};
ghost use Rattle.trees.specs.Trees.{Trees};
ghost use Rattle.trees.specs.Surveys.{StagesBelow};
ghost use Rattle.trees.specs.Searches.{Bridges};
ghost use Rattle.trees.specs.Climbs.{Settled};
ghost use Rattle.search.specs.Runs.{Run, Promise};
ghost use Rattle.search.specs.Tables.{forest_of};
ghost use Rattle.search.specs.Trails.{SomeLogged, SomeFurther, Steps, Bounded, Searched, Ended};

use super::adoption::{adopt, stage_after};
use super::carrying::carry;
use super::growth::grow;
use super::marking::mark;
use super::planting::plant;
use super::refusal::RunRefusal;
use super::report::{Log, Outcome, Report};
use super::starting::{is_short, start};
use super::table::Table;
use super::tracing::Tracer;
use network::Network;
use trees::Work;

// Carries out the path over a bridge, and writes it behind the words of the log.
fn augment<N: Network>(
    net: &mut N,
    table: &mut Table,
    trail: &mut [u64],
    log: &mut Log,
    bridge: usize,
)
    requires trees { Settled (N.Network.value net.old) (forest_of table.old) }
    requires bridge { Bridges (N.Network.value net.old) (forest_of table.old) bridge }
    requires room { log.old.words + ((N.Network.value net.old).graph.nodes + 2) ≤ length trail.old }
    requires bounded { Bounded (N.Network.value net.old) log.old }
    ensures further { SomeFurther (N.Network.value net.old) (N.Network.value net.new) trail.old trail.new log.old log.new }
    ensures kept { N.Network.keeps net.old net.new }
    ensures trees { Trees (N.Network.value net.new) (forest_of table.new) }
    ensures stages { (forest_of table.new).stage ≡ (forest_of table.old).stage }
{
    let path = Tracer { net, table }.trace(bridge, &mut trail[log.words..]);
    let from = log.words + 3;
    carry(net, table, path, &trail[from..from + path.arcs]);
    *log = log.with(path.arcs, path.amount);
}

// Grows the trees, carries out the path where they meet and finds new parents for orphans, over and over: until they cannot
// grow, or the trail is too short for another path.
fn search_on<N: Network>(
    net: &mut N,
    table: &mut Table,
    trail: &mut [u64],
    log: &mut Log,
) -> Outcome
    requires trees { Settled (N.Network.value net.old) (forest_of table.old) }
    requires stages { StagesBelow (forest_of table.old) 1 }
    requires words { log.old.words ≤ length trail.old }
    requires bounded { Bounded (N.Network.value net.old) log.old }
    ensures size { (forest_of table.new).size ≡ (N.Network.value net.old).graph.nodes }
    ensures steps { Steps (N.Network.value net.old) (N.Network.value net.new) trail.old trail.new log.old log.new }
    ensures kept { N.Network.keeps net.old net.new }
    ensures searched { Searched (N.Network.value net.new) (forest_of table.new) trail.new log.new result }
{
    let count = net.node_count();
    let mut stage = 1;
    while let Some(bridge) = grow(net, table) {
        if is_short(trail.len(), log.words, count) {
            return Outcome::Paused;
        }
        augment(net, table, trail, log, bridge);
        adopt(net, table, stage);
        stage = stage_after(table, stage);
    }
    Outcome::Finished
}

// A run over a working table with one record for each node, and as many mark bytes.
fn search<N: Network>(net: &mut N, work: &mut [Work], trail: &mut [u64], marks: &mut [u8]) -> Report
    requires records { length work.old ≡ (N.Network.value net.old).graph.nodes }
    requires bytes { length marks.old ≡ (N.Network.value net.old).graph.nodes }
    ensures logged { SomeLogged (N.Network.value net.old) (N.Network.value net.new) trail.old trail.new result.log }
    ensures kept { N.Network.keeps net.old net.new }
    ensures ended { Ended (N.Network.value net.new) trail.new result.log marks.old marks.new result.outcome }
{
    let mut log = Log::default();
    if start(net, trail, &mut log) == Outcome::Paused {
        return Report {
            outcome: Outcome::Paused,
            log,
        };
    }
    let mut table = Table::cleared(work);
    plant(net, &mut table);
    let outcome = search_on(net, &mut table, trail, &mut log);
    if outcome == Outcome::Finished {
        mark(&table, marks);
    }
    Report { outcome, log }
}

// Carries out augmenting paths on the network until none is left, or until a path is left and fewer words of the trail are
// unused than it may take. A finished run marks each node. What the network keeps besides its value it keeps through every run.
pub fn run<N: Network>(
    net: &mut N,
    work: &mut [Work],
    trail: &mut [u64],
    marks: &mut [u8],
) -> Result<Report, RunRefusal>
    ensures ran { Run (N.Network.value net.old) (record { work = work.old; trail = trail.old; marks = marks.old }) result (N.Network.value net.new) (record { work = work.new; trail = trail.new; marks = marks.new }) }
    ensures kept { N.Network.keeps net.old net.new }
    ensures refused { OnErr result (net.new ≡ net.old) }
    ensures promise { Promise (N.Network.value net.old) result (N.Network.value net.new) (record { work = work.new; trail = trail.new; marks = marks.new }) }
{
    let count = net.node_count();
    RunRefusal::check(count, work.len(), marks.len())?;
    Ok(search(net, &mut work[..count], trail, &mut marks[..count]))
}
