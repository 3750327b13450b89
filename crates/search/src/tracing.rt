// Tracing a path: from a bridge up both trees, and the path's words into a slice.
ghost use Rattle.std.specs.Prelude.{◌≡◌, ◌+◌, ◌<◌, ◌≤◌, length, Some};
ghost use Rattle.std.specs.List.{AllByRecursion};
ghost use Rattle.network.specs.declared.terminal.Terminal.TheVariants.{Source};
ghost use Rattle.network.specs.Paths.{Smallest};
ghost use Rattle.trees.specs.Trees.{There};
ghost use Rattle.trees.specs.Searches.{Bridges};
ghost use Rattle.trees.specs.Climbs.{Settled, ClimbsFit, ClimbsLeaveOne, ClimbWritten, DescentWritten, residuals};
ghost use Rattle.search.specs.Tracings.{Hops, WayWritten, PathWritten};
ghost use Rattle.search.specs.Tables.{forest_of};

use super::reading::{near_end, residual, terminal_residual};
use super::starting::write_head;
use super::table::Table;
use network::{Network, Terminal};
use trees::Parent;

// One step of a climb: the arc that a node hangs from, and the node above it.
#[derive(Clone, Copy, PartialEq, Eq, Debug)]
struct Hop {
    arc: usize,
    node: usize,
}

// How many arcs a path has, and its first and last node.
#[derive(Clone, Copy, PartialEq, Eq, Debug)]
struct Way {
    count: usize,
    first: usize,
    last: usize,
}

// A path that was traced: how many arcs it has, the amount that it sends, its first and its last node. A `Way` comes before it, while
// the amount is not known, and is told flat here.
#[derive(Clone, Copy, PartialEq, Eq, Debug)]
pub(crate) struct Traced {
    pub(crate) arcs: usize,
    pub(crate) amount: u64,
    pub(crate) first: usize,
    pub(crate) last: usize,
}

// The network and the table as a path is traced, which changes neither. That every node of a tree hangs from its terminal, and
// that an arc is a bridge, are no ghost fields, which was tried: such a fact has one proof at most, and these tell climbs and ends.
#[derive(Drop)]
pub(crate) struct Tracer<'a, 't, N> {
    pub(crate) net: &'a N,
    pub(crate) table: &'a Table<'t>,
}

impl<N: Network> Tracer<'_, '_, N> {
    // The step up from a node of the terminal's tree; none from a child of the terminal.
    #[inline(always)]
    fn step_up(&self, terminal: Terminal, node: usize) -> Option<Hop>
        requires trees { Settled (N.Network.value self.now.net.now) (forest_of self.now.table.now) }
        requires there { node < (N.Network.value self.now.net.now).graph.nodes }
        requires tree { (forest_of self.now.table.now).tree node ≡ Some terminal }
        ensures { Hops (N.Network.value self.now.net.now).graph (forest_of self.now.table.now).parent terminal node result }
    {
        match self.table.work(node).parent {
            Parent::Along { arc, node: above } => Some(Hop {
                arc: arc as usize,
                node: above as usize,
            }),
            Parent::Root | Parent::Orphan => None,
        }
    }

    // Writes the arcs of the climb from a node of the terminal's tree up to the terminal, the lowest first; tells how many they
    // are, and the terminal's child where the climb ends.
    fn climb(&self, terminal: Terminal, node: usize, arcs: &mut [u64]) -> (usize, usize)
        requires trees { Settled (N.Network.value self.now.net.now) (forest_of self.now.table.now) }
        requires there { node < (N.Network.value self.now.net.now).graph.nodes }
        requires tree { (forest_of self.now.table.now).tree node ≡ Some terminal }
        requires room { ClimbsFit (N.Network.value self.now.net.now).graph (forest_of self.now.table.now).parent terminal node (length arcs.old) }
        ensures { ClimbWritten (N.Network.value self.now.net.now).graph (forest_of self.now.table.now).parent terminal node arcs.old arcs.new result }
    {
        let mut at = node;
        // counted by hand: the count is the answer, and only the trees tell which step is the last
        let mut steps = 0;
        while let Some(hop) = self.step_up(terminal, at) {
            arcs[steps] = hop.arc as u64;
            steps += 1;
            at = hop.node;
        }
        (steps, at)
    }

    // Writes the arcs from the source down to a node of its tree, where there is room for one more; tells how many they are, and the
    // source's child where they begin.
    fn descend(&self, node: usize, arcs: &mut [u64]) -> (usize, usize)
        requires trees { Settled (N.Network.value self.now.net.now) (forest_of self.now.table.now) }
        requires there { node < (N.Network.value self.now.net.now).graph.nodes }
        requires tree { (forest_of self.now.table.now).tree node ≡ Some Source }
        requires room { ClimbsLeaveOne (N.Network.value self.now.net.now).graph (forest_of self.now.table.now).parent Source node (length arcs.old) }
        ensures written { DescentWritten (N.Network.value self.now.net.now).graph (forest_of self.now.table.now).parent Source node arcs.old arcs.new result }
        ensures left { result.0 < length arcs.new }
    {
        let (steps, root) = self.climb(Terminal::Source, node, arcs);
        arcs[..steps].reverse();
        (steps, root)
    }

    // Writes the arcs of the path over a bridge: up the source's tree, turned round, over the bridge, and up the sink's tree.
    fn trace_arcs(&self, bridge: usize, arcs: &mut [u64]) -> Way
        requires trees { Settled (N.Network.value self.now.net.now) (forest_of self.now.table.now) }
        requires bridge { Bridges (N.Network.value self.now.net.now) (forest_of self.now.table.now) bridge }
        requires room { (N.Network.value self.now.net.now).graph.nodes ≤ length arcs.old + 1 }
        ensures { WayWritten (N.Network.value self.now.net.now) (forest_of self.now.table.now) arcs.old arcs.new result }
    {
        // both ends before anything is written: so the bridge is looked up once
        let tail = near_end(self.net, Terminal::Source, bridge);
        let head = near_end(self.net, Terminal::Sink, bridge);
        let (below, first) = self.descend(tail, arcs);
        arcs[below] = bridge as u64;
        let (above, last) = self.climb(Terminal::Sink, head, &mut arcs[below + 1..]);
        Way {
            count: below + 1 + above,
            first,
            last,
        }
    }

    // Writes the words of the path over a bridge.
    pub(crate) fn trace(&self, bridge: usize, words: &mut [u64]) -> Traced
        requires trees { Settled (N.Network.value self.now.net.now) (forest_of self.now.table.now) }
        requires bridge { Bridges (N.Network.value self.now.net.now) (forest_of self.now.table.now) bridge }
        requires room { (N.Network.value self.now.net.now).graph.nodes + 2 ≤ length words.old }
        ensures { PathWritten (N.Network.value self.now.net.now) (forest_of self.now.table.now) words.old words.new result }
    {
        let Way { count, first, last } = self.trace_arcs(bridge, &mut words[3..]);
        let amount = smallest(self.net, first, last, &words[3..3 + count]);
        write_head(words, count, amount, first);
        Traced {
            arcs: count,
            amount,
            first,
            last,
        }
    }
}

// The smallest residual on the way from the source to the first node, along the arcs, and from the last node to the sink.
fn smallest<N: Network>(net: &N, first: usize, last: usize, arcs: &[u64]) -> u64
    requires first { first < (N.Network.value net.now).graph.nodes }
    requires last { last < (N.Network.value net.now).graph.nodes }
    requires arcs { AllByRecursion (There (N.Network.value net.now).graph) arcs.now }
    ensures { Smallest result (residuals (N.Network.value net.now) first arcs.now last) }
{
    let start = terminal_residual(net, Terminal::Source, first);
    let end = terminal_residual(net, Terminal::Sink, last);
    let mut least = start.min(end);
    for arc in arcs {
        least = least.min(residual(net, *arc as usize));
    }
    least
}
