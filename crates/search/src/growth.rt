// Growth: the trees take in free nodes until an arc leads from the source's tree to the sink's.
ghost use Rattle.std.specs.Prelude.{◌≡◌, ◌<◌, ◌≤◌, Some};
ghost use Rattle.trees.specs.declared.lane.Lane.TheVariants.{Waiting};
ghost use Rattle.trees.specs.Trees.{Trees, growth_left};
ghost use Rattle.trees.specs.Searches.{TreesBut, Scanned, Grown, Grows};
ghost use Rattle.search.specs.Tables.{forest_of};

use super::reading::neighbours;
use super::table::{Table, hanging};
use network::{Network, Terminal};
use trees::Lane;

// Looks at the arcs of a node that waited: free neighbours join its tree, and the first neighbour in the other tree ends the
// search with the arc between them.
#[inline(always)]
fn scan_for<N: Network>(
    net: &N,
    table: &mut Table,
    terminal: Terminal,
    node: usize,
) -> Option<usize>
    requires trees { TreesBut (N.Network.value net.now) (forest_of table.old) Waiting node }
    requires there { node < (N.Network.value net.now).graph.nodes }
    requires mine { (forest_of table.old).tree node ≡ Some terminal }
    ensures trees { Scanned (N.Network.value net.now) node (forest_of table.new) result }
    ensures grows { Grows (forest_of table.old) (forest_of table.new) }
    ensures left { growth_left (N.Network.value net.now).graph.nodes (forest_of table.new) ≤ growth_left (N.Network.value net.now).graph.nodes (forest_of table.old) }
{
    for next in neighbours(net, terminal, node) {
        if !table.is_in(next.node, terminal) && next.outward_residual > 0 {
            match table.tree(next.node) {
                None => table.join(terminal, next.node, hanging(next.outward, node)),
                Some(_) => return Some(next.outward),
            }
        }
    }
    None
}

// The same, compiled for each tree by itself.
pub(crate) fn scan<N: Network>(
    net: &N,
    table: &mut Table,
    terminal: Terminal,
    node: usize,
) -> Option<usize>
    requires trees { TreesBut (N.Network.value net.now) (forest_of table.old) Waiting node }
    requires there { node < (N.Network.value net.now).graph.nodes }
    requires mine { (forest_of table.old).tree node ≡ Some terminal }
    ensures trees { Scanned (N.Network.value net.now) node (forest_of table.new) result }
    ensures grows { Grows (forest_of table.old) (forest_of table.new) }
    ensures left { growth_left (N.Network.value net.now).graph.nodes (forest_of table.new) ≤ growth_left (N.Network.value net.now).graph.nodes (forest_of table.old) }
{
    match terminal {
        Terminal::Source => scan_for(net, table, Terminal::Source, node),
        Terminal::Sink => scan_for(net, table, Terminal::Sink, node),
    }
}

// Grows both trees until they meet; none when neither can grow.
pub(crate) fn grow<N: Network>(net: &N, table: &mut Table) -> Option<usize>
    requires trees { Trees (N.Network.value net.now) (forest_of table.old) }
    ensures trees { Grown (N.Network.value net.now) (forest_of table.new) result }
    ensures grows { Grows (forest_of table.old) (forest_of table.new) }
{
    while let Some(node) = table.pick(Lane::Waiting) {
        if let Some(terminal) = table.tree(node) {
            if let Some(bridge) = scan(net, table, terminal, node) {
                table.put(Lane::Waiting, node);
                return Some(bridge);
            }
        }
    }
    None
}
