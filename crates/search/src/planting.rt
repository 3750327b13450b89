// The trees as a run begins: their roots alone.
ghost use Rattle.std.specs.Prelude.{◌≡◌, ◌<◌};
ghost use Rattle.trees.specs.declared.lane.Lane.TheVariants.{Orphans};
ghost use Rattle.trees.specs.Forests.{cleared};
ghost use Rattle.trees.specs.Rings.{Empty};
ghost use Rattle.trees.specs.Trees.{Trees};
ghost use Rattle.trees.specs.Surveys.{StagesBelow};
ghost use Rattle.trees.specs.Plantings.{Apart, root_tree};
ghost use Rattle.search.specs.Tables.{forest_of};

use super::reading::terminal_residual;
use super::table::Table;
use network::{Network, Terminal};
use trees::Parent;

// The terminal at which a node has a residual; the source, if it has one at both. No `find` over the two terminals: every node is asked, and
// an array would be written for each.
fn root_tree<N: Network>(net: &N, node: usize) -> Option<Terminal>
    requires { node < (N.Network.value net.now).graph.nodes }
    ensures { result ≡ root_tree (N.Network.value net.now) node }
{
    if terminal_residual(net, Terminal::Source, node) > 0 {
        Some(Terminal::Source)
    } else if terminal_residual(net, Terminal::Sink, node) > 0 {
        Some(Terminal::Sink)
    } else {
        None
    }
}

// Puts every node with a residual at a terminal into that terminal's tree; it waits for its arcs to be looked at.
pub(crate) fn plant<N: Network>(net: &N, table: &mut Table)
    requires cleared { forest_of table.old ≡ cleared (N.Network.value net.now).graph.nodes }
    requires apart { Apart (N.Network.value net.now) }
    ensures trees { Trees (N.Network.value net.now) (forest_of table.new) }
    ensures orphans { Empty (forest_of table.new) Orphans }
    ensures stages { StagesBelow (forest_of table.new) 1 }
{
    for node in 0..net.node_count() {
        if let Some(terminal) = root_tree(net, node) {
            table.join(terminal, node, Parent::Root);
        }
    }
}
