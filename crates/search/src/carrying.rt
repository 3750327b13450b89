// Carrying a path out: its amount is taken at both ends and sent along its arcs, and the nodes that hang from what it empties
// become orphans. That this leaves who is in which tree (`Carries`) ties the table before to the one after, so no type can hold it.
ghost use Rattle.std.specs.Prelude.{◌≡◌, ◌<◌, ◌≤◌};
ghost use Rattle.network.specs.Nets.{taken, shifted};
ghost use Rattle.network.specs.Paths.{last_node, Augmenting, shifted_along, carried};
ghost use Rattle.trees.specs.Trees.{Trees, AllOnward};
ghost use Rattle.trees.specs.Carryings.{Carries, OnwardArc, Way};
ghost use Rattle.search.specs.Tables.{forest_of};
ghost use Rattle.search.specs.Tracings.{path_of};

use super::reading::{near_end, residual, shift_along, take_from, terminal_residual};
use super::table::Table;
use super::tracing::Traced;
use network::{Network, Terminal};

// Sends an amount along an arc; if that empties it, whoever hangs from it becomes an orphan first.
fn send<N: Network>(net: &mut N, table: &mut Table, arc: usize, amount: u64)
    requires trees { Trees (N.Network.value net.old) (forest_of table.old) }
    requires onward { OnwardArc (N.Network.value net.old) (forest_of table.old) arc }
    requires room { amount ≤ (N.Network.value net.old).residual arc }
    ensures value { N.Network.value net.new ≡ shifted (N.Network.value net.old) arc amount }
    ensures kept { N.Network.keeps net.old net.new }
    ensures trees { Trees (N.Network.value net.new) (forest_of table.new) }
    ensures same { Carries (forest_of table.old) (forest_of table.new) }
{
    // the ends are asked for before anything is written, so that one look serves all that is asked; an arc that is emptied is shifted last, so
    // that the trees stand after every step
    if residual(net, arc) == amount {
        let tail = near_end(net, Terminal::Source, arc);
        let head = near_end(net, Terminal::Sink, arc);
        table.disown(tail, arc);
        table.disown(head, arc);
        shift_along(net, arc, amount);
    } else {
        shift_along(net, arc, amount);
    }
}

// Takes an amount at a node's terminal residual; if nothing is left of it, the node becomes an orphan.
fn take_end<N: Network>(
    net: &mut N,
    table: &mut Table,
    terminal: Terminal,
    node: usize,
    amount: u64,
)
    requires trees { Trees (N.Network.value net.old) (forest_of table.old) }
    requires there { node < (N.Network.value net.old).graph.nodes }
    requires some { 0 < amount }
    requires room { amount ≤ (N.Network.value net.old).terminal terminal node }
    ensures value { N.Network.value net.new ≡ taken (N.Network.value net.old) terminal node amount }
    ensures kept { N.Network.keeps net.old net.new }
    ensures trees { Trees (N.Network.value net.new) (forest_of table.new) }
    ensures same { Carries (forest_of table.old) (forest_of table.new) }
{
    // as in `send`, one look for all that is asked
    if terminal_residual(net, terminal, node) == amount {
        take_from(net, terminal, node, amount);
        table.orphan(node);
    } else {
        take_from(net, terminal, node, amount);
    }
}

// Sends an amount along the arcs of a way, one after another.
fn send_along<N: Network>(net: &mut N, table: &mut Table, amount: u64, arcs: &[u64])
    requires trees { Trees (N.Network.value net.old) (forest_of table.old) }
    requires way { Way (N.Network.value net.old) (forest_of table.old) amount arcs.now }
    ensures value { N.Network.value net.new ≡ shifted_along (N.Network.value net.old) arcs.now amount }
    ensures kept { N.Network.keeps net.old net.new }
    ensures trees { Trees (N.Network.value net.new) (forest_of table.new) }
    ensures same { Carries (forest_of table.old) (forest_of table.new) }
{
    for arc in arcs {
        send(net, table, *arc as usize, amount);
    }
}

// Carries out a path that was traced and has these arcs.
pub(crate) fn carry<N: Network>(net: &mut N, table: &mut Table, path: Traced, arcs: &[u64])
    requires trees { Trees (N.Network.value net.old) (forest_of table.old) }
    requires path { Augmenting (N.Network.value net.old) (path_of path arcs.now) }
    requires end { path.last ≡ last_node (N.Network.value net.old).graph path.first arcs.now }
    requires onward { AllOnward (N.Network.value net.old).graph (forest_of table.old) arcs.now }
    ensures value { N.Network.value net.new ≡ carried (N.Network.value net.old) (path_of path arcs.now) }
    ensures kept { N.Network.keeps net.old net.new }
    ensures trees { Trees (N.Network.value net.new) (forest_of table.new) }
    ensures same { Carries (forest_of table.old) (forest_of table.new) }
{
    take_end(net, table, Terminal::Source, path.first, path.amount);
    send_along(net, table, path.amount, arcs);
    take_end(net, table, Terminal::Sink, path.last, path.amount);
}
