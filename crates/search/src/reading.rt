// What the search asks of a network, with the answers that a lawful network gives to questions about what is there.
ghost use Rattle.std.specs.Prelude.{◌≡◌, ◌<◌, ◌≤◌};
ghost use Rattle.network.specs.Nets.{ends_of, taken, shifted};
ghost use Rattle.network.specs.Sides.{near};
ghost use Rattle.trees.specs.Trees.{There};
ghost use Rattle.search.specs.Readings.{HasNode, places_left, StepsOn, Stands};

use network::{Network, Terminal};

// A node beside another, and the arcs between them.
#[derive(Clone, Copy, PartialEq, Eq, Debug)]
pub(crate) struct Neighbour {
    pub(crate) node: usize,
    // along which the tree grows to the neighbour, and from the neighbour
    pub(crate) outward: usize,
    pub(crate) inward: usize,
    // what can still be sent along each of them
    pub(crate) outward_residual: u64,
    pub(crate) inward_residual: u64,
}

// The neighbours of a node, one place after another, as the tree of the terminal meets them.
#[derive(Drop)]
pub(crate) struct Neighbourhood<'a, N> {
    net: &'a N,
    terminal: Terminal,
    node: usize,
    place: usize,
}

// The neighbours of a node from its first place on. A terminal and a node stay two values, here and elsewhere: many calls ask one node
// of both terminals.
#[inline(always)]
pub(crate) fn neighbours<N: Network>(
    net: &N,
    terminal: Terminal,
    node: usize,
) -> Neighbourhood<'_, N>
    ensures { Stands net.now terminal node 0 result }
{
    Neighbourhood {
        net,
        terminal,
        node,
        place: 0,
    }
}

impl<'a, N: Network> Iterator for Neighbourhood<'a, N> {
    type Item = Neighbour;

    ghost can_next = { HasNode N.Network.value };

    ghost next_gives = { StepsOn N.Network.value };

    ghost remaining = { places_left N.Network.value };

    #[inline(always)]
    fn next(&mut self) -> Option<Neighbour> {
        let arc = self.net.whole_arc_at(self.node, self.place).unwrap()?;
        self.place += 1;
        Some(match self.terminal {
            Terminal::Source => Neighbour {
                node: arc.head,
                outward: arc.code,
                inward: arc.reverse,
                outward_residual: arc.residual,
                inward_residual: arc.back,
            },
            Terminal::Sink => Neighbour {
                node: arc.head,
                outward: arc.reverse,
                inward: arc.code,
                outward_residual: arc.back,
                inward_residual: arc.residual,
            },
        })
    }
}

// What can still be sent along an arc. That it is there is a fact about the network's value, which no type of a number could hold.
#[inline(always)]
pub(crate) fn residual<N: Network>(net: &N, arc: usize) -> u64
    requires { There (N.Network.value net.now).graph arc }
    ensures { result ≡ (N.Network.value net.now).residual arc }
{
    net.arc_residual(arc).unwrap()
}

// The end of an arc that is nearer to the terminal.
#[inline(always)]
pub(crate) fn near_end<N: Network>(net: &N, terminal: Terminal, arc: usize) -> usize
    requires { There (N.Network.value net.now).graph arc }
    ensures { result ≡ near terminal (ends_of (N.Network.value net.now).graph arc) }
{
    let (tail, head, _) = net.arc_ends(arc).unwrap();
    match terminal {
        Terminal::Source => tail,
        Terminal::Sink => head,
    }
}

// What can still be sent from the source to a node, or from a node to the sink.
pub(crate) fn terminal_residual<N: Network>(net: &N, terminal: Terminal, node: usize) -> u64
    requires { node < (N.Network.value net.now).graph.nodes }
    ensures { result ≡ (N.Network.value net.now).terminal terminal node }
{
    net.terminal_residual(terminal, node).unwrap()
}

// Sends an amount along an arc that has room for it.
pub(crate) fn shift_along<N: Network>(net: &mut N, arc: usize, amount: u64)
    requires there { There (N.Network.value net.old).graph arc }
    requires room { amount ≤ (N.Network.value net.old).residual arc }
    ensures value { N.Network.value net.new ≡ shifted (N.Network.value net.old) arc amount }
    ensures kept { N.Network.keeps net.old net.new }
{
    net.shift(arc, amount).unwrap();
}

// Takes an amount from a terminal residual that is as large at least.
pub(crate) fn take_from<N: Network>(net: &mut N, terminal: Terminal, node: usize, amount: u64)
    requires there { node < (N.Network.value net.old).graph.nodes }
    requires room { amount ≤ (N.Network.value net.old).terminal terminal node }
    ensures value { N.Network.value net.new ≡ taken (N.Network.value net.old) terminal node amount }
    ensures kept { N.Network.keeps net.old net.new }
{
    net.take(terminal, node, amount).unwrap();
}
