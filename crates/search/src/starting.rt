// The paths of single nodes, which a run carries out first; and what all paths share, the log and the words before a path's arcs.
ghost use Rattle.std.specs.Prelude.{◌≡◌, ◌+◌, ◌^◌, ◌<◌, ◌≤◌, min, [], ◌∷◌, length, cond};
ghost use Rattle.network.specs.declared.terminal.Terminal.TheVariants.{Source, Sink};
ghost use Rattle.trees.specs.Climbs.{Written};
ghost use Rattle.search.specs.Trails.{no_log, Bounded, Further, node_path, SomeLogged, Started};

use super::reading::{take_from, terminal_residual};
use super::report::{Log, Outcome};
use network::{Network, Terminal};

impl Log {
    // The log with one path more, which has so many arcs and sends the amount.
    pub(crate) fn with(self, arcs: usize, amount: u64) -> Log
        requires paths { self.paths < 2 ^ 63 }
        requires gain { self.gain + amount < 2 ^ 63 }
        requires words { self.words + (3 + arcs) < 2 ^ 64 }
        ensures { result ≡ record { paths = self.paths + 1; gain = self.gain + amount; words = self.words + (3 + arcs) } }
    {
        Log {
            paths: self.paths + 1,
            gain: self.gain + amount,
            words: self.words + (3 + arcs),
        }
    }
}

// Writes the words of a path that stand before its arcs: how many arcs there are, the amount and the first node.
pub(crate) fn write_head(words: &mut [u64], arcs: usize, amount: u64, first: usize)
    requires { 3 ≤ length words.old }
    ensures { Written words.old words.new (arcs ∷ amount ∷ first ∷ []) }
{
    words[0] = arcs as u64;
    words[1] = amount;
    words[2] = first as u64;
}

// Whether a trail may be too short for one path more, where the network has so many nodes.
pub(crate) fn is_short(length: usize, used: usize, nodes: usize) -> bool
    requires used { used ≤ length }
    requires nodes { nodes ≤ 4096 }
    ensures { cond result (length < used + (nodes + 2)) (used + (nodes + 2) ≤ length) }
{
    length - used < nodes + 2
}

// What can be sent from the source through a node to the sink.
fn amount_through<N: Network>(net: &N, node: usize) -> u64
    requires { node < (N.Network.value net.now).graph.nodes }
    ensures { result ≡ min ((N.Network.value net.now).terminal Source node) ((N.Network.value net.now).terminal Sink node) }
{
    let source = terminal_residual(net, Terminal::Source, node);
    let sink = terminal_residual(net, Terminal::Sink, node);
    source.min(sink)
}

// Carries out the path of a single node, and writes it behind the words of the log. What bounds the log (`Bounded`) is the network's
// value, so it is no fact of a log alone.
fn pass_through<N: Network>(net: &mut N, trail: &mut [u64], log: &mut Log, node: usize, amount: u64)
    requires there { node < (N.Network.value net.old).graph.nodes }
    requires some { 0 < amount }
    requires least { amount ≡ min ((N.Network.value net.old).terminal Source node) ((N.Network.value net.old).terminal Sink node) }
    requires room { log.old.words + ((N.Network.value net.old).graph.nodes + 2) ≤ length trail.old }
    requires bounded { Bounded (N.Network.value net.old) log.old }
    ensures further { Further (N.Network.value net.old) (N.Network.value net.new) trail.old trail.new log.old log.new (node_path node amount) }
    ensures kept { N.Network.keeps net.old net.new }
{
    take_from(net, Terminal::Source, node, amount);
    take_from(net, Terminal::Sink, node, amount);
    write_head(&mut trail[log.words..], 0, amount, node);
    *log = log.with(0, amount);
}

// Carries out the path of every single node whose residuals are both positive, unless the trail is too short for one of them.
pub(crate) fn start<N: Network>(net: &mut N, trail: &mut [u64], log: &mut Log) -> Outcome
    requires new { log.old ≡ no_log }
    ensures logged { SomeLogged (N.Network.value net.old) (N.Network.value net.new) trail.old trail.new log.new }
    ensures kept { N.Network.keeps net.old net.new }
    ensures started { Started (N.Network.value net.new) trail.new log.new result }
{
    let count = net.node_count();
    for node in 0..count {
        let amount = amount_through(net, node);
        if amount > 0 {
            if is_short(trail.len(), log.words, count) {
                return Outcome::Paused;
            }
            pass_through(net, trail, log, node, amount);
        }
    }
    Outcome::Finished
}
