// What a network is to those who search it: a trait with a meaning and laws.
#![tactic(auto)]

ghost use Rattle.std.specs.Prelude.{◌≡◌, OnErr};
ghost use Rattle.network.specs.Nets.{Net, Lawful};
ghost use Rattle.network.specs.Keeping.{Keeping};
ghost use Rattle.network.specs.Answers.{terminal_answer, place_answer, arc_answer, ends_answer, residual_answer, take_answer, after_take, shift_answer, after_shift};

mod arc;
mod mark;
mod refusal;
mod terminal;
mod theorems;

pub use arc::Arc;
pub use mark::Mark;
pub use refusal::NetworkRefusal;
pub use terminal::Terminal;

// Nodes are numbered from 0; arcs go by codes. A question changes nothing, and a refused change neither.
pub trait Network {
    // what the network means
    ghost value: { Self → Net };

    // its laws, which each `impl` proves
    ghost lawful: { (x : Self) → Lawful (value x) };

    // what each `impl` promises to keep besides its value: `keeps x y` says it of x and a later state y
    ghost keeps: { Self → Self → Type 0 };

    // staying as it is keeps that, and so does one change after another, as each `impl` proves
    ghost keeping: { Keeping keeps };

    fn node_count(&self) -> usize
        ensures { result ≡ (value self.now).graph.nodes };

    // What can still be sent from the source to the node, or from the node to the sink.
    fn terminal_residual(&self, terminal: Terminal, node: usize) -> Result<u64, NetworkRefusal>
        ensures { result ≡ terminal_answer (value self.now) terminal node };

    // The code of the arc at a place of the node; none past the last place.
    fn arc_at(&self, node: usize, place: usize) -> Result<Option<usize>, NetworkRefusal>
        ensures { result ≡ place_answer (value self.now) node place };

    // The arc's tail, its head and the code of its reverse: three numbers that a rule of the project has told together.
    fn arc_ends(&self, arc: usize) -> Result<(usize, usize, usize), NetworkRefusal>
        ensures { result ≡ ends_answer (value self.now) arc };

    // The arc at a place of the node, told whole. A network that can tell it by one look need not ask twice.
    #[inline(always)]
    fn whole_arc_at(&self, node: usize, place: usize) -> Result<Option<Arc>, NetworkRefusal>
        ensures { result ≡ arc_answer (value self.now) node place }
    {
        let Some(code) = self.arc_at(node, place)? else {
            return Ok(None);
        };
        let (_, head, reverse) = self.arc_ends(code)?;
        Ok(Some(Arc {
            code,
            head,
            reverse,
            residual: self.arc_residual(code)?,
            back: self.arc_residual(reverse)?,
        }))
    }

    fn arc_residual(&self, arc: usize) -> Result<u64, NetworkRefusal>
        ensures { result ≡ residual_answer (value self.now) arc };

    // Lowers a terminal residual of the node.
    fn take(&mut self, terminal: Terminal, node: usize, amount: u64) -> Result<(), NetworkRefusal>
        ensures answer { result ≡ take_answer (value self.old) terminal node amount }
        ensures after { value self.new ≡ after_take (value self.old) terminal node amount }
        ensures kept { keeps self.old self.new }
        ensures refused { OnErr result (self.new ≡ self.old) };

    // Lowers the arc's residual and raises its reverse's by the same.
    fn shift(&mut self, arc: usize, amount: u64) -> Result<(), NetworkRefusal>
        ensures answer { result ≡ shift_answer (value self.old) arc amount }
        ensures after { value self.new ≡ after_shift (value self.old) arc amount }
        ensures kept { keeps self.old self.new }
        ensures refused { OnErr result (self.new ≡ self.old) };
}
