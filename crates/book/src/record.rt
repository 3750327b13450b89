// One record of a book's table, and how it is changed.
ghost use Rattle.std.specs.Prelude.{◌≡◌, ◌+◌, ◌^◌, ◌<◌, ◌≤◌, take};
ghost use Rattle.book.specs.Records.{as_entry, as_arc, needing, with_arc_more, residual_of, with_residual, amount_of, with_amount};
ghost use Rattle.book.specs.Refusals.{among};

use network::Terminal;

// A record serves an entry or an arc of a need, never both, and a field may tell something else of each. No enum: which records serve
// arcs, their place in the table says.
#[derive(Clone, Copy, PartialEq, Eq, Debug, Default)]
pub struct Record {
    // of an entry: what it earns and what it costs, and once sealed what is left of them as residuals; of an arc: the low 32 bits of its
    // residual, and the others
    pub earning: u32,
    pub cost: u32,
    // of an entry: the entries that it needs, in the order of entering. An `ArrayVec` of them could not be copied, as a record is, and of
    // four `Option`s one could be empty before one that is not
    pub needed: [u16; 4],
    // of an entry: how many these are, and once sealed the place of its first arc in the index; of an arc: once sealed, the code of the
    // arc that stands at this place of the index
    pub needs_or_index: u16,
    // of an entry: how many arcs leave it; of an arc: the entry that it leads to
    pub arcs_or_head: u16,
}

// The lowest number of more than 32 bits.
const HIGH: u64 = 4_294_967_296;

impl Record {
    // An entry without needs. The amounts stay two numbers: a struct of both would be made in `enter` only to be taken apart here.
    #[inline(always)]
    pub(crate) fn entry(earning: u32, cost: u32) -> Record
        ensures { result ≡ as_entry earning cost }
    {
        Record {
            earning,
            cost,
            needed: [0; 4],
            needs_or_index: 0,
            arcs_or_head: 0,
        }
    }

    // Makes it an arc that leads to an entry, and an empty place of the index.
    #[inline(always)]
    pub(crate) fn become_arc(&mut self, head: u16, residual: u64)
        ensures { self.new ≡ as_arc self.old head residual }
    {
        self.arcs_or_head = head;
        self.needs_or_index = 0;
        self.set_residual(residual);
    }

    // What can still be sent along an arc.
    #[inline(always)]
    pub(crate) fn residual(self) -> u64
        ensures { result ≡ residual_of self }
    {
        u64::from(self.earning) + u64::from(self.cost) * HIGH
    }

    // Gives an arc another residual.
    #[inline(always)]
    pub(crate) fn set_residual(&mut self, residual: u64)
        ensures { self.new ≡ with_residual self.old residual }
    {
        self.earning = (residual % HIGH) as u32;
        self.cost = (residual / HIGH) as u32;
    }

    // Notes one more entry that it needs, and counts the arc to it.
    #[inline(always)]
    pub(crate) fn note_need(&mut self, needed: u16)
        requires room { self.old.needs_or_index < 4 }
        requires countable { self.old.arcs_or_head < 65535 }
        ensures { self.new ≡ needing self.old needed }
    {
        self.needed[usize::from(self.needs_or_index)] = needed;
        self.needs_or_index += 1;
        self.arcs_or_head += 1;
    }

    // Counts one more arc.
    #[inline(always)]
    pub(crate) fn count_arc(&mut self)
        requires { self.old.arcs_or_head < 65535 }
        ensures { self.new ≡ with_arc_more self.old }
    {
        self.arcs_or_head += 1;
    }

    // Raises the residual of an arc.
    #[inline(always)]
    pub(crate) fn raise_residual(&mut self, amount: u64)
        requires { residual_of self.old + amount < 2 ^ 64 }
        ensures { self.new ≡ with_residual self.old (residual_of self.old + amount) }
    {
        self.set_residual(self.residual() + amount);
    }

    // The entries that it needs, in the order of entering.
    #[inline(always)]
    pub(crate) fn needed(&self) -> &[u16]
        requires { self.now.needs_or_index ≤ 4 }
        ensures { result.now ≡ take self.now.needs_or_index self.now.needed }
    {
        &self.needed[..usize::from(self.needs_or_index)]
    }

    // Whether the entry needs another already.
    pub(crate) fn has_need(&self, needed: u16) -> bool
        requires { self.now.needs_or_index ≤ 4 }
        ensures { result ≡ among needed (take self.now.needs_or_index self.now.needed) }
    {
        self.needed().contains(&needed)
    }

    // What the entry has at a terminal.
    pub(crate) fn amount(self, terminal: Terminal) -> u64
        ensures { result ≡ amount_of self terminal }
    {
        match terminal {
            Terminal::Source => u64::from(self.earning),
            Terminal::Sink => u64::from(self.cost),
        }
    }

    // Gives the entry another amount at a terminal.
    #[inline(always)]
    pub(crate) fn set_amount(&mut self, terminal: Terminal, amount: u32)
        ensures { self.new ≡ with_amount self.old terminal amount }
    {
        match terminal {
            Terminal::Source => self.earning = amount,
            Terminal::Sink => self.cost = amount,
        }
    }
}
