// What a sealed book answers as a network, and how it is released.
ghost use Rattle.std.specs.Prelude.{◌≡◌, Ok};
ghost use Rattle.network.specs.Answers.{at_arc, at_node};
ghost use Rattle.book.specs.Tables.{front};
ghost use Rattle.book.specs.Values.{sealed_of, sealed_table, sealed_value, sealed_lawful, sealed_keeps, sealed_keeping};

use super::held::mate;
use super::record::Record;
use super::sealed::SealedBook;
use network::{Arc, Network, NetworkRefusal, Terminal};

impl<'a> SealedBook<'a> {
    // The record of an entry.
    #[inline(always)]
    fn entry(&self, node: usize) -> Result<Record, NetworkRefusal>
        ensures { result ≡ at_node (sealed_value self.now) node (front (sealed_table self.now) node) }
    {
        let entries = self.held.records();
        entries.get(node).copied().ok_or(NetworkRefusal::NoNode)
    }

    // The code of an arc's reverse, where the arc is there.
    #[inline(always)]
    fn reverse(&self, arc: usize) -> Result<usize, NetworkRefusal>
        ensures { result ≡ at_arc (λ e. Ok e.reverse) ((sealed_value self.now).graph.ends arc) }
    {
        if arc >= 2 * self.held.needs {
            return Err(NetworkRefusal::NoArc);
        }
        Ok(mate(arc))
    }

    // Ends the book and gives its table back.
    pub fn release(self) -> &'a mut [Record]
        ensures { result ≡ (sealed_of self.entry).table }
    {
        self.held.release()
    }
}

impl<'a> Network for SealedBook<'a> {
    ghost value = { sealed_value };

    ghost lawful = { sealed_lawful };

    ghost keeps = { sealed_keeps };

    ghost keeping = { sealed_keeping };

    #[inline(always)]
    fn node_count(&self) -> usize {
        self.held.entries
    }

    #[inline(always)]
    fn terminal_residual(&self, terminal: Terminal, node: usize) -> Result<u64, NetworkRefusal> {
        let entry = self.entry(node)?;
        Ok(entry.amount(terminal))
    }

    #[inline(always)]
    fn arc_at(&self, node: usize, place: usize) -> Result<Option<usize>, NetworkRefusal> {
        let entry = self.entry(node)?;
        if place >= usize::from(entry.arcs_or_head) {
            return Ok(None);
        }
        let placed = self.held.arc(usize::from(entry.needs_or_index) + place);
        Ok(Some(usize::from(placed.needs_or_index)))
    }

    #[inline(always)]
    fn whole_arc_at(&self, node: usize, place: usize) -> Result<Option<Arc>, NetworkRefusal> {
        let entry = self.entry(node)?;
        if place >= usize::from(entry.arcs_or_head) {
            return Ok(None);
        }
        let placed = self.held.arc(usize::from(entry.needs_or_index) + place);
        let code = usize::from(placed.needs_or_index);
        let reverse = mate(code);
        let arc = self.held.arc(code);
        Ok(Some(Arc {
            code,
            head: usize::from(arc.arcs_or_head),
            reverse,
            residual: arc.residual(),
            back: self.held.arc(reverse).residual(),
        }))
    }

    #[inline(always)]
    fn arc_ends(&self, arc: usize) -> Result<(usize, usize, usize), NetworkRefusal> {
        let reverse = self.reverse(arc)?;
        let tail = self.held.arc(reverse).arcs_or_head;
        let head = self.held.arc(arc).arcs_or_head;
        Ok((usize::from(tail), usize::from(head), reverse))
    }

    #[inline(always)]
    fn arc_residual(&self, arc: usize) -> Result<u64, NetworkRefusal> {
        self.reverse(arc)?;
        Ok(self.held.arc(arc).residual())
    }

    #[inline(always)]
    fn take(&mut self, terminal: Terminal, node: usize, amount: u64) -> Result<(), NetworkRefusal> {
        let left = self.entry(node)?.amount(terminal).checked_sub(amount);
        let left = left.ok_or(NetworkRefusal::AboveResidual)?;
        let held = &mut self.held;
        let table = &mut *held.table;
        table[node].set_amount(terminal, left as u32);
        Ok(())
    }

    #[inline(always)]
    fn shift(&mut self, arc: usize, amount: u64) -> Result<(), NetworkRefusal> {
        let reverse = self.reverse(arc)?;
        let left = self.held.arc(arc).residual().checked_sub(amount);
        let left = left.ok_or(NetworkRefusal::AboveResidual)?;
        let held = &mut self.held;
        let last = held.table.len() - 1;
        let table = &mut *held.table;
        table[last - arc].set_residual(left);
        table[last - reverse].raise_residual(amount);
        Ok(())
    }
}
