// The calls on a row: how it is made, and what it answers as a network.
ghost use Rattle.std.specs.Prelude.{◌≡◌, map, Ok};
ghost use Rattle.network.specs.Answers.{at_arc, at_node};
ghost use Rattle.row.specs.Cells.{capped};
ghost use Rattle.row.specs.Rows.{cell_at, owner, way_of};
ghost use Rattle.row.specs.Values.{slice_of, cells_of, row_value, row_lawful, row_keeps, row_keeping};

use super::Row;
use super::cell::{Cell, Way};
use network::{Network, NetworkRefusal, Terminal};

// The most nodes that a network may have.
const MOST_NODES: usize = 4096;

impl<'a> Row<'a> {
    // A row over these cells, in which each amount above 2^39 is lowered to that first. That it is the same slice, told by the name of
    // its borrow, lets whoever lent the cells know what he finds in them when the row is gone.
    pub fn new(cells: &'a mut [Cell]) -> Row<'a>
        ensures cells { cells_of result ≡ map capped cells.old }
        ensures same_slice { (slice_of result).ghost_name ≡ cells.entry.ghost_name }
    {
        for cell in cells.iter_mut() {
            *cell = cell.capped();
        }
        Row { cells }
    }

    // The cell of a node.
    fn cell(&self, node: usize) -> Result<Cell, NetworkRefusal>
        ensures { result ≡ at_node (row_value self.now) node (cell_at (cells_of self.now) node) }
    {
        let nodes = &self.cells[..self.node_count()];
        nodes.get(node).copied().ok_or(NetworkRefusal::NoNode)
    }

    // The number of the cell that owns an arc, and which way the arc goes.
    fn owner(&self, arc: usize) -> Result<(usize, Way), NetworkRefusal>
        ensures { result ≡ at_arc (λ _. Ok (owner arc, way_of arc)) ((row_value self.now).graph.ends arc) }
    {
        let cell = arc / 2;
        if cell + 1 >= self.node_count() {
            return Err(NetworkRefusal::NoArc);
        }
        Ok((cell, Way::of(arc)))
    }
}

impl<'a> Network for Row<'a> {
    ghost value = { row_value };

    ghost lawful = { row_lawful };

    ghost keeps = { row_keeps };

    ghost keeping = { row_keeping };

    fn node_count(&self) -> usize {
        self.cells.len().min(MOST_NODES)
    }

    fn terminal_residual(&self, terminal: Terminal, node: usize) -> Result<u64, NetworkRefusal> {
        let cell = self.cell(node)?;
        Ok(cell.terminal(terminal))
    }

    fn arc_at(&self, node: usize, place: usize) -> Result<Option<usize>, NetworkRefusal> {
        self.cell(node)?;
        // the arc to the next cell comes first, then the one to the cell before, each where there is one
        let next = (node + 1 < self.node_count()).then_some(2 * node);
        let before = node.checked_sub(1).map(|before| 2 * before + 1);
        Ok(next.into_iter().chain(before).nth(place))
    }

    fn arc_ends(&self, arc: usize) -> Result<(usize, usize, usize), NetworkRefusal> {
        // which way it goes is asked for anew: a loop over all arcs took twice the time with the way that comes beside the cell
        let (cell, _) = self.owner(arc)?;
        match Way::of(arc) {
            Way::Right => Ok((cell, cell + 1, arc + 1)),
            Way::Left => Ok((cell + 1, cell, arc - 1)),
        }
    }

    fn arc_residual(&self, arc: usize) -> Result<u64, NetworkRefusal> {
        let (cell, way) = self.owner(arc)?;
        Ok(self.cells[cell].residual(way))
    }

    fn take(&mut self, terminal: Terminal, node: usize, amount: u64) -> Result<(), NetworkRefusal> {
        let cell = self.cell(node)?;
        let left = cell
            .terminal(terminal)
            .checked_sub(amount)
            .ok_or(NetworkRefusal::AboveResidual)?;
        self.cells[node] = cell.with_terminal(terminal, left);
        Ok(())
    }

    fn shift(&mut self, arc: usize, amount: u64) -> Result<(), NetworkRefusal> {
        let (cell, way) = self.owner(arc)?;
        let shifted = self.cells[cell].shifted(way, amount);
        self.cells[cell] = shifted.ok_or(NetworkRefusal::AboveResidual)?;
        Ok(())
    }
}
