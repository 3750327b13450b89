// One cell of a row: its residuals, and how they are read and changed.
ghost use Rattle.std.specs.Prelude.{◌≡◌, cond, Some, None, nat_le};
ghost use Rattle.row.specs.Cells.{Capped, capped, terminal_of, put_terminal, residual_of, moved};
ghost use Rattle.row.specs.Rows.{way_of};

use network::Terminal;

#[derive(Clone, Copy, PartialEq, Eq, Debug, Default)]
pub struct Cell {
    // what can still be sent from the source to the cell, and from the cell to the sink
    pub source: u64,
    pub sink: u64,
    // the residual of the arc to the next cell, and of its reverse; in the last cell they belong to no arc
    pub right: u64,
    pub left: u64,
}

// Which of the two arcs that a cell owns: the one to the next cell, or its reverse.
#[derive(Clone, Copy, PartialEq, Eq, Debug)]
pub(crate) enum Way {
    Right,
    Left,
}

impl Way {
    // Which way the arc of a code goes. No `From`: a code also says which cell owns the arc.
    pub(crate) fn of(arc: usize) -> Way
        ensures { result ≡ way_of arc }
    {
        if arc % 2 == 0 { Way::Right } else { Way::Left }
    }
}

// Two amounts of this much add up to 2^40, the most that an arc and its reverse may have together.
const MOST: u64 = 1 << 39;

impl Cell {
    // The cell with each amount above `MOST` lowered to it.
    pub(crate) fn capped(self) -> Cell
        ensures { result ≡ capped self }
    {
        Cell {
            source: self.source.min(MOST),
            sink: self.sink.min(MOST),
            right: self.right.min(MOST),
            left: self.left.min(MOST),
        }
    }

    // What can still be sent between the cell and a terminal. One function for this and `residual`, and one for what changes them, would
    // choose among all four amounts by one enum, and the ends of an arc would have to rule out two of its cases.
    pub(crate) fn terminal(self, terminal: Terminal) -> u64
        ensures { result ≡ terminal_of self terminal }
    {
        match terminal {
            Terminal::Source => self.source,
            Terminal::Sink => self.sink,
        }
    }

    // The cell with another terminal residual.
    pub(crate) fn with_terminal(self, terminal: Terminal, residual: u64) -> Cell
        ensures { result ≡ put_terminal self terminal residual }
    {
        match terminal {
            Terminal::Source => Cell {
                source: residual,
                ..self
            },
            Terminal::Sink => Cell {
                sink: residual,
                ..self
            },
        }
    }

    // The residual of one of its arcs.
    pub(crate) fn residual(self, way: Way) -> u64
        ensures { result ≡ residual_of self way }
    {
        match way {
            Way::Right => self.right,
            Way::Left => self.left,
        }
    }

    // The cell with an amount moved from the residual of one of its arcs to that of the other; none where the amount is above it.
    pub(crate) fn shifted(self, way: Way, amount: u64) -> Option<Cell>
        requires { Capped self }
        ensures { result ≡ cond (nat_le amount (residual_of self way)) (Some (moved self way amount)) None }
    {
        match way {
            Way::Right => Some(Cell {
                right: self.right.checked_sub(amount)?,
                left: self.left + amount,
                ..self
            }),
            Way::Left => Some(Cell {
                left: self.left.checked_sub(amount)?,
                right: self.right + amount,
                ..self
            }),
        }
    }
}
