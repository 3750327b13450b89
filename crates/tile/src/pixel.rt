// One record of a tile's table: which neighbours a pixel has, its residuals, and how they are read and changed.
ghost use Rattle.std.specs.Prelude.{◌≡◌, ◌<◌, length, slice_set};
ghost use Rattle.tile.specs.Pixels.{terminal_of, put_terminal};

use super::neighbours::Neighbours;
use network::Terminal;

// Amounts this narrow keep a table small: a cost is a byte, and two penalties of a byte add up to 510 at most.
#[derive(Clone, Copy, PartialEq, Eq, Debug, Default)]
pub struct Pixel {
    // what can still be sent from the source to the pixel, and from the pixel to the sink
    pub(crate) source: u8,
    pub(crate) sink: u8,
    pub(crate) neighbours: Neighbours,
    // what can still be sent to the neighbour in each direction
    pub(crate) residuals: [u16; 4],
}

impl Pixel {
    // What can still be sent between the pixel and a terminal.
    #[inline(always)]
    pub(crate) fn terminal(&self, terminal: Terminal) -> u8
        ensures { result ≡ terminal_of self.now terminal }
    {
        match terminal {
            Terminal::Source => self.source,
            Terminal::Sink => self.sink,
        }
    }

    #[inline(always)]
    pub(crate) fn set_terminal(&mut self, terminal: Terminal, residual: u8)
        ensures { self.new ≡ put_terminal self.old terminal residual }
    {
        match terminal {
            Terminal::Source => self.source = residual,
            Terminal::Sink => self.sink = residual,
        }
    }
    // Puts what can still be sent to the neighbour in the direction of a number.
    #[inline(always)]
    pub(crate) fn set_residual(&mut self, number: usize, residual: u16)
        requires { number < 4 }
        ensures { self.new ≡ record self.old { residuals = slice_set self.old.residuals number residual } }
    {
        self.residuals[number] = residual;
    }
}
