// What a tile answers as a network.
ghost use Rattle.std.specs.Prelude.{◌≡◌, ◌+◌, ◌*◌, ◌%◌, ◌^◌, ◌<◌, Ok, true, length, slice_index};
ghost use Rattle.std.specs.List.{slice_get};
ghost use Rattle.network.specs.Answers.{arc_with, at_arc, at_node};
ghost use Rattle.tile.specs.Grids.{owner, direction_of, directions_of, neighbour, LeadsBack, joined, joins};
ghost use Rattle.tile.specs.Tables.{pixel_at};
ghost use Rattle.tile.specs.Values.{pixels_of, tile_value, tile_lawful, tile_keeps, tile_keeping};

use super::direction::Direction;
use super::pixel::Pixel;
use super::tile::Tile;
use network::{Arc, Network, NetworkRefusal, Terminal};

impl<'a> Tile<'a> {
    // The pixel of a node.
    #[inline(always)]
    fn pixel(&self, node: usize) -> Result<Pixel, NetworkRefusal>
        ensures { result ≡ at_node (tile_value self.now) node (pixel_at (pixels_of self.now) node) }
    {
        let pixels = &self.table[..self.node_count()];
        pixels.get(node).copied().ok_or(NetworkRefusal::NoNode)
    }

    // The direction of the arc at a place of a node; none past the last place.
    #[inline(always)]
    fn direction_at(&self, node: usize, place: usize) -> Result<Option<Direction>, NetworkRefusal>
        ensures { result ≡ at_node (tile_value self.now) node (slice_get (directions_of self.now.width (length (pixels_of self.now)) node) place) }
    {
        let pixel = self.pixel(node)?;
        Ok(pixel.neighbours.at(place))
    }

    // The tail of an arc and the number of the direction in which it leads.
    #[inline(always)]
    fn origin(&self, arc: usize) -> Result<(usize, usize), NetworkRefusal>
        ensures { result ≡ at_arc (λ _. Ok (owner arc, arc % 4)) ((tile_value self.now).graph.ends arc) }
    {
        let (tail, number) = (arc / 4, arc % 4);
        let Ok(pixel) = self.pixel(tail) else {
            return Err(NetworkRefusal::NoArc);
        };
        if pixel.neighbours.has_number(number) {
            Ok((tail, number))
        } else {
            Err(NetworkRefusal::NoArc)
        }
    }

    // The neighbour of a pixel in the direction of a number.
    #[inline(always)]
    fn neighbour(&self, pixel: usize, number: usize) -> usize
        requires few { pixel < 2 ^ 62 }
        requires small { number < 4 }
        requires there { LeadsBack self.now.width (direction_of number) pixel }
        ensures { result ≡ neighbour self.now.width (direction_of number) pixel }
    {
        pixel.wrapping_add(self.steps[number])
    }

    // What can still be sent from a pixel in the direction of a number.
    #[inline(always)]
    fn residual(&self, pixel: usize, number: usize) -> u16
        requires there { pixel < length self.now.table.now }
        requires small { number < 4 }
        ensures { result ≡ slice_index (pixel_at self.now.table.now pixel).residuals number }
    {
        let table = &*self.table;
        table[pixel].residuals[number]
    }

    // The arc of a node to its neighbour in the direction of a number. The last bit of a number tells forth from back.
    #[inline(always)]
    fn arc(&self, node: usize, number: usize) -> Arc
        requires small { number < 4 }
        requires there { joined self.now.width (length (pixels_of self.now)) (direction_of number) node ≡ true }
        ensures { result ≡ arc_with (tile_value self.now) (4 * node + number) (joins self.now.width (direction_of number) node) }
    {
        let (head, back) = (self.neighbour(node, number), number ^ 1);
        Arc {
            code: 4 * node + number,
            head,
            reverse: 4 * head + back,
            residual: u64::from(self.residual(node, number)),
            back: u64::from(self.residual(head, back)),
        }
    }
}

impl<'a> Network for Tile<'a> {
    ghost value = { tile_value };

    ghost lawful = { tile_lawful };

    ghost keeps = { tile_keeps };

    ghost keeping = { tile_keeping };

    #[inline(always)]
    fn node_count(&self) -> usize {
        self.width * self.height
    }

    #[inline(always)]
    fn terminal_residual(&self, terminal: Terminal, node: usize) -> Result<u64, NetworkRefusal> {
        let pixel = self.pixel(node)?;
        Ok(u64::from(pixel.terminal(terminal)))
    }

    #[inline(always)]
    fn arc_at(&self, node: usize, place: usize) -> Result<Option<usize>, NetworkRefusal> {
        let Some(direction) = self.direction_at(node, place)? else {
            return Ok(None);
        };
        Ok(Some(4 * node + direction.number()))
    }

    #[inline(always)]
    fn arc_ends(&self, arc: usize) -> Result<(usize, usize, usize), NetworkRefusal> {
        let (tail, number) = self.origin(arc)?;
        let Arc { head, reverse, .. } = self.arc(tail, number);
        Ok((tail, head, reverse))
    }

    #[inline(always)]
    fn whole_arc_at(&self, node: usize, place: usize) -> Result<Option<Arc>, NetworkRefusal> {
        let Some(direction) = self.direction_at(node, place)? else {
            return Ok(None);
        };
        Ok(Some(self.arc(node, direction.number())))
    }

    #[inline(always)]
    fn arc_residual(&self, arc: usize) -> Result<u64, NetworkRefusal> {
        let (tail, number) = self.origin(arc)?;
        Ok(u64::from(self.residual(tail, number)))
    }

    #[inline(always)]
    fn take(&mut self, terminal: Terminal, node: usize, amount: u64) -> Result<(), NetworkRefusal> {
        let pixel = self.pixel(node)?;
        let left = u64::from(pixel.terminal(terminal)).checked_sub(amount);
        let left = left.ok_or(NetworkRefusal::AboveResidual)?;
        let table = &mut *self.table;
        table[node].set_terminal(terminal, left as u8);
        Ok(())
    }

    #[inline(always)]
    fn shift(&mut self, arc: usize, amount: u64) -> Result<(), NetworkRefusal> {
        let (tail, number) = self.origin(arc)?;
        let left = u64::from(self.residual(tail, number)).checked_sub(amount);
        let left = left.ok_or(NetworkRefusal::AboveResidual)?;
        let (head, back) = (self.neighbour(tail, number), number ^ 1);
        let more = u64::from(self.residual(head, back)) + amount;
        let table = &mut *self.table;
        table[tail].set_residual(number, left as u16);
        table[head].set_residual(back, more as u16);
        Ok(())
    }
}
