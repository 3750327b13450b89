// The calls that make, change and end an open book.
ghost use Rattle.std.specs.Prelude.{◌≡◌, ◌+◌, ◌-◌, ◌*◌, ◌<◌, ◌≤◌, ◌≢◌, length};
ghost use Rattle.book.specs.Calls.{new_book, unused, Entered, Needed};
ghost use Rattle.book.specs.Needings.{need_written};
ghost use Rattle.book.specs.Tables.{front};
ghost use Rattle.book.specs.Values.{open_of};

use super::held::Held;
use super::open::OpenBook;
use super::record::Record;
use super::refusal::{EnterRefusal, NeedRefusal};

// What can be sent along a need: more than all earnings together.
const BINDING: u64 = 8_000_000_000;

impl<'a> OpenBook<'a> {
    // A book without entries over the table, which stays as it is.
    #[tactic(auto, unfolding(network::specs::Cuts::sum_below))]
    pub fn new(table: &'a mut [Record]) -> OpenBook<'a>
        ensures { open_of result ≡ new_book table.entry }
    {
        OpenBook {
            held: Held {
                table,
                entries: 0,
                needs: 0,
            },
        }
    }

    // How many records are unused.
    #[inline(always)]
    fn unused(&self) -> usize
        ensures value { result ≡ unused (open_of self.now) }
        ensures rest { result ≡ length self.now.held.table.now - self.now.held.entries - 2 * self.now.held.needs }
    {
        self.record_count() - self.held.entries - 2 * self.held.needs
    }

    // Enters what an entry earns and costs, and answers its number.
    #[inline(always)]
    pub fn enter(&mut self, earning: u32, cost: u32) -> Result<usize, EnterRefusal>
        ensures { Entered (open_of self.old) earning cost result (open_of self.new) }
    {
        EnterRefusal::check(earning, cost, self.entry_count(), self.unused())?;
        let held = &mut self.held;
        let number = held.entries;
        let table = &mut *held.table;
        table[number] = Record::entry(earning, cost);
        held.entries += 1;
        Ok(number)
    }

    // Enters that an entry needs another.
    #[inline(always)]
    pub fn need(&mut self, entry: usize, needed: usize) -> Result<(), NeedRefusal>
        ensures { Needed (open_of self.old) entry needed result (open_of self.new) }
    {
        NeedRefusal::check(entry, needed, self.held.records(), self.unused())?;
        let held = &mut self.held;
        write_need(held.table, held.needs, entry as u16, needed as u16);
        held.needs += 1;
        Ok(())
    }

    // Ends the book and gives its table back.
    pub fn release(self) -> &'a mut [Record]
        ensures { result ≡ (open_of self.entry).table }
    {
        self.held.release()
    }
}

// Writes need number `number` into a table: the entry's record tells it, both entries have an arc more, and the arcs stand from the end.
#[inline(always)]
fn write_need(table: &mut [Record], number: usize, entry: u16, needed: u16)
    requires there { entry < length table.old }
    requires needed_there { needed < length table.old }
    requires others { entry ≢ needed }
    requires room { 2 * number + 2 ≤ length table.old }
    requires few { (front table.old entry).needs_or_index < 4 }
    requires countable { (front table.old entry).arcs_or_head < 65535 }
    requires needed_countable { (front table.old needed).arcs_or_head < 65535 }
    ensures { table.new ≡ need_written table.old number entry needed }
{
    let (from, to) = (usize::from(entry), usize::from(needed));
    let arc = table.len() - 1 - 2 * number;
    table[from].note_need(needed);
    table[to].count_arc();
    table[arc].become_arc(needed, BINDING);
    table[arc - 1].become_arc(entry, 0);
}
