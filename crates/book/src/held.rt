// What an open book and a sealed one hold alike: a borrowed table, with entries from its front and the arcs of needs from its end.
ghost use Rattle.std.specs.Prelude.{◌≡◌, ◌+◌, ◌*◌, ◌<◌, ◌≤◌, length, take};
ghost use Rattle.book.specs.Books.{mate};
ghost use Rattle.book.specs.Tables.{columns, back, SmallAmounts, HeadsThere};

use super::record::Record;

// No derived equality, here and for both books: a `&mut` to a slice has none.
#[derive(Debug, Drop)]
pub(crate) struct Held<'a> {
    pub(crate) table: &'a mut [Record],
    pub(crate) entries: usize,
    pub(crate) needs: usize,
    ghost few: { entries ≤ 4096 },
    ghost room: { entries + 2 * needs ≤ length table.now },
    ghost amounts: { SmallAmounts (columns table.now entries needs) entries },
    ghost heads: { HeadsThere (columns table.now entries needs) entries needs },
}

impl<'a> Held<'a> {
    // Gives the table back.
    pub(crate) fn release(self) -> &'a mut [Record]
        ensures { result ≡ self.entry.table }
    {
        self.table
    }

    // The records of the entries.
    #[inline(always)]
    pub(crate) fn records(&self) -> &[Record]
        ensures { result.now ≡ take self.now.entries self.now.table.now }
    {
        &self.table[..self.entries]
    }

    // The record of an arc, which is number `arc` from the table's end.
    #[inline(always)]
    pub(crate) fn arc(&self, arc: usize) -> Record
        requires { arc < 2 * self.now.needs }
        ensures { result ≡ back self.now.table.now arc }
    {
        self.table[self.table.len() - 1 - arc]
    }
}

// The code of an arc's reverse.
#[inline(always)]
pub(crate) fn mate(arc: usize) -> usize
    requires { arc < 32768 }
    ensures { result ≡ mate arc }
{
    arc ^ 1
}
