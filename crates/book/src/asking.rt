// The questions that an open book answers.
ghost use Rattle.std.specs.Prelude.{◌≡◌, ◌≤◌, length, sum_by};
ghost use Rattle.std.specs.List.{slice_get};
ghost use Rattle.std.specs.Option.{option_map};
ghost use Rattle.book.specs.Books.{Amounts, needs_of};
ghost use Rattle.book.specs.Plans.{total_earnings};
ghost use Rattle.book.specs.Values.{open_of};

use super::open::OpenBook;
use super::record::Record;

impl<'a> OpenBook<'a> {
    // How many entries the book has.
    pub fn entry_count(&self) -> usize
        ensures { result ≡ length (open_of self.now).book.entries }
    {
        self.held.entries
    }

    // How many needs its entries have together.
    pub fn need_count(&self) -> usize
        ensures { result ≡ length (open_of self.now).book.needs }
    {
        self.held.needs
    }

    // What all its entries earn.
    pub fn total_earnings(&self) -> u64
        ensures { result ≡ total_earnings (open_of self.now).book }
    {
        earnings(self.held.records())
    }

    // How many records the table has.
    pub fn record_count(&self) -> usize
        ensures { result ≡ length (open_of self.now).table.now }
    {
        self.held.table.len()
    }

    // What an entry earns; none where it is not there.
    pub fn earning(&self, entry: usize) -> Option<u32>
        ensures { result ≡ option_map (λ (a : Amounts). a.earning) (slice_get (open_of self.now).book.entries entry) }
    {
        self.held.records().get(entry).map(|record| record.earning)
    }

    // What it costs; none where it is not there.
    pub fn cost(&self, entry: usize) -> Option<u32>
        ensures { result ≡ option_map (λ (a : Amounts). a.cost) (slice_get (open_of self.now).book.entries entry) }
    {
        self.held.records().get(entry).map(|record| record.cost)
    }

    // The entries that an entry needs, in the order of entering; none where it is not there.
    pub fn needs(&self, entry: usize) -> &[u16]
        ensures { result.now ≡ needs_of entry (open_of self.now).book.needs }
    {
        match self.held.records().get(entry) {
            Some(record) => record.needed(),
            None => &[],
        }
    }
}

// What entries with these records earn.
fn earnings(entries: &[Record]) -> u64
    requires { length entries.now ≤ 4096 }
    ensures { result ≡ sum_by (λ (r : Record). r.earning) entries.now }
{
    entries.iter().map(|entry| u64::from(entry.earning)).sum()
}
