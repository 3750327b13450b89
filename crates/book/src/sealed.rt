// A sealed book: a network over the same table, whose entries and needs no longer change.
ghost use Rattle.std.specs.Prelude.{◌≤◌};
ghost use Rattle.book.specs.Tables.{columns, SmallPairs, Indexed, IndexInside};

use super::held::Held;

#[derive(Debug, Drop)]
pub struct SealedBook<'a> {
    pub(crate) held: Held<'a>,
    ghost bound: { held.needs ≤ 16384 },
    ghost pairs: { SmallPairs (columns held.table.now held.entries held.needs) held.needs },
    ghost indexed: { Indexed (columns held.table.now held.entries held.needs) held.entries held.needs },
    ghost inside: { IndexInside (columns held.table.now held.entries held.needs) held.entries held.needs },
}
