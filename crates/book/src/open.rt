// An open book: entries from the front of a borrowed table, the arcs of needs from its end.
ghost use Rattle.book.specs.Tables.{columns, Unsent, NeedsNoted, AtMostFour, NeedsCounted, OthersNeeded, NeededOnce, ArcsCounted};

use super::held::Held;

#[derive(Debug, Drop)]
pub struct OpenBook<'a> {
    pub(crate) held: Held<'a>,
    ghost unsent: { Unsent (columns held.table.now held.entries held.needs) held.needs },
    ghost noted: { NeedsNoted (columns held.table.now held.entries held.needs) held.entries held.needs },
    ghost four: { AtMostFour (columns held.table.now held.entries held.needs) held.entries },
    ghost counted: { NeedsCounted (columns held.table.now held.entries held.needs) held.entries held.needs },
    ghost others: { OthersNeeded (columns held.table.now held.entries held.needs) held.entries },
    ghost once: { NeededOnce (columns held.table.now held.entries held.needs) held.entries },
    ghost arcs: { ArcsCounted (columns held.table.now held.entries held.needs) held.entries held.needs },
}
