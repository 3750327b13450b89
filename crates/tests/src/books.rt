// Order books: what they refuse, the network that sealing makes of one, and what runs on it find. Entries are written as what
// they earn and what they cost, needs as the entry and what it needs.
use super::lent::{OLD, OLD_MARK, begins_with, kept_from, marked, old_record};
use super::rows::refused;
use book::{EnterRefusal, NeedRefusal, OpenBook, Record, SealedBook};
use network::{Network, Terminal};
use search::{Log, Outcome, Report};
use std::process::Abort;
use std::test::Fail;

// What stands in each record of a table before a book borrows it.
pub(crate) const UNUSED: Record = Record {
    earning: 91,
    cost: 92,
    needed: [93, 94, 95, 96],
    needs_or_index: 97,
    arcs_or_head: 98,
};

// What can be sent along a need.
const BINDING: u64 = 8_000_000_000;

// The most that an entry earns or costs.
const MOST: u32 = 1_000_000;

// Two jobs that share a set-up; the second also needs an entry that both earns and costs.
const SHOP: [(u32, u32); 4] = [(50, 0), (30, 0), (0, 60), (7, 8)];

const SHOP_NEEDS: [(usize, usize); 3] = [(0, 2), (1, 2), (1, 3)];

// Its network: the residuals of the nodes, the arcs at their places, and of the arcs tail, head and reverse, and the residuals.
const SHOP_NODES: [(u64, u64); 4] = [(50, 0), (30, 0), (0, 60), (7, 8)];

const SHOP_PLACES: [&[usize]; 4] = [&[0], &[2, 4], &[1, 3], &[5]];

const SHOP_ENDS: [(usize, usize, usize); 6] = [
    (0, 2, 1),
    (2, 0, 0),
    (1, 2, 3),
    (2, 1, 2),
    (1, 3, 5),
    (3, 1, 4),
];

const SHOP_ARCS: [u64; 6] = [BINDING, 0, BINDING, 0, BINDING, 0];

fn same_records(rt: &impl Abort, records: &[Record], others: &[Record]) {
    assert_eq!(rt; records.len(), others.len());
    for i in 0..records.len() {
        assert_eq!(rt; records[i], others[i]);
    }
}

// The records of a table that so many entries and needs do not use are as they were before a book borrowed it.
pub(crate) fn spared(rt: &impl Abort, table: &[Record], entries: usize, needs: usize) {
    let end = table.len().saturating_sub(needs.saturating_mul(2));
    for i in entries..end {
        assert_eq!(rt; table[i], UNUSED);
    }
}

// A book in which these are entered; the numbers of the entries are 0, 1, 2 and so on.
pub(crate) fn open<'a>(
    rt: &impl Abort,
    table: &'a mut [Record],
    entries: &[(u32, u32)],
    needs: &[(usize, usize)],
) -> OpenBook<'a> {
    let mut book = OpenBook::new(table);
    for i in 0..entries.len() {
        let (earning, cost) = entries[i];
        assert_eq!(rt; book.enter(earning, cost), Ok(i));
    }
    for (entry, needed) in needs {
        assert_eq!(rt; book.need(*entry, *needed), Ok(()));
    }
    assert_eq!(rt; book.entry_count(), entries.len());
    assert_eq!(rt; book.need_count(), needs.len());
    book
}

// The table is as a book leaves it in which just these were entered, and none refused.
pub(crate) fn holds(
    rt: &impl Abort,
    table: &[Record],
    entries: &[(u32, u32)],
    needs: &[(usize, usize)],
) {
    assert!(rt; table.len() <= 16);
    let mut plain = [UNUSED; 16];
    let book = open(rt, &mut plain[..table.len()], entries, needs);
    same_records(rt, table, book.release());
    spared(rt, table, entries.len(), needs.len());
}

// How many entries and needs a book has, and what it earns.
pub(crate) fn counts(book: &OpenBook) -> (usize, usize, u64) {
    (book.entry_count(), book.need_count(), book.total_earnings())
}

// The book refuses each of these entries with the number of a question.
fn refuses_entries(rt: &impl Abort, book: &mut OpenBook, entries: &[(u32, u32, u8)]) {
    let before = counts(book);
    for (earning, cost, question) in entries {
        let answer = book.enter(*earning, *cost);
        assert_eq!(rt; answer.map_err(EnterRefusal::question), Err(*question));
        assert_eq!(rt; counts(book), before);
    }
}

// The book refuses each of these needs with the number of a question.
fn refuses_needs(rt: &impl Abort, book: &mut OpenBook, needs: &[(usize, usize, u8)]) {
    let before = counts(book);
    for (entry, needed, question) in needs {
        let answer = book.need(*entry, *needed);
        assert_eq!(rt; answer.map_err(NeedRefusal::question), Err(*question));
        assert_eq!(rt; counts(book), before);
    }
}

#[test]
fn a_new_book_leaves_the_table(rt: HostRuntime) -> Result<(), Fail> {
    let mut table = [UNUSED; 5];
    let book = OpenBook::new(&mut table);
    assert_eq!(rt; counts(&book), (0, 0, 0));
    assert_eq!(rt; book.record_count(), 5);
    spared(&rt, book.release(), 0, 0);
    let sealed = OpenBook::new(&mut table).seal();
    assert_eq!(rt; sealed.node_count(), 0);
    refused(&rt, sealed.arc_at(0, 0), 27)?;
    refused(&rt, sealed.arc_residual(0), 28)?;
    spared(&rt, sealed.release(), 0, 0);
    Ok(())
}

#[test]
fn amounts_up_to_a_million(rt: HostRuntime) {
    let entries = [(MOST, 0), (0, MOST), (MOST, MOST)];
    let mut table = [UNUSED; 5];
    let mut book = open(&rt, &mut table, &entries, &[]);
    assert_eq!(rt; counts(&book), (3, 0, 2_000_000));
    let above = [
        (MOST + 1, 0, 1),
        (0, MOST + 1, 2),
        (MOST + 1, MOST + 1, 1),
        (u32::MAX, MOST, 1),
        (MOST, u32::MAX, 2),
    ];
    refuses_entries(&rt, &mut book, &above);
    holds(&rt, book.release(), &entries, &[]);
}

// The amounts are asked about before the room.
#[test]
fn a_table_of_one_record_or_none(rt: HostRuntime) {
    let refusals = [(0, 0, 4), (MOST + 1, 0, 1), (0, MOST + 1, 2)];
    let mut none = OpenBook::new(&mut []);
    refuses_entries(&rt, &mut none, &refusals);
    let mut table = [UNUSED; 1];
    let mut one = open(&rt, &mut table, &[(5, 6)], &[]);
    refuses_entries(&rt, &mut one, &refusals);
    holds(&rt, one.release(), &[(5, 6)], &[]);
}

// The table takes 4,096 entries. The next is refused for their number, whether or not a record is unused.
fn takes_4096(rt: &impl Abort, table: &mut [Record]) {
    let mut book = OpenBook::new(table);
    for i in 0..4096 {
        assert_eq!(rt; book.enter(3, 4), Ok(i));
    }
    let refusals = [(3, 4, 3), (MOST + 1, 4, 1), (3, MOST + 1, 2)];
    refuses_entries(rt, &mut book, &refusals);
    assert_eq!(rt; counts(&book), (4096, 0, 12_288));
}

#[test]
fn at_most_4096_entries(rt: HostRuntime) {
    let mut table = [UNUSED; 4097];
    takes_4096(&rt, &mut table[..4096]);
    takes_4096(&rt, &mut table);
    assert_eq!(rt; table[4095], table[0]);
    assert_eq!(rt; table[4096], UNUSED);
}

// A book in which these are entered refuses these needs, and they leave its table.
fn refused_after(
    rt: &impl Abort,
    table: &mut [Record],
    entries: &[(u32, u32)],
    needs: &[(usize, usize)],
    refusals: &[(usize, usize, u8)],
) {
    let mut book = open(rt, table, entries, needs);
    refuses_needs(rt, &mut book, refusals);
    holds(rt, book.release(), entries, needs);
}

// A need the other way round is new, and two entries may need the same one.
#[test]
fn needs_of_entries_that_are_there(rt: HostRuntime) {
    refused_after(&rt, &mut [], &[], &[], &[(0, 0, 5)]);
    let entries = [(1, 0), (2, 0), (3, 0)];
    let needs = [(0, 2), (2, 0), (1, 2)];
    let refusals = [
        (3, 0, 5),
        (0, 3, 5),
        (3, 3, 5),
        // the low 16 bits are the numbers of entries 0 and 1
        (65_536, 1, 5),
        (0, 65_537, 5),
        (0, 0, 6),
        (2, 2, 6),
        (0, 2, 7),
        (2, 0, 7),
        (1, 2, 7),
    ];
    refused_after(&rt, &mut [UNUSED; 12], &entries, &needs, &refusals);
}

// Two records are unused, then none. A fifth need is refused before there is asked about room for it.
#[test]
fn at_most_four_needs(rt: HostRuntime) {
    let entries = [(1, 0), (0, 2), (0, 3), (0, 4), (0, 5), (0, 6)];
    let needs = [(0, 1), (0, 2), (0, 3), (0, 4)];
    let refusals = [(0, 5, 8), (0, 4, 7), (0, 0, 6), (0, 6, 5), (1, 5, 9)];
    refused_after(&rt, &mut [UNUSED; 16], &entries, &needs, &refusals[..4]);
    refused_after(&rt, &mut [UNUSED; 14], &entries, &needs, &refusals);
}

// No record is unused, then one. With two a need is entered.
#[test]
fn room_for_needs(rt: HostRuntime) {
    let entries = [(1, 0), (0, 2)];
    let refusals = [(0, 1, 9), (0, 0, 6), (0, 2, 5), (2, 0, 5)];
    refused_after(&rt, &mut [UNUSED; 2], &entries, &[], &refusals);
    refused_after(&rt, &mut [UNUSED; 3], &entries, &[], &refusals);
    let full = [(1, 0, 9), (0, 1, 7)];
    refused_after(&rt, &mut [UNUSED; 4], &entries, &[(0, 1)], &full);
    let mut table = [UNUSED; 4];
    let mut book = open(&rt, &mut table, &entries, &[(0, 1)]);
    refuses_entries(&rt, &mut book, &[(0, 0, 4)]);
}

// The residuals of the network are these, the source's and the sink's by node, the arcs' by code.
fn has(rt: &impl Abort, book: &SealedBook, nodes: &[(u64, u64)], arcs: &[u64]) {
    for i in 0..nodes.len() {
        let (source, sink) = nodes[i];
        assert_eq!(rt; book.terminal_residual(Terminal::Source, i), Ok(source));
        assert_eq!(rt; book.terminal_residual(Terminal::Sink, i), Ok(sink));
    }
    for i in 0..arcs.len() {
        assert_eq!(rt; book.arc_residual(i), Ok(arcs[i]));
    }
}

// The arcs at the places of a node are these, and no more.
fn places(rt: &impl Abort, book: &SealedBook, node: usize, arcs: &[usize]) {
    for i in 0..arcs.len() {
        assert_eq!(rt; book.arc_at(node, i), Ok(Some(arcs[i])));
    }
    assert_eq!(rt; book.arc_at(node, arcs.len()), Ok(None));
    assert_eq!(rt; book.arc_at(node, usize::MAX), Ok(None));
}

pub(crate) fn is_the_shop(rt: &impl Abort, book: &SealedBook) {
    assert_eq!(rt; book.node_count(), 4);
    for i in 0..4 {
        places(rt, book, i, SHOP_PLACES[i]);
    }
    for i in 0..6 {
        assert_eq!(rt; book.arc_ends(i), Ok(SHOP_ENDS[i]));
    }
    has(rt, book, &SHOP_NODES, &SHOP_ARCS);
}

// An entry's needs are answered in the order of entering. The records behind the last entry are arcs.
#[test]
fn what_entries_earn_cost_and_need(rt: HostRuntime) {
    let mut table = [UNUSED; 12];
    let mut book = open(&rt, &mut table, &SHOP, &SHOP_NEEDS);
    assert_eq!(rt; book.need(1, 0), Ok(()));
    let needs: [&[u16]; 4] = [&[2], &[2, 3, 0], &[], &[]];
    for i in 0..4 {
        let (earning, cost) = SHOP[i];
        assert_eq!(rt; book.earning(i), Some(earning));
        assert_eq!(rt; book.cost(i), Some(cost));
        assert_eq!(rt; book.needs(i), needs[i]);
    }
    for i in [4, 12, usize::MAX] {
        assert_eq!(rt; book.earning(i), None);
        assert_eq!(rt; book.cost(i), None);
        assert!(rt; book.needs(i).is_empty());
    }
}

#[test]
fn sealing_makes_the_network(rt: HostRuntime) {
    let mut table = [UNUSED; 13];
    let open_shop = open(&rt, &mut table, &SHOP, &SHOP_NEEDS);
    assert_eq!(rt; counts(&open_shop), (4, 3, 87));
    let book = open_shop.seal();
    is_the_shop(&rt, &book);
    spared(&rt, book.release(), 4, 3);
}

// The first node and code that are not there, an amount one above the residual, and which question is put first.
#[test]
fn refused_questions_and_changes(rt: HostRuntime) -> Result<(), Fail> {
    let mut table = [UNUSED; 10];
    let mut book = open(&rt, &mut table, &SHOP, &SHOP_NEEDS).seal();
    refused(&rt, book.terminal_residual(Terminal::Source, 4), 27)?;
    refused(&rt, book.arc_at(4, 0), 27)?;
    refused(&rt, book.take(Terminal::Sink, 4, u64::MAX), 27)?;
    refused(&rt, book.arc_ends(6), 28)?;
    refused(&rt, book.arc_residual(6), 28)?;
    refused(&rt, book.shift(6, u64::MAX), 28)?;
    refused(&rt, book.take(Terminal::Source, 0, 51), 29)?;
    refused(&rt, book.take(Terminal::Sink, 0, 1), 29)?;
    // the low 32 bits are below the residual
    refused(&rt, book.take(Terminal::Sink, 2, 1 << 32), 29)?;
    refused(&rt, book.shift(0, BINDING + 1), 29)?;
    refused(&rt, book.shift(3, 1), 29)?;
    is_the_shop(&rt, &book);
    Ok(())
}

#[test]
fn takes_and_shifts(rt: HostRuntime) -> Result<(), Fail> {
    let mut table = [UNUSED; 13];
    let mut book = open(&rt, &mut table, &SHOP, &SHOP_NEEDS).seal();
    book.take(Terminal::Sink, 0, 0)?;
    book.shift(1, 0)?;
    is_the_shop(&rt, &book);
    book.take(Terminal::Source, 0, 50)?;
    book.take(Terminal::Sink, 3, 1)?;
    book.shift(0, BINDING)?;
    book.shift(2, 7)?;
    book.shift(3, 3)?;
    let nodes = [(0, 0), (30, 0), (0, 60), (7, 7)];
    let arcs = [0, BINDING, BINDING - 4, 4, BINDING, 0];
    has(&rt, &book, &nodes, &arcs);
    refused(&rt, book.shift(0, 1), 29)?;
    spared(&rt, book.release(), 4, 3);
    Ok(())
}

// A run on the book answers this report and leaves these words and these marks. Of what it is lent more, nothing is written.
fn run_on(
    rt: &impl Abort,
    book: &mut SealedBook,
    trail: &mut [u64],
    report: Report,
    words: &[u64],
    marks: &[u8],
) {
    let mut work = [old_record(); 6];
    let mut bytes = [OLD_MARK; 6];
    let answer = search::run(book, &mut work, trail, &mut bytes);
    assert_eq!(rt; answer, Ok(report));
    begins_with(rt, trail, words);
    marked(rt, &bytes, marks);
    let nodes = book.node_count();
    kept_from(rt, &work, trail, &bytes, nodes, words.len(), marks.len());
}

// A run with a long trail finishes with this gain, these words and these marks.
fn finishes(
    rt: &impl Abort,
    entries: &[(u32, u32)],
    needs: &[(usize, usize)],
    log: Log,
    words: &[u64],
    marks: &[u8],
) {
    let mut table = [UNUSED; 9];
    let mut book = open(rt, &mut table, entries, needs).seal();
    let report = Report {
        outcome: Outcome::Finished,
        log,
    };
    run_on(rt, &mut book, &mut [OLD; 12], report, words, marks);
    spared(rt, book.release(), entries.len(), needs.len());
}

#[test]
fn no_entry_or_one(rt: HostRuntime) {
    let none = Log::default();
    finishes(&rt, &[], &[], none, &[], &[]);
    finishes(&rt, &[(0, 0)], &[], none, &[], &[3]);
    finishes(&rt, &[(5, 0)], &[], none, &[], &[1]);
    finishes(&rt, &[(0, 5)], &[], none, &[], &[2]);
    let one = Log {
        paths: 1,
        gain: 5,
        words: 3,
    };
    finishes(&rt, &[(5, 5)], &[], one, &[0, 5, 0], &[3]);
}

// Two jobs earn 50 and 30, and need one set-up. It is paid with all that the first earns, and then from what the second earns.
fn set_up_costs(rt: &impl Abort, cost: u32, gain: u64, from_second: u64, marks: &[u8; 3]) {
    let entries = [(50, 0), (30, 0), (0, cost)];
    let log = Log {
        paths: 2,
        gain,
        words: 8,
    };
    let words = [1, 50, 0, 0, 1, from_second, 1, 2];
    finishes(rt, &entries, &[(0, 2), (1, 2)], log, &words, marks);
}

#[test]
fn two_jobs_and_a_set_up(rt: HostRuntime) {
    // 20 are won with the jobs
    set_up_costs(&rt, 60, 60, 10, &[1, 1, 1]);
    // nothing is won or lost
    set_up_costs(&rt, 80, 80, 30, &[3, 3, 3]);
    // 10 would be lost
    set_up_costs(&rt, 90, 80, 30, &[2, 2, 2]);
}

fn ended(outcome: Outcome, paths: u64, gain: u64, words: usize) -> Report {
    Report {
        outcome,
        log: Log { paths, gain, words },
    }
}

// Four words, one fewer than there are entries and two, pause a run at once. Five are enough to begin a path, so that a second
// run with five ends what a first began.
#[test]
fn short_trails(rt: HostRuntime) {
    let entries = [(50, 0), (30, 0), (0, 60)];
    let mut table = [UNUSED; 7];
    let mut book = open(&rt, &mut table, &entries, &[(0, 2), (1, 2)]).seal();
    let none = ended(Outcome::Paused, 0, 0, 0);
    run_on(&rt, &mut book, &mut [OLD; 4], none, &[], &[]);
    let before = [(50, 0), (30, 0), (0, 60)];
    has(&rt, &book, &before, &[BINDING, 0, BINDING, 0]);
    let first = ended(Outcome::Paused, 1, 50, 4);
    run_on(&rt, &mut book, &mut [OLD; 5], first, &[1, 50, 0, 0], &[]);
    let second = ended(Outcome::Finished, 1, 10, 4);
    let words = [1, 10, 1, 2];
    run_on(&rt, &mut book, &mut [OLD; 5], second, &words, &[1, 1, 1]);
    let arcs = [BINDING - 50, 50, BINDING - 10, 10];
    has(&rt, &book, &[(0, 0), (20, 0), (0, 0)], &arcs);
}
