// Runs over rows of cells: what they answer, and what they leave of all that they are lent.
use super::lent::{OLD, OLD_MARK, begins_with, kept_from, marked, old_record};
use network::{Network, Terminal};
use row::{Cell, Row};
use search::{Outcome, Report, RunRefusal};
use std::process::Abort;
use std::test::Fail;
use trees::Work;

fn cell(source: u64, sink: u64, right: u64, left: u64) -> Cell {
    Cell {
        source,
        sink,
        right,
        left,
    }
}

fn run_over(
    cells: &mut [Cell],
    work: &mut [Work],
    trail: &mut [u64],
    marks: &mut [u8],
) -> Result<Report, RunRefusal> {
    let mut row = Row::new(cells);
    search::run(&mut row, work, trail, marks)
}

fn same_cells<const N: usize>(rt: &impl Abort, cells: &[Cell; N], others: &[Cell; N]) {
    for i in 0..N {
        assert_eq!(rt; cells[i], others[i]);
    }
}

// Carries out one path on the row.
fn carry_out(
    rt: &impl Abort,
    row: &mut Row,
    amount: u64,
    first: usize,
    arcs: &[u64],
) -> Result<(), Fail> {
    row.take(Terminal::Source, first, amount)?;
    let mut at = first;
    for arc in arcs {
        let (tail, head, _) = row.arc_ends(*arc as usize)?;
        assert_eq!(rt; tail, at);
        row.shift(*arc as usize, amount)?;
        at = head;
    }
    row.take(Terminal::Sink, at, amount)?;
    Ok(())
}

// Carries out the path whose words come first; answers how many arcs it has, and its amount.
fn carry_first(rt: &impl Abort, row: &mut Row, words: &[u64]) -> Result<(usize, u64), Fail> {
    assert!(rt; words.len() >= 3);
    let arcs = words[0] as usize;
    let rest = &words[3..];
    assert!(rt; arcs <= rest.len());
    carry_out(rt, row, words[1], words[2] as usize, &rest[..arcs])?;
    Ok((arcs, words[1]))
}

// Carries out the paths that the words tell; answers how many they are, and the sum of their amounts.
fn replay(rt: &impl Abort, cells: &mut [Cell], words: &[u64]) -> Result<(u64, u64), Fail> {
    let mut row = Row::new(cells);
    let mut paths: u64 = 0;
    let mut amounts: u64 = 0;
    let mut at: usize = 0;
    for _ in 0..words.len() {
        if at >= words.len() {
            break;
        }
        let (arcs, amount) = carry_first(rt, &mut row, &words[at..])?;
        paths = paths.saturating_add(1);
        amounts = amounts.saturating_add(amount);
        at = at.saturating_add(3).saturating_add(arcs);
    }
    assert_eq!(rt; at, words.len());
    Ok((paths, amounts))
}

// Whether a selection, a bit for each cell, holds the cell.
fn holds(selection: u64, i: usize) -> bool {
    i < 64 && (selection >> i) % 2 == 1
}

// What a selection costs: what crosses from the source to the cells outside, from the cells inside to the sink, and along the
// arcs that lead out.
fn cost(cells: &[Cell], selection: u64) -> u64 {
    let mut sum: u64 = 0;
    for i in 0..cells.len() {
        let cell = cells[i];
        let inside = holds(selection, i);
        sum = sum.saturating_add(if inside { cell.sink } else { cell.source });
        if i + 1 < cells.len() {
            sum = sum.saturating_add(match (inside, holds(selection, i + 1)) {
                (true, false) => cell.right,
                (false, true) => cell.left,
                _ => 0,
            });
        }
    }
    sum
}

// No selection costs less than this, and the marks say which cells the selections hold that cost just as much.
fn marks_the_cheapest(rt: &impl Abort, cells: &[Cell], least: u64, marks: &[u8]) {
    let mut in_all = u64::MAX;
    let mut in_some = 0;
    for selection in 0..256 {
        let paid = cost(cells, selection);
        assert!(rt; paid >= least);
        if paid == least {
            in_all &= selection;
            in_some |= selection;
        }
    }
    for i in 0..marks.len() {
        let mark = match (holds(in_all, i), holds(in_some, i)) {
            (true, true) => 1,
            (false, false) => 2,
            (false, true) => 3,
            (true, false) => 0,
        };
        assert_eq!(rt; marks[i], mark);
    }
}

// A run with a long trail finishes with this gain, these words and these marks. The words are paths that lead to where the run
// has led, and the gain and the marks are those of the cheapest selections.
fn finishes<const N: usize>(
    rt: &impl Abort,
    cells: &[Cell; N],
    gain: u64,
    words: &[u64],
    marks: &[u8; N],
) -> Result<(), Fail> {
    let mut work = [old_record(); 8];
    let mut trail = [OLD; 40];
    let mut bytes = [OLD_MARK; 8];
    let mut after = *cells;
    let report = run_over(&mut after, &mut work, &mut trail, &mut bytes)?;
    assert_eq!(rt; report.outcome, Outcome::Finished);
    assert_eq!(rt; report.log.gain, gain);
    assert_eq!(rt; report.log.words, words.len());
    begins_with(rt, &trail, words);
    marked(rt, &bytes, marks);
    kept_from(rt, &work, &trail, &bytes, N, words.len(), N);
    let mut replayed = *cells;
    let (paths, amounts) = replay(rt, &mut replayed, words)?;
    assert_eq!(rt; report.log.paths, paths);
    assert_eq!(rt; report.log.gain, amounts);
    same_cells(rt, &after, &replayed);
    marks_the_cheapest(rt, cells, gain, marks);
    Ok(())
}

// A single cell is in when only the source reaches it, out when only it reaches the sink. With both, the path through it empties
// both.
#[test]
fn no_cell_or_one(rt: HostRuntime) -> Result<(), Fail> {
    finishes(&rt, &[], 0, &[], &[])?;
    finishes(&rt, &[cell(0, 0, 7, 7)], 0, &[], &[3])?;
    finishes(&rt, &[cell(5, 0, 7, 7)], 0, &[], &[1])?;
    finishes(&rt, &[cell(0, 5, 7, 7)], 0, &[], &[2])?;
    finishes(&rt, &[cell(5, 5, 7, 7)], 5, &[0, 5, 0], &[3])?;
    finishes(&rt, &[cell(6, 5, 7, 7)], 5, &[0, 5, 0], &[1])?;
    finishes(&rt, &[cell(5, 6, 7, 7)], 5, &[0, 5, 0], &[2])
}

// A row of two with the source at the first cell, one arc and the sink at the second: the smallest of the three is sent. What is
// left at the source holds the first cell, and the second if the arc has something left; and the same from the sink.
fn sends_4(rt: &impl Abort, source: u64, arc: u64, sink: u64, marks: &[u8; 2]) -> Result<(), Fail> {
    let row = [cell(source, 0, arc, 0), cell(0, sink, 0, 0)];
    finishes(rt, &row, 4, &[1, 4, 0, 0], marks)
}

#[test]
fn two_cells(rt: HostRuntime) -> Result<(), Fail> {
    // the arc alone is emptied
    sends_4(&rt, 9, 4, 7, &[1, 2])?;
    // an end alone
    sends_4(&rt, 4, 9, 7, &[2, 2])?;
    sends_4(&rt, 9, 7, 4, &[1, 1])?;
    // ties of two, and of all three
    sends_4(&rt, 4, 4, 7, &[3, 2])?;
    sends_4(&rt, 9, 4, 4, &[1, 3])?;
    sends_4(&rt, 4, 9, 4, &[3, 3])?;
    sends_4(&rt, 4, 4, 4, &[3, 3])?;
    // the other way, from cell 1 along arc 1
    let back = [cell(0, 7, 0, 4), cell(9, 0, 0, 0)];
    finishes(&rt, &back, 4, &[1, 4, 1, 1], &[2, 1])
}

// Sources at cells 0 and 1, the sink at cell 3. Cell 2 joins below cell 1, and the sink's tree meets it.
// 1. From 1 over 2 to 3: 2, all that cell 1 has. Cell 1 is adopted by cell 0.
// 2. From 0 over 1 and 2 to 3: 3, all that cell 0 and arc 0 have. Cells 0 and 1 lose their parents and are freed, then cell 2 is.
// The sink's tree takes cells 2 and 1. Cut off: the source from cell 1, and from cell 0 or arc 0.
#[test]
fn orphans_are_freed(rt: HostRuntime) -> Result<(), Fail> {
    let row = [
        cell(3, 0, 3, 0),
        cell(2, 0, 8, 0),
        cell(0, 0, 8, 0),
        cell(0, 10, 0, 0),
    ];
    let words = [2, 2, 1, 2, 4, 3, 3, 0, 0, 2, 4];
    finishes(&rt, &row, 5, &words, &[3, 2, 2, 2])
}

// Sources at cells 0 and 1, sinks at cells 3 and 4, and both at cell 5.
fn long_row() -> [Cell; 6] {
    [
        cell(9, 0, 3, 1),
        cell(2, 0, 8, 0),
        cell(0, 0, 8, 2),
        cell(0, 1, 2, 0),
        cell(0, 9, 4, 3),
        cell(4, 6, 0, 0),
    ]
}

// 1. Through cell 5: 4. It has 2 left to the sink.
// 2. From 1 over 2, which joined below it, to 3: 1, all that cell 3 has. Cell 3 is adopted by cell 4.
// 3. From 1 over 2 and 3 to 4: 1, what cell 1 has left. Cell 1 is adopted by cell 0.
// 4. From 0 over 1, 2 and 3 to 4: 1, what arc 6 has left. Cell 3 is freed, and the source's tree takes it.
// Cut off: the sink from cell 3 (1), arc 6 (2) and the source from cell 5 (4).
#[test]
fn orphans_are_adopted(rt: HostRuntime) -> Result<(), Fail> {
    let words = [
        0, 4, 5, 2, 1, 1, 2, 4, 3, 1, 1, 2, 4, 6, 4, 1, 0, 0, 2, 4, 6,
    ];
    finishes(&rt, &long_row(), 7, &words, &[1, 1, 1, 1, 2, 2])
}

// Seven words, one fewer than there are cells and two, pause a run on the long row at once, and it leaves all but its records as
// it was.
#[test]
fn short_trails(rt: HostRuntime) -> Result<(), Fail> {
    let mut work = [old_record(); 8];
    let mut trail = [OLD; 7];
    let mut bytes = [OLD_MARK; 8];
    let mut cells = long_row();
    let short = run_over(&mut cells, &mut work, &mut trail, &mut bytes)?;
    assert_eq!(rt; short.outcome, Outcome::Paused);
    assert_eq!(rt; short.log.paths, 0);
    assert_eq!(rt; short.log.gain, 0);
    assert_eq!(rt; short.log.words, 0);
    same_cells(&rt, &cells, &long_row());
    kept_from(&rt, &work, &trail, &bytes, 6, 0, 0);
    // no path, no word
    let mut none = [OLD; 0];
    let report = run_over(&mut [cell(5, 0, 0, 0)], &mut work, &mut none, &mut bytes)?;
    assert_eq!(rt; report.outcome, Outcome::Finished);
    Ok(())
}

// A run on the long row with a trail of eight words, just enough to begin one path.
fn one_path(
    rt: &impl Abort,
    cells: &mut [Cell; 6],
    outcome: Outcome,
    bytes: &mut [u8; 6],
) -> Result<u64, Fail> {
    let mut work = [old_record(); 6];
    let mut trail = [OLD; 8];
    let report = run_over(cells, &mut work, &mut trail, bytes)?;
    assert_eq!(rt; report.outcome, outcome);
    assert_eq!(rt; report.log.paths, 1);
    kept_from(rt, &work, &trail, bytes, 6, report.log.words, 6);
    Ok(report.log.gain)
}

// Runs that pause after a path each, until the last finishes, gain and mark what one run with a long trail does.
#[test]
fn paused_runs_go_on(rt: HostRuntime) -> Result<(), Fail> {
    let mut cells = long_row();
    let mut bytes = [OLD_MARK; 6];
    let first = one_path(&rt, &mut cells, Outcome::Paused, &mut bytes)?;
    let second = one_path(&rt, &mut cells, Outcome::Paused, &mut bytes)?;
    let third = one_path(&rt, &mut cells, Outcome::Paused, &mut bytes)?;
    marked(&rt, &bytes, &[OLD_MARK; 6]);
    let fourth = one_path(&rt, &mut cells, Outcome::Finished, &mut bytes)?;
    assert_eq!(rt; first, 4);
    assert_eq!(rt; second, 1);
    assert_eq!(rt; third, 1);
    assert_eq!(rt; fourth, 1);
    marked(&rt, &bytes, &[1, 1, 1, 1, 2, 2]);
    Ok(())
}

fn refuses(rt: &impl Abort, work: &mut [Work], marks: &mut [u8], question: u8) -> Result<(), Fail> {
    let mut trail = [OLD; 40];
    let mut cells = long_row();
    match run_over(&mut cells, work, &mut trail, marks) {
        Ok(_) => return Err(Fail::new("accepted")),
        Err(refusal) => assert_eq!(rt; refusal.question(), question),
    }
    same_cells(rt, &cells, &long_row());
    kept_from(rt, work, &trail, marks, 0, 0, 0);
    Ok(())
}

#[test]
fn too_few_records_or_marks(rt: HostRuntime) -> Result<(), Fail> {
    refuses(&rt, &mut [old_record(); 5], &mut [OLD_MARK; 6], 25)?;
    refuses(&rt, &mut [old_record(); 6], &mut [OLD_MARK; 5], 26)?;
    refuses(&rt, &mut [old_record(); 5], &mut [OLD_MARK; 5], 25)
}
