// Rows of cells with what they must answer as networks.
use network::{Network, NetworkRefusal, Terminal};
use row::{Cell, Row};
use std::process::Abort;
use std::test::Fail;

const THREE: [Cell; 3] = [
    Cell {
        source: 5,
        sink: 6,
        right: 7,
        left: 8,
    },
    Cell {
        source: 15,
        sink: 16,
        right: 17,
        left: 18,
    },
    Cell {
        source: 25,
        sink: 26,
        right: 27,
        left: 28,
    },
];

pub(crate) fn refused<T: Drop>(
    rt: &impl Abort,
    answer: Result<T, NetworkRefusal>,
    question: u8,
) -> Result<(), Fail> {
    match answer {
        Ok(_) => Err(Fail::new("accepted")),
        Err(refusal) => {
            assert_eq!(rt; refusal.question(), question);
            Ok(())
        },
    }
}

// The row's residuals are those of these cells.
fn has(rt: &impl Abort, row: &Row, cells: &[Cell; 3]) -> Result<(), Fail> {
    for i in 0..3 {
        assert_eq!(rt;
            row.terminal_residual(Terminal::Source, i)?,
            cells[i].source
        );
        assert_eq!(rt; row.terminal_residual(Terminal::Sink, i)?, cells[i].sink);
    }
    for i in 0..2 {
        assert_eq!(rt; row.arc_residual(2 * i)?, cells[i].right);
        assert_eq!(rt; row.arc_residual(2 * i + 1)?, cells[i].left);
    }
    Ok(())
}

#[test]
fn nodes_and_arcs(rt: HostRuntime) -> Result<(), Fail> {
    let mut cells = THREE;
    let row = Row::new(&mut cells);
    assert_eq!(rt; row.node_count(), 3);
    has(&rt, &row, &THREE)?;
    assert_eq!(rt; row.arc_at(0, 0)?, Some(0));
    assert_eq!(rt; row.arc_at(0, 1)?, None);
    assert_eq!(rt; row.arc_at(1, 0)?, Some(2));
    assert_eq!(rt; row.arc_at(1, 1)?, Some(1));
    assert_eq!(rt; row.arc_at(1, 2)?, None);
    assert_eq!(rt; row.arc_at(2, 0)?, Some(3));
    assert_eq!(rt; row.arc_at(2, 1)?, None);
    assert_eq!(rt; row.arc_ends(0)?, (0, 1, 1));
    assert_eq!(rt; row.arc_ends(1)?, (1, 0, 0));
    assert_eq!(rt; row.arc_ends(2)?, (1, 2, 3));
    assert_eq!(rt; row.arc_ends(3)?, (2, 1, 2));
    Ok(())
}

// The first node and code that are not there, an amount one above the residual, and which question is put first.
#[test]
fn refusals_leave_all_as_it_was(rt: HostRuntime) -> Result<(), Fail> {
    let mut cells = THREE;
    let mut row = Row::new(&mut cells);
    refused(&rt, row.terminal_residual(Terminal::Sink, 3), 27)?;
    refused(&rt, row.arc_at(3, 0), 27)?;
    refused(&rt, row.take(Terminal::Source, 3, u64::MAX), 27)?;
    refused(&rt, row.arc_ends(4), 28)?;
    refused(&rt, row.arc_residual(4), 28)?;
    refused(&rt, row.shift(4, u64::MAX), 28)?;
    refused(&rt, row.take(Terminal::Source, 2, 26), 29)?;
    refused(&rt, row.take(Terminal::Sink, 0, 7), 29)?;
    refused(&rt, row.shift(0, 8), 29)?;
    refused(&rt, row.shift(3, 19), 29)?;
    has(&rt, &row, &THREE)
}

#[test]
fn takes(rt: HostRuntime) -> Result<(), Fail> {
    let mut cells = THREE;
    let mut row = Row::new(&mut cells);
    row.take(Terminal::Source, 1, 0)?;
    has(&rt, &row, &THREE)?;
    row.take(Terminal::Source, 0, 5)?;
    row.take(Terminal::Sink, 2, 1)?;
    let mut after = THREE;
    after[0].source = 0;
    after[2].sink = 25;
    has(&rt, &row, &after)
}

#[test]
fn shifts(rt: HostRuntime) -> Result<(), Fail> {
    let mut cells = THREE;
    let mut row = Row::new(&mut cells);
    row.shift(1, 0)?;
    has(&rt, &row, &THREE)?;
    row.shift(0, 7)?;
    row.shift(3, 1)?;
    let mut after = THREE;
    after[0].right = 0;
    after[0].left = 15;
    after[1].right = 18;
    after[1].left = 17;
    has(&rt, &row, &after)
}

#[test]
fn rows_without_arcs(rt: HostRuntime) -> Result<(), Fail> {
    let mut none: [Cell; 0] = [];
    let empty = Row::new(&mut none);
    assert_eq!(rt; empty.node_count(), 0);
    refused(&rt, empty.arc_at(0, 0), 27)?;
    refused(&rt, empty.arc_residual(0), 28)?;
    let mut one = [THREE[0]];
    let single = Row::new(&mut one);
    assert_eq!(rt; single.node_count(), 1);
    assert_eq!(rt; single.terminal_residual(Terminal::Sink, 0)?, 6);
    assert_eq!(rt; single.arc_at(0, 0)?, None);
    refused(&rt, single.arc_residual(0), 28)
}

// An amount above 2^39 is lowered to it in the slice itself.
#[test]
fn amounts_are_capped(rt: HostRuntime) -> Result<(), Fail> {
    let most = 1 << 39;
    let mut cells = [Cell {
        source: u64::MAX,
        sink: most,
        right: most + 1,
        left: most - 1,
    }];
    let row = Row::new(&mut cells);
    assert_eq!(rt; row.terminal_residual(Terminal::Source, 0)?, most);
    let capped = Cell {
        source: most,
        sink: most,
        right: most,
        left: most - 1,
    };
    assert_eq!(rt; cells[0], capped);
    Ok(())
}
