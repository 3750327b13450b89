// Makes the calls that a script on standard input tells, and prints what each answers.
#![tactic(auto)]

mod books;
mod call;
mod networks;
mod script;
mod tiles;

use anyhow::bail;
use book::Record;
use call::Call;
use network::Network;
use row::{Cell, Row};
use script::Line;
use std::alloc::Global;
use std::io::Read;
use tile::Pixel;

// How many records the table of the books has: one for each of 4,096 entries, and two for each of 16,384 needs.
const RECORDS: usize = 36_864;

// How many records the table of the tiles has: more than a tile of 64 by 64 pixels uses.
const PIXELS: usize = 4_100;

// The tables that books and tiles borrow, one after another.
#[derive(Debug, Drop)]
struct Tables {
    records: Vec<Record>,
    pixels: Vec<Pixel>,
}

// Makes the calls of a part of a script, which begins with a remark, a sheet to list, a book, a row or a tile.
fn play(rt: &impl Print, heap: Global, tables: &mut Tables, part: &[Line]) -> anyhow::Result<()> {
    let Some((first, calls)) = part.split_first() else {
        return Ok(());
    };
    match &first.call {
        Call::Remark(text) => {
            println!(rt; "{text}")?;
            none(calls)
        }
        Call::Plan(sheet) => {
            print!(rt; "{}", engine::listing(heap, sheet)?.text)?;
            none(calls)
        }
        Call::Book(records) => match tables.records.as_mut_slice().get_mut(..*records) {
            Some(table) => books::play(rt, heap, table, calls),
            None => bail!("line {}: the table is shorter", first.number),
        },
        Call::Row(cells) => play_row(rt, heap, cells, calls),
        Call::Tile(pixels) => match tables.pixels.as_mut_slice().get_mut(..*pixels) {
            Some(table) => tiles::play(rt, heap, table, calls),
            None => bail!("line {}: the table is shorter", first.number),
        },
        Call::OfBook(_) | Call::Seal | Call::Lay { .. } | Call::OfNetwork(_) | Call::Release =>
            none(part),
    }
}

// There are no calls where there is no book, no row and no tile.
fn none(calls: &[Line]) -> anyhow::Result<()> {
    match calls.first() {
        Some(line) => bail!("line {}: no book, row or tile is there", line.number),
        None => Ok(()),
    }
}

// Makes the calls on a row of these cells.
fn play_row(rt: &impl Print, heap: Global, cells: &[Cell], calls: &[Line]) -> anyhow::Result<()> {
    let mut cells = cells.to_vec(heap)?;
    let mut row = Row::new(&mut cells);
    println!(rt; "row of {} nodes", row.node_count())?;
    networks::play(rt, heap, &mut row, calls)
}

fn main(rt: HostRuntime) -> anyhow::Result<()> {
    let heap = rt.alloc();
    let mut text = String::new(heap);
    rt.stdin().read_to_string(&mut text)?;
    let lines = script::lines(heap, &text)?;
    let mut tables = Tables {
        records: vec![in heap; Record::default(); RECORDS]?,
        pixels: vec![in heap; Pixel::default(); PIXELS]?,
    };
    for part in lines.chunk_by(|_, next| !next.call.begins_part()) {
        play(&rt, heap, &mut tables, part)?;
    }
    Ok(())
}
