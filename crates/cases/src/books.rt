// Calls on books: open, then sealed, over the front of one table.
use super::call::{BookCall, Call};
use super::networks;
use super::script::{Line, before_release};
use anyhow::{Context, bail};
use book::{OpenBook, Record};
use network::Network;
use std::alloc::Global;

// What stands in each byte of a buffer before a sheet is written into it.
const FILLING: u8 = 0xa5;

// Makes the calls on a new book: those before it is sealed, those after, and a release at the end.
pub(crate) fn play(
    rt: &impl Print,
    heap: Global,
    table: &mut [Record],
    calls: &[Line],
) -> anyhow::Result<()> {
    let (calls, released) = before_release(calls);
    let sealing = calls
        .iter()
        .position(|line| matches!(line.call, Call::Seal));
    let mut book = OpenBook::new(table);
    let table = match sealing {
        Some(place) => {
            fill(rt, heap, &mut book, &calls[..place])?;
            let mut sealed = book.seal();
            println!(rt; "sealed {} nodes", sealed.node_count())?;
            networks::play(rt, heap, &mut sealed, &calls[place + 1..])?;
            sealed.release()
        }
        None => {
            fill(rt, heap, &mut book, calls)?;
            book.release()
        }
    };
    if released {
        println!(rt; "released {}", table.len())?;
    }
    Ok(())
}

// Makes the calls on an open book.
fn fill(rt: &impl Print, heap: Global, book: &mut OpenBook, calls: &[Line]) -> anyhow::Result<()> {
    for line in calls {
        let Call::OfBook(call) = &line.call else {
            bail!("line {}: the book is open", line.number);
        };
        match call {
            BookCall::Enter { earning, cost } => match book.enter(*earning, *cost) {
                Ok(number) => println!(rt; "entered {number}")?,
                Err(refusal) => println!(rt; "refused {}", refusal.question())?,
            },
            BookCall::Need { entry, needed } => match book.need(*entry, *needed) {
                Ok(()) => println!(rt; "needed")?,
                Err(refusal) => println!(rt; "refused {}", refusal.question())?,
            },
            BookCall::Load(sheet) => match filing::load(book, sheet) {
                Ok(counts) => println!(rt; "loaded {counts}")?,
                Err(refusal) => println!(rt; "{}", refusal.told())?,
            },
            BookCall::Write(bytes) => {
                write(rt, heap, book, *bytes).context(format_args!("line {}", line.number))?;
            }
            BookCall::Entries => println!(rt;
                "entries {} needs {} earnings {}",
                book.entry_count(),
                book.need_count(),
                book.total_earnings()
            )?,
        }
    }
    Ok(())
}

// Writes the book's sheet into a buffer of so many bytes, and looks whether the others are as they were.
fn write(rt: &impl Print, heap: Global, book: &OpenBook, bytes: usize) -> anyhow::Result<()> {
    let mut buffer = vec![in heap; FILLING; bytes]?;
    let answer = filing::write(book, &mut buffer);
    let length = answer.unwrap_or(0);
    let Some((sheet, rest)) = buffer.split_at_checked(length) else {
        bail!("a sheet longer than its buffer");
    };
    if rest.iter().any(|byte| *byte != FILLING) {
        println!(rt; "spoilt")?;
    }
    match answer {
        Ok(0) => println!(rt; "wrote 0")?,
        Ok(length) => println!(rt; "wrote {length} {}", hex::encode(heap, sheet)?)?,
        Err(refusal) => println!(rt; "refused {}", refusal.question())?,
    }
    Ok(())
}
