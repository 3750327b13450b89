// A call, as a line of the script tells it.
use anyhow::bail;
use network::Terminal;
use row::Cell;
use std::alloc::Global;

#[derive(Debug, Drop)]
pub(crate) enum Call<'a> {
    // a heading, which is printed
    Remark(&'a str),
    // a new book over a table of so many records
    Book(usize),
    // a new row of these cells
    Row(Vec<Cell>),
    // a new tile over a table of so many pixels
    Tile(usize),
    // a sheet whose best plans are listed
    Plan(Vec<u8>),
    OfBook(BookCall),
    Seal,
    // what is laid on a tile
    Lay {
        width: usize,
        height: usize,
        costs: Vec<u8>,
    },
    OfNetwork(NetworkCall),
    Release,
}

// A call on an open book.
#[derive(Debug, Drop)]
pub(crate) enum BookCall {
    Enter { earning: u32, cost: u32 },
    Need { entry: usize, needed: usize },
    Load(Vec<u8>),
    // into a buffer of so many bytes
    Write(usize),
    // how many entries and needs there are, and what all entries earn
    Entries,
}

// A call on a network.
#[derive(Clone, Copy, Debug)]
pub(crate) enum NetworkCall {
    TerminalResidual {
        terminal: Terminal,
        node: usize,
    },
    Place {
        node: usize,
        place: usize,
    },
    Ends {
        arc: usize,
    },
    ArcResidual {
        arc: usize,
    },
    Take {
        terminal: Terminal,
        node: usize,
        amount: u64,
    },
    Shift {
        arc: usize,
        amount: u64,
    },
    Run(Lent),
    // runs until one finishes, each with so many words of a trail
    Finish {
        words: usize,
    },
}

// How many working records, words of a trail and mark bytes a run is lent.
#[derive(Clone, Copy, Debug)]
pub(crate) struct Lent {
    pub(crate) records: usize,
    pub(crate) words: usize,
    pub(crate) bytes: usize,
}

impl<'a> Call<'a> {
    // The call that a line tells.
    pub(crate) fn parse(heap: Global, line: &'a str) -> anyhow::Result<Call<'a>> {
        if line.starts_with('#') {
            return Ok(Call::Remark(line));
        }
        let words: Vec<&str> = line.split(' ').collect(heap)?;
        match words.as_slice() {
            ["book", records] => Ok(Call::Book(records.parse()?)),
            ["row", told @ ..] => Ok(Call::Row(cells(heap, told)?)),
            ["plan", told @ ..] => Ok(Call::Plan(bytes(heap, told)?)),
            ["tile", pixels] => Ok(Call::Tile(pixels.parse()?)),
            ["seal"] => Ok(Call::Seal),
            ["lay", width, height, told @ ..] => Ok(Call::Lay {
                width: width.parse()?,
                height: height.parse()?,
                costs: bytes(heap, told)?,
            }),
            ["release"] => Ok(Call::Release),
            ["enter" | "need" | "load" | "write" | "entries", ..] => {
                Ok(Call::OfBook(BookCall::of(heap, &words)?))
            },
            _ => Ok(Call::OfNetwork(NetworkCall::of(&words)?)),
        }
    }

    // Whether a part of the script begins with it.
    pub(crate) fn begins_part(&self) -> bool {
        matches!(
            self,
            Call::Remark(_) | Call::Book(_) | Call::Row(_) | Call::Tile(_) | Call::Plan(_)
        )
    }
}

impl BookCall {
    fn of(heap: Global, words: &[&str]) -> anyhow::Result<BookCall> {
        match words {
            ["enter", earning, cost] => Ok(BookCall::Enter {
                earning: earning.parse()?,
                cost: cost.parse()?,
            }),
            ["need", entry, needed] => Ok(BookCall::Need {
                entry: entry.parse()?,
                needed: needed.parse()?,
            }),
            ["load", told @ ..] => Ok(BookCall::Load(bytes(heap, told)?)),
            ["write", bytes] => Ok(BookCall::Write(bytes.parse()?)),
            ["entries"] => Ok(BookCall::Entries),
            _ => bail!("no such call"),
        }
    }
}

impl NetworkCall {
    fn of(words: &[&str]) -> anyhow::Result<NetworkCall> {
        match *words {
            ["residual", "arc", arc] => Ok(NetworkCall::ArcResidual { arc: arc.parse()? }),
            ["residual", at, node] => Ok(NetworkCall::TerminalResidual {
                terminal: terminal(at)?,
                node: node.parse()?,
            }),
            ["place", node, place] => Ok(NetworkCall::Place {
                node: node.parse()?,
                place: place.parse()?,
            }),
            ["ends", arc] => Ok(NetworkCall::Ends { arc: arc.parse()? }),
            ["take", at, node, amount] => Ok(NetworkCall::Take {
                terminal: terminal(at)?,
                node: node.parse()?,
                amount: amount.parse()?,
            }),
            ["shift", arc, amount] => Ok(NetworkCall::Shift {
                arc: arc.parse()?,
                amount: amount.parse()?,
            }),
            ["run", records, words, bytes] => Ok(NetworkCall::Run(Lent {
                records: records.parse()?,
                words: words.parse()?,
                bytes: bytes.parse()?,
            })),
            ["finish", words] => Ok(NetworkCall::Finish {
                words: words.parse()?,
            }),
            _ => bail!("no such call"),
        }
    }
}

fn terminal(word: &str) -> anyhow::Result<Terminal> {
    match word {
        "source" => Ok(Terminal::Source),
        "sink" => Ok(Terminal::Sink),
        _ => bail!("neither source nor sink"),
    }
}

// The cells of a row. A word tells one by its source, its sink, and the residuals of the arc to the next cell and of its reverse.
fn cells(heap: Global, words: &[&str]) -> anyhow::Result<Vec<Cell>> {
    let mut cells = Vec::new(heap);
    for word in words {
        let (told, times) = repeated(word)?;
        let numbers: Vec<&str> = told.split(',').collect(heap)?;
        let [source, sink, right, left] = *numbers else {
            bail!("a cell is four numbers");
        };
        let cell = Cell {
            source: source.parse()?,
            sink: sink.parse()?,
            right: right.parse()?,
            left: left.parse()?,
        };
        cells.extend_from_slice(&vec![in heap; cell; times]?)?;
    }
    Ok(cells)
}

// The bytes that words tell by hexadecimal digits.
fn bytes(heap: Global, words: &[&str]) -> anyhow::Result<Vec<u8>> {
    let mut bytes = Vec::new(heap);
    for word in words {
        let (digits, times) = repeated(word)?;
        let digits = digits.repeat(heap, times)?;
        bytes.extend_from_slice(&hex::decode(heap, digits.as_str())?)?;
    }
    Ok(bytes)
}

// What a word tells, and how often that stands there: the number behind a `*`, or once.
fn repeated(word: &str) -> anyhow::Result<(&str, usize)> {
    match word.split_once('*') {
        Some((told, times)) => Ok((told, times.parse()?)),
        None => Ok((word, 1)),
    }
}
