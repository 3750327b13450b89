// Calls on a network: what is asked, changed and run.
use super::call::{Call, Lent, NetworkCall};
use super::script::Line;
use anyhow::{Context, bail};
use network::{Mark, Network, NetworkRefusal};
use search::{Outcome, Report, RunRefusal};
use std::alloc::{AllocError, Global};
use std::io;
use trees::Work;

// Makes the calls on a network.
pub(crate) fn play<N: Network>(
    rt: &impl Print,
    heap: Global,
    net: &mut N,
    calls: &[Line],
) -> anyhow::Result<()> {
    // what all runs have gained
    let mut gained = 0;
    for line in calls {
        let Call::OfNetwork(call) = &line.call else {
            bail!("line {}: no call on a network", line.number);
        };
        make(rt, heap, net, *call, &mut gained).context(format_args!("line {}", line.number))?;
    }
    Ok(())
}

// Makes one call on a network, of which all runs have gained so much.
pub(crate) fn make<N: Network>(
    rt: &impl Print,
    heap: Global,
    net: &mut N,
    call: NetworkCall,
    gained: &mut u64,
) -> anyhow::Result<()> {
    match call {
        NetworkCall::TerminalResidual { terminal, node } => {
            residual(rt, net.terminal_residual(terminal, node))?
        },
        NetworkCall::ArcResidual { arc } => residual(rt, net.arc_residual(arc))?,
        NetworkCall::Place { node, place } => match net.arc_at(node, place) {
            Ok(Some(arc)) => println!(rt; "arc {arc}")?,
            Ok(None) => println!(rt; "no arc")?,
            Err(refusal) => refused(rt, refusal)?,
        },
        NetworkCall::Ends { arc } => match net.arc_ends(arc) {
            Ok((tail, head, reverse)) => println!(rt; "ends {tail} {head} {reverse}")?,
            Err(refusal) => refused(rt, refusal)?,
        },
        NetworkCall::Take {
            terminal,
            node,
            amount,
        } => match net.take(terminal, node, amount) {
            Ok(()) => println!(rt; "taken")?,
            Err(refusal) => refused(rt, refusal)?,
        },
        NetworkCall::Shift { arc, amount } => match net.shift(arc, amount) {
            Ok(()) => println!(rt; "shifted")?,
            Err(refusal) => refused(rt, refusal)?,
        },
        NetworkCall::Run(lent) => run(rt, heap, net, lent, gained)?,
        NetworkCall::Finish { words } => finish(rt, heap, net, words, gained)?,
    }
    Ok(())
}

// A residual that was asked for.
fn residual(rt: &impl Print, answer: Result<u64, NetworkRefusal>) -> io::Result<()> {
    match answer {
        Ok(residual) => println!(rt; "residual {residual}"),
        Err(refusal) => refused(rt, refusal),
    }
}

fn refused(rt: &impl Print, refusal: NetworkRefusal) -> io::Result<()> {
    println!(rt; "refused {}", refusal.question())
}

// What a run is lent.
#[derive(Debug, Drop)]
struct Loan {
    work: Vec<Work>,
    trail: Vec<u64>,
    marks: Vec<u8>,
}

impl Loan {
    fn new(heap: Global, lent: Lent) -> Result<Loan, AllocError> {
        Ok(Loan {
            work: vec![in heap; Work::blank(); lent.records]?,
            trail: vec![in heap; 0; lent.words]?,
            marks: vec![in heap; 0; lent.bytes]?,
        })
    }

    // Runs, and counts what is gained.
    fn run<N: Network>(&mut self, net: &mut N, gained: &mut u64) -> Result<Report, RunRefusal> {
        let report = search::run(net, &mut self.work, &mut self.trail, &mut self.marks)?;
        *gained = gained.saturating_add(report.log.gain);
        Ok(report)
    }

    // Runs until one finishes, or pauses and has gained nothing.
    fn run_on<N: Network>(&mut self, net: &mut N, gained: &mut u64) -> Result<Outcome, RunRefusal> {
        // counted, since no clause here says that runs which gain come to an end
        for _ in 0..u64::MAX {
            let report = self.run(net, gained)?;
            if report.outcome == Outcome::Finished || report.log.gain == 0 {
                return Ok(report.outcome);
            }
        }
        Ok(Outcome::Paused)
    }
}

// Runs once.
fn run<N: Network>(
    rt: &impl Print,
    heap: Global,
    net: &mut N,
    lent: Lent,
    gained: &mut u64,
) -> anyhow::Result<()> {
    let mut loan = Loan::new(heap, lent)?;
    match loan.run(net, gained) {
        Ok(report) if report.outcome == Outcome::Finished => println!(rt; "finished")?,
        Ok(_) => println!(rt; "paused")?,
        Err(refusal) => println!(rt; "refused {}", refusal.question())?,
    }
    Ok(())
}

// Runs on until a run finishes, and tells what all runs have gained, and the marks.
fn finish<N: Network>(
    rt: &impl Print,
    heap: Global,
    net: &mut N,
    words: usize,
    gained: &mut u64,
) -> anyhow::Result<()> {
    let nodes = net.node_count();
    let lent = Lent {
        records: nodes,
        words,
        bytes: nodes,
    };
    let mut loan = Loan::new(heap, lent)?;
    match loan.run_on(net, gained) {
        Ok(Outcome::Finished) => {
            let letters: String = loan.marks.iter().map(|byte| letter(*byte)).collect(heap)?;
            let marks = if letters.is_empty() {
                "none"
            } else {
                letters.as_str()
            };
            println!(rt; "least {gained} marks {marks}")?;
        }
        Ok(Outcome::Paused) => println!(rt; "stuck")?,
        Err(refusal) => println!(rt; "refused {}", refusal.question())?,
    }
    Ok(())
}

// The letter of the mark that a byte stands for.
fn letter(byte: u8) -> char {
    match Mark::of(byte) {
        Some(Mark::In) => 'i',
        Some(Mark::Out) => 'o',
        Some(Mark::Either) => 'e',
        None => '?',
    }
}
