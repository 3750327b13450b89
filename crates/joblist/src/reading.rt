// The first pass: each line that says something is read into an entry.
ghost use Rattle.std.specs.Prelude.{◌≡◌, ◌≤◌, cond, length, map, codes, IfOk};
ghost use Rattle.std.specs.Result.{result_err};
ghost use Rattle.std.specs.Str.{bytes_eq};
ghost use Rattle.joblist.specs.Entries.{first_need, amounts};
ghost use Rattle.joblist.specs.Lines.{lines_of};
ghost use Rattle.joblist.specs.Faults.{tells_entry, is_taken, line_fault};
ghost use Rattle.joblist.specs.Passes.{value_of, LineRead, LinesRead, entries_of};

use super::entry::Entry;
use super::refusal::{Fault, JobRefusal};
use super::words::{amount_of, says, words_of};
use book::{MOST_ENTRIES, MOST_NEEDS};
use std::alloc::{AllocError, Global};

// The words that begin the line of an entry.
const JOB: &[u8] = b"job";

const SET_UP: &[u8] = b"set-up";

const BOTH: &[u8] = b"both";

// How many words stand before the names of what an entry needs: the first, its name, and its one amount or both.
fn first_need(words: &[&[u8]]) -> usize
    ensures { result ≡ first_need (map (λ word. word.now) words.now) }
{
    match words.first() {
        Some(word) if *word == BOTH => 4,
        _ => 3,
    }
}

// Whether words are those of an entry: what it is, its name, what it earns or costs, and more.
fn tells_entry(words: &[&[u8]]) -> bool
    ensures { result ≡ tells_entry (map (λ word. word.now) words.now) }
{
    words.len() >= first_need(words) && (words[0] == JOB || words[0] == SET_UP || words[0] == BOTH)
}

// Whether one of the entries has this name.
fn is_taken(entries: &[Entry], name: &[u8]) -> bool
    ensures { result ≡ is_taken (map value_of entries.now) name.now }
{
    entries.iter().any(|entry| entry.name == name)
}

// What an entry earns and what it costs, by the first word of its line, and its first and its last amount.
fn earning_and_cost(word: &[u8], first: u32, last: u32) -> (u32, u32)
    ensures { result ≡ (cond (bytes_eq word.now (codes "set-up")) 0 first, cond (bytes_eq word.now (codes "job")) 0 last) }
{
    let earning = if word == SET_UP { 0 } else { first };
    let cost = if word == JOB { 0 } else { last };
    (earning, cost)
}

// Puts the questions to a line of these words by itself, where these entries stand on the lines before it, and answers what it earns
// and costs.
fn check(before: &[Entry], words: &[&[u8]]) -> Result<(u32, u32), Fault>
    ensures refusal { result_err result ≡ line_fault (map value_of before.now) (map (λ word. word.now) words.now) }
    ensures amounts { IfOk result (λ (earning, cost). record { earning = earning; cost = cost } ≡ amounts (map (λ word. word.now) words.now)) }
{
    if !tells_entry(words) {
        return Err(Fault::NoEntry);
    }
    let first = amount_of(words[2]).ok_or(Fault::AmountRange)?;
    let last = amount_of(words[first_need(words) - 1]).ok_or(Fault::AmountRange)?;
    if is_taken(before, words[1]) {
        Err(Fault::NameTaken)
    } else if before.len() >= MOST_ENTRIES {
        Err(Fault::TooMany)
    } else if words.len() > first_need(words) + MOST_NEEDS {
        Err(Fault::ManyNeeds)
    } else {
        Ok(earning_and_cost(words[0], first, last))
    }
}

// Reads a line of these words.
fn read_line<'a>(
    heap: Global,
    before: &[Entry],
    line: usize,
    words: &[&'a [u8]],
) -> Result<Result<Entry<'a>, Fault>, AllocError>
    ensures { IfOk result (λ read. LineRead (map value_of before.now) (record { number = line; words = map (λ word. word.now) words.now }) read) }
{
    let (earning, cost) = match check(before, words) {
        Ok(amounts) => amounts,
        Err(fault) => return Ok(Err(fault)),
    };
    let needs = words[first_need(words)..].iter().copied().collect(heap)?;
    Ok(Ok(Entry {
        line,
        name: words[1],
        earning,
        cost,
        needs,
    }))
}

// Reads the lines of a text, as far as the first with a fault.
pub(crate) fn read_lines<'a>(
    heap: Global,
    text: &'a [u8],
) -> Result<Result<Vec<Entry<'a>>, JobRefusal>, AllocError>
    requires { length text.now ≤ 1048576 }
    ensures { IfOk result (λ read. LinesRead (lines_of text.now) (entries_of read)) }
{
    let mut entries = Vec::new(heap);
    for (place, line) in text.split(|byte| *byte == b'\n').enumerate() {
        let words = words_of(heap, line)?;
        if !says(&words) {
            continue;
        }
        match read_line(heap, &entries, place + 1, &words)? {
            Ok(entry) => entries.push(entry)?,
            Err(fault) => {
                return Ok(Err(JobRefusal::Faulty {
                    fault,
                    line: place + 1,
                }));
            }
        }
    }
    Ok(Ok(entries))
}
