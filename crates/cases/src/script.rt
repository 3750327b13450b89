// A script: the calls of its lines.
use super::call::Call;
use anyhow::Context;
use std::alloc::Global;

// A call, and the number of its line, from 1.
#[derive(Debug, Drop)]
pub(crate) struct Line<'a> {
    pub(crate) number: usize,
    pub(crate) call: Call<'a>,
}

// The lines of a script.
pub(crate) fn lines(heap: Global, text: &str) -> anyhow::Result<Vec<Line<'_>>> {
    let mut lines = Vec::new(heap);
    for (before, line) in text.lines().enumerate() {
        let number = before.saturating_add(1);
        let call = Call::parse(heap, line).context(format_args!("line {number}"))?;
        lines.push(Line { number, call })?;
    }
    Ok(lines)
}

// The calls before a release at the end, and whether there is one.
pub(crate) fn before_release<'a, 'b>(calls: &'b [Line<'a>]) -> (&'b [Line<'a>], bool) {
    match calls.split_last() {
        Some((last, before)) if matches!(last.call, Call::Release) => (before, true),
        _ => (calls, false),
    }
}
