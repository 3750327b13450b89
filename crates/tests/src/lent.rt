// What a run is lent, and what it must leave of it.
use std::process::Abort;
use trees::{Lanes, Work};

// What stands in all that a run is lent; no run here writes it.
pub(crate) const OLD: u64 = 99;

const OLD_PLACE: u16 = 99;

const OLD_STAGE: u16 = 99;

pub(crate) const OLD_MARK: u8 = 9;

// A record that no run has written.
pub(crate) fn old_record() -> Work {
    Work {
        slots: Lanes {
            waiting: OLD_PLACE,
            orphans: OLD_PLACE,
        },
        stage: OLD_STAGE,
        ..Work::blank()
    }
}

// From these places on, all is as it was lent.
pub(crate) fn kept_from(
    rt: &impl Abort,
    work: &[Work],
    trail: &[u64],
    marks: &[u8],
    record: usize,
    word: usize,
    byte: usize,
) {
    for i in record..work.len() {
        assert_eq!(rt; work[i].stage, OLD_STAGE);
        assert_eq!(rt; work[i].slots.waiting, OLD_PLACE);
        assert_eq!(rt; work[i].slots.orphans, OLD_PLACE);
    }
    for i in word..trail.len() {
        assert_eq!(rt; trail[i], OLD);
    }
    for i in byte..marks.len() {
        assert_eq!(rt; marks[i], OLD_MARK);
    }
}

pub(crate) fn begins_with(rt: &impl Abort, words: &[u64], start: &[u64]) {
    for i in 0..start.len() {
        assert_eq!(rt; words.get(i).copied(), Some(start[i]));
    }
}

pub(crate) fn marked(rt: &impl Abort, bytes: &[u8], marks: &[u8]) {
    for i in 0..marks.len() {
        assert_eq!(rt; bytes.get(i).copied(), Some(marks[i]));
    }
}
