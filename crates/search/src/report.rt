// What a run answers.

// How a run ended.
#[derive(Clone, Copy, PartialEq, Eq, Debug)]
pub enum Outcome {
    // no augmenting path is left
    Finished,
    // a path is left, and the trail is too short for it
    Paused,
}

// The paths that a run has carried out: how many, the sum of their amounts, and the words of the trail that they take.
// The trail is no field: a struct with its loan would have each function that writes it say that it still holds the same loan.
#[derive(Clone, Copy, PartialEq, Eq, Debug, Default)]
pub struct Log {
    pub paths: u64,
    pub gain: u64,
    pub words: usize,
}

#[derive(Clone, Copy, PartialEq, Eq, Debug)]
pub struct Report {
    pub outcome: Outcome,
    pub log: Log,
}
