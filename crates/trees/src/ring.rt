// The rings of the two queues, whose places are the records of a table.
use super::lane::Lanes;

// The part of a ring that is in use: its first place, and how many follow. No `VecDeque`: the user lends the table, and nothing
// is allocated.
#[derive(Clone, Copy, PartialEq, Eq, Debug, Default)]
pub struct Ring {
    pub head: usize,
    pub count: usize,
}

pub type Queues = Lanes<Ring>;
