// An arc as it is told at a place of its tail.

#[derive(Clone, Copy, PartialEq, Eq, Debug)]
pub struct Arc {
    pub code: usize,
    // the node that it leads to, and the code of its reverse
    pub head: usize,
    pub reverse: usize,
    // what can still be sent along it, and along its reverse
    pub residual: u64,
    pub back: u64,
}
