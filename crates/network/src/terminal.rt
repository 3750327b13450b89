// The two terminals of a network.

#[derive(Clone, Copy, PartialEq, Eq, Debug)]
pub enum Terminal {
    Source,
    Sink,
}
