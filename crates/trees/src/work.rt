// The record of a node in the two search trees.
ghost use Rattle.std.specs.Prelude.{◌≡◌};
ghost use Rattle.trees.specs.Forests.{blank, terminal_of};
ghost use Rattle.trees.specs.Trees.{is_of};
ghost use Rattle.trees.specs.Carryings.{is_along};

use super::lane::Lanes;
use network::Terminal;

// The tree that a node is in. It says no more than an `Option<Terminal>`, but in one byte, which is looked at once.
#[derive(Clone, Copy, PartialEq, Eq, Debug, Default)]
pub enum Tree {
    #[default]
    Neither,
    Source,
    Sink,
}

impl Tree {
    // The tree of a terminal, or of neither.
    #[inline(always)]
    pub fn of(terminal: Option<Terminal>) -> Tree
        ensures { terminal_of result ≡ terminal }
    {
        match terminal {
            None => Tree::Neither,
            Some(Terminal::Source) => Tree::Source,
            Some(Terminal::Sink) => Tree::Sink,
        }
    }

    // The terminal whose tree it is.
    #[inline(always)]
    pub fn terminal(self) -> Option<Terminal>
        ensures { result ≡ terminal_of self }
    {
        match self {
            Tree::Neither => None,
            Tree::Source => Some(Terminal::Source),
            Tree::Sink => Some(Terminal::Sink),
        }
    }

    // Whether it is the tree of a terminal.
    #[inline(always)]
    pub fn is_of(self, terminal: Terminal) -> bool
        ensures { result ≡ is_of (terminal_of self) terminal }
    {
        match terminal {
            Terminal::Source => self == Tree::Source,
            Terminal::Sink => self == Tree::Sink,
        }
    }
}

// Where a node of a tree hangs.
#[derive(Clone, Copy, PartialEq, Eq, Debug, Default)]
pub enum Parent {
    // nowhere: it has lost its parent, or it is in no tree
    #[default]
    Orphan,
    // from the terminal itself
    Root,
    // from another node, by the arc between them
    Along { arc: u16, node: u16 },
}

impl Parent {
    // Whether a node hangs from another by this arc.
    pub fn is_along(self, arc: usize) -> bool
        ensures { result ≡ is_along self arc }
    {
        match self {
            Parent::Along { arc: own, .. } => own as usize == arc,
            Parent::Orphan | Parent::Root => false,
        }
    }
}

// Nodes go by their numbers and arcs by their codes, and no record holds another: the user lends the table, and nothing is allocated.
#[derive(Clone, Copy, PartialEq, Eq, Debug, Default)]
pub struct Work {
    // the node's tree, where it is in one, and where it hangs
    pub tree: Tree,
    pub parent: Parent,
    // whether the node is in a queue
    pub queued: Lanes<bool>,
    // the node that stands at this record's place in the ring of a queue
    pub slots: Lanes<u16>,
    // the stage of adoption in which it was last seen to hang from its terminal
    pub stage: u16,
}

impl Work {
    // The record of a node in no tree and no queue: the default, but public and told by its contract.
    pub fn blank() -> Work
        ensures { result ≡ blank }
    {
        Work::default()
    }
}
