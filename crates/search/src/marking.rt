// The marks that a finished run leaves: each node's by its tree.
ghost use Rattle.std.specs.Prelude.{◌≡◌, length};
ghost use Rattle.network.specs.declared.terminal.Terminal.TheVariants.{Source, Sink};
ghost use Rattle.network.specs.Sides.{mark_by};
ghost use Rattle.trees.specs.Trees.{is_of};
ghost use Rattle.search.specs.Markings.{MarkedByTree};
ghost use Rattle.search.specs.Tables.{forest_of};

use super::table::Table;
use network::{Mark, Terminal};

// What is said of a node that is in this tree.
fn mark_of(tree: Option<Terminal>) -> Mark
    ensures { result ≡ mark_by (is_of tree Source) (is_of tree Sink) }
{
    match tree {
        Some(Terminal::Source) => Mark::In,
        Some(Terminal::Sink) => Mark::Out,
        None => Mark::Either,
    }
}

// Writes each node's mark.
pub(crate) fn mark(table: &Table, marks: &mut [u8])
    requires { length marks.old ≡ (forest_of table.now).size }
    ensures { MarkedByTree (forest_of table.now) (forest_of table.now).size marks.new }
{
    // `zip` with the records was tried: what the marks are while it holds them the proof cannot name
    for (node, mark) in marks.iter_mut().enumerate() {
        *mark = mark_of(table.tree(node)).into();
    }
}
