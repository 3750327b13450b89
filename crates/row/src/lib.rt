// A row of cells, each joined to the next, over one borrowed slice: a small network.
#![tactic(auto)]

ghost use Rattle.row.specs.Rows.{AllCapped};

mod calls;
mod cell;

pub use cell::Cell;

// Each cell of the slice is a node, numbered by its place; those from 4,096 on are left out.
// No derived equality: a `&mut` to a slice has none.
#[derive(Debug, Drop)]
pub struct Row<'a> {
    cells: &'a mut [Cell],
    ghost bounds: { AllCapped cells.now },
}
