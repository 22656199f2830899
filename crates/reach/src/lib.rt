// Which cells at the start of a run can matter to cells at its end.
#![tactic(auto)]

mod cells;
mod rows;
mod walk;

pub use cells::{Cells, Reached, Refusal};
pub use walk::reach;
