//! A world's commits as they stood, with the tree that agrees with them, which any number of threads search without a
//! lock.
#![tactic(auto)]

mod all_rows;
mod crossing;
mod finds;
mod laws;
mod life;
mod snapshot;

pub use crossing::snapshots_may_cross;
pub use finds::{first_rows, number_of_rows, rows_in_any_order, rows_in_order, write_rows};
pub use laws::snapshots_go_on;
pub use snapshot::Snapshot;
