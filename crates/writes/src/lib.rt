//! Writes to a world, as whole calls or visit by visit: an insertion with its way down the tree, a deletion, a move,
//! which is one commit that ends a row and makes another with its tag, and sweeps of one leaf or of every leaf.
#![tactic(auto)]

mod approach;
mod deleting;
mod end_visit;
mod ending;
mod insert_visit;
mod move_visit;
mod moving;
mod page_steps;
mod splitting;
mod sweeping;
mod way_down;

pub use approach::{Approach, approach_leaf};
pub use deleting::delete;
pub use end_visit::{Search, end_step, find_row, seek_row};
pub use ending::{Ending, check_ending, end_row};
pub use insert_visit::{Way, insert_step};
pub use move_visit::{Moving, move_step};
pub use moving::move_row;
pub use splitting::{split_at_once, split_prepared};
pub use sweeping::{sweep_all, sweep_page};
pub use way_down::{insert, make_way};
