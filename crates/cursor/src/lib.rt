//! Cursors over a tree, driven turn by turn: first the rows at an opening, found page by page, then the changes after
//! it.
#![tactic(auto)]

mod cursor;
mod laws;

pub use cursor::{Cursor, Turned};
pub use laws::cursors_survive_steps;
