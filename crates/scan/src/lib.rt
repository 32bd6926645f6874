//! Traversals of the tree: the stack of pages to visit, and one visit of a scan. Its specs define when the entries of
//! a tree agree with a list of commits, and what a scan still has to find.
#![tactic(auto)]

mod laws;
mod prepared;
mod rows;
mod stack;

pub use laws::{
    entries_follow_commits, finders_survive_steps, scans_begin_with_snapshots, scans_survive_steps,
};
pub use prepared::PreparedVisit;
pub use rows::holds_row;
pub use stack::{Sought, Stack, StackItem, Visited};
