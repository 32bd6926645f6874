//! The tree with its four steps: enlargement, split, posting and growth. Each is done whole, or refused with nothing
//! changed.
#![tactic(auto)]

mod steps;
mod tree;

pub use tree::SearchTree;
