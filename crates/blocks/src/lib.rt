//! Lists of values that are kept in blocks of eight, so that eight can be tested at once.
#![tactic(auto)]

mod blocks;
mod test;

pub use blocks::Blocks;
pub use test::BlockTest;
