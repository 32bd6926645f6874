//! An index from ids to numbers, whose longest single insertion stays short.
#![tactic(auto)]

mod ids;
mod remains;
mod shards;
#[cfg(test)]
mod tests;

pub use ids::Ids;
pub use remains::IdRemains;
