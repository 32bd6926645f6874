//! Vectors in segments, which grow and are dropped a segment at a time.
#![tactic(auto)]

mod remains;
mod segmented_vec;
#[cfg(test)]
mod tests;

pub use remains::SegmentRemains;
pub use segmented_vec::SegmentedVec;
