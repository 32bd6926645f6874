//! What a class of keys is: its calls, what they mean, and the laws that hold of them.
#![tactic(auto)]

mod bits;
mod block;
mod class;
mod gains;
mod grouping;
pub mod limits;
mod plain;
mod pred;
mod ranking;
mod refusal;
mod sides;

pub use bits::{eight_bits, equal_bits};
pub use block::{Block, Columned};
pub use class::KeyClass;
pub use gains::in_64_bits;
pub use grouping::Grouping;
pub use plain::Plain;
pub use pred::{Pred, bounds_miss_no_match};
pub use ranking::{Ranked, Ranking, rank_all};
pub use refusal::{Fault, Refusal};
pub use sides::{Rel, Side, Sides};
