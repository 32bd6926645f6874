//! A feed: many subscriptions to the changes of queries. A commit tests only the queries that its keys may match: a
//! tree has the keys under which each query is to be looked for, its reach, and a changed key is looked up there.
#![tactic(auto)]

mod boxes;
mod change;
mod enrolling;
mod feed;
mod intervals;
mod laws;
mod listeners;
mod numbering;
mod queries;
mod reach;
mod registration;
mod sets;
mod topics;
mod tree;

pub use feed::Feed;
pub use laws::{changes_go_on, matching_keys_are_reached};
pub use numbering::Numbering;
pub use queries::reaches;
pub use reach::Reach;
