//! Checks whether the items that a client of a query was given are ones that it may be given.
#![tactic(auto)]

mod delivery;
mod following;
mod remaining;
mod sameness;

pub use delivery::is_delivered;
