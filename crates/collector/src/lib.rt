//! Which dead rows nobody needs any more.
#![tactic(auto)]

mod open_scans;

pub use open_scans::horizon;
