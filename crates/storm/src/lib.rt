//! A storm: many clients of one desk at once. What each reader took, what each looker found in its snapshots, and what each
//! subscriber to a feed received, is compared with the commits when all is over.
#![tactic(auto)]

mod clients;
mod hearings;
mod judge;
mod limits;
mod looks;
mod outcome;
mod publishing;

pub use hearings::{Hearing, subscriber_judged};
pub use judge::{Reading, Verdict, begins, is_listing, judged};
pub use limits::StormSize;
pub use looks::{Look, looker_judged};
pub use outcome::{Outcome, run_storm};
