//! A world under a lock, changed by the calls of seats; takers read what cursors send without waiting for the lock.
#![tactic(auto)]

mod checks;
mod desk;
mod ending;
mod finish;
mod latches;
mod locked;
mod priority_lock;
mod receipt;
mod seat;
mod taker;
mod turns;

pub use desk::{Desk, DeskOver};
pub use ending::Ended;
pub use finish::{Closing, Finished, Torn};
pub use locked::{Guarded, Locked};
pub use receipt::Receipt;
pub use seat::Seat;
pub use taker::Taker;
pub use turns::TurnsMade;
