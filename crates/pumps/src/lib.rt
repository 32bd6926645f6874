//! A pool of threads that turn a desk's cursors on request.
#![tactic(auto)]

mod pumps;

pub use pumps::{Gate, Order, Pumped, Pumps};
