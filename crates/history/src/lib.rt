//! One history of values for several clients, each of which is told beginnings of it. It exists in proofs alone; at
//! run time only lengths are kept.
#![tactic(auto)]

mod history;
mod past;
mod rule;

pub use history::{BlankHistory, History};
pub use past::Past;
pub use rule::{Law, Naming};
