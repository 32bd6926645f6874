//! The state machine of a tree with cursors: each event is one atomic step.
#![tactic(auto)]

mod calls;
mod commit;
mod cursors;
mod event;
mod finders;
mod hints;
mod nodes;
mod places;
mod remains;
mod reply;
mod tasks;
mod trace;
mod world;

pub use event::Event;
pub use remains::Remains;
pub use reply::{Reply, Stamped};
pub use tasks::{SplitTask, VisitTask};
pub use trace::run;
pub use world::World;
