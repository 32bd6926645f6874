//! The commits of a store in order, the rows that they make, and the exact status of each row number. Its specs
//! define what every promise is about: legal lists of commits, rows, snapshots, changes and listings.
#![tactic(auto)]

mod change_list;
mod changes;
mod config;
mod frozen;
mod groups;
mod item;
mod laws;
mod recorded;
mod remains;
mod roomy_list;
mod shared_list;
mod view;
mod write;

pub use change_list::ChangeList;
pub use changes::{change_item, next_asked};
pub use config::Config;
pub use item::{Item, Row};
pub use laws::listings_go_on;
pub use remains::CommitRemains;
pub use roomy_list::RoomyList;
pub use view::View;
pub use write::{Status, Write};
