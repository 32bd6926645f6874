//! What a map is: entries by id, in the order of their last put, and what each revision changed.
#![tactic(auto)]

mod change;
mod entry;
mod item;
mod laws;

pub use change::MapChange;
pub use entry::MapEntry;
pub use item::MapItem;
pub use laws::{maps_forget, maps_go_on};
