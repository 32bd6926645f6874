//! A map from ids to keys, with finds, changes since a revision, subscriptions, and revisions that never reset. Its
//! entries are the rows of a store. A new store replaces that from time to time; each change of the map does a bounded
//! part of the work for it.
#![tactic(auto)]

mod config;
mod form;
mod generation;
mod map;
mod map_feed;
mod map_snapshot;
mod offer;
mod retired;
mod roll;
mod successor;

pub use config::MapConfig;
pub use form::{AsIs, Form};
pub use map::Map;
pub use map_feed::MapFeed;
pub use map_snapshot::MapSnapshot;
pub use revisions::{MapChange, MapEntry, MapItem};
