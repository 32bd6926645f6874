//! A row as a leaf holds it: its key, number and tag, and the commit that ended it.
#![tactic(auto)]

mod entry;
mod version;
mod version_block;

pub use entry::Entry;
pub use version::Version;
pub use version_block::VersionBlock;
