use crate::snapshot::Snapshot;
use key_class::{Columned, KeyClass};

/// Compile-time check that `T: Send + Sync`.
fn may_cross<T: Send + Sync>() {}

/// Compile-time check that a snapshot may be sent to and shared by threads, if keys may.
pub fn snapshots_may_cross<C: KeyClass>()
where
    C::Key: Send + Sync,
    <C::Key as Columned>::Block: Send + Sync,
{
    may_cross::<Snapshot<C>>();
}
