/// What a revision changes.
#[derive(Clone, Copy, Debug, PartialEq, Eq)]
pub enum MapChange<K> {
    /// The id has this key from now on, whether or not it had one.
    Put(u64, K),
    /// The id has no key any more.
    Remove(u64),
}
