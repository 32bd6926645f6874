use revisions::MapEntry;

/// What comes next in a roll.
#[derive(Clone, Copy)]
pub(crate) enum Offer<K> {
    /// A commit without an entry.
    Pass,
    /// The next entry.
    Give(MapEntry<K>),
    /// Nothing: all commits were passed.
    Over,
}
