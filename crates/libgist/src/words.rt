//! The records that C hands in and gets, for every class.

/// A key, as two words of 8 bytes, which each class reads in its own way.
#[repr(C)]
#[derive(Clone, Copy)]
pub struct KeyWords {
    pub first: u64,
    pub second: u64,
}

/// A row to add.
#[repr(C)]
#[derive(Clone, Copy)]
pub struct NewRow {
    pub key: KeyWords,
    pub tag: u64,
}

/// A row.
#[repr(C)]
#[derive(Clone, Copy)]
pub struct ShownRow {
    pub row: u64,
    pub tag: u64,
    pub key: KeyWords,
}

/// An item, or a commit. Both words are 0 if it has no key.
#[repr(C)]
#[derive(Clone, Copy)]
pub struct ShownItem {
    pub kind: u32,
    /// The number of the commit, which is that of the row that it made.
    pub number: u64,
    /// The number of the row that ended.
    pub ended: u64,
    pub tag: u64,
    pub key: KeyWords,
}

/// An item that a feed gives to a subscription.
#[repr(C)]
#[derive(Clone, Copy)]
pub struct ToldItem {
    pub serial: u64,
    pub item: ShownItem,
}

/// An entry of a map.
#[repr(C)]
#[derive(Clone, Copy)]
pub struct ShownEntry {
    pub id: u64,
    pub key: KeyWords,
}

/// An item of a map. Both words are 0 if it has no key.
#[repr(C)]
#[derive(Clone, Copy)]
pub struct ShownMapItem {
    pub kind: u32,
    pub revision: u64,
    pub id: u64,
    pub key: KeyWords,
}

/// An item that a feed of a map delivers to a subscription.
#[repr(C)]
#[derive(Clone, Copy)]
pub struct ToldMapItem {
    pub serial: u64,
    pub item: ShownMapItem,
}
