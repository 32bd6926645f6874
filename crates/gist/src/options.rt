use storm::StormSize;

/// The class of a store's keys.
#[derive(Clone, Copy, Debug, PartialEq, Eq)]
pub enum Class {
    Interval,
    Box,
    Set,
}

/// The options of a command that keeps rows.
#[derive(Clone, Copy, Debug, PartialEq, Eq)]
pub struct StoreOptions {
    pub class: Class,
    /// How many entries a page may have.
    pub fan: u32,
    /// The least number of entries on each side of a split.
    pub least: u32,
}

/// What the command line asks for.
#[derive(Clone, Copy, Debug, PartialEq, Eq)]
pub enum Settings {
    /// Answer the lines of a session on standard input.
    Serve(StoreOptions),
    /// Carry out the lines of standard input as events.
    Replay(StoreOptions),
    /// Run a storm: many clients at one desk at once.
    Storm(StormSize),
}

/// The kind of a storm's client that is judged in the end.
#[derive(Clone, Copy, Debug, PartialEq, Eq)]
pub enum Role {
    /// It follows a cursor.
    Reader,
    /// It takes snapshots and searches them.
    Looker,
    /// It is given the changes of its query by a feed.
    Subscriber,
}

/// How a command ended.
#[derive(Clone, Copy, Debug, PartialEq, Eq)]
pub enum ExitStatus {
    Well,
    /// Rows of a storm were refused, or a reader, a looker or a subscriber isn't whole.
    StormFailed,
}
