use change_list::{Item, Row};
use key_class::Refusal;

/// What answers a command.
#[derive(Debug, Drop)]
pub enum Answer<K> {
    /// A commit with this number was made.
    Committed(u64),
    /// A cursor with this serial was opened.
    Opened(u64),
    /// A cursor gave an item.
    Given(Item<K>),
    /// A cursor has nothing left to give.
    Empty,
    /// A mark is asked for.
    Asked,
    /// These rows were found.
    Found(Vec<Row<K>>),
    /// So many dead rows were removed.
    Swept(u64),
    /// The cursor is closed.
    Closed,
    /// The command was refused, and changed nothing.
    Refused(Refusal),
}
