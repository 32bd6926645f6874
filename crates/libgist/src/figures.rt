/// Figures of a store: its progress, and what it still has room for, in the layout that C reads.
#[repr(C)]
#[derive(Clone, Copy)]
pub struct Figures {
    pub commits: u64,
    pub commit_limit: u64,
    pub pages: u64,
    pub page_limit: u64,
    /// How many cursors are open.
    pub cursors: u64,
    /// The commit from which on no open scan needs dead rows.
    pub horizon: u64,
}

/// Where an open cursor stands, as C is given it. All is 0 where no such cursor is open.
#[repr(C)]
#[derive(Clone, Copy)]
pub struct ShownStanding {
    pub cursor: u64,
    /// The number of commits at its opening, or of the commit that it follows.
    pub opened: u64,
    /// How many commits it hasn't passed yet.
    pub lag: u64,
    /// Whether it has pages left to visit.
    pub is_scanning: bool,
}

/// Where a map is, in the layout that C reads.
#[repr(C)]
#[derive(Clone, Copy)]
pub struct MapFigures {
    /// The last revision.
    pub revision: u64,
    /// The revision after which the changes are known.
    pub oldest: u64,
    /// How many entries there are.
    pub len: u64,
    pub identity: u64,
}
