//! The figures of a store, and the state of its cursors.
ghost use Rattle.std.specs.Prelude.{◌≡◌, length, option_map, slice_get, IfSome, IfNone};
ghost use Rattle.store.specs.Stats.{KeepsDead, TellsOf, horizon_in, standing_of};

use crate::store::Store;
use collector::horizon;
use key_class::KeyClass;

/// The figures of a store: its progress, and its limits.
#[derive(Clone, Copy, Debug, PartialEq, Eq)]
pub struct Stats {
    /// How many commits were made.
    pub commits: u64,
    /// The greatest number of commits.
    pub commit_limit: u64,
    /// How many pages were made.
    pub pages: u64,
    /// The greatest number of pages.
    pub page_limit: u64,
    /// How many cursors are open.
    pub cursors: u64,
    /// The commit from which on no open scan needs dead rows: a sweep keeps those that died after it.
    pub horizon: u64,
}

/// The state of an open cursor.
#[derive(Clone, Copy, Debug, PartialEq, Eq)]
pub struct Standing {
    /// Its serial.
    pub serial: u64,
    /// The number of commits at its opening, or the commit that it follows.
    pub opened: u64,
    /// How many commits it hasn't gone past yet.
    pub lag: u64,
    /// Whether it has pages left to visit. As long as it has, a sweep keeps the rows that died after its opening.
    pub is_scanning: bool,
}

impl<C: KeyClass> Store<C> {
    /// The figures of the store. It reads no page.
    pub fn stats(&self) -> Stats
        ensures { TellsOf self.now result }
    {
        let pages = self.world.pages();
        let commits = self.world.commits();
        let cursors = self.world.open_cursors();
        Stats {
            commits,
            commit_limit: self.world.limit(),
            pages,
            page_limit: pages + self.world.search().pages_left() as u64,
            cursors: cursors.len() as u64,
            horizon: u64::from(horizon(cursors, commits as u32)),
        }
    }

    /// The state of the open cursor at a place, counted from 0, by rising serial. `None` if fewer are open.
    pub fn standing(&self, place: u64) -> Option<Standing>
        ensures { result ≡ option_map (standing_of (length self.now.commits))
            (slice_get self.now.cursors place) }
    {
        self.world.recall_soundness();
        let commits = self.world.commits();
        let cursors = self.world.open_cursors();
        if place >= cursors.len() as u64 {
            return None;
        }
        let cursor = &cursors[place as usize];
        Some(Standing {
            serial: cursor.serial(),
            opened: u64::from(cursor.opened()),
            lag: commits - cursor.position(),
            is_scanning: cursor.is_scanning(),
        })
    }

    /// The serial of the open cursor for whose scan a sweep keeps rows that died after its opening; among several,
    /// the one that was opened first. `None` if no scan needs dead rows.
    pub fn keeper(&self) -> Option<u64>
        ensures keeps { IfSome result (KeepsDead self.now) }
        ensures none { IfNone result (horizon_in self.now ≡ length self.now.commits) }
    {
        self.world.recall_soundness();
        let commits = self.world.commits() as u32;
        let cursors = self.world.open_cursors();
        let least = horizon(cursors, commits);
        if least == commits {
            return None;
        }
        for cursor in cursors {
            if cursor.is_scanning() && cursor.opened() == least {
                return Some(cursor.serial());
            }
        }
        unreachable!()
    }
}
