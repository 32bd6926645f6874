ghost use Rattle.std.specs.Prelude.{◌≡◌, ◌<◌, None, IsTrue, ◌↔◌};
ghost use Rattle.row_version.specs.Entries.{visible_at, is_needed, died_at, marked, entry_of, version_of};

use crate::version::Version;
use std::marker::Model;

/// A row on a leaf, and the commit that ended it.
#[derive(Clone, Copy)]
pub struct Entry<K> {
    key: K,
    tag: u64,
    row: u32,
    // the number of the commit that ended the row, 0 while it is live
    died: u32,
}

impl<K> Model for Entry<K> {
    ghost use Rattle.row_version.specs.Entries as model;
    ghost use Rattle.row_version.specs.Entries.{death_of, number_of_death, number_of_death-death_of};

    ghost Value = { model.Entry K };

    ghost view = { λ e. record { key = e.key; row = e.row; tag = e.tag; died = death_of e.died } };

    ghost inverse = { λ e. record { key = e.key; tag = e.tag; row = e.row; died = number_of_death e.died } };

    ghost inverse_ok = { λ e h i. record { key = e.key; tag = e.tag; row = e.row; died = number_of_death-death_of e.died i } };
}

impl<K> Entry<K> {
    /// The entry with this key and version.
    pub fn of(key: K, version: Version) -> Entry<K>
        ensures { result ≡ entry_of key version }
    {
        Entry {
            key,
            tag: version.tag,
            row: version.row,
            died: version.died,
        }
    }

    /// Everything of the entry but its key.
    pub fn version(&self) -> Version
        ensures { result ≡ version_of self.now }
    {
        Version {
            tag: self.tag,
            row: self.row,
            died: self.died,
        }
    }

    /// A live row, with its commit's number.
    pub fn new(key: K, row: u32, tag: u64) -> Entry<K>
        ensures { result ≡ record { key = key; row = row; tag = tag; died = None } }
    {
        Entry {
            key,
            tag,
            row,
            died: 0,
        }
    }

    /// The number of the row: that of the commit that made it.
    pub fn row(&self) -> u32
        ensures { result ≡ self.now.row }
    {
        self.row
    }

    pub fn tag(&self) -> u64
        ensures { result ≡ self.now.tag }
    {
        self.tag
    }

    /// The number of the commit that ended the row.
    pub fn died(&self) -> Option<u32>
        ensures { result ≡ self.now.died }
    {
        if self.died == 0 {
            None
        } else {
            Some(self.died)
        }
    }

    pub fn is_live(&self) -> bool
        ensures { IsTrue result ↔ (self.now.died ≡ None) }
    {
        self.died == 0
    }

    /// Whether the row is live after the first `commit` commits.
    pub fn visible_at(&self, commit: u32) -> bool
        ensures { result ≡ visible_at commit self.now }
    {
        self.row <= commit && (self.died == 0 || commit < self.died)
    }

    /// Whether it is live, or died after the commit `horizon`.
    pub fn is_needed(&self, horizon: u32) -> bool
        ensures { result ≡ is_needed horizon self.now }
    {
        self.died == 0 || horizon < self.died
    }
}

impl<K: Copy> Entry<K> {
    pub fn key(&self) -> K
        ensures { result ≡ self.now.key }
    {
        self.key
    }

    /// The same row, ended by that commit. Commits count from 1.
    pub fn died_at(&self, commit: u32) -> Entry<K>
        requires { 0 < commit }
        ensures { result ≡ died_at commit self.now }
    {
        Entry {
            key: self.key,
            tag: self.tag,
            row: self.row,
            died: commit,
        }
    }

    /// The entry, ended by that commit if it is that of the row.
    pub fn marked(&self, row: u32, commit: u32) -> Entry<K>
        requires { 0 < commit }
        ensures { result ≡ marked row commit self.now }
    {
        if self.row == row {
            self.died_at(commit)
        } else {
            *self
        }
    }
}
