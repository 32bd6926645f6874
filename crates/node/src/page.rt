ghost use Rattle.std.specs.Prelude.{◌≡◌, ◌+◌, ◌<◌, ◌^◌, length, map, filter, IfOk, OnOk, OnErr, option_to_list};
ghost use Rattle.row_version.specs.Entries.{is_needed, marked};
ghost use Rattle.node.specs.Pages.{empty_leaf, followed, entries_of, names, has_unneeded, is_within, keys_of};
ghost use Rattle.node.specs.Parts.{cover_of};
ghost use Rattle.node.specs.Changes.{split_left, split_right, post_child, post_sibling, grown_left, grown_right, risen, enlarge_parent, enlarge_child, with_rows, with_row, naming_both};

use crate::branch::Branch;
use crate::branch_block::BranchBlock;
use crate::entry_tests::{ToChild, Unneeded};
use crate::parts::{
    add_branch, bury, join_branches, join_rows, keep_left, left_entries, rekey, right_entries,
    sweep, widen,
};
use crate::row_block::RowBlock;
use blocks::Blocks;
use key_class::{Columned, KeyClass, Sides};
use row_version::Entry;
use std::alloc::{AllocError, Global};
use std::marker::Model;

/// The rows of a leaf: a list of entries, kept in blocks of eight.
pub type Rows<K> = Blocks<Entry<K>, RowBlock<<K as Columned>::Block>>;

/// The branches of an inner page, kept in blocks of eight.
pub type Branches<K> = Blocks<Branch<K>, BranchBlock<<K as Columned>::Block>>;

/// A page of the tree: a leaf, of level 0, holds rows, and an inner page branches.
///
/// At most one of its two lists has memory.
#[derive(Drop)]
pub struct Page<K: Columned> {
    level: u32,
    nsn: u32,
    right: Option<u32>,
    owed: bool,
    hung: bool,
    rows: Rows<K>,
    branches: Branches<K>,
    cover: Option<K>,
}

impl<K: Columned> Model for Page<K> {
    ghost use Rattle.node.specs.Pages as model;

    ghost Value = { model.Page K };

    ghost view = { λ p. record { level = p.level; nsn = p.nsn; right = p.right; owed = p.owed; hung = p.hung; cover = p.cover; rows = p.rows; branches = p.branches } };
}

impl<K: Columned> Page<K> {
    /// An empty leaf with room for `fan` rows.
    ///
    /// # Errors
    /// Memory ran out.
    pub fn leaf(alloc: Global, fan: usize) -> Result<Page<K>, AllocError>
        ensures { IfOk result (λ page. page ≡ empty_leaf) }
    {
        let rows = Blocks::with_capacity(alloc, fan)?;
        Ok(Page {
            level: 0,
            nsn: 0,
            right: None,
            owed: false,
            hung: true,
            rows,
            branches: Blocks::new(alloc),
            cover: None,
        })
    }

    /// Its distance from the leaves.
    pub fn level(&self) -> u32
        ensures { result ≡ self.now.level }
    {
        self.level
    }

    /// The number of the posting of its latest split, 0 before the first.
    pub fn nsn(&self) -> u32
        ensures { result ≡ self.now.nsn }
    {
        self.nsn
    }

    /// The page to which its latest split moved a part of it.
    pub fn right(&self) -> Option<u32>
        ensures { result ≡ self.now.right }
    {
        self.right
    }

    /// Whether it was split and its right sibling isn't posted yet.
    pub fn is_owed(&self) -> bool
        ensures { result ≡ self.now.owed }
    {
        self.owed
    }

    /// Whether its parent has a branch to it.
    pub fn is_hung(&self) -> bool
        ensures { result ≡ self.now.hung }
    {
        self.hung
    }

    pub fn rows(&self) -> &Rows<K>
        ensures { result.now ≡ self.now.rows }
    {
        &self.rows
    }

    pub fn branches(&self) -> &Branches<K>
        ensures { result.now ≡ self.now.branches }
    {
        &self.branches
    }

    /// The right link, if a traversal with this memo follows it.
    pub fn followed(&self, memo: u32) -> Option<u32>
        ensures { option_to_list result ≡ followed self.now memo }
    {
        if self.owed || memo < self.nsn {
            self.right
        } else {
            None
        }
    }

    /// Whether it has a dead row that no scan opened at commit `horizon` or later needs.
    pub fn has_unneeded(&self, horizon: u32) -> bool
        ensures { result ≡ has_unneeded horizon self.now }
    {
        self.rows.any(&Unneeded { horizon })
    }

    /// Whether a branch leads to the child.
    pub fn names(&self, child: u64) -> bool
        ensures { result ≡ names child self.now }
    {
        self.branches.any(&ToChild { child })
    }
}

impl<K: Columned> Page<K> {
    /// A bound of everything that it holds; none for page 0.
    pub fn cover(&self) -> Option<K>
        ensures { result ≡ self.now.cover }
    {
        self.cover
    }

    /// How many entries it has, of either kind.
    pub fn entry_count(&self) -> usize
        requires { entries_of self.now < 2 ^ 64 }
        ensures { result ≡ entries_of self.now }
    {
        self.rows.len() + self.branches.len()
    }

    /// Whether the cover covers the key. Page 0 has no cover: there every key counts as covered.
    pub fn covers<C: KeyClass<Key = K>>(&self, key: K) -> bool
        ensures { result ≡ is_within C.rules.is_cover self.now.cover key }
    {
        match self.cover {
            None => true,
            Some(bound) => C::covers(bound, key),
        }
    }

    /// Adds a row at the end.
    ///
    /// # Errors
    /// Memory ran out; the page is unchanged.
    pub fn place(&mut self, entry: Entry<K>) -> Result<(), AllocError>
        ensures placed { OnOk result (self.new ≡ with_row self.old entry) }
        ensures unchanged { OnErr result (self.new ≡ self.old) }
    {
        self.rows.push(entry)
    }

    /// Marks the row as ended by that commit. Commits count from 1.
    pub fn bury(&mut self, row: u32, commit: u32)
        requires { 0 < commit }
        ensures { self.new ≡ with_rows self.old (map (marked row commit) self.old.rows) }
    {
        bury(&mut self.rows, row, commit);
    }

    /// Removes the dead rows that no scan opened at commit `horizon` or later needs, and gives their number.
    pub fn sweep(&mut self, horizon: u32) -> usize
        ensures swept { self.new ≡ with_rows self.old (filter (is_needed horizon) self.old.rows) }
        ensures count { result + length self.new.rows ≡ length self.old.rows }
    {
        let before = self.rows.len();
        sweep(&mut self.rows, horizon);
        before - self.rows.len()
    }

    /// Makes this page the left half of a split: it keeps the left entries and owes its right sibling a posting.
    pub fn keep_left<C: KeyClass<Key = K>>(&mut self, sides: &Sides, sibling: u32)
        requires { entries_of self.old ≡ length sides.now }
        ensures { self.new ≡ split_left C.rules.union_of self.old sides.now sibling }
    {
        keep_left(&mut self.rows, sides);
        keep_left(&mut self.branches, sides);
        self.cover = cover_of::<C>(&self.rows, &self.branches);
        self.right = Some(sibling);
        self.owed = true;
    }

    /// The right half of a split: a new page with the right entries.
    ///
    /// # Errors
    /// Memory ran out.
    pub fn right_half<C: KeyClass<Key = K>>(
        &self,
        alloc: Global,
        sides: &Sides,
    ) -> Result<Page<K>, AllocError>
        requires { entries_of self.now ≡ length sides.now }
        ensures { IfOk result (λ page. page ≡ split_right C.rules.union_of self.now sides.now) }
    {
        let rows = right_entries(alloc, &self.rows, sides)?;
        let branches = right_entries(alloc, &self.branches, sides)?;
        let cover = cover_of::<C>(&rows, &branches);
        Ok(Page {
            level: self.level,
            nsn: self.nsn,
            right: self.right,
            owed: false,
            hung: false,
            rows,
            branches,
            cover,
        })
    }

    /// The page of the left entries below a root that grows. Its right link leads to page `right`.
    ///
    /// # Errors
    /// Memory ran out.
    pub fn lower_left<C: KeyClass<Key = K>>(
        &self,
        alloc: Global,
        sides: &Sides,
        right: u32,
    ) -> Result<Page<K>, AllocError>
        requires { entries_of self.now ≡ length sides.now }
        ensures { IfOk result (λ v. v ≡ grown_left C.rules.union_of self.now sides.now right) }
    {
        let rows = left_entries(alloc, &self.rows, sides)?;
        let branches = left_entries(alloc, &self.branches, sides)?;
        let cover = cover_of::<C>(&rows, &branches);
        Ok(Page {
            level: self.level,
            nsn: 0,
            right: Some(right),
            owed: false,
            hung: true,
            rows,
            branches,
            cover,
        })
    }

    /// The page of the right entries below a root that grows.
    ///
    /// # Errors
    /// Memory ran out.
    pub fn lower_right<C: KeyClass<Key = K>>(
        &self,
        alloc: Global,
        sides: &Sides,
    ) -> Result<Page<K>, AllocError>
        requires { entries_of self.now ≡ length sides.now }
        ensures { IfOk result (λ page. page ≡ grown_right C.rules.union_of self.now sides.now) }
    {
        let mut lower = self.right_half::<C>(alloc, sides)?;
        lower.nsn = 0;
        lower.right = None;
        lower.hung = true;
        Ok(lower)
    }

    /// Makes this page a root that has grown: one level higher, with these branches instead of its entries.
    pub fn rise(&mut self, alloc: Global, branches: Branches<K>)
        requires { self.old.level + 1 < 2 ^ 32 }
        ensures { self.new ≡ risen self.old branches }
    {
        self.level += 1;
        self.rows = Blocks::new(alloc);
        self.branches = branches;
    }

    /// Widens the branch to the child by the key.
    pub fn widen_branch<C: KeyClass<Key = K>>(&mut self, child: u32, key: K)
        ensures { self.new ≡ enlarge_parent C.rules.union_of child key self.old }
    {
        widen::<C>(&mut self.branches, child, key);
    }

    /// Widens the cover by the key.
    pub fn widen_cover<C: KeyClass<Key = K>>(&mut self, key: K)
        ensures { self.new ≡ enlarge_child C.rules.union_of key self.old }
    {
        if let Some(bound) = self.cover {
            self.cover = Some(C::union(bound, key));
        }
    }

    /// Gives a child and its right sibling branches with their covers as keys.
    ///
    /// # Errors
    /// Memory ran out; the page is unchanged.
    pub fn name_both(
        &mut self,
        child: (u32, Option<K>),
        sibling: (u32, Option<K>),
    ) -> Result<(), AllocError>
        ensures named { OnOk result (self.new ≡ naming_both self.old child sibling) }
        ensures unchanged { OnErr result (self.new ≡ self.old) }
    {
        let count = self.branches.len();
        add_branch(&mut self.branches, sibling.0, sibling.1)?;
        rekey(&mut self.branches, count, child.0, child.1);
        Ok(())
    }
}

impl<K: Columned> Clone for Page<K> {
    ghost is_clone = { λ page copy. copy ≡ page };

    /// A copy of the page, with the same room.
    fn clone(&self) -> Result<Page<K>, AllocError> {
        Ok(Page {
            level: self.level,
            nsn: self.nsn,
            right: self.right,
            owed: self.owed,
            hung: self.hung,
            rows: self.rows.copied()?,
            branches: self.branches.copied()?,
            cover: self.cover,
        })
    }
}

impl<K: Columned> Page<K> {
    /// Marks the page as owing nothing any more, with the number of the posting.
    pub fn settle(&mut self, nsn: u32)
        ensures { self.new ≡ post_child self.old nsn }
    {
        self.nsn = nsn;
        self.owed = false;
    }

    /// Marks the page as having a branch to it.
    pub fn hang(&mut self)
        ensures { self.new ≡ post_sibling self.old }
    {
        self.hung = true;
    }
}

/// The union of all keys.
fn cover_of<C: KeyClass>(rows: &Rows<C::Key>, branches: &Branches<C::Key>) -> Option<C::Key>
    ensures { result ≡ cover_of C.rules.union_of (keys_of rows.now branches.now) }
{
    let bound = join_rows::<C>(None, rows);
    join_branches::<C>(bound, branches)
}
