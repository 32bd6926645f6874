//! The tree of a feed: a store whose rows lead from keys to topics.
ghost use Rattle.std.specs.Prelude.{◌≡◌, ◌++◌, OnOk, IfOk, IfErr, IsPermutation, option_map, vec_items};
ghost use Rattle.key_class.specs.declared.refusal.Refusal.TheVariants.{OutOfMemory};
ghost use Rattle.change_list.specs.Changes.{IsLegal};
ghost use Rattle.feed.specs.Planting.{AreTagged, MayBePlanted, Tends, tags_at};

use crate::reach::Reach;
use change_list::Row;
use key_class::{KeyClass, Pred, Refusal};
use std::alloc::Global;
use store::Store;

/// Puts a row with the tag into the tree for each key, and gives the numbers of the rows. `None`, and no row is left
/// there, if the tree is full.
///
/// # Errors
/// `OutOfMemory`. Some of the rows may stay in the tree.
pub(crate) fn plant<C: KeyClass>(
    alloc: Global,
    tree: &mut Store<C>,
    keys: &[C::Key],
    tag: u64,
) -> Result<Option<Vec<u64>>, Refusal>
    requires legal { IsLegal tree.old.commits }
    ensures tends { Tends tag tree.old.commits tree.new.commits }
    ensures planted { IfOk result (λ rows.
        MayBePlanted tree.new.commits tag keys.now (option_map vec_items rows)) }
    ensures refused { IfErr result (λ why. why ≡ OutOfMemory) }
{
    let mut rows = Vec::new(alloc);
    for key in keys {
        let Ok(()) = rows.try_reserve(1) else {
            uproot(tree, &rows, tag);
            return Err(Refusal::OutOfMemory);
        };
        match tree.insert(*key, tag) {
            Ok(row) => rows.push_reserved(row),
            Err(refusal) => {
                uproot(tree, &rows, tag);
                return match refusal {
                    Refusal::OutOfMemory => Err(Refusal::OutOfMemory),
                    _ => Ok(None),
                };
            }
        }
    }
    Ok(Some(rows))
}

/// Removes rows with the tag from the tree. If memory runs out some may stay: commits then look at them in vain, but
/// nothing more is told.
pub(crate) fn uproot<C: KeyClass>(tree: &mut Store<C>, rows: &[u64], tag: u64)
    requires legal { IsLegal tree.old.commits }
    requires tagged { AreTagged tree.old.commits tag rows.now }
    ensures { Tends tag tree.old.commits tree.new.commits }
{
    for row in rows {
        let _deleted = tree.delete(*row);
    }
}

/// Sweeps the dead rows of the tree. If memory runs out some stay.
pub(crate) fn sweep<C: KeyClass>(tree: &mut Store<C>)
    ensures { tree.new.commits ≡ tree.old.commits }
{
    let _freed = tree.sweep_all();
}

/// The numbers of the live rows that have a key and a tag.
///
/// # Errors
/// `OutOfMemory`.
pub(crate) fn tagged_rows<C: Reach>(
    alloc: Global,
    tree: &Store<C>,
    key: C::Key,
    tag: u64,
) -> Result<Vec<u64>, Refusal>
    ensures ok { IfOk result (λ rows. AreTagged tree.now.commits tag rows.items) }
{
    let found = tree.find_any(&Pred::Atom(C::same(key)))?;
    let mut rows = Vec::new(alloc);
    for row in &found {
        if row.tag == tag {
            rows.push(row.row)?;
        }
    }
    Ok(rows)
}

/// Appends to a list, in any order, the tags of the tree's rows whose keys overlap the key of `touched`, if there is such
/// a row.
///
/// # Errors
/// `OutOfMemory`.
pub(crate) fn find_tags<C: Reach>(
    tree: &Store<C>,
    touched: Option<Row<C::Key>>,
    tags: &mut Vec<u64>,
) -> Result<(), Refusal>
    ensures ok { OnOk result (IsPermutation tags.new.items
        (tags.old.items ++ tags_at C.rules C.overlap_with tree.now.commits touched)) }
    ensures refused { IfErr result (λ why. why ≡ OutOfMemory) }
{
    let Some(touched) = touched else {
        return Ok(());
    };
    let query = Pred::Atom(C::overlapping(touched.key));
    let rows = tree.find_any(&query)?;
    for row in &rows {
        tags.push(row.tag)?;
    }
    Ok(())
}
