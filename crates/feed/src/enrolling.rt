ghost use Rattle.std.specs.Prelude.{◌≡◌, IfOk, IfErr, OnErr, OnOk, option_map, vec_items};
ghost use Rattle.key_class.specs.Queries.{query_of};
ghost use Rattle.key_class.specs.declared.refusal.Refusal.TheVariants.{OutOfMemory};
ghost use Rattle.change_list.specs.Changes.{IsLegal};
ghost use Rattle.feed.specs.Holding.{IsEnrolled, MayBeRooted};
ghost use Rattle.feed.specs.Planting.{Tends};

use crate::queries::reaches;
use crate::reach::Reach;
use crate::tree::{plant, tagged_rows, uproot};
use key_class::{Pred, Refusal};
use std::alloc::Global;
use std::collections::BTreeSet;
use store::Store;

/// Registers a topic, so that each commit that may concern its query finds it: with rows in the tree that have the
/// topic's number as their tag. If any key may satisfy the query, or the tree is full, the topic is put among those
/// that every commit asks instead.
///
/// # Errors
/// `OutOfMemory`. `always` is then unchanged; some rows may stay in the tree.
pub(crate) fn enrol<C: Reach>(
    alloc: Global,
    tree: &mut Store<C>,
    always: &mut BTreeSet<u64>,
    query: &Pred<C::Atom>,
    number: u64,
) -> Result<(), Refusal>
    requires legal { IsLegal tree.old.commits }
    ensures tends { Tends number tree.old.commits tree.new.commits }
    ensures ok { OnOk result (IsEnrolled C.reach_of C.rules.size_of tree.new.commits
        (query_of query.now) number always.old.keys always.new.keys) }
    ensures err { OnErr result (always.new.keys ≡ always.old.keys) }
    ensures refused { IfErr result (λ why. why ≡ OutOfMemory) }
{
    if plant_query(alloc, tree, query, number)?.is_none() {
        always.insert(number)?;
    }
    Ok(())
}

/// Puts a row into the tree for each key under which a query is looked for, with the topic's number as the tag, and
/// gives the numbers of the rows. `None` if any key may satisfy the query, or the tree is full.
///
/// # Errors
/// `OutOfMemory`. Some rows may stay in the tree.
fn plant_query<C: Reach>(
    alloc: Global,
    tree: &mut Store<C>,
    query: &Pred<C::Atom>,
    number: u64,
) -> Result<Option<Vec<u64>>, Refusal>
    requires legal { IsLegal tree.old.commits }
    ensures tends { Tends number tree.old.commits tree.new.commits }
    ensures ok { IfOk result (λ rows. MayBeRooted C.reach_of C.rules.size_of tree.new.commits
        (query_of query.now) number (option_map vec_items rows)) }
    ensures refused { IfErr result (λ why. why ≡ OutOfMemory) }
{
    let Some(keys) = reaches::<C>(alloc, query)? else {
        return Ok(None);
    };
    plant(alloc, tree, &keys, number)
}

/// Removes the rows of a topic's query from the tree. If memory runs out some may stay: commits then look at them in
/// vain, but nothing more is told.
pub(crate) fn uproot_query<C: Reach>(
    alloc: Global,
    tree: &mut Store<C>,
    query: &Pred<C::Atom>,
    number: u64,
)
    requires legal { IsLegal tree.old.commits }
    ensures { Tends number tree.old.commits tree.new.commits }
{
    let Ok(Some(keys)) = reaches::<C>(alloc, query) else {
        return;
    };
    for key in &keys {
        uproot_key(alloc, tree, *key, number);
    }
}

/// Removes the rows of a topic under one key from the tree. If memory runs out some may stay.
fn uproot_key<C: Reach>(alloc: Global, tree: &mut Store<C>, key: C::Key, number: u64)
    requires legal { IsLegal tree.old.commits }
    ensures { Tends number tree.old.commits tree.new.commits }
{
    let Ok(rows) = tagged_rows(alloc, tree, key, number) else {
        return;
    };
    uproot(tree, &rows, number);
}
