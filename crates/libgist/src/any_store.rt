//! The calls of a store behind a handle, of any class.
ghost use Rattle.std.specs.Prelude.{◌≡◌, OnErr};
ghost use Rattle.libgist.specs.Asked.{AnswersFollowing, AnswersOpening, AnswersStanding, AnswersStats};
ghost use Rattle.libgist.specs.Calls.{Passing, IsInserting, IsDeleting, IsMovingTo, IsTaking, IsSweep, IsAsking, IsClosing};
ghost use Rattle.libgist.specs.Classes.{InStore};

use crate::by_class::{in_held, in_held_by, of_class, of_one_class};
use crate::denied::{Denied, passed_on};
use crate::figures::{Figures, ShownStanding};
use crate::held::{AnyQuery, AnyStore, Held};
use crate::stores;
use crate::words::{KeyWords, NewRow, ShownItem};
use std::alloc::Global;

/// Adds rows.
pub fn insert(held: &mut Held, rows: &[NewRow]) -> Result<u64, Denied>
    ensures { InStore (λ K A class. IsInserting class.rules class.key_of rows.now)
        held.old result held.new }
{
    in_held!(held, Store, AnyStore, store => stores::insert(store, rows))
}

/// Deletes rows.
pub fn delete(held: &mut Held, rows: &[u64]) -> Result<u64, Denied>
    ensures { InStore (λ K A class. IsDeleting class.rules rows.now) held.old result held.new }
{
    in_held!(held, Store, AnyStore, store => stores::delete(store, rows))
}

/// Moves a row.
pub fn move_row(held: &mut Held, row: u64, key: KeyWords) -> Result<u64, Denied>
    ensures { InStore (λ K A class. IsMovingTo class.rules class.key_of row key)
        held.old result held.new }
{
    in_held!(held, Store, AnyStore, store => stores::move_row(store, row, key))
}

/// Removes the dead rows that no scan needs.
pub fn sweep(held: &mut Held) -> Result<u64, Denied>
    ensures { InStore (λ K A class. Passing (IsSweep class.rules)) held.old result held.new }
{
    in_held!(held, Store, AnyStore, store => passed_on(stores::sweep(store)))
}

/// Gives the store's figures.
pub fn stats(held: &Held) -> Result<Figures, Denied>
    ensures { AnswersStats held.now result }
{
    in_held!(held, Store, AnyStore, store => stores::stats(store))
}

/// Tells where the open cursor at a place stands.
pub fn standing(held: &Held, place: u64) -> Result<ShownStanding, Denied>
    ensures { AnswersStanding place held.now result }
{
    in_held!(held, Store, AnyStore, store => stores::standing(store, place))
}

/// Gives a cursor's next items.
pub fn next(held: &mut Held, cursor: u64, items: &mut [ShownItem]) -> Result<u64, Denied>
    ensures given { InStore (λ K A class.
        Passing (IsTaking class.rules class.words_of cursor items.old items.new))
        held.old result held.new }
    ensures unfilled { OnErr result (items.new ≡ items.old) }
{
    in_held!(held, Store, AnyStore, store => passed_on(stores::next(store, cursor, items)))
}

/// Asks a cursor for a mark.
pub fn mark(held: &mut Held, cursor: u64) -> Result<(), Denied>
    ensures { InStore (λ K A class. Passing (IsAsking cursor)) held.old result held.new }
{
    in_held!(held, Store, AnyStore, store => passed_on(stores::mark(store, cursor)))
}

/// Closes a cursor.
pub fn close(held: &mut Held, cursor: u64) -> Result<(), Denied>
    ensures { InStore (λ K A class. Passing (IsClosing cursor)) held.old result held.new }
{
    in_held!(held, Store, AnyStore, store => passed_on(stores::close(store, cursor)))
}

/// Opens a cursor on a query, at the present commits.
pub fn open(alloc: Global, asked: &Held, held: &mut Held) -> Result<u64, Denied>
    ensures { AnswersOpening asked.now held.old result held.new }
{
    in_held_by!(asked, Query, AnyQuery, query, held, Store, AnyStore, store => passed_on(stores::open(alloc, store, query)))
}

/// Opens a cursor on a query, which follows a commit.
pub fn follow(alloc: Global, asked: &Held, held: &mut Held, commit: u64) -> Result<u64, Denied>
    ensures { AnswersFollowing commit asked.now held.old result held.new }
{
    in_held_by!(asked, Query, AnyQuery, query, held, Store, AnyStore, store => {
        passed_on(stores::follow(alloc, store, query, commit))
    })
}
