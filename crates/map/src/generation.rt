ghost use Rattle.std.specs.Prelude.{◌≡◌, ◌↔◌, ◌+◌, ◌<◌, ◌^◌, ◌++◌, ◌∷◌, [], false, length, None, IfOk, IfErr, OnOk, OnErr, Err, slice_get};
ghost use Rattle.key_class.specs.declared.refusal.Refusal.TheVariants.{BadConfig, OutOfMemory};
ghost use Rattle.key_class.specs.Refusals.{IsEither};
ghost use Rattle.change_list.specs.Configs.{IsWithinLimits};
ghost use Rattle.revisions.specs.declared.change.MapChange.TheVariants.{Put, Remove};
ghost use Rattle.revisions.specs.Maps.{AreApart, AreReal, MayChange, empty_map, entries_of, has_id, key_at, restored, revision_of, with_change};
ghost use Rattle.change_list.specs.Changes.{IsLegal, rows};
ghost use Rattle.change_list.specs.declared.write.Write.TheVariants.{Insert};
ghost use Rattle.map.specs.Generations.{TellsRows, id_of, row_of_id};
ghost use Rattle.map.specs.Kept.{map_view};
ghost use Rattle.map.specs.Refusals.{RefusesPut, RefusesRemoval, RemovesIf};

use crate::map_snapshot::MapSnapshot;
use crate::retired::Retired;
use crate::roll::Roll;
use change_list::{Config, Write};
use feed::Numbering;
use ids::Ids;
use key_class::{KeyClass, Refusal};
use revisions::{MapChange, MapEntry};
use segmented::SegmentRemains;
use std::alloc::Global;
use std::marker::Model;
use store::Store;

/// A map that is kept in one store, for as long as that has commits left. Each row's tag is the id of its entry.
#[derive(Drop)]
pub(crate) struct Generation<C: KeyClass> {
    alloc: Global,
    store: Store<C>,
    /// The number of each id's row.
    numbers: Ids,
    /// The revision at which it begins.
    oldest: u64,
    /// How many commits made the entries that it began with.
    begun: u64,
    /// How many entries there are.
    len: u64,
    /// The page to be swept next.
    page: u64,
}

impl<C: KeyClass> Model for Generation<C> {
    ghost use Rattle.revisions.specs.Maps.{MapState};
    ghost use Rattle.map.specs.Generations.{IsGeneration, map_of};

    ghost Value = { MapState C.Key };

    ghost view = { λ g. map_of g.oldest g.begun g.store.commits };

    ghost invariant = { λ g. IsGeneration g.oldest g.begun g.len g.store.commits g.numbers };
}

impl<C: KeyClass> Generation<C> {
    /// A map without entries, at a revision.
    ///
    /// # Errors
    /// `BadConfig` if a limit of the configuration is out of range, or `OutOfMemory`.
    pub(crate) fn new(
        alloc: Global,
        config: Config,
        revision: u64,
    ) -> Result<Generation<C>, Refusal>
        ensures ok { IfOk result (λ made. made ≡ empty_map revision) }
        ensures bad { (result ≡ Err BadConfig) ↔ (¬ IsWithinLimits config) }
        ensures refusals { IfErr result (IsEither BadConfig OutOfMemory) }
    {
        let store = Store::new(alloc, config)?;
        let numbers = Ids::new(alloc);
        Ok(Generation {
            alloc,
            store,
            numbers,
            oldest: revision,
            begun: 0,
            len: 0,
            page: 0,
        })
    }

    /// The oldest revision: the changes after it are known.
    pub(crate) fn oldest(&self) -> u64
        ensures is { result ≡ self.now.oldest }
        ensures real { AreReal self.now }
    {
        self.oldest
    }

    /// The last revision.
    pub(crate) fn revision(&self) -> u64
        ensures is { result ≡ revision_of self.now }
        ensures real { AreReal self.now }
    {
        self.oldest + (self.store.commits() - self.begun)
    }

    /// How many entries there are.
    pub(crate) fn len(&self) -> u64
        ensures { result ≡ length (entries_of self.now) }
    {
        self.len
    }

    /// How many commits its store has made.
    pub(crate) fn commits(&self) -> u64 {
        self.store.commits()
    }

    /// The key of an id.
    pub(crate) fn get(&self, id: u64) -> Option<C::Key>
        ensures { result ≡ key_at id (entries_of self.now) }
    {
        let Some(number) = self.numbers.get(id) else {
            return None;
        };
        let Some(row) = self.store.row(number) else {
            return None;
        };
        Some(row.key)
    }

    /// The change at a place, counted from 0.
    pub(crate) fn change(&self, place: u64) -> Option<MapChange<C::Key>>
        ensures { result ≡ slice_get self.now.changes place }
    {
        let left = self.store.commits() - self.begun;
        if place >= left {
            return None;
        }
        match self.store.commit(self.begun + place + 1) {
            Some(Write::Insert(key, id)) => Some(MapChange::Put(id, key)),
            Some(Write::Delete(row)) => Some(MapChange::Remove(id_of(&self.store, row))),
            Some(Write::Move(row, key)) => Some(MapChange::Put(id_of(&self.store, row), key)),
            None => None,
        }
    }

    /// Appends an entry to those that it begins with.
    ///
    /// # Errors
    /// As [`Store::insert`]; nothing is changed then.
    pub(crate) fn add(&mut self, entry: MapEntry<C::Key>) -> Result<(), Refusal>
        requires unchanged { self.old.changes ≡ [] }
        requires absent { has_id entry.id self.old.first ≡ false }
        ensures ok { OnOk result (self.new
            ≡ restored self.old.oldest (self.old.first ++ entry ∷ [])) }
        ensures err { OnErr result (self.new ≡ self.old) }
        ensures refusals { IfErr result RefusesPut }
    {
        insert_row(&mut self.store, &mut self.numbers, entry.id, entry.key)?;
        self.len += 1;
        self.begun = self.store.commits();
        Ok(())
    }

    /// Makes a change. An id that is to be removed has a key.
    ///
    /// # Errors
    /// As the calls of [`Store`]; nothing is changed then.
    pub(crate) fn make(&mut self, change: MapChange<C::Key>) -> Result<(), Refusal>
        requires { MayChange (entries_of self.old) change }
        ensures ok { OnOk result (self.new ≡ with_change change self.old) }
        ensures err { OnErr result (self.new ≡ self.old) }
        ensures refusals { IfErr result RefusesPut }
    {
        match change {
            MapChange::Put(id, key) => self.put(id, key),
            MapChange::Remove(id) => {
                self.remove(id)?;
                Ok(())
            }
        }
    }

    /// Puts a key under an id.
    ///
    /// # Errors
    /// As [`Store::insert`] and [`Store::move_row`]; nothing is changed then.
    pub(crate) fn put(&mut self, id: u64, key: C::Key) -> Result<(), Refusal>
        ensures ok { OnOk result (self.new ≡ with_change (Put id key) self.old) }
        ensures err { OnErr result (self.new ≡ self.old) }
        ensures refusals { IfErr result RefusesPut }
    {
        if self.revision() == u64::MAX {
            return Err(Refusal::CommitsFull);
        }
        let Some(number) = self.numbers.get(id) else {
            insert_row(&mut self.store, &mut self.numbers, id, key)?;
            self.len += 1;
            return Ok(());
        };
        let made = self.store.move_row(number, key)?;
        let Ok(_) = self.numbers.insert(id, made) else {
            unreachable!()
        };
        Ok(())
    }

    /// Removes an id's key, and returns whether it had one.
    ///
    /// # Errors
    /// As [`Store::delete`]; nothing is changed then.
    pub(crate) fn remove(&mut self, id: u64) -> Result<bool, Refusal>
        ensures had { IfOk result (λ had. had ≡ has_id id (entries_of self.old)) }
        ensures ok { IfOk result (RemovesIf id self.old self.new) }
        ensures err { OnErr result (self.new ≡ self.old) }
        ensures refusals { IfErr result RefusesRemoval }
    {
        if self.revision() == u64::MAX {
            return Err(Refusal::CommitsFull);
        }
        let Some(number) = self.numbers.get(id) else {
            return Ok(false);
        };
        self.store.delete(number)?;
        self.numbers.remove(id);
        self.len -= 1;
        Ok(true)
    }

    /// Removes the dead rows of one page, so that all pages are swept in rotation. If memory runs out, the page is
    /// swept later.
    pub(crate) fn sweep(&mut self)
        ensures { self.new ≡ self.old }
    {
        if let Ok(next) = self.store.sweep_next(self.page) {
            self.page = next;
        }
    }

    /// A snapshot of the map, with the map's identity.
    ///
    /// # Errors
    /// `OutOfMemory`.
    pub(crate) fn snapshot(&self, identity: u64) -> Result<MapSnapshot<C>, Refusal>
        ensures ok { IfOk result (λ snapshot. snapshot ≡ map_view identity self.now) }
        ensures refused { IfErr result (λ why. why ≡ OutOfMemory) }
    {
        let snapshot = self.store.snapshot()?;
        Ok(MapSnapshot {
            alloc: self.alloc,
            snapshot,
            numbering: Numbering {
                oldest: self.oldest,
                begun: self.begun,
            },
            len: self.len,
            identity,
        })
    }

    /// A roll of its entries.
    ///
    /// # Errors
    /// `OutOfMemory`.
    pub(crate) fn roll(&self) -> Result<Roll<C::Key>, Refusal>
        ensures all { IfOk result (λ roll. roll.all ≡ entries_of self.now) }
        ensures none { IfOk result (λ roll. roll.given ≡ []) }
        ensures apart { AreApart (entries_of self.now) }
        ensures refused { IfErr result (λ why. why ≡ OutOfMemory) }
    {
        let snapshot = self.store.snapshot()?;
        Ok(Roll::new(self.alloc, snapshot.into_list()))
    }

    /// Its parts, to be dropped piece by piece with the flags of its rows.
    pub(crate) fn retire(self, flags: SegmentRemains<bool>) -> Retired<C::Key> {
        Retired {
            store: self.store.into_remains(),
            numbers: self.numbers.into_remains(),
            flags,
        }
    }
}

/// The id of the row with a number, or 0 if there is none.
fn id_of<C: KeyClass>(store: &Store<C>, row: u64) -> u64
    ensures { result ≡ id_of store.now.commits row }
{
    match store.row(row) {
        Some(row) => row.tag,
        None => 0,
    }
}

/// Inserts the row of an id that has none.
///
/// # Errors
/// As [`Store::insert`]; nothing is changed then.
fn insert_row<C: KeyClass>(
    store: &mut Store<C>,
    numbers: &mut Ids,
    id: u64,
    key: C::Key,
) -> Result<(), Refusal>
    requires legal { IsLegal store.old.commits }
    requires tells { TellsRows numbers.old store.old.commits }
    requires absent { row_of_id id (rows store.old.commits) ≡ None }
    ensures ok { OnOk result (store.new.commits ≡ store.old.commits ++ Insert key id ∷ []) }
    ensures err { OnErr result (store.new.commits ≡ store.old.commits) }
    ensures few { OnOk result (length store.new.commits < 2 ^ 64) }
    ensures told { TellsRows numbers.new store.new.commits }
    ensures refusals { IfErr result RefusesPut }
{
    let Some(number) = store.commits().checked_add(1) else {
        return Err(Refusal::CommitsFull);
    };
    numbers.insert(id, number)?;
    match store.insert(key, id) {
        Ok(_) => Ok(()),
        Err(why) => {
            numbers.remove(id);
            Err(why)
        }
    }
}
