ghost use Rattle.std.specs.Prelude.{◌≡◌, ◌↔◌, ◌+◌, ◌-◌, ◌<◌, ◌≤◌, ◌^◌, length, map, nat_eq, Err, IfOk, IfErr, IsPermutation, OnErr};
ghost use Rattle.key_class.specs.Queries.{query_of, depth_of};
ghost use Rattle.key_class.specs.Refusals.{IsEither};
ghost use Rattle.key_class.specs.Rules.{satisfies};
ghost use Rattle.key_class.specs.declared.refusal.Refusal.TheVariants.{BadConfig, OutOfMemory};
ghost use Rattle.revisions.specs.Maps.{AreApart, entries_of, revision_of};
ghost use Rattle.feed.specs.Numberings.{MayNumber};
ghost use Rattle.map.specs.Generations.{IsMapSnapshot, entries_from, entry_of, map_of};
ghost use Rattle.map.specs.Items.{AreWithin, map_item, number_of};
ghost use Rattle.map.specs.Snapshots.{AppendsItems, AreWrittenAs, IsCompacted, IsFromFuture, RefusesChanges, found_in_map};

use crate::form::{AsIs, Form};
use change_list::{Item, Row};
use feed::Numbering;
use key_class::limits::MAX_DEPTH;
use key_class::{KeyClass, Pred, Refusal};
use revisions::{MapEntry, MapItem};
use search::{BoundedQuery, RowForm, Slots};
use snapshot::Snapshot;
use std::alloc::{AllocError, Global};
use std::marker::{Model, PhantomData};

/// A map as it was when the snapshot was taken; later changes of the map don't change it. Any number of threads can
/// search it without a lock.
#[derive(Drop)]
pub struct MapSnapshot<C: KeyClass> {
    pub(crate) alloc: Global,
    pub(crate) snapshot: Snapshot<C>,
    pub(crate) numbering: Numbering,
    pub(crate) len: u64,
    pub(crate) identity: u64,
}

impl<C: KeyClass> Model for MapSnapshot<C> {
    ghost use Rattle.map.specs.Generations.{IsMapSnapshot, map_of};
    ghost use Rattle.map.specs.Kept.{MapView, map_view};

    ghost Value = { MapView C.Key };

    ghost view = { λ s. map_view s.identity
        (map_of s.numbering.oldest s.numbering.begun s.snapshot) };

    ghost invariant = { λ s. IsMapSnapshot s.numbering.oldest s.numbering.begun s.len
        s.snapshot };
}

impl<C: KeyClass> MapSnapshot<C> {
    /// The last revision.
    pub fn revision(&self) -> u64
        ensures { result ≡ revision_of self.now.map }
    {
        self.numbering.oldest + (self.snapshot.commits() - self.numbering.begun)
    }

    /// The oldest revision: the changes after it are known.
    pub fn oldest(&self) -> u64
        ensures { result ≡ self.now.map.oldest }
    {
        self.numbering.oldest
    }

    /// The identity of its map.
    pub fn identity(&self) -> u64
        ensures { result ≡ self.now.identity }
    {
        self.identity
    }

    /// How many entries there are.
    pub fn len(&self) -> u64
        ensures { result ≡ length (entries_of self.now.map) }
    {
        self.len
    }

    /// Whether there is no entry.
    pub fn is_empty(&self) -> bool
        ensures { result ≡ nat_eq (length (entries_of self.now.map)) 0 }
    {
        self.len() == 0
    }

    /// All entries, in the order of their last put. `Map::restore` makes the map again of these and `revision`. It
    /// reads each commit of the store twice.
    ///
    /// # Errors
    /// `OutOfMemory`.
    pub fn entries(&self) -> Result<Vec<MapEntry<C::Key>>, Refusal>
        ensures ok { IfOk result (λ all. all.items ≡ entries_of self.now.map) }
        ensures apart { AreApart (entries_of self.now.map) }
        ensures refused { IfErr result (λ why. why ≡ OutOfMemory) }
    {
        let rows = self.snapshot.all_rows()?;
        Ok(as_entries(self.alloc, &rows)?)
    }

    /// The entries that match, in the order of their last put.
    ///
    /// # Errors
    /// `BadConfig` if the query is deeper than 32, else `OutOfMemory`.
    pub fn find(&self, query: &Pred<C::Atom>) -> Result<Vec<MapEntry<C::Key>>, Refusal>
        ensures ok { IfOk result (λ found. found.items
            ≡ found_in_map C.rules query.now self.now.map) }
        ensures depth { (result ≡ Err BadConfig) ↔ (32 < depth_of (query_of query.now)) }
        ensures refusals { IfErr result (IsEither BadConfig OutOfMemory) }
    {
        let rows = self.snapshot.find(query)?;
        Ok(as_entries(self.alloc, &rows)?)
    }

    /// The entries that match, in any order: `find` without its sort.
    ///
    /// # Errors
    /// `BadConfig` if the query is deeper than 32, else `OutOfMemory`.
    pub fn find_any(&self, query: &Pred<C::Atom>) -> Result<Vec<MapEntry<C::Key>>, Refusal>
        ensures ok { IfOk result (λ found. IsPermutation found.items
            (found_in_map C.rules query.now self.now.map)) }
        ensures depth { (result ≡ Err BadConfig) ↔ (32 < depth_of (query_of query.now)) }
        ensures refusals { IfErr result (IsEither BadConfig OutOfMemory) }
    {
        let rows = self.snapshot.find_any(query)?;
        Ok(as_entries(self.alloc, &rows)?)
    }

    /// Writes the entries that match, in any order, into a slice from its first place on, as many as fit. Returns
    /// how many match. It allocates nothing.
    ///
    /// # Errors
    /// `BadConfig` if the query is deeper than 32. The slice is unchanged then.
    pub fn find_into(
        &self,
        query: &Pred<C::Atom>,
        into: &mut [MapEntry<C::Key>],
    ) -> Result<u64, Refusal>
        ensures ok { IfOk result (AreWrittenAs (λ entry. entry)
            (found_in_map C.rules query.now self.now.map) into.old into.new) }
        ensures unchanged { OnErr result (into.new ≡ into.old) }
        ensures depth { (result ≡ Err BadConfig) ↔ (32 < depth_of (query_of query.now)) }
        ensures refusals { IfErr result (λ why. why ≡ BadConfig) }
    {
        self.find_as::<MapEntry<C::Key>, AsIs>(query, into)
    }

    /// Writes the entries that match, in any order and in a form, into a slice from its first place on, as many as fit.
    /// Returns how many match. It allocates nothing.
    ///
    /// # Errors
    /// `BadConfig` if the query is deeper than 32. The slice is unchanged then.
    pub fn find_as<T: Copy, F: Form<MapEntry<C::Key>, T>>(
        &self,
        query: &Pred<C::Atom>,
        into: &mut [T],
    ) -> Result<u64, Refusal>
        ensures ok { IfOk result (AreWrittenAs F.form_of
            (found_in_map C.rules query.now self.now.map) into.old into.new) }
        ensures unchanged { OnErr result (into.new ≡ into.old) }
        ensures depth { (result ≡ Err BadConfig) ↔ (32 < depth_of (query_of query.now)) }
        ensures refusals { IfErr result (λ why. why ≡ BadConfig) }
    {
        let query = BoundedQuery::new(query)?;
        let mut slots = Slots::<T, EntryAs<F>> {
            places: into,
            filled: 0,
            found: 0,
            form: PhantomData,
        };
        let _never_stops = self.snapshot.search(&query, &mut slots);
        Ok(slots.total())
    }

    /// How many entries match. It allocates nothing.
    ///
    /// # Errors
    /// `BadConfig` if the query is deeper than 32.
    pub fn count(&self, query: &Pred<C::Atom>) -> Result<u64, Refusal>
        ensures ok { IfOk result (λ n. n ≡ length (found_in_map C.rules query.now self.now.map)) }
        ensures depth { (result ≡ Err BadConfig) ↔ (32 < depth_of (query_of query.now)) }
        ensures refusals { IfErr result (λ why. why ≡ BadConfig) }
    {
        self.snapshot.count(query)
    }

    /// Appends the items of the revisions after `from` to a list, in their order and at most `most` of them. Returns
    /// the revision up to which they are complete: a further call goes on from there.
    ///
    /// # Errors
    /// `BadConfig` if the query is deeper than 32, else `Compacted` if `from` is before the oldest revision, else
    /// `FromFuture` if it is after the last, else `OutOfMemory`. The list's items are unchanged then.
    pub fn changes(
        &self,
        query: &Pred<C::Atom>,
        from: u64,
        into: &mut Vec<MapItem<C::Key>>,
        most: usize,
    ) -> Result<u64, Refusal>
        ensures ok { IfOk result (AppendsItems (satisfies C.rules (query_of query.now)) from most
            self.now.map into.old.items into.new.items) }
        ensures unchanged { OnErr result (into.new.items ≡ into.old.items) }
        ensures depth { (result ≡ Err BadConfig) ↔ (32 < depth_of (query_of query.now)) }
        ensures compacted { (result ≡ Err Refusal.Compacted)
            ↔ IsCompacted (query_of query.now) self.now.map from }
        ensures future { (result ≡ Err Refusal.FromFuture)
            ↔ IsFromFuture (query_of query.now) self.now.map from }
        ensures refusals { IfErr result RefusesChanges }
    {
        if !query.is_within_depth(MAX_DEPTH) {
            return Err(Refusal::BadConfig);
        }
        if from < self.numbering.oldest {
            return Err(Refusal::Compacted);
        }
        if from > self.revision() {
            return Err(Refusal::FromFuture);
        }
        // states that the number of commits is in range
        let _last = self.snapshot.commits();
        let mut items = Vec::new(self.alloc);
        let first = self.numbering.begun + (from - self.numbering.oldest);
        // The query and the revision were tested, so that only memory can have run out.
        let Ok(upto) = self.snapshot.changes(query, first, &mut items, most) else {
            return Err(Refusal::OutOfMemory);
        };
        let given = map_items(self.alloc, &self.snapshot, self.numbering, &items)?;
        into.extend_from_slice(&given)?;
        Ok(self.numbering.oldest + (upto - self.numbering.begun))
    }
}

/// The form of entries, in which rows are written.
struct AsEntry;

impl<K> RowForm<K, MapEntry<K>> for AsEntry {
    ghost form_of = { entry_of };

    fn form(row: Row<K>) -> MapEntry<K>
        ensures { result ≡ entry_of row }
    {
        MapEntry {
            id: row.tag,
            key: row.key,
        }
    }
}

/// The forms of entries, in which rows are written.
struct EntryAs<F> {
    form: PhantomData<F>,
}

impl<K, T, F: Form<MapEntry<K>, T>> RowForm<K, T> for EntryAs<F> {
    ghost form_of = { λ row. F.form_of (entry_of row) };

    fn form(row: Row<K>) -> T
        ensures { result ≡ F.form_of (entry_of row) }
    {
        F::form(AsEntry::form(row))
    }
}

/// The entries of rows.
///
/// # Errors
/// Memory ran out.
fn as_entries<K: Copy>(alloc: Global, rows: &[Row<K>]) -> Result<Vec<MapEntry<K>>, AllocError>
    ensures { IfOk result (λ entries. entries.items ≡ entries_from rows.now) }
{
    rows.iter().map(|row| AsEntry::form(*row)).collect(alloc)
}

/// The map's items for items of the store.
///
/// # Errors
/// Memory ran out.
fn map_items<C: KeyClass>(
    alloc: Global,
    snapshot: &Snapshot<C>,
    numbering: Numbering,
    items: &[Item<C::Key>],
) -> Result<Vec<MapItem<C::Key>>, AllocError>
    requires numbers { AreWithin (length snapshot.now) items.now }
    requires numbered { MayNumber numbering snapshot.now }
    ensures { IfOk result (λ given. given.items
        ≡ map (map_item numbering.oldest numbering.begun snapshot.now) items.now) }
{
    let mut given = Vec::with_capacity(alloc, items.len())?;
    'renumbering: for item in items {
        given.push(map_item(snapshot, numbering, *item))?;
    }
    Ok(given)
}

/// The map's item for an item of the store.
pub(crate) fn map_item<C: KeyClass>(
    snapshot: &Snapshot<C>,
    numbering: Numbering,
    item: Item<C::Key>,
) -> MapItem<C::Key>
    requires number { number_of item ≤ length snapshot.now }
    requires numbered { MayNumber numbering snapshot.now }
    ensures { result ≡ map_item numbering.oldest numbering.begun snapshot.now item }
{
    match item {
        Item::Inserted(row) | Item::Row(row) => {
            MapItem::Entered(revision_at(numbering, row.row), row.tag, row.key)
        }
        Item::Moved(row, _) => MapItem::Moved(revision_at(numbering, row.row), row.tag, row.key),
        Item::Deleted(number, row) => {
            let id = match snapshot.row(row) {
                Some(row) => row.tag,
                None => 0,
            };
            MapItem::Left(revision_at(numbering, number), id)
        }
        Item::Mark(number) => MapItem::Left(revision_at(numbering, number), 0),
    }
}

/// The revision that a commit makes; for a first commit it is the oldest.
fn revision_at(numbering: Numbering, commit: u64) -> u64
    requires { numbering.oldest + (commit - numbering.begun) < 2 ^ 64 }
    ensures { result ≡ numbering.oldest + (commit - numbering.begun) }
{
    numbering.oldest + commit.saturating_sub(numbering.begun)
}
