ghost use Rattle.std.specs.Prelude.{◌≡◌, ◌↔◌, ◌<◌, ◌^◌, length, Err, IfOk, IfErr, IsPermutation, OnErr, OnOk};
ghost use Rattle.key_class.specs.declared.refusal.Refusal.TheVariants.{BadConfig, OutOfMemory, FromFuture};
ghost use Rattle.key_class.specs.Refusals.{IsEither};
ghost use Rattle.key_class.specs.Queries.{query_of, depth_of};
ghost use Rattle.key_class.specs.Rules.{satisfies};
ghost use Rattle.change_list.specs.Changes.{IsLegal, commit_at, row_at, rows, status_of};
ghost use Rattle.search.specs.Sinks.{TakesAll, TakesSome};
ghost use Rattle.snapshot.specs.Finds.{AreFirst, AreWritten, live_after};
ghost use Rattle.snapshot.specs.Snapshots.{IsSnapshot, Appends, IsAfterAll, RefusesChanges, found_in};

use crate::all_rows::all_rows;
use crate::finds::{first_rows, number_of_rows, rows_in_any_order, rows_in_order, write_rows};
use crate::life::lives;
use change_list::{Item, Row, Status, View, Write, change_item, next_asked};
use key_class::limits::MAX_DEPTH;
use key_class::{KeyClass, Pred, Refusal};
use page_table::PageTable;
use search::{BoundedQuery, RowSink, Stop, find_all};
use std::alloc::Global;
use std::marker::Model;

/// A world's commits as they stood when it was made, to be searched. Later commits don't change it.
///
/// It shares pages and segments of commits with the world, which copies what it changes of them. Its calls never
/// wait.
#[derive(Drop)]
pub struct Snapshot<C: KeyClass> {
    alloc: Global,
    pages: PageTable<C::Key>,
    list: View<C::Key>,
}

impl<C: KeyClass> Model for Snapshot<C> {
    ghost use Rattle.std.specs.Prelude.{List};
    ghost use Rattle.change_list.specs.declared.write.Write.{Write};
    ghost use Rattle.snapshot.specs.Finds.{AreFirst, AreWritten, live_after};
    ghost use Rattle.snapshot.specs.Snapshots.{IsSnapshot};

    ghost Value = { List (Write C.Key) };

    ghost view = { λ s. s.list };

    ghost invariant = { λ s. IsSnapshot C.rules.is_cover s.pages s.list };
}

impl<C: KeyClass> Snapshot<C> {
    /// A snapshot of some pages and commits that agree.
    pub fn new(alloc: Global, pages: PageTable<C::Key>, list: View<C::Key>) -> Snapshot<C>
        requires { IsSnapshot C.rules.is_cover pages list }
        ensures { result ≡ list }
    {
        Snapshot { alloc, pages, list }
    }

    /// How many commits there were.
    pub fn commits(&self) -> u64
        ensures number { result ≡ length self.now }
        ensures legal { IsLegal self.now }
    {
        self.list.len() as u64
    }

    /// The commit with a number. The first has number 1.
    pub fn commit(&self, number: u64) -> Option<Write<C::Key>>
        ensures { result ≡ commit_at self.now number }
    {
        self.list.get(number)
    }

    /// The row with a number, live or dead, as its commit made it. It takes no search.
    pub fn row(&self, number: u64) -> Option<Row<C::Key>>
        ensures { result ≡ row_at self.now number }
    {
        self.list.row(number)
    }

    /// The status of the row with a number, after all commits. It reads the row's commit, and only pages of the tree
    /// whose bounds cover the row's key.
    ///
    /// # Errors
    /// `OutOfMemory`.
    pub fn status(&self, number: u64) -> Result<Status, Refusal>
        ensures ok { IfOk result (λ status. status ≡ status_of self.now number) }
        ensures refused { IfErr result (λ why. why ≡ OutOfMemory) }
    {
        let Some(made) = self.list.row(number) else {
            return Ok(Status::NeverIssued);
        };
        if lives::<C>(self.alloc, &self.pages, number as u32, made.key)? {
            Ok(Status::Live)
        } else {
            Ok(Status::Dead)
        }
    }

    /// The commits, as a list.
    pub fn list(&self) -> &View<C::Key>
        ensures { result.now ≡ self.now }
    {
        &self.list
    }

    /// Only the commits, as a list. Pages that nothing else shares are dropped.
    pub fn into_list(self) -> View<C::Key>
        ensures { result ≡ self }
    {
        let Snapshot { list, .. } = self;
        list
    }

    /// The rows that were live after its last commit, by rising number. It reads each commit twice, and no page.
    ///
    /// # Errors
    /// `OutOfMemory`.
    pub fn all_rows(&self) -> Result<Vec<Row<C::Key>>, Refusal>
        ensures ok { IfOk result (λ found. found.items ≡ rows self.now) }
        ensures refused { IfErr result (λ why. why ≡ OutOfMemory) }
    {
        let found = all_rows(self.alloc, &self.list)?;
        Ok(found)
    }

    /// The rows that were live after its last commit and match, by rising number.
    ///
    /// # Errors
    /// `BadConfig` if the query is deeper than 32, else `OutOfMemory`.
    pub fn find(&self, query: &Pred<C::Atom>) -> Result<Vec<Row<C::Key>>, Refusal>
        ensures ok { IfOk result (λ rows. rows.items ≡ found_in C.rules query.now self.now) }
        ensures depth { (result ≡ Err BadConfig) ↔ (32 < depth_of (query_of query.now)) }
        ensures refusals { IfErr result (IsEither BadConfig OutOfMemory) }
    {
        let query = BoundedQuery::new(query)?;
        let rows = rows_in_order::<C>(self.alloc, &self.pages, &query)?;
        Ok(rows)
    }

    /// The rows that were live after its last commit and match, in any order: `find` without its sort.
    ///
    /// # Errors
    /// `BadConfig` if the query is deeper than 32, else `OutOfMemory`.
    pub fn find_any(&self, query: &Pred<C::Atom>) -> Result<Vec<Row<C::Key>>, Refusal>
        ensures ok { IfOk result (λ rows. IsPermutation rows.items
            (found_in C.rules query.now self.now)) }
        ensures depth { (result ≡ Err BadConfig) ↔ (32 < depth_of (query_of query.now)) }
        ensures refusals { IfErr result (IsEither BadConfig OutOfMemory) }
    {
        let query = BoundedQuery::new(query)?;
        let rows = rows_in_any_order::<C>(self.alloc, &self.pages, &query)?;
        Ok(rows)
    }

    /// Writes the rows that were live after its last commit and match, in any order, into a slice from its first place
    /// on, as many as fit. Gives how many match. It needs no memory.
    ///
    /// # Errors
    /// `BadConfig` if the query is deeper than 32. The slice is unchanged then.
    pub fn find_into(&self, query: &Pred<C::Atom>, into: &mut [Row<C::Key>]) -> Result<u64, Refusal>
        ensures ok { IfOk result
            (AreWritten (found_in C.rules query.now self.now) into.old into.new) }
        ensures unchanged { OnErr result (into.new ≡ into.old) }
        ensures depth { (result ≡ Err BadConfig) ↔ (32 < depth_of (query_of query.now)) }
        ensures refusals { IfErr result (λ why. why ≡ BadConfig) }
    {
        let query = BoundedQuery::new(query)?;
        Ok(write_rows::<C>(&self.pages, &query, into))
    }

    /// At most `limit` of the rows that were live after its last commit and match, in any order.
    ///
    /// # Errors
    /// `BadConfig` if the query is deeper than 32, else `OutOfMemory`.
    pub fn first(&self, query: &Pred<C::Atom>, limit: usize) -> Result<Vec<Row<C::Key>>, Refusal>
        ensures ok { IfOk result (λ rows. AreFirst
            (found_in C.rules query.now self.now) limit rows.items) }
        ensures depth { (result ≡ Err BadConfig) ↔ (32 < depth_of (query_of query.now)) }
        ensures refusals { IfErr result (IsEither BadConfig OutOfMemory) }
    {
        let query = BoundedQuery::new(query)?;
        let rows = first_rows::<C>(self.alloc, &self.pages, &query, limit)?;
        Ok(rows)
    }

    /// Gives a sink the rows that were live after its last commit and match, in any order. It needs no memory but the
    /// sink's.
    ///
    /// # Errors
    /// The sink takes no more rows; it has some of them.
    pub fn search<S: RowSink<C::Key>>(
        &self,
        query: &BoundedQuery<C::Atom>,
        sink: &mut S,
    ) -> Result<(), Stop>
        ensures all { OnOk result
            (TakesAll S.takes (live_after (satisfies C.rules query.now) self.now) sink.old sink.new) }
        ensures some { OnErr result
            (TakesSome S.takes (live_after (satisfies C.rules query.now) self.now) sink.old sink.new) }
        ensures why { IfErr result (S.stops sink.new) }
        ensures few { length (live_after (satisfies C.rules query.now) self.now) < 2 ^ 64 }
    {
        find_all::<C, S>(&self.pages, query, sink)
    }

    /// How many rows were live after its last commit and match. It needs no memory.
    ///
    /// # Errors
    /// `BadConfig` if the query is deeper than 32.
    pub fn count(&self, query: &Pred<C::Atom>) -> Result<u64, Refusal>
        ensures ok { IfOk result (λ n. n ≡ length (found_in C.rules query.now self.now)) }
        ensures depth { (result ≡ Err BadConfig) ↔ (32 < depth_of (query_of query.now)) }
        ensures refusals { IfErr result (λ why. why ≡ BadConfig) }
    {
        let query = BoundedQuery::new(query)?;
        Ok(number_of_rows::<C>(&self.pages, &query))
    }

    /// Appends the matching items of the commits after `from` to a list, in commit order and at most `most` of them,
    /// and gives up to which commit they are complete: a further call goes on from there.
    ///
    /// # Errors
    /// `BadConfig` if the query is deeper than 32, else `FromFuture` if there are fewer commits than `from`, else
    /// `OutOfMemory`. The list's items are unchanged then.
    pub fn changes(
        &self,
        query: &Pred<C::Atom>,
        from: u64,
        into: &mut Vec<Item<C::Key>>,
        most: usize,
    ) -> Result<u64, Refusal>
        ensures ok { IfOk result
            (Appends C.rules query.now from most self.now into.old.items into.new.items) }
        ensures unchanged { OnErr result (into.new.items ≡ into.old.items) }
        ensures depth { (result ≡ Err BadConfig) ↔ (32 < depth_of (query_of query.now)) }
        ensures future { (result ≡ Err FromFuture)
            ↔ IsAfterAll (query_of query.now) self.now from }
        ensures refusals { IfErr result RefusesChanges }
    {
        if !query.is_within_depth(MAX_DEPTH) {
            return Err(Refusal::BadConfig);
        }
        let count = self.list.len() as u64;
        if from > count {
            return Err(Refusal::FromFuture);
        }
        let before = into.len();
        let mut upto = from;
        'passing: while upto < count && into.len() - before < most {
            let next = next_asked::<C>(&self.list, query, upto);
            if let Some(item) = change_item::<C>(&self.list, query, next) {
                let Ok(()) = into.try_reserve(1) else {
                    into.truncate(before);
                    return Err(Refusal::OutOfMemory);
                };
                into.push_reserved(item);
            }
            upto = count.min(next + 1);
        }
        Ok(upto)
    }
}
