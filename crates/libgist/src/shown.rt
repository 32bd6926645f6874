//! Rows, items and commits, in the layout that C reads.
ghost use Rattle.std.specs.Prelude.{◌≡◌};
ghost use Rattle.libgist.specs.Shown.{shown, shown_row, shown_with, shown_write, ended_in, ended_by};

use crate::crossing::Crossing;
use crate::words::{KeyWords, ShownItem, ShownRow};
use change_list::{Item, Row, Write};
use map::Form;
use search::RowForm;
use std::marker::PhantomData;

/// The kind of nothing: no item, no commit.
const NOTHING: u32 = 0;

/// The kind of a row of a snapshot.
const ROW: u32 = 1;

/// The kind of a row that was inserted.
const INSERTED: u32 = 2;

/// The kind of a row that was deleted.
const DELETED: u32 = 3;

/// The kind of a row that was moved.
const MOVED: u32 = 4;

/// The kind of a mark.
const MARK: u32 = 5;

/// A row, in the layout that C reads.
pub fn row<C: Crossing>(row: Row<C::Key>) -> ShownRow
    ensures { result ≡ shown_row C.words_of row }
{
    ShownRow {
        row: row.row,
        tag: row.tag,
        key: C::words(row.key),
    }
}

/// Rows in the layout that C reads.
pub struct AsShown<C> {
    of: PhantomData<C>,
}

impl<C: Crossing> Form<Row<C::Key>, ShownRow> for AsShown<C> {
    ghost form_of = { shown_row C.words_of };

    fn form(row: Row<C::Key>) -> ShownRow
        ensures { result ≡ shown_row C.words_of row }
    {
        self::row::<C>(row)
    }
}

impl<C: Crossing> RowForm<C::Key, ShownRow> for AsShown<C> {
    ghost form_of = { shown_row C.words_of };

    fn form(row: Row<C::Key>) -> ShownRow
        ensures { result ≡ shown_row C.words_of row }
    {
        self::row::<C>(row)
    }
}

/// An item of a kind, with the key and the tag of a row, or zeros.
fn told<C: Crossing>(kind: u32, number: u64, ended: u64, row: Option<Row<C::Key>>) -> ShownItem
    ensures { result ≡ shown C.words_of kind number ended row }
{
    match row {
        Some(row) => ShownItem {
            kind,
            number,
            ended,
            tag: row.tag,
            key: C::words(row.key),
        },
        None => ShownItem {
            kind,
            number,
            ended,
            tag: 0,
            key: KeyWords {
                first: 0,
                second: 0,
            },
        },
    }
}

/// The number of the row that a `Deleted` item names; 0 for any other item.
pub fn ended_in<C: Crossing>(item: &Item<C::Key>) -> u64
    ensures { result ≡ ended_in C.words_of item.now }
{
    match item {
        Item::Deleted(_, ended) => *ended,
        _ => 0,
    }
}

/// An item, in the layout that C reads. `former` is the row whose end it tells, if that is needed.
pub fn item<C: Crossing>(item: Item<C::Key>, former: Option<Row<C::Key>>) -> ShownItem
    ensures { result ≡ shown_with C.words_of former item }
{
    match item {
        Item::Row(row) => told::<C>(ROW, row.row, 0, Some(row)),
        Item::Inserted(row) => told::<C>(INSERTED, row.row, 0, Some(row)),
        Item::Deleted(number, ended) => told::<C>(DELETED, number, ended, former),
        Item::Moved(row, ended) => told::<C>(MOVED, row.row, ended, Some(row)),
        Item::Mark(number) => told::<C>(MARK, number, 0, None),
    }
}

/// The number of the row that a delete ended; 0 for any other commit.
pub fn ended_by<C: Crossing>(write: Option<Write<C::Key>>) -> u64
    ensures { result ≡ ended_by C.words_of write }
{
    match write {
        Some(Write::Delete(ended)) => ended,
        _ => 0,
    }
}

/// The commit with a number, by the row that it made and the row that it ended; kind 0 if there is none.
pub fn commit<C: Crossing>(
    number: u64,
    made: Option<Row<C::Key>>,
    former: Option<Row<C::Key>>,
    write: Option<Write<C::Key>>,
) -> ShownItem
    ensures { result ≡ shown_write C.words_of number made former write }
{
    match write {
        None => told::<C>(NOTHING, 0, 0, None),
        Some(Write::Insert(_, _)) => told::<C>(INSERTED, number, 0, made),
        Some(Write::Delete(ended)) => told::<C>(DELETED, number, ended, former),
        Some(Write::Move(ended, _)) => told::<C>(MOVED, number, ended, made),
    }
}
