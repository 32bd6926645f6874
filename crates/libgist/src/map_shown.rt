//! Entries and items of maps, in the layout that C reads.
ghost use Rattle.std.specs.Prelude.{◌≡◌};
ghost use Rattle.libgist.specs.MapShown.{key_shown, shown_entry, shown_map_item, told_map_item};

use crate::crossing::Crossing;
use crate::words::{KeyWords, ShownEntry, ShownMapItem, ToldMapItem};
use map::{Form, MapEntry, MapItem};
use std::marker::PhantomData;

/// The kind of an entry that matches now, and didn't before.
const ENTERED: u32 = 1;

/// The kind of an entry that matches now, as it did before.
const MOVED: u32 = 2;

/// The kind of an entry that matched before, and doesn't now.
const LEFT: u32 = 3;

/// The words where there is no key.
const NO_WORDS: KeyWords = KeyWords {
    first: 0,
    second: 0,
};

/// A key, or zeros, and whether there is one.
pub fn key<C: Crossing>(key: Option<C::Key>) -> (KeyWords, bool)
    ensures { result ≡ key_shown C.words_of key }
{
    match key {
        Some(key) => (C::words(key), true),
        None => (NO_WORDS, false),
    }
}

/// Entries in the layout that C reads.
pub struct AsShownEntry<C> {
    of: PhantomData<C>,
}

impl<C: Crossing> Form<MapEntry<C::Key>, ShownEntry> for AsShownEntry<C> {
    ghost form_of = { shown_entry C.words_of };

    fn form(entry: MapEntry<C::Key>) -> ShownEntry
        ensures { result ≡ shown_entry C.words_of entry }
    {
        ShownEntry {
            id: entry.id,
            key: C::words(entry.key),
        }
    }
}

/// Items in the layout that C reads.
pub struct AsShownMapItem<C> {
    of: PhantomData<C>,
}

impl<C: Crossing> Form<MapItem<C::Key>, ShownMapItem> for AsShownMapItem<C> {
    ghost form_of = { shown_map_item C.words_of };

    fn form(item: MapItem<C::Key>) -> ShownMapItem
        ensures { result ≡ shown_map_item C.words_of item }
    {
        match item {
            MapItem::Entered(revision, id, key) => ShownMapItem {
                kind: ENTERED,
                revision,
                id,
                key: C::words(key),
            },
            MapItem::Moved(revision, id, key) => ShownMapItem {
                kind: MOVED,
                revision,
                id,
                key: C::words(key),
            },
            MapItem::Left(revision, id) => ShownMapItem {
                kind: LEFT,
                revision,
                id,
                key: NO_WORDS,
            },
        }
    }
}

/// Items for subscriptions in the layout that C reads.
pub struct AsToldMapItem<C> {
    of: PhantomData<C>,
}

impl<C: Crossing> Form<(u64, MapItem<C::Key>), ToldMapItem> for AsToldMapItem<C> {
    ghost form_of = { told_map_item C.words_of };

    fn form(told: (u64, MapItem<C::Key>)) -> ToldMapItem
        ensures { result ≡ told_map_item C.words_of told }
    {
        ToldMapItem {
            serial: told.0,
            item: AsShownMapItem::<C>::form(told.1),
        }
    }
}
