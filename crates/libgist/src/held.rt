//! What a handle may own, of any class.
use crate::following::Following;
use crate::map_following::MapFollowing;
use box_class::Boxes;
use interval_class::Intervals;
use key_class::Pred;
use map::{Map, MapSnapshot};
use set_class::Sets;
use snapshot::Snapshot;
use store::Store;

/// A store of one of the classes.
#[derive(Drop)]
pub enum AnyStore {
    Intervals(Store<Intervals>),
    Boxes(Store<Boxes>),
    Sets(Store<Sets>),
}

/// A snapshot of a store of one of the classes.
#[derive(Drop)]
pub enum AnySnapshot {
    Intervals(Snapshot<Intervals>),
    Boxes(Snapshot<Boxes>),
    Sets(Snapshot<Sets>),
}

/// A query for one of the classes.
#[derive(Drop)]
pub enum AnyQuery {
    Intervals(Pred<interval_class::Atom>),
    Boxes(Pred<box_class::Atom>),
    Sets(Pred<set_class::Atom>),
}

/// A feed of one of the classes.
#[derive(Drop)]
pub enum AnyFeed {
    Intervals(Following<Intervals>),
    Boxes(Following<Boxes>),
    Sets(Following<Sets>),
}

/// A map with keys of one of the classes.
#[derive(Drop)]
pub enum AnyMap {
    Intervals(Map<Intervals>),
    Boxes(Map<Boxes>),
    Sets(Map<Sets>),
}

/// A snapshot of a map with keys of one of the classes.
#[derive(Drop)]
pub enum AnyMapSnapshot {
    Intervals(MapSnapshot<Intervals>),
    Boxes(MapSnapshot<Boxes>),
    Sets(MapSnapshot<Sets>),
}

/// A feed of a map with keys of one of the classes.
#[derive(Drop)]
pub enum AnyMapFeed {
    Intervals(MapFollowing<Intervals>),
    Boxes(MapFollowing<Boxes>),
    Sets(MapFollowing<Sets>),
}

/// What a handle owns.
#[derive(Drop)]
pub enum Held {
    Store(AnyStore),
    Snapshot(AnySnapshot),
    Query(AnyQuery),
    Feed(AnyFeed),
    Map(AnyMap),
    MapSnapshot(AnyMapSnapshot),
    MapFeed(AnyMapFeed),
}
