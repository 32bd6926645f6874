ghost use Rattle.std.specs.Prelude.{◌≡◌, ◌++◌, ◌≤◌, filter, map, max, nat_lt, IfErr, IfOk, OnOk};
ghost use Rattle.std.specs.List.{list_any};
ghost use Rattle.key_class.specs.Queries.{query_of};
ghost use Rattle.key_class.specs.Rules.{satisfies};
ghost use Rattle.key_class.specs.declared.refusal.Refusal.TheVariants.{OutOfMemory};
ghost use Rattle.change_list.specs.Changes.{changes};
ghost use Rattle.feed.specs.Asking.{under};
ghost use Rattle.feed.specs.Numberings.{MayNumber, commit_of, last_revision};

use crate::numbering::Numbering;
use change_list::{Item, change_item};
use key_class::{KeyClass, Pred, Refusal};
use snapshot::Snapshot;
use std::alloc::Global;
use std::collections::BTreeMap;
use std::ops::Bound;

/// A subscription, as the feed keeps it.
#[derive(Drop)]
pub(crate) struct Registration<A> {
    pub(crate) query: Pred<A>,
    /// The revision after which it asks for changes.
    pub(crate) from: u64,
    /// The number of its query's topic.
    pub(crate) topic: usize,
}

/// Appends the changes of a subscription's query to a list, under its serial: those after the revision from which it
/// subscribed, or after the oldest one, up to another.
///
/// # Errors
/// `OutOfMemory`.
pub(crate) fn tell_since<C: KeyClass>(
    serial: u64,
    registration: &Registration<C::Atom>,
    snapshot: &Snapshot<C>,
    numbering: Numbering,
    upto: u64,
    told: &mut Vec<(u64, Item<C::Key>)>,
) -> Result<(), Refusal>
    requires numbered { MayNumber numbering snapshot.now }
    requires within { upto ≤ last_revision numbering snapshot.now }
    ensures ok { OnOk result (told.new.items ≡ told.old.items ++ under serial
        (changes (satisfies C.rules (query_of registration.now.query))
        (commit_of numbering registration.now.from)
        (commit_of numbering (max registration.now.from upto)) snapshot.now)) }
    ensures refused { IfErr result (λ why. why ≡ OutOfMemory) }
{
    for revision in registration.from.max(numbering.oldest)..upto {
        let place = numbering.place_after(snapshot, revision);
        if let Some(item) = change_item::<C>(snapshot.list(), &registration.query, place) {
            told.push((serial, item))?;
        }
    }
    Ok(())
}

/// Whether some subscription with a serial after `passed` asks for changes after a revision before `oldest`.
pub(crate) fn any_before<A>(
    registrations: &BTreeMap<u64, Registration<A>>,
    passed: u64,
    oldest: u64,
) -> bool
    ensures { result ≡ list_any (λ s. nat_lt s.1.from oldest)
        (filter (λ s. nat_lt passed s.0) registrations.now.entries) }
{
    for (_, registration) in registrations.range((Bound::Excluded(passed), Bound::Unbounded)) {
        if registration.from < oldest {
            return true;
        }
    }
    false
}

/// The serials of those subscriptions, rising.
///
/// # Errors
/// `OutOfMemory`.
pub(crate) fn serials_before<A>(
    alloc: Global,
    registrations: &BTreeMap<u64, Registration<A>>,
    passed: u64,
    oldest: u64,
) -> Result<Vec<u64>, Refusal>
    ensures ok { IfOk result (λ serials. serials.items ≡ map (λ s. s.0)
        (filter (λ s. nat_lt s.1.from oldest)
        (filter (λ s. nat_lt passed s.0) registrations.now.entries))) }
    ensures refused { IfErr result (λ why. why ≡ OutOfMemory) }
{
    let mut serials = Vec::new(alloc);
    for (serial, registration) in registrations.range((Bound::Excluded(passed), Bound::Unbounded)) {
        if registration.from < oldest {
            serials.push(*serial)?;
        }
    }
    Ok(serials)
}
