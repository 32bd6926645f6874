ghost use Rattle.std.specs.Prelude.{◌≡◌, ◌≢◌, ◌++◌, [], ◌∷◌, ℕ, IfErr, None, OnErr, OnOk, Some};
ghost use Rattle.std.specs.Bool.{OnFalse, OnTrue};
ghost use Rattle.key_class.specs.declared.refusal.Refusal.TheVariants.{OutOfMemory};
ghost use Rattle.feed.specs.Feeds.{items_under};
ghost use Rattle.feed.specs.Listening.{ChangesBegin, begin_of, item_to, told_after};

use change_list::Item;
use key_class::Refusal;
use std::alloc::Global;
use std::collections::BTreeMap;
use std::marker::Model;

/// A subscription that listens to a query.
#[derive(Clone, Copy)]
struct Listener {
    serial: u64,
    /// The revision after which it asks for items.
    from: u64,
}

/// The subscriptions that listen to a query, by serial. There is always at least one: the first is kept inline, so that
/// a query with one listener needs no map entry.
#[derive(Drop)]
pub(crate) struct Listeners {
    first: Listener,
    /// All others: for each serial the revision after which it asks for items.
    others: BTreeMap<u64, u64>,
}

impl Model for Listeners {
    ghost use Rattle.std.specs.Prelude.{◌∷◌, ℕ, List};
    ghost use Rattle.feed.specs.Listening.{AreApart};

    ghost Value = { List (ℕ × ℕ) };

    ghost view = { λ l. (l.first.serial, l.first.from) ∷ l.others.entries };

    ghost invariant = { λ l. AreApart l.first.serial l.others.entries };
}

impl Listeners {
    /// A single listener.
    pub(crate) fn alone(alloc: Global, serial: u64, from: u64) -> Listeners
        ensures { result ≡ (serial, from) ∷ [] }
    {
        Listeners {
            first: Listener { serial, from },
            others: BTreeMap::new(alloc),
        }
    }

    /// Adds a listener.
    ///
    /// # Errors
    /// `OutOfMemory`.
    pub(crate) fn insert(&mut self, serial: u64, from: u64) -> Result<(), Refusal>
        ensures ok { OnOk result (ChangesBegin self.old serial (Some from) self.new) }
        ensures err { OnErr result (self.new ≡ self.old) }
        ensures refused { IfErr result (λ why. why ≡ OutOfMemory) }
    {
        if serial == self.first.serial {
            self.first.from = from;
        } else {
            self.others.insert(serial, from)?;
        }
        Ok(())
    }

    /// Removes a listener, unless it is the only one. False if it is the only one.
    pub(crate) fn remove(&mut self, serial: u64) -> bool
        ensures left { OnTrue result (ChangesBegin self.old serial None self.new) }
        ensures only { OnFalse result ((other : ℕ) → other ≢ serial
            → begin_of self.old other ≡ None) }
    {
        if serial != self.first.serial {
            let _from = self.others.remove(&serial);
            return true;
        }
        let Some((serial, from)) = self.others.pop_first() else {
            return false;
        };
        self.first = Listener { serial, from };
        true
    }

    /// Appends the item of a revision to a list, for each listener that asks for items after an earlier revision.
    ///
    /// # Errors
    /// `OutOfMemory`.
    pub(crate) fn tell<K: Copy>(
        &self,
        number: u64,
        item: Item<K>,
        told: &mut Vec<(u64, Item<K>)>,
    ) -> Result<(), Refusal>
        ensures ok { OnOk result (told.new.items ≡ told.old.items
            ++ item_to number item self.now) }
        ensures once { OnOk result ((serial : ℕ)
            → items_under serial (item_to number item self.now)
            ≡ told_after number item (begin_of self.now serial)) }
        ensures refused { IfErr result (λ why. why ≡ OutOfMemory) }
    {
        if self.first.from < number {
            told.push((self.first.serial, item))?;
        }
        for (serial, from) in &self.others {
            if *from < number {
                told.push((*serial, item))?;
            }
        }
        Ok(())
    }
}
