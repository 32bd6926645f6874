ghost use Rattle.std.specs.Prelude.{◌≡◌, ◌↔◌, ◌+◌, ◌<◌, ◌≤◌, length, is_some, nat_eq, Err, IfOk, IfErr, IfSome, OnOk, OnErr};
ghost use Rattle.key_class.specs.declared.refusal.Refusal.TheVariants.{BadConfig, OutOfMemory};
ghost use Rattle.key_class.specs.Refusals.{IsEither};
ghost use Rattle.revisions.specs.declared.change.MapChange.TheVariants.{Put, Remove};
ghost use Rattle.revisions.specs.Maps.{AreApart, entries_of, has_id, key_at, restored, revision_of};
ghost use Rattle.map.specs.Configs.{IsBadMap, IsMapConfig};
ghost use Rattle.map.specs.Kept.{Changes, ChangesIf, ForgetsOnly, kept_map, map_view, new_map};
ghost use Rattle.map.specs.Refusals.{RefusesPut, RefusesRemoval, RefusesRestoring};
ghost use Rattle.map.specs.Successors.{IsSuccessor};

use crate::config::MapConfig;
use crate::generation::Generation;
use crate::map_snapshot::MapSnapshot;
use crate::retired::Retired;
use crate::successor::Successor;
use key_class::{KeyClass, Refusal};
use revisions::MapEntry;
use std::alloc::Global;
use std::marker::Model;
use std::mem;

/// How many steps for the next generation each change does in addition to its own work.
const STEPS: u32 = 4;

/// The least number of commits after which a generation is replaced, unless half of the store's limit is lower.
const MIN_COMMITS: u64 = 65_536;

/// A map from ids to keys.
///
/// Each change makes a revision, and revisions never reset. The map keeps its last changes, at least as many as its
/// configuration's history.
#[derive(Drop)]
pub struct Map<C: KeyClass> {
    alloc: Global,
    config: MapConfig,
    present: Generation<C>,
    next: Option<Successor<C>>,
    /// What is left of the generation before the present one.
    retired: Option<Retired<C::Key>>,
}

impl<C: KeyClass> Model for Map<C> {
    ghost use Rattle.std.specs.Prelude.{option_map};
    ghost use Rattle.map.specs.Kept.{KeptMap, IsKept, kept_map};

    ghost Value = { KeptMap C.Key };

    ghost view = { λ m. kept_map m.config m.present };

    ghost invariant = { λ m. IsKept m.present (option_map (λ n. (n.roll, n.generation)) m.next) };
}

impl<C: KeyClass> Map<C> {
    /// A map without entries, at revision 0.
    ///
    /// # Errors
    /// `BadConfig` if a limit of the configuration is out of range, or `OutOfMemory`.
    pub fn new(alloc: Global, config: MapConfig) -> Result<Map<C>, Refusal>
        ensures ok { IfOk result (λ map. map ≡ new_map config 0) }
        ensures bad { (result ≡ Err BadConfig) ↔ (¬ IsMapConfig config) }
        ensures refusals { IfErr result (IsEither BadConfig OutOfMemory) }
    {
        if !config.is_within_limits() {
            return Err(Refusal::BadConfig);
        }
        let present = Generation::new(alloc, config.store, 0)?;
        Ok(Map {
            alloc,
            config,
            present,
            next: None,
            retired: None,
        })
    }

    /// A map at a revision, with these entries in the order of their last put. It keeps no earlier change.
    ///
    /// It takes O(n log n) time for n entries.
    ///
    /// # Errors
    /// `BadConfig` if a limit of the configuration is out of range or an id comes twice; else `CommitsFull` or
    /// `PagesFull` if the entries don't fit the store's limits, or `OutOfMemory`.
    pub fn restore(
        alloc: Global,
        config: MapConfig,
        revision: u64,
        entries: &[MapEntry<C::Key>],
    ) -> Result<Map<C>, Refusal>
        ensures ok { IfOk result
            (λ map. map ≡ kept_map config (restored revision entries.now)) }
        ensures apart { OnOk result (AreApart entries.now) }
        ensures limits { OnOk result (IsMapConfig config) }
        ensures bad { ¬ IsMapConfig config → result ≡ Err BadConfig }
        ensures why_bad { result ≡ Err BadConfig → IsBadMap config entries.now }
        ensures refusals { IfErr result RefusesRestoring }
    {
        if !config.is_within_limits() {
            return Err(Refusal::BadConfig);
        }
        let mut present = Generation::new(alloc, config.store, revision)?;
        'filling: for entry in entries {
            if present.get(entry.id).is_some() {
                return Err(Refusal::BadConfig);
            }
            present.add(*entry)?;
        }
        Ok(Map {
            alloc,
            config,
            present,
            next: None,
            retired: None,
        })
    }

    /// The last revision.
    pub fn revision(&self) -> u64
        ensures { result ≡ revision_of self.now.map }
    {
        self.present.revision()
    }

    /// The oldest revision: the changes after it are known.
    pub fn oldest(&self) -> u64
        ensures { result ≡ self.now.map.oldest }
    {
        self.present.oldest()
    }

    /// The identity in its configuration.
    pub fn identity(&self) -> u64
        ensures { result ≡ self.now.config.identity }
    {
        self.config.identity
    }

    /// How many ids have a key.
    pub fn len(&self) -> u64
        ensures { result ≡ length (entries_of self.now.map) }
    {
        self.present.len()
    }

    /// Whether no id has a key.
    pub fn is_empty(&self) -> bool
        ensures { result ≡ nat_eq (length (entries_of self.now.map)) 0 }
    {
        self.present.len() == 0
    }

    /// Whether an id has a key.
    pub fn contains(&self, id: u64) -> bool
        ensures { result ≡ is_some (key_at id (entries_of self.now.map)) }
    {
        self.present.get(id).is_some()
    }

    /// The map as it is now, to be searched. It takes O(1) time: the snapshot shares pages and commits with the map,
    /// which copies a page before it changes it.
    ///
    /// # Errors
    /// `OutOfMemory`.
    pub fn snapshot(&self) -> Result<MapSnapshot<C>, Refusal>
        ensures ok { IfOk result (λ snapshot. snapshot
            ≡ map_view self.now.config.identity self.now.map) }
        ensures refused { IfErr result (λ why. why ≡ OutOfMemory) }
    {
        self.present.snapshot(self.config.identity)
    }

    /// The key of an id.
    pub fn get(&self, id: u64) -> Option<C::Key>
        ensures { result ≡ key_at id (entries_of self.now.map) }
    {
        self.present.get(id)
    }

    /// Puts a key under an id, and returns the revision.
    ///
    /// It takes O(log n) time for n entries, and a bounded number of steps for the next generation.
    ///
    /// # Errors
    /// `CommitsFull`, `PagesFull` or `FindersFull` if the present store has reached that limit, or `CommitsFull` at the
    /// last revision, or `OutOfMemory`. No change is made then.
    pub fn put(&mut self, id: u64, key: C::Key) -> Result<u64, Refusal>
        ensures revision { IfOk result (λ n. n ≡ revision_of self.old.map + 1) }
        ensures ok { OnOk result (Changes (Put id key) self.old self.new) }
        ensures err { OnErr result (ForgetsOnly self.old self.new) }
        ensures refusals { IfErr result RefusesPut }
    {
        self.tend();
        self.present.put(id, key)?;
        Ok(self.present.revision())
    }

    /// Removes an id's key, and returns the revision, or `None` if the id has no key.
    ///
    /// It takes as much time as `put`.
    ///
    /// # Errors
    /// `CommitsFull` or `FindersFull` if the present store has reached that limit, or `CommitsFull` at the last
    /// revision, or `OutOfMemory`. No change is made then.
    pub fn remove(&mut self, id: u64) -> Result<Option<u64>, Refusal>
        ensures ok { IfOk result (ChangesIf (Remove id) (has_id id (entries_of self.old.map))
            self.old self.new) }
        ensures err { OnErr result (ForgetsOnly self.old self.new) }
        ensures refusals { IfErr result RefusesRemoval }
    {
        self.tend();
        if self.present.remove(id)? {
            Ok(Some(self.present.revision()))
        } else {
            Ok(None)
        }
    }

    /// Does a bounded part of the work on the next generation, on what is left of the former one, and on the dead rows
    /// of the present one.
    fn tend(&mut self)
        ensures { ForgetsOnly self.old self.new }
    {
        self.renew();
        self.shed();
        self.present.sweep();
    }

    /// Drops some pieces of the generation before the present one.
    fn shed(&mut self)
        ensures { self.new ≡ self.old }
    {
        if let Some(retired) = &mut self.retired {
            if retired.shed_some() {
                return;
            }
        }
        self.retired = None;
    }

    /// Does some steps for the next generation, and replaces the present one by it when it is ready. If memory runs
    /// out, later changes go on with it.
    fn renew(&mut self)
        ensures { ForgetsOnly self.old self.new }
    {
        let Some(mut next) = self.next.take() else {
            self.next = self.successor();
            return;
        };
        work(&mut next, &self.present);
        if next.is_ready(&self.present, u64::from(self.config.history)) {
            let (present, flags) = next.into_present();
            let former = mem::replace(&mut self.present, present);
            self.retired = Some(former.retire(flags));
            return;
        }
        self.next = Some(next);
    }

    /// A new next generation, if one is due and there is memory for it.
    fn successor(&self) -> Option<Successor<C>>
        ensures { IfSome result (λ next. IsSuccessor self.now.map next.roll next.generation) }
    {
        if !self.is_due() {
            return None;
        }
        Successor::begin(self.alloc, self.config.store, &self.present).ok()
    }

    /// Whether a next generation is due: after half of the store's limit of commits, or after so many commits that
    /// moves have widened the bounds of pages.
    fn is_due(&self) -> bool {
        let limit = u64::from(self.config.store.commits / 2);
        let history = u64::from(self.config.history);
        let worn = self
            .len()
            .saturating_mul(8)
            .saturating_add(MIN_COMMITS + 2 * history);
        self.present.commits() >= limit.min(worn)
    }
}

/// Does some steps for a next generation, until memory runs out.
fn work<C: KeyClass>(next: &mut Successor<C>, present: &Generation<C>)
    requires { IsSuccessor present.now next.old.roll next.old.generation }
    ensures { IsSuccessor present.now next.new.roll next.new.generation }
{
    'working: for _ in 0..STEPS {
        if next.step(present).is_err() {
            return;
        }
    }
}
