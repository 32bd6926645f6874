//! Renewal: a new store made from a snapshot, for when a list of commits is nearly full or moves have made a tree
//! slow.
ghost use Rattle.std.specs.Prelude.{◌≡◌, ◌↔◌, Err, IfOk, IfErr};
ghost use Rattle.key_class.specs.declared.refusal.Refusal.TheVariants.{BadConfig};
ghost use Rattle.change_list.specs.Changes.{rows};
ghost use Rattle.change_list.specs.Configs.{IsWithinLimits};
ghost use Rattle.store.specs.Renewing.{IsRenewed, RefusesRenewal, numbered, numbers_of_living};

use crate::store::Store;
use change_list::Config;
use key_class::{KeyClass, Refusal};
use snapshot::Snapshot;
use std::alloc::Global;

/// A new store with the rows of another, numbered from 1 again.
#[derive(Drop)]
pub struct Renewed<C: KeyClass> {
    pub store: Store<C>,
    /// The number that each row of the store had before, by rising new number.
    pub old_numbers: Vec<u64>,
}

impl<C: KeyClass> Store<C> {
    /// A new store with the rows that are live in a snapshot, with their keys and tags. They are inserted in the
    /// order of their numbers: commit 1 makes the first of them, commit 2 the second, and so on.
    ///
    /// It doesn't need the store of the snapshot, which may be used meanwhile: its changes after the snapshot tell
    /// what to catch up with.
    ///
    /// # Errors
    /// `BadConfig` if a limit of the configuration is out of range; `CommitsFull` if there are more live rows than
    /// the new store may have commits; `PagesFull` if it may have at most one page more than there are rows; or
    /// `OutOfMemory`.
    pub fn renewed(
        alloc: Global,
        config: Config,
        snapshot: &Snapshot<C>,
    ) -> Result<Renewed<C>, Refusal>
        ensures store { IfOk result (λ made. IsRenewed config snapshot.now made.store) }
        ensures live { IfOk result (λ made.
            rows made.store.commits ≡ numbered 1 (rows snapshot.now)) }
        ensures told { IfOk result (λ made.
            made.old_numbers.items ≡ numbers_of_living snapshot.now) }
        ensures bad { (result ≡ Err BadConfig) ↔ (¬ IsWithinLimits config) }
        ensures refusals { IfErr result (RefusesRenewal config snapshot.now) }
    {
        let mut store = Store::new(alloc, config)?;
        let living = snapshot.all_rows()?;
        if living.len() as u64 > u64::from(config.commits) {
            return Err(Refusal::CommitsFull);
        }
        let mut old_numbers = Vec::with_capacity(alloc, living.len())?;
        for row in &living {
            store.insert(row.key, row.tag)?;
            old_numbers.push_reserved(row.row);
        }
        Ok(Renewed { store, old_numbers })
    }
}
