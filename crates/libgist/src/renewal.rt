//! Renewal: a new store made of the rows that are live in a snapshot.
ghost use Rattle.std.specs.Prelude.{◌≡◌, ◌≢◌, ◌↔◌, length, None, Ok, Err, IfOk, IfErr, IsSomeAnd};
ghost use Rattle.search.specs.Fills.{written_over};
ghost use Rattle.change_list.specs.Changes.{rows};
ghost use Rattle.change_list.specs.Configs.{IsWithinLimits};
ghost use Rattle.store.specs.Renewing.{IsRenewed, numbers_of_living};
ghost use Rattle.libgist.specs.declared.denied.Denied.TheVariants.{BadLimits};
ghost use Rattle.libgist.specs.Configs.{config_of};
ghost use Rattle.std.specs.Borrow.{sem};
ghost use Rattle.libgist.specs.Loans.{Loan, is_lent, lasts, state_of};
ghost use Rattle.libgist.specs.Making.{Makes, Settles};
ghost use Rattle.libgist.specs.Renewal.{IsRenewal, IsRenewalOf, RefusesRenewing, TellsNumbers, numbers_in, stored};

use crate::buffers::write_over;
use crate::denied::Denied;
use crate::handle::Handle;
use crate::held::{AnySnapshot, AnyStore, Held};
use crate::lent::Lent;
use crate::limits::{Limits, config};
use crate::making::settle;
use crate::telling::no_handle;
use change_list::Config;
use key_class::{KeyClass, Refusal};
use snapshot::Snapshot;
use std::alloc::Global;
use store::{Renewed, Store};

/// A new store of the rows that are live in a snapshot of a class, and the numbers that these rows had.
fn renewed_of<C: KeyClass>(
    alloc: Global,
    config: Config,
    snapshot: &Snapshot<C>,
) -> Result<Renewed<C>, Denied>
    ensures store { IfOk result (λ made. IsRenewed config snapshot.now made.store) }
    ensures told { IfOk result (λ made.
        made.old_numbers.items ≡ numbers_of_living snapshot.now) }
    ensures bad { (result ≡ Err BadLimits) ↔ (¬ IsWithinLimits config) }
    ensures refusals { IfErr result (RefusesRenewing config (length (rows snapshot.now))) }
{
    match Store::renewed(alloc, config, snapshot) {
        Ok(made) => Ok(made),
        Err(Refusal::BadConfig) => Err(Denied::BadLimits),
        Err(why) => Err(Denied::By(why)),
    }
}

/// A new store of the rows that are live in a snapshot, and the numbers that these rows had.
#[derive(Drop)]
struct Anew {
    store: Held,
    old_numbers: Vec<u64>,
}

/// A new store of the rows that are live in a snapshot, of any class.
///
/// # Errors
/// `NoHandle` if what is held is no snapshot, `BadLimits` if a limit is out of range, `CommitsFull` or `PagesFull` if
/// the limits are too small for the rows, or `OutOfMemory`.
fn renewed(alloc: Global, config: Config, held: &Held) -> Result<Anew, Denied>
    ensures renewal { IsRenewal config held.now (stored result) }
    ensures told { IfOk result (λ anew. anew.old_numbers.items ≡ numbers_in held.now) }
{
    match held {
        Held::Snapshot(any) => match any {
            AnySnapshot::Intervals(snapshot) => {
                let made = renewed_of(alloc, config, snapshot)?;
                Ok(Anew {
                    store: Held::Store(AnyStore::Intervals(made.store)),
                    old_numbers: made.old_numbers,
                })
            }
            AnySnapshot::Boxes(snapshot) => {
                let made = renewed_of(alloc, config, snapshot)?;
                Ok(Anew {
                    store: Held::Store(AnyStore::Boxes(made.store)),
                    old_numbers: made.old_numbers,
                })
            }
            AnySnapshot::Sets(snapshot) => {
                let made = renewed_of(alloc, config, snapshot)?;
                Ok(Anew {
                    store: Held::Store(AnyStore::Sets(made.store)),
                    old_numbers: made.old_numbers,
                })
            }
        },
        _ => Err(Denied::NoHandle),
    }
}

/// Gives an empty handle the store, and then writes the numbers that its rows had into a buffer.
fn settle_anew(
    alloc: Global,
    anew: Anew,
    store: &mut Handle,
    numbers: &mut [u64],
    living: &mut u64,
) -> u32
    requires { store.old.inside.state ≡ None }
    ensures settled { Settles (Ok anew.store) result store.new.inside.state }
    ensures numbers { result ≡ 0
        → numbers.new ≡ written_over anew.old_numbers.items numbers.old }
    ensures living { result ≡ 0 → living.new ≡ length anew.old_numbers.items }
    ensures untold { result ≢ 0 → (numbers.new ≡ numbers.old) × (living.new ≡ living.old) }
{
    let Anew {
        store: made,
        old_numbers,
    } = anew;
    let code = settle(alloc, Ok(made), store);
    if code == 0 {
        write_over(numbers, &old_numbers);
        *living = old_numbers.len() as u64;
    }
    code
}

/// Makes a store of the rows that are live in a snapshot, for an empty handle, and gives the numbers that they had.
/// The rows are numbered from 1 again, in the same order.
#[unsafe(no_mangle)]
pub unsafe extern "C" fn gist_renew(
    snapshot: *const Handle,
    limits: &Limits,
    store: &mut Handle,
    numbers: &mut [u64],
    living: &mut u64,
) -> u32
    ghost loan: { Loan }
    requires* { sem 𝓛 (is_lent snapshot loan) }
    ensures* back { sem 𝓛 (lasts loan) }
    ensures made { Makes (IsRenewalOf (config_of limits.now) (state_of loan))
        store.old.inside.state store.new.inside.state result }
    ensures told { result ≡ 0 → IsSomeAnd (state_of loan)
        (TellsNumbers numbers.old numbers.new living.new) }
    ensures untold { result ≢ 0 → (numbers.new ≡ numbers.old) × (living.new ≡ living.old) }
{
    renew_from(&*(snapshot as *const Lent), limits, store, numbers, living)
}

fn renew_from(
    snapshot: &Lent,
    limits: &Limits,
    store: &mut Handle,
    numbers: &mut [u64],
    living: &mut u64,
) -> u32
    ensures made { Makes (IsRenewalOf (config_of limits.now) snapshot.now.inside.state)
        store.old.inside.state store.new.inside.state result }
    ensures told { result ≡ 0 → IsSomeAnd snapshot.now.inside.state
        (TellsNumbers numbers.old numbers.new living.new) }
    ensures untold { result ≢ 0 → (numbers.new ≡ numbers.old) × (living.new ≡ living.old) }
{
    if store.is_open() {
        return 2;
    }
    match snapshot.held() {
        None => settle(snapshot.alloc(), no_handle(), store),
        Some(held) => match renewed(snapshot.alloc(), config(limits), held) {
            Ok(anew) => settle_anew(snapshot.alloc(), anew, store, numbers, living),
            Err(why) => why.number(),
        },
    }
}
