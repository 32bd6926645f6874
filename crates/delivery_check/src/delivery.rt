ghost use Rattle.std.specs.Prelude.{◌≡◌, ◌≤◌, false, length, IfOk, IfErr};
ghost use Rattle.key_class.specs.declared.refusal.Refusal.TheVariants as Refusal;
ghost use Rattle.change_list.specs.Changes.{IsLegal};
ghost use Rattle.delivery_check.specs.Deliveries.{TellsDelivery};

use crate::following::is_followed;
use crate::remaining::{snapshot, take_rows};
use change_list::{Item, View};
use key_class::{KeyClass, Pred, Refusal};
use std::alloc::Global;

/// Whether a client of a query, opened after so many commits, may have been given these items: the rows of its
/// snapshot, each once and in any order, then the later changes in commit order up to some commit, and each mark
/// after everything that it stands for. A client that follows that many commits has no rows.
///
/// # Errors
/// `OutOfMemory`.
pub fn is_delivered<C: KeyClass>(
    alloc: Global,
    commits: &View<C::Key>,
    query: &Pred<C::Atom>,
    follows: bool,
    opened: u64,
    items: &[Item<C::Key>],
) -> Result<bool, Refusal>
    ensures delivered { IfOk result
        (TellsDelivery C.rules query.now follows opened commits.now items.now) }
    ensures refusals { IfErr result (λ why. why ≡ Refusal.OutOfMemory) }
{
    if opened > commits.len() as u64 {
        return Ok(false);
    }
    if follows {
        return Ok(is_followed::<C>(commits, query, opened, items));
    }
    is_listed::<C>(alloc, commits, query, opened, items)
}

/// Whether these items may have been given, with the rows of the snapshot.
///
/// # Errors
/// `OutOfMemory`.
fn is_listed<C: KeyClass>(
    alloc: Global,
    commits: &View<C::Key>,
    query: &Pred<C::Atom>,
    opened: u64,
    items: &[Item<C::Key>],
) -> Result<bool, Refusal>
    requires opened { opened ≤ length commits.now }
    requires legal { IsLegal commits.now }
    ensures delivered { IfOk result
        (TellsDelivery C.rules query.now false opened commits.now items.now) }
    ensures refusals { IfErr result (λ why. why ≡ Refusal.OutOfMemory) }
{
    let mut remaining = snapshot::<C>(alloc, commits, query, opened)?;
    match take_rows::<C>(&mut remaining, items) {
        None => Ok(false),
        Some(count) => {
            if count == items.len() {
                return Ok(true);
            }
            if !remaining.is_empty() {
                return Ok(false);
            }
            Ok(is_followed::<C>(commits, query, opened, &items[count..]))
        }
    }
}
