//! What closing a cursor gives.
ghost use Rattle.std.specs.Prelude.{◌≡◌};
ghost use Rattle.key_class.specs.Queries.{query_of};
ghost use Rattle.change_list.specs.Changes.{IsLegal};
ghost use Rattle.desk.specs.Receipts.{IfReceipt, ShowsDelivery};

use crate::receipt::Receipt;
use change_list::{Item, View};
use delivery_check::is_delivered;
use key_class::{KeyClass, Pred};
use std::alloc::Global;

/// What closing a cursor gives.
#[derive(Drop)]
pub enum Ended<K> {
    Receipt(Receipt<K>),
    /// The check failed, or memory ran out.
    NoReceipt,
}

/// A receipt, if the items that a client took are a delivery of the commits: for its query, since its opening or
/// after the commit that it follows.
pub(crate) fn checked<C: KeyClass>(
    alloc: Global,
    commits: View<C::Key>,
    query: &Pred<C::Atom>,
    follows: bool,
    opened: u64,
    taken: &[Item<C::Key>],
) -> Ended<C::Key>
    ensures follows { IfReceipt result (λ r. r.follows ≡ follows) }
    ensures opened { IfReceipt result (λ r. r.opened ≡ opened) }
    ensures list { IfReceipt result (λ r. r.commits ≡ commits) }
    ensures legal { IfReceipt result (λ r. IsLegal r.commits) }
    ensures taken { IfReceipt result
        (ShowsDelivery C.rules (query_of query.now) follows opened taken.now) }
{
    let _count = commits.len();
    match is_delivered::<C>(alloc, &commits, query, follows, opened, taken) {
        Ok(true) => Ended::Receipt(Receipt::new(follows, opened, commits)),
        _ => Ended::NoReceipt,
    }
}
