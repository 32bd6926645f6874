ghost use Rattle.std.specs.Prelude.{◌≡◌, IfOk, IsTrue, ◌↔◌, ◌≤◌, option_map, vec_items};
ghost use Rattle.key_class.specs.Queries.{query_of};
ghost use Rattle.feed.specs.Reaches.{narrower, reaches_of, total_size};

use crate::reach::Reach;
use key_class::{KeyClass, Pred};
use std::alloc::{AllocError, Global};

/// The keys under which a query is to be looked for, or `None` if any key may satisfy it. Each key that satisfies the
/// query overlaps one of them.
///
/// # Errors
/// `OutOfMemory`.
pub fn reaches<C: Reach>(
    alloc: Global,
    query: &Pred<C::Atom>,
) -> Result<Option<Vec<C::Key>>, AllocError>
    ensures { IfOk result (λ found.
        option_map vec_items found ≡ reaches_of C.reach_of C.rules.size_of (query_of query.now)) }
{
    match query {
        Pred::Atom(atom) => {
            let Some(key) = C::reach(atom) else {
                return Ok(None);
            };
            let mut keys = Vec::new(alloc);
            keys.push(key)?;
            Ok(Some(keys))
        }
        Pred::And(left, right) => {
            let left = reaches::<C>(alloc, left)?;
            let right = reaches::<C>(alloc, right)?;
            Ok(narrower::<C>(left, right))
        }
        Pred::Or(left, right) => {
            let Some(mut keys) = reaches::<C>(alloc, left)? else {
                return Ok(None);
            };
            let Some(further) = reaches::<C>(alloc, right)? else {
                return Ok(None);
            };
            keys.extend_from_slice(&further)?;
            Ok(Some(keys))
        }
        Pred::Not(_) => Ok(None),
    }
}

/// The keys whose total size is smaller, the first list if both are as large; if one list is missing, the other.
fn narrower<C: KeyClass>(
    left: Option<Vec<C::Key>>,
    right: Option<Vec<C::Key>>,
) -> Option<Vec<C::Key>>
    ensures { option_map vec_items result
        ≡ narrower C.rules.size_of (option_map vec_items left) (option_map vec_items right) }
{
    match (left, right) {
        (Some(left), Some(right)) => {
            if total_size::<C>(&left) <= total_size::<C>(&right) {
                Some(left)
            } else {
                Some(right)
            }
        }
        (Some(left), None) => Some(left),
        (None, right) => right,
    }
}

/// The total size of some keys. A sum that is too large is the greatest number.
fn total_size<C: KeyClass>(keys: &[C::Key]) -> u128
    ensures { result ≡ total_size C.rules.size_of keys.now }
{
    let mut total: u128 = 0;
    for key in keys {
        total = total.saturating_add(C::size(*key));
    }
    total
}
