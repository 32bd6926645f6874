//! Relations by the numbers that C uses.
ghost use Rattle.std.specs.Prelude.{◌≡◌};
ghost use Rattle.libgist.specs.Relations.{relation_of, atom_for};

use crate::crossing::Crossing;
use crate::denied::Denied;
use crate::words::KeyWords;
use key_class::{Refusal, Rel};

/// The relation with a number.
fn relation(number: u32) -> Option<Rel>
    ensures { result ≡ relation_of number }
{
    match number {
        1 => Some(Rel::Overlaps),
        2 => Some(Rel::Within),
        3 => Some(Rel::Holds),
        4 => Some(Rel::Same),
        _ => None,
    }
}

/// The atom for the keys that have a relation, given by its number, to a key.
///
/// # Errors
/// `BadConfig` if no relation has the number, else `BadEnds` if the key's ends are out of order.
pub fn atom<C: Crossing>(number: u32, words: KeyWords) -> Result<C::Atom, Denied>
    ensures { result ≡ atom_for C.texts C.key_of number words }
{
    match relation(number) {
        None => Err(Denied::By(Refusal::BadConfig)),
        Some(rel) => match C::key(words) {
            None => Err(Denied::BadEnds),
            Some(key) => Ok(C::atom(rel, key)),
        },
    }
}
