//! Lists whose members have rising serials.
ghost use Rattle.std.specs.Prelude.{◌≡◌, ◌<◌, ℕ, remove, vec_len};
ghost use Rattle.world.specs.Serials.{Rise, IsPlaceOf};

use cursor::Cursor;
use descent::Finder;
use key_class::KeyClass;
use mailbox::Outlet;

/// Something with a serial.
pub(crate) trait Numbered {
    ghost serial_of: { Self → ℕ };

    fn serial(&self) -> u64
        ensures { result ≡ serial_of self.now };
}

impl<C: KeyClass, O: Outlet<C::Key>> Numbered for Cursor<C, O> {
    ghost serial_of = { λ k. k.serial };

    fn serial(&self) -> u64 {
        Cursor::serial(self)
    }
}

impl<C: KeyClass> Numbered for Finder<C> {
    ghost serial_of = { λ k. k.serial };

    fn serial(&self) -> u64 {
        Finder::serial(self)
    }
}

/// The place of the member with a serial, by binary search.
pub(crate) fn place_of<T: Numbered>(members: &[T], serial: u64) -> Option<usize>
    requires { (last : ℕ) × Rise T.serial_of 0 last members.now }
    ensures { IsPlaceOf T.serial_of members.now serial result }
{
    let mut low = 0;
    let mut high = members.len();
    while low < high {
        let middle = low + (high - low) / 2;
        let found = members[middle].serial();
        if found == serial {
            return Some(middle);
        }
        if found < serial {
            low = middle + 1;
        } else {
            high = middle;
        }
    }
    None
}

/// Drops the member at a place. The last one of a list is dropped in place, without being moved out first.
pub(crate) fn let_go<T: Drop>(members: &mut Vec<T>, at: usize)
    requires { at < vec_len members.old }
    ensures { members.new.items ≡ remove members.old.items at }
{
    if at + 1 == members.len() {
        members.truncate(at);
    } else {
        members.remove(at);
    }
}
