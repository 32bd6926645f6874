ghost use Rattle.std.specs.Prelude.{◌≡◌, if◌then◌else◌};
ghost use Rattle.cursor.specs.OpenCursors.{is_scanning};
ghost use Rattle.collector.specs.Horizons.{IsHorizon};

use cursor::Cursor;
use key_class::KeyClass;
use mailbox::Outlet;

/// The commit from which on no open scan needs dead rows: the least opening of the cursors that have pages left to
/// visit, or `commits`, the number of commits, if that is less.
pub fn horizon<C: KeyClass, O: Outlet<C::Key>>(cursors: &[Cursor<C, O>], commits: u32) -> u32
    ensures { IsHorizon commits cursors.now result }
{
    let mut least = commits;
    for cursor in cursors {
        least = least.min(needed_from(cursor, commits));
    }
    least
}

/// The opening of a cursor, if it has pages left to visit, else `commits`.
fn needed_from<C: KeyClass, O: Outlet<C::Key>>(cursor: &Cursor<C, O>, commits: u32) -> u32
    ensures { result ≡ (if is_scanning cursor.now.stack then cursor.now.opened else commits) }
{
    if cursor.is_scanning() {
        cursor.opened()
    } else {
        commits
    }
}
