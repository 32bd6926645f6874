ghost use Rattle.std.specs.Prelude.{◌≡◌, ◌↔◌, IsTrue};

use change_list::{Item, Row};
use key_class::KeyClass;

/// Whether two rows have the same number, key and tag.
pub(crate) fn is_same_row<C: KeyClass>(a: Row<C::Key>, b: Row<C::Key>) -> bool
    ensures { IsTrue result ↔ (a ≡ b) }
{
    a.row == b.row && a.key == b.key && a.tag == b.tag
}

/// Whether two items are of the same kind and have the same parts.
pub(crate) fn is_same_item<C: KeyClass>(a: Item<C::Key>, b: Item<C::Key>) -> bool
    ensures { IsTrue result ↔ (a ≡ b) }
{
    match (a, b) {
        (Item::Row(row), Item::Row(other)) => is_same_row::<C>(row, other),
        (Item::Inserted(row), Item::Inserted(other)) => is_same_row::<C>(row, other),
        (Item::Deleted(number, row), Item::Deleted(other, dead)) => number == other && row == dead,
        (Item::Moved(row, ended), Item::Moved(other, dead)) => {
            is_same_row::<C>(row, other) && ended == dead
        }
        (Item::Mark(number), Item::Mark(other)) => number == other,
        _ => false,
    }
}
