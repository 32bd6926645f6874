ghost use Rattle.cursor.specs.Fitting.{TreesLeaveFitting, CommitsLeaveFitting};

use key_class::KeyClass;
use mailbox::Outlet;

/// A theorem, no code: which steps of a tree and of a list of commits keep what fits a cursor.
pub fn cursors_survive_steps<C: KeyClass, O: Outlet<C::Key>>()
    ensures steps { TreesLeaveFitting C.rules O.rule }
    ensures commits { CommitsLeaveFitting C.rules O.rule }
{}
