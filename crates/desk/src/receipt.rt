ghost use Rattle.std.specs.Prelude.{◌≡◌, length};
ghost use Rattle.change_list.specs.Changes.{commit_at, IsLegal};

use change_list::{View, Write};
use std::marker::Model;

/// The commits as they stood when a cursor was closed: proof that what its client took begins a listing of them, or
/// the changes after the commit that it follows.
#[derive(Drop)]
pub struct Receipt<K> {
    follows: bool,
    opened: u64,
    commits: View<K>,
}

impl<K> Model for Receipt<K> {
    ghost use Rattle.desk.specs.Seats.{Received};

    ghost Value = { Received K };

    ghost view = { λ r. record { follows = r.follows; opened = r.opened; commits = r.commits } };
}

impl<K: Copy> Receipt<K> {
    pub(crate) fn new(follows: bool, opened: u64, commits: View<K>) -> Receipt<K>
        ensures { result ≡ record { follows = follows; opened = opened; commits = commits } }
    {
        Receipt {
            follows,
            opened,
            commits,
        }
    }

    /// Whether the cursor followed a commit, and so gave no rows of a snapshot.
    pub fn follows(&self) -> bool
        ensures { result ≡ self.now.follows }
    {
        self.follows
    }

    /// The number of commits at the cursor's opening, or of the commit that it followed.
    pub fn opened(&self) -> u64
        ensures { result ≡ self.now.opened }
    {
        self.opened
    }

    /// How many commits there were at its closing.
    pub fn commits(&self) -> u64
        ensures number { result ≡ length self.now.commits }
        ensures legal { IsLegal self.now.commits }
    {
        self.commits.len() as u64
    }

    /// `commits`, as a length.
    pub fn len(&self) -> usize
        ensures { result ≡ length self.now.commits }
    {
        self.commits.len()
    }

    /// The commit with a number, if there is one.
    pub fn commit(&self, number: u64) -> Option<Write<K>>
        ensures { result ≡ commit_at self.now.commits number }
    {
        self.commits.get(number)
    }

    /// The commits.
    pub fn list(&self) -> &View<K>
        ensures { result.now ≡ self.now.commits }
    {
        &self.commits
    }
}
