//! What a desk gives once every seat has come back.
ghost use Rattle.std.specs.Prelude.{◌≡◌, ◌≢◌, ◌↔◌, length, ◌+◌, ◌<◌};
ghost use Rattle.std.specs.List.{AllByRecursion};
ghost use Rattle.change_list.specs.Changes.{IsLegal};
ghost use Rattle.history.specs.Pasts.{IsPastOf};
ghost use Rattle.desk.specs.Seats.{AreAnswers};
ghost use Rattle.desk.specs.Finishes.{IsOut, IfClosing, IfTorn, IfOut, IsSumOf, IsTornBy};
ghost use Rattle.desk.specs.Weaving.{Woven, all_shares};

use crate::checks::each_once;
use crate::desk::{Desk, DeskOver};
use crate::seat::Seat;
use change_list::{ChangeList, Write};
use history::{History, Naming};
use key_class::KeyClass;
use mailbox::Ring;
use std::marker::Model;
use std::sync::Wait;
use std::sync::ledger::{Book, Ledger, Share};
use world::World;

/// The commits and the seats, which agree, and the sum of the shares.
#[derive(Drop)]
pub struct Closing<C: KeyClass, L: Ledger + Naming> {
    commits: ChangeList<C::Key>,
    seats: Vec<Seat<C, L>>,
    sum: u64,
}

impl<C: KeyClass, L: Ledger + Naming> Model for Closing<C, L> {
    ghost use Rattle.desk.specs.Seats.{Closed};

    ghost Value = { Closed C.Key };

    ghost view = { λ c. record { commits = c.commits; seats = c.seats.items; sum = c.sum } };
}

impl<C: KeyClass, L: Ledger + Naming> Closing<C, L> {
    pub(crate) fn new(commits: ChangeList<C::Key>, seats: Vec<Seat<C, L>>, sum: u64) -> Self
        ensures { result ≡ record { commits = commits; seats = seats.items; sum = sum } }
    {
        Closing {
            commits,
            seats,
            sum,
        }
    }

    pub fn commits(&self) -> &ChangeList<C::Key>
        ensures { result.now ≡ self.now.commits }
    {
        &self.commits
    }

    /// The sum of all seats' shares.
    pub fn sum(&self) -> u64
        ensures { result ≡ self.now.sum }
    {
        self.sum
    }

    /// The commits and the seats.
    pub fn into_parts(self) -> (ChangeList<C::Key>, Vec<Seat<C, L>>)
        ensures { (result.0 ≡ self.commits) × (result.1.items ≡ self.seats) }
    {
        let Closing { commits, seats, .. } = self;
        (commits, seats)
    }
}

/// The commits and the seats, which don't agree: some commit isn't on exactly one seat's stamp.
#[derive(Drop)]
pub struct Torn<C: KeyClass, L: Ledger + Naming> {
    pub commits: ChangeList<C::Key>,
    pub seats: Vec<Seat<C, L>>,
}

#[derive(Drop)]
pub enum Finished<C: KeyClass, L: Ledger + Naming> {
    Closing(Closing<C, L>),
    Torn(Torn<C, L>),
    SeatsOut(Desk<C, L>, Vec<Seat<C, L>>),
}

/// Proves that the shares of the seats, added to those in `all`, sum up to the book's total.
fn audit_all<C: KeyClass, L: Ledger + Naming>(
    book: &mut Book<L>,
    seats: &mut [Seat<C, L>],
    all: &mut Share<L>,
)
    requires parts { all.old.parts + length seats.old ≡ L.parts }
    requires backed { all.old.parts ≡ 0 → all.old.amount ≡ 0 }
    ensures seats { seats.new ≡ seats.old }
    ensures all { (all.new.parts ≡ all.old.parts) × (all.new.amount ≡ all.old.amount) }
    ensures book { book.new.total ≡ book.old.total }
    ensures total { all.old.amount + all_shares seats.old ≡ book.old.total }
{
    match seats.split_first_mut() {
        None => book.audit(all),
        Some((first, rest)) => {
            let amount = first.stamps.len() as u64;
            first.share.give(all, 1, amount);
            audit_all(book, rest, all);
            all.give(&mut first.share, 1, amount);
        }
    }
}

/// Proves that the shares of all seats sum up to the book's total.
pub(crate) fn audit_seats<C: KeyClass, L: Ledger + Naming>(
    book: &mut Book<L>,
    seats: &mut Vec<Seat<C, L>>,
)
    requires all { length seats.old.items ≡ L.parts }
    requires some { 0 < length seats.old.items }
    ensures seats { seats.new.items ≡ seats.old.items }
    ensures total { all_shares seats.old.items ≡ book.old.total }
    ensures book { book.new.total ≡ book.old.total }
{
    let seats = seats.as_mut_slice();
    let mut all = match seats.first_mut() {
        None => unreachable!(),
        Some(first) => first.share.empty(),
    };
    audit_all(book, seats, &mut all);
}

/// Proves that what each seat was told begins the history, and that its stamps stand in it.
fn audit_told<C: KeyClass, L: Ledger + Naming, R: Wait>(
    rt: &R,
    history: &History<Write<C::Key>, L>,
    seats: &[Seat<C, L>],
)
    ensures told { AllByRecursion (λ s. IsPastOf s.told history.now) seats.now }
    ensures answers { AllByRecursion (λ s. AreAnswers s.told s.stamps) seats.now }
{
    match seats.split_first() {
        None => {}
        Some((first, rest)) => {
            history.audit(rt, &first.told);
            audit_told(rt, history, rest);
        }
    }
}

impl<C: KeyClass, L: Ledger + Naming> DeskOver<World<C, Ring<C::Key>>, L> {
    /// Ends the desk if every seat has come back, and checks that each commit is on exactly one seat's stamp. It
    /// needs no memory. What each seat was told begins the commits, and its stamps stand in them.
    pub fn finish<R: Wait>(self, rt: &R, seats: Vec<Seat<C, L>>) -> Finished<C, L>
        ensures out { IsOut result ↔ (length seats.items ≢ self) }
        ensures back { IfOut result (λ d s. (d ≡ self) × (s ≡ seats.items)) }
        ensures seats { IfClosing result (λ c. c.seats ≡ seats.items) }
        ensures legal { IfClosing result (λ c. IsLegal c.commits) }
        ensures told { IfClosing result (λ c.
            AllByRecursion (λ s. IsPastOf s.told c.commits) seats.items) }
        ensures woven { IfClosing result (λ c. Woven c.commits c.seats) }
        ensures sum { IfClosing result (IsSumOf seats.items) }
        ensures torn { IfTorn result (IsTornBy seats.items) }
    {
        if seats.len() != self.seats {
            return Finished::SeatsOut(self, seats);
        }
        let DeskOver { locked, .. } = self;
        let (world, history, book) = locked.into_inner().open_up();
        let mut book = book;
        let mut seats = seats;
        audit_seats(&mut book, &mut seats);
        audit_told(rt, &history, seats.as_slice());
        let commits = world.into_commits();
        let sum = commits.len() as u64;
        if each_once(sum, seats.as_slice()) {
            Finished::Closing(Closing::new(commits, seats, sum))
        } else {
            Finished::Torn(Torn { commits, seats })
        }
    }
}
