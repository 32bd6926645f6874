//! Receipts: they come for what a cursor delivered, and not for items that were altered.
use crate::calls::{delete, delivered, insert};
use crate::desks::{Scene, limits, play};
use change_list::Item;
use desk::{Desk, Ended, Seat, Taker};
use history::Naming;
use interval_class::{Interval, Intervals};
use key_class::Refusal;
use std::alloc::Global;
use std::process::Abort;
use std::sync::Wait;
use std::sync::ledger::Ledger;
use std::test::*;
use test_support::all;

/// How the items that a client took are altered before they are handed in.
#[derive(Clone, Copy)]
enum Alteration {
    Nothing,
    /// Only the first item is handed in.
    FirstAlone,
    RowDoubled,
    ChangesExchanged,
    MarkTooHigh,
}

/// Alters the items: three rows, three changes and a mark.
fn alter(items: &mut Vec<Item<Interval>>, alteration: Alteration) -> Result<(), Refusal> {
    if items.len() != 7 {
        return Err(Refusal::NotHere);
    }
    match alteration {
        Alteration::Nothing => {}
        Alteration::FirstAlone => items.truncate(1),
        Alteration::RowDoubled => {
            let doubled = items[0];
            items.insert(0, doubled)?;
        }
        Alteration::ChangesExchanged => items.as_mut_slice().swap(3, 4),
        Alteration::MarkTooHigh => items[6] = Item::Mark(7),
    }
    Ok(())
}

/// Inserts a row for each of these keys.
fn insert_all<L: Ledger + Naming, R: Wait>(
    rt: &R,
    desk: &Desk<Intervals, L>,
    seat: &mut Seat<Intervals, L>,
    lows: &[i64],
) -> Result<(), Refusal> {
    for low in lows {
        let _number = insert(rt, desk, seat, Interval::new(*low, *low)?)?;
    }
    Ok(())
}

/// Two more rows, a delete, and a mark; and what the cursor delivers.
fn followed<L: Ledger + Naming, R: Wait>(
    rt: &R,
    alloc: Global,
    desk: &Desk<Intervals, L>,
    seat: &mut Seat<Intervals, L>,
    taker: &mut Taker<'_, Intervals, L>,
) -> Result<Vec<Item<Interval>>, Refusal> {
    insert_all(rt, desk, seat, &[4, 5])?;
    let _deleted = delete(rt, desk, seat, 1)?;
    let _asked = desk.ask_mark(rt, taker.cursor());
    delivered(rt, alloc, desk, taker)
}

/// The opening of the cursor and the number of commits that a receipt names.
fn receipt_of(ended: Ended<Interval>) -> Option<(u64, u64)> {
    match ended {
        Ended::Receipt(receipt) => Some((receipt.opened(), receipt.commits())),
        Ended::NoReceipt => None,
    }
}

/// The receipt of a cursor that is opened after three rows.
fn closed_with<L: Ledger + Naming, R: Wait>(
    rt: &R,
    alloc: Global,
    desk: &Desk<Intervals, L>,
    seat: &mut Seat<Intervals, L>,
    alteration: Alteration,
) -> Result<Option<(u64, u64)>, Refusal> {
    insert_all(rt, desk, seat, &[1, 2, 3])?;
    let mut taker = desk.open_cursor(rt, seat, all(), 16)?;
    let mut items = followed(rt, alloc, desk, seat, &mut taker)?;
    alter(&mut items, alteration)?;
    Ok(receipt_of(taker.close(rt, seat, items.as_slice())))
}

/// A client that hands in altered items, and what its receipt names.
#[derive(Drop)]
struct Altered {
    alteration: Alteration,
    receipt: Option<(u64, u64)>,
}

impl Scene for Altered {
    fn play<L: Ledger + Naming, R: Wait + Abort>(
        &self,
        rt: &R,
        alloc: Global,
        desk: &Desk<Intervals, L>,
        seats: &mut [Seat<Intervals, L>],
    ) -> Result<(), Refusal> {
        for seat in seats {
            let receipt = closed_with(rt, alloc, desk, seat, self.alteration)?;
            assert!(rt; receipt == self.receipt);
        }
        Ok(())
    }
}

#[test]
fn altered_items_get_no_receipt(rt: HostRuntime) -> Result<(), Fail> {
    for (place, (alteration, receipt)) in [
        (Alteration::Nothing, Some((3, 6))),
        (Alteration::FirstAlone, Some((3, 6))),
        (Alteration::RowDoubled, None),
        (Alteration::ChangesExchanged, None),
        (Alteration::MarkTooHigh, None),
    ]
    .into_iter()
    .enumerate()
    {
        let scene = Altered {
            alteration,
            receipt,
        };
        assert!(rt;
            play(&rt, rt.alloc(), limits(99, 99), 1, &scene)? == 6,
            "{place}"
        );
    }
    Ok(())
}
