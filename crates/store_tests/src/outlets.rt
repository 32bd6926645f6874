//! Mailboxes: trays, and rings that are emptied at their other end.
use change_list::Item;
use mailbox::{Outlet, Ring, Taken, Tray};
use rtrb::Consumer;
use std::alloc::{AllocError, Global};
use std::test::Fail;

/// Whether an outlet takes exactly as many marks as it has room for, and hands the next one back.
fn fills<O: Outlet<u8>>(outlet: &mut O, room: u64) -> bool {
    for number in 0..room {
        if outlet.offer(Item::Mark(number)).is_err() {
            return false;
        }
    }
    outlet.offer(Item::Mark(room)) == Err(Item::Mark(room))
}

fn make<O: Outlet<u8>>(alloc: Global, room: u32) -> Result<(O, O::Consumer), AllocError> {
    O::make(alloc, room)
}

fn is_emptied_elsewhere<O: Outlet<u8>>() -> bool {
    O::is_emptied_elsewhere()
}

/// Whether marks come out of a tray in order, and then nothing.
fn empties_tray(tray: &mut Tray<u8>, room: u64) -> bool {
    (0..room).all(|number| tray.take() == Taken::Item(Item::Mark(number)))
        && tray.take() == Taken::Nothing
}

/// Whether marks come out of a ring's end in order, and then nothing; the ring itself gives none.
fn empties_ring(ring: &mut Ring<u8>, end: &mut Consumer<Item<u8>>, room: u64) -> bool {
    ring.take() == Taken::Elsewhere
        && (0..room).all(|number| end.pop().ok() == Some(Item::Mark(number)))
        && end.pop().is_err()
}

/// Whether a tray of this room is filled and emptied twice.
fn tray_has_room_for(alloc: Global, room: u32) -> Result<bool, AllocError> {
    let (mut tray, ()) = make::<Tray<u8>>(alloc, room)?;
    let room = u64::from(room);
    let once = fills(&mut tray, room) && empties_tray(&mut tray, room);
    Ok(once && fills(&mut tray, room) && empties_tray(&mut tray, room))
}

/// Whether a ring of this room is filled and emptied twice, the second time wrapping around.
fn ring_has_room_for(alloc: Global, room: u32) -> Result<bool, AllocError> {
    let (mut ring, mut end) = make::<Ring<u8>>(alloc, room)?;
    let room = u64::from(room);
    let once = fills(&mut ring, room) && empties_ring(&mut ring, &mut end, room);
    Ok(once && fills(&mut ring, room) && empties_ring(&mut ring, &mut end, room))
}

#[test]
fn outlets_of_each_room_are_filled(rt: HostRuntime) -> Result<(), Fail> {
    assert!(rt; is_emptied_elsewhere::<Ring<u8>>() && !is_emptied_elsewhere::<Tray<u8>>());
    for room in [1, 2, 3, 64, 65, 4_096] {
        assert!(rt; tray_has_room_for(rt.alloc(), room)?, "{room}");
        assert!(rt; ring_has_room_for(rt.alloc(), room)?, "{room}");
    }
    Ok(())
}
