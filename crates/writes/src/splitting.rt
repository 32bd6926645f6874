//! Splits for an insertion made visit by visit. Their sides may be worked out without the world.
ghost use Rattle.std.specs.Prelude.{◌≡◌, ◌≢◌, IfOk, IfErr, IsTrue, OnErr, OnOk};
ghost use Rattle.key_class.specs.Refusals.{IsEither};
ghost use Rattle.world.specs.Promises.{KeepsMailboxes};
ghost use Rattle.world.specs.States.{IsSoundWorld};
ghost use Rattle.world.specs.Visits.{Makes};
ghost use Rattle.writes.specs.PageSteps.{IsWanting};
ghost use Rattle.writes.specs.Splitting.{MovesUnlessBarred, SplitsBySides, SplitsIfAny};
ghost use Rattle.writes.specs.InsertVisits.{IsOfPages, SplitsAtMost, TellsInTime};

use key_class::{KeyClass, Refusal};
use mailbox::Outlet;
use world::{Event, Reply, SplitTask, World};

/// Passes on a refusal for lack of pages or memory. After any other refusal the split is simply given up.
fn tell_want(why: Refusal) -> Result<(), Refusal>
    ensures told { IfErr result (λ told. told ≡ why) }
    ensures refusals { IfErr result (IsEither Refusal.OutOfMemory Refusal.PagesFull) }
    ensures memory { OnOk result (why ≢ Refusal.OutOfMemory) }
    ensures pages { OnOk result (why ≢ Refusal.PagesFull) }
{
    match why {
        Refusal::OutOfMemory => Err(Refusal::OutOfMemory),
        Refusal::PagesFull => Err(Refusal::PagesFull),
        _ => Ok(()),
    }
}

/// Makes an event that changes only pages. If the state of the pages refuses it, nothing is done.
///
/// # Errors
/// `PagesFull` or `OutOfMemory`. Nothing is changed then.
fn make<C: KeyClass, O: Outlet<C::Key>>(
    world: &mut World<C, O>,
    seat: u32,
    event: Event<C::Key, C::Atom>,
) -> Result<(), Refusal>
    requires pages { IsOfPages event }
    ensures makes { Makes O.Consumer C.rules O.rule seat world.old event world.new }
    ensures moves { OnOk result (MovesUnlessBarred C.rules O.rule world.old event world.new) }
    ensures commits { world.new.commits ≡ world.old.commits }
    ensures sound { IsSoundWorld C.rules.is_cover world.new }
    ensures mailboxes { KeepsMailboxes C.rules O.rule world.old world.new }
    ensures unchanged { OnErr result (world.new ≡ world.old) }
    ensures refusals { IfErr result (IsWanting world.old.search) }
{
    match world.step_as(seat, event) {
        Reply::Refused(why) => tell_want(why),
        _ => Ok(()),
    }
}

/// Splits a page by a task that was worked out without the world. False if it came too late: then the page has
/// changed, and nothing is done. A split that the state of the pages refuses is given up.
///
/// # Errors
/// `PagesFull` or `OutOfMemory`. Nothing is changed then.
pub fn split_prepared<C: KeyClass, O: Outlet<C::Key>>(
    world: &mut World<C, O>,
    seat: u32,
    task: SplitTask<C>,
) -> Result<bool, Refusal>
    ensures splits { TellsInTime O.Consumer C.rules O.rule
        seat world.old task result world.new }
    ensures made { IfOk result (λ in_time.
        IsTrue in_time → SplitsBySides C.rules O.rule world.old task world.new) }
    ensures commits { world.new.commits ≡ world.old.commits }
    ensures sound { IsSoundWorld C.rules.is_cover world.new }
    ensures mailboxes { KeepsMailboxes C.rules O.rule world.old world.new }
    ensures unchanged { OnErr result (world.new ≡ world.old) }
    ensures refusals { IfErr result (IsWanting world.old.search) }
{
    world.recall_soundness();
    match world.split_of(task) {
        None => Ok(false),
        Some(split) => {
            make(world, seat, split)?;
            Ok(true)
        }
    }
}

/// Passes on a refusal for lack of memory. After any other refusal the split is simply given up.
fn give_up(why: Refusal) -> Result<(), Refusal>
    ensures told { IfErr result (λ told. told ≡ Refusal.OutOfMemory) }
    ensures other { OnOk result (why ≢ Refusal.OutOfMemory) }
{
    match why {
        Refusal::OutOfMemory => Err(Refusal::OutOfMemory),
        _ => Ok(()),
    }
}

/// Splits a page in one visit. A split that the state of the pages refuses is given up.
///
/// # Errors
/// `PagesFull` or `OutOfMemory`. Nothing is changed then.
pub fn split_at_once<C: KeyClass, O: Outlet<C::Key>>(
    world: &mut World<C, O>,
    seat: u32,
    page: u32,
) -> Result<(), Refusal>
    ensures splits { SplitsAtMost O.Consumer C.rules O.rule seat world.old page world.new }
    ensures made { OnOk result (SplitsIfAny C.rules O.rule world.old page world.new) }
    ensures commits { world.new.commits ≡ world.old.commits }
    ensures sound { IsSoundWorld C.rules.is_cover world.new }
    ensures mailboxes { KeepsMailboxes C.rules O.rule world.old world.new }
    ensures unchanged { OnErr result (world.new ≡ world.old) }
    ensures refusals { IfErr result (IsWanting world.old.search) }
{
    world.recall_soundness();
    let mut task = match world.prepare_split(u64::from(page)) {
        Ok(task) => task,
        Err(why) => return give_up(why),
    };
    match task.work() {
        Ok(()) => {
            split_prepared(world, seat, task)?;
            Ok(())
        }
        Err(why) => give_up(why),
    }
}
