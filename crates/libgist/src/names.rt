//! The names of refusals.
ghost use Rattle.std.specs.Prelude.{◌≡◌, ◌<◌, ◌⊎◌, IfSome, IfNone};
ghost use Rattle.libgist.specs.Denials.{number_told};
ghost use Rattle.libgist.specs.Names.{IsNameOf, TellsName, name_told};

use crate::buffers::write_over;
use crate::denied::Denied;
use key_class::Refusal;

/// The refusal with a number. Those of texts get byte 0, which their names don't tell.
fn numbered(number: u32) -> Option<Denied>
    ensures some { IfSome result (λ why. number_told why ≡ number) }
    ensures none { IfNone result ((number ≡ 0) ⊎ (31 < number)) }
{
    match number {
        1 => Some(Denied::By(Refusal::OutOfMemory)),
        2 => Some(Denied::By(Refusal::BadConfig)),
        3 => Some(Denied::By(Refusal::PagesFull)),
        4 => Some(Denied::By(Refusal::CommitsFull)),
        5 => Some(Denied::By(Refusal::CursorsFull)),
        6 => Some(Denied::By(Refusal::FindersFull)),
        7 => Some(Denied::By(Refusal::NotHere)),
        8 => Some(Denied::By(Refusal::NodeFull)),
        9 => Some(Denied::By(Refusal::TooFew)),
        10 => Some(Denied::By(Refusal::Uncovered)),
        11 => Some(Denied::By(Refusal::Owed)),
        12 => Some(Denied::By(Refusal::Unhung)),
        13 => Some(Denied::By(Refusal::BadSides)),
        14 => Some(Denied::By(Refusal::NoSuchRow)),
        15 => Some(Denied::By(Refusal::AlreadyDeleted)),
        16 => Some(Denied::By(Refusal::NoSuchCursor)),
        17 => Some(Denied::By(Refusal::CursorClosed)),
        18 => Some(Denied::By(Refusal::NoRoom)),
        19 => Some(Denied::By(Refusal::Idle)),
        20 => Some(Denied::By(Refusal::NoSuchFinder)),
        21 => Some(Denied::By(Refusal::QueryText(0))),
        22 => Some(Denied::By(Refusal::Line(0))),
        23 => Some(Denied::By(Refusal::FromFuture)),
        24 => Some(Denied::By(Refusal::FeedFull)),
        25 => Some(Denied::By(Refusal::NotSubscribed)),
        26 => Some(Denied::BadEnds),
        27 => Some(Denied::OtherClass),
        28 => Some(Denied::NoHandle),
        29 => Some(Denied::BadLimits),
        30 => Some(Denied::By(Refusal::Compacted)),
        31 => Some(Denied::By(Refusal::OtherStore)),
        _ => None,
    }
}

/// The name of a refusal.
fn name(denied: Denied) -> &'static str
    ensures { result.now ≡ name_told denied }
{
    match denied {
        Denied::By(why) => why.name(),
        Denied::BadEnds => "BadEnds",
        Denied::OtherClass => "OtherClass",
        Denied::NoHandle => "NoHandle",
        Denied::BadLimits => "BadLimits",
    }
}

/// The name of the refusal with a number, empty if there is none.
fn name_numbered(number: u32) -> &'static str
    ensures { IsNameOf number result.now }
{
    match numbered(number) {
        Some(denied) => name(denied),
        None => "",
    }
}

/// Writes the name of the refusal with a number, and a 0 after it, into a buffer, as far as they fit. Gives the
/// length of the name, which is 0 if no refusal has the number.
#[unsafe(no_mangle)]
pub extern "C" fn gist_refusal_name(refusal: u32, name: &mut [u8]) -> usize
    ensures { TellsName refusal result name.old name.new }
{
    let text = name_numbered(refusal).as_bytes();
    if text.len() < name.len() {
        name[text.len()] = 0;
    }
    write_over(name, text);
    text.len()
}
