//! How the replies of a world are written.
ghost use Rattle.std.specs.Prelude.{◌≡◌, ◌++◌, OnOk, IfErr};
ghost use Rattle.front.specs.EventReplies.{reply_line};
ghost use Rattle.front.specs.Written.{HasRoomForLine, Says};

use crate::answers::{
    Gathered, append_item, append_numbered, append_pair, append_refusal, send_enough,
};
use key_class::Fault;
use mailbox::Outlet;
use query_text::{ClassText, PrintBuffer, append};
use std::io::Write;
use world::Reply;

/// Appends the line of a reply. `line` is scratch: it is overwritten if the reply has a key.
fn append_line<C: ClassText, O: Outlet<C::Key>>(
    gathered: &mut Gathered,
    line: &mut PrintBuffer,
    reply: &Reply<C::Key, O::Consumer>,
)
    requires room { HasRoomForLine gathered.old.items }
    ensures { gathered.new.items ≡ gathered.old.items ++ reply_line C.texts.key_text reply.now }
{
    match reply {
        Reply::Enlarged => append(gathered, b"enlarged\n"),
        Reply::Committed(stamped) => append_numbered(gathered, b"committed ", stamped.number()),
        Reply::Split(sibling) => append_numbered(gathered, b"split ", u64::from(*sibling)),
        Reply::Posted => append(gathered, b"posted\n"),
        Reply::Grown(first, second) => append_pair(
            gathered,
            b"grown ",
            u64::from(*first),
            u64::from(*second),
        ),
        Reply::Finder(finder) => append_numbered(gathered, b"finder ", *finder),
        Reply::Seeking => append(gathered, b"seeking\n"),
        Reply::Unfound => append(gathered, b"unfound\n"),
        Reply::Swept(count) => append_numbered(gathered, b"swept ", *count),
        Reply::Opened(cursor, _) => append_numbered(gathered, b"opened ", *cursor),
        Reply::Offered => append(gathered, b"offered\n"),
        Reply::Visited(page) => append_numbered(gathered, b"visited ", u64::from(*page)),
        Reply::Passed(number) => append_numbered(gathered, b"passed ", *number),
        Reply::Asked => append(gathered, b"asked\n"),
        Reply::Taken(item) => append_item::<C>(gathered, line, item),
        Reply::Nothing => append(gathered, b"nothing\n"),
        Reply::Closed => append(gathered, b"closed\n"),
        Reply::Refused(why) => append_refusal(gathered, *why),
    }
}

/// Appends the line of a reply to the gathered answers, which may be written first. `line` is scratch: it is
/// overwritten if the reply has a key.
///
/// # Errors
/// `Write` if the writer failed. It took a beginning of what was gathered.
pub fn write_event_reply<C: ClassText, O: Outlet<C::Key>, W: Write>(
    writer: &mut W,
    gathered: &mut Gathered,
    line: &mut PrintBuffer,
    reply: &Reply<C::Key, O::Consumer>,
) -> Result<(), Fault>
    requires room { HasRoomForLine gathered.old.items }
    ensures written { Says (reply_line C.texts.key_text reply.now) result
        W.contents writer.old writer.new gathered.old gathered.new }
    ensures room { OnOk result (HasRoomForLine gathered.new.items) }
    ensures err { IfErr result (λ e. e ≡ Fault.Write) }
{
    append_line::<C, O>(gathered, line, reply);
    send_enough(writer, gathered)
}
