ghost use Rattle.std.specs.Prelude.{◌≡◌, ◌≤◌, Err, OnOk, IfErr};
ghost use Rattle.key_class.specs.Limits.{most_depth};
ghost use Rattle.key_class.specs.Queries.{query_of, depth_of};
ghost use Rattle.front.specs.AsTold.{Tells};
ghost use Rattle.front.specs.Told.{RepliesOpen};
ghost use Rattle.front.specs.Sessions.{AnswersTokens, LacksPagesOnceTold, TellsFinding, TellsOpening, TellsRequest, TellsTokens, ToldAll, ToldFirst, ToldWhole};
ghost use Rattle.store.specs.States.{new_store};
ghost use Rattle.change_list.specs.declared.config.Config.{Config};
ghost use Rattle.front.specs.Conversations.{IfOutOfMemory, IfReadFails, IfWriteFails, IsConversationFault, Kept, exchange};

use crate::answer::Answer;
use crate::answers::{Gathered, write_reply};
use crate::commands::{close, delete, find, insert, mark, move_row, next, open, open_from, sweep};
use crate::conversation::{Responder, converse};
use crate::request::{Request, read_request};
use key_class::{Fault, KeyClass, Pred, Refusal};
use query_text::{ClassText, Lexeme, PrintBuffer, first_of, parse_tokens};
use std::alloc::Global;
use std::io::{Read, Write};
use store::Store;

/// Opens a cursor, at the present commits or after a commit that it follows.
fn open_at<C: KeyClass>(
    store: &mut Store<C>,
    room: u64,
    from: Option<u64>,
    query: Pred<C::Atom>,
) -> Answer<C::Key>
    requires { depth_of (query_of query) ≤ most_depth }
    ensures { Tells C.rules store.old store.new (RepliesOpen room from (query_of query) result) }
{
    match from {
        None => open(store, room, query),
        Some(commit) => open_from(store, room, commit, query),
    }
}

/// Opens a cursor on the query that lexemes spell.
fn open_query<C: ClassText>(
    alloc: Global,
    store: &mut Store<C>,
    text: &[u8],
    room: u64,
    from: Option<u64>,
    lexemes: &[Lexeme],
) -> Answer<C::Key>
    ensures { TellsOpening C.texts C.rules
        store.old store.new text.now lexemes.now room from result }
{
    match parse_tokens::<C>(alloc, text, lexemes) {
        Ok(query) => open_at(store, room, from, query),
        Err(why) => Answer::Refused(why),
    }
}

/// Finds the rows that match the query that lexemes spell.
fn find_query<C: ClassText>(
    alloc: Global,
    store: &mut Store<C>,
    text: &[u8],
    lexemes: &[Lexeme],
) -> Answer<C::Key>
    ensures { TellsFinding C.texts C.rules store.old store.new text.now lexemes.now result }
{
    match parse_tokens::<C>(alloc, text, lexemes) {
        Ok(query) => find(store, &query),
        Err(why) => Answer::Refused(why),
    }
}

/// Carries out what a line asks.
fn carry_out<C: ClassText>(
    alloc: Global,
    store: &mut Store<C>,
    text: &[u8],
    request: Request<'_, C::Key>,
) -> Answer<C::Key>
    ensures { TellsRequest C.texts C.rules store.old store.new text.now request.entry result }
{
    match request {
        Request::Insert(key, tag) => insert(store, key, tag),
        Request::Delete(row) => delete(store, row),
        Request::Move(row, key) => move_row(store, row, key),
        Request::Open(room, from, lexemes) => {
            open_query(alloc, store, text, room, from, lexemes)
        }
        Request::Next(cursor) => next(store, cursor),
        Request::Mark(cursor) => mark(store, cursor),
        Request::Find(lexemes) => find_query(alloc, store, text, lexemes),
        Request::Sweep => sweep(store),
        Request::Close(cursor) => close(store, cursor),
    }
}

/// The answer to the tokens of a line. `None` if there are no tokens.
fn reply_to_tokens<C: ClassText>(
    alloc: Global,
    store: &mut Store<C>,
    text: &[u8],
    lexemes: &[Lexeme],
) -> Option<Answer<C::Key>>
    ensures { TellsTokens C.texts C.rules store.old store.new text.now lexemes.now result }
{
    let (first, rest) = first_of(lexemes)?;
    match read_request::<C>(text, first, rest) {
        Ok(request) => Some(carry_out(alloc, store, text, request)),
        Err(place) => Some(Answer::Refused(Refusal::Line(place as u64))),
    }
}

impl<C: ClassText> Responder for Store<C> {
    ghost answers = { λ len old ts text new. AnswersTokens C.texts C.rules len old ts text new };

    fn answer<W: Write>(
        &mut self,
        alloc: Global,
        text: &[u8],
        lexemes: &[Lexeme],
        writer: &mut W,
        gathered: &mut Gathered,
        scratch: &mut PrintBuffer,
    ) -> Result<(), Fault> {
        match reply_to_tokens(alloc, self, text, lexemes) {
            Some(reply) => write_reply::<C, W>(writer, gathered, scratch, &reply),
            None => Ok(()),
        }
    }
}

/// Answers the lines of a reader until its bytes end. The store must be new, as `Store::new` gives it.
///
/// Answers are gathered. They are written when there are enough of them, and before the reader is asked for more.
///
/// # Errors
/// `OutOfMemory` if there was no memory for a buffer at the start: then nothing was read. `Read` if the reader
/// failed, or hadn't ended after 2^64 - 1 reads: all whole lines read before were answered. `Write` if the writer
/// failed: the commands of the first lines, up to some line, were carried out, and a beginning of their answers was
/// written.
pub fn session<C: ClassText, R: Read, W: Write>(
    alloc: Global,
    reader: &mut R,
    writer: &mut W,
    store: &mut Store<C>,
) -> Result<(), Fault>
    requires { (config : Config) × (store.old ≡ new_store config) }
    ensures ok { OnOk result (ToldAll C.texts C.rules store.old store.new
        (exchange R.remaining reader.old reader.new W.contents writer.old writer.new)) }
    ensures read { IfReadFails result (ToldWhole C.texts C.rules store.old store.new
        (exchange R.remaining reader.old reader.new W.contents writer.old writer.new)) }
    ensures write { IfWriteFails result (ToldFirst C.texts C.rules store.old store.new
        (exchange R.remaining reader.old reader.new W.contents writer.old writer.new)) }
    ensures pages { LacksPagesOnceTold C.texts C.rules store.new }
    ensures memory { IfOutOfMemory result (Kept reader.old reader.new writer.old writer.new) }
    ensures unchanged { IfOutOfMemory result (store.new ≡ store.old) }
    ensures faults { IfErr result IsConversationFault }
{
    converse(alloc, reader, writer, store)
}
