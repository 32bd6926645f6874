//! Reads lines, and writes the answers that a responder gives.
ghost use Rattle.std.specs.Prelude.{◌≡◌, ℕ, ◌≤◌, List, length, OnOk, IfErr, vec_capacity, Err};
ghost use Rattle.query_text.specs.Tokens.{Placed, placed};
ghost use Rattle.front.specs.Conversations.{AnswersLine, AnsweredAll, AnsweredWhole, AnsweredFirst, IfOutOfMemory, IfReadFails, IfWriteFails, IsConversationFault, Kept, exchange};
ghost use Rattle.front.specs.Buffered.{IsRestOf};
ghost use Rattle.front.specs.Written.{HasRoomForLine, Says};

use crate::answers::{Gathered, gather_refusal, send};
use crate::line_buffer::LineBuffer;
use key_class::limits::MAX_LINE;
use key_class::{Fault, Refusal};
use query_text::{Lexeme, PrintBuffer, scan};
use std::alloc::Global;
use std::io::{Read, Write};

/// Answers lines by their tokens, and may be changed by each of them.
pub trait Responder {
    /// Whether a text may answer the tokens of a line of so many bytes, and which state of the responder comes of it.
    ghost answers: { ℕ → Self → List Placed → List ℕ → Self → Type 0 };

    /// Answers the lexemes of a line: appends the answer to the gathered ones. `scratch` is overwritten if the answer
    /// has a key.
    ///
    /// # Errors
    /// `Write` if the writer failed. The line is carried out all the same.
    fn answer<W: Write>(
        &mut self,
        alloc: Global,
        text: &[u8],
        lexemes: &[Lexeme],
        writer: &mut W,
        gathered: &mut Gathered,
        scratch: &mut PrintBuffer,
    ) -> Result<(), Fault>
        requires room { HasRoomForLine gathered.old.items }
        ensures answers { (said : List ℕ)
            × answers (length text.now) self.old (placed text.now lexemes.now) said self.new
            × Says said result W.contents writer.old writer.new gathered.old gathered.new }
        ensures room { OnOk result (HasRoomForLine gathered.new.items) }
        ensures err { IfErr result (λ e. e ≡ Fault.Write) };
}

/// Answers a line. If it is too long, its first bytes were dropped, and `line` has only the rest of it.
fn answer_line<S: Responder, W: Write>(
    alloc: Global,
    responder: &mut S,
    line: &[u8],
    overlong: bool,
    lexemes: &mut Vec<Lexeme>,
    writer: &mut W,
    gathered: &mut Gathered,
    scratch: &mut PrintBuffer,
) -> Result<(), Fault>
    requires capacity { 4096 ≤ vec_capacity lexemes.old }
    requires room { HasRoomForLine gathered.old.items }
    ensures answers { (whole : List ℕ) → IsRestOf overlong whole line.now → (said : List ℕ)
        × AnswersLine S.answers responder.old whole said responder.new
        × Says said result W.contents writer.old writer.new gathered.old gathered.new }
    ensures capacity { 4096 ≤ vec_capacity lexemes.new }
    ensures room { OnOk result (HasRoomForLine gathered.new.items) }
    ensures err { IfErr result (λ e. e ≡ Fault.Write) }
{
    if overlong || line.len() > MAX_LINE {
        return gather_refusal(Refusal::Line(MAX_LINE as u64), writer, gathered);
    }
    match scan(line, lexemes) {
        Ok(()) => responder.answer(alloc, line, lexemes.as_slice(), writer, gathered, scratch),
        Err(_) => unreachable!(),
    }
}

/// Answers the lines of a reader until its bytes end.
///
/// Answers are gathered. They are written when there are enough of them, and before the reader is asked for more.
///
/// # Errors
/// `OutOfMemory` if there was no memory for a buffer at the start: then nothing was read. `Read` if the reader
/// failed, or hadn't ended after 2^64 - 1 reads: all whole lines read before were answered. `Write` if the writer
/// failed: the first lines, up to some line, were carried out, and a beginning of their answers was written.
pub fn converse<S: Responder, R: Read, W: Write>(
    alloc: Global,
    reader: &mut R,
    writer: &mut W,
    responder: &mut S,
) -> Result<(), Fault>
    ensures ok { OnOk result (AnsweredAll S.answers responder.old responder.new
        (exchange R.remaining reader.old reader.new W.contents writer.old writer.new)) }
    ensures read { IfReadFails result (AnsweredWhole S.answers responder.old responder.new
        (exchange R.remaining reader.old reader.new W.contents writer.old writer.new)) }
    ensures write { IfWriteFails result (AnsweredFirst S.answers responder.old responder.new
        (exchange R.remaining reader.old reader.new W.contents writer.old writer.new)) }
    ensures memory { IfOutOfMemory result (Kept reader.old reader.new writer.old writer.new) }
    ensures unchanged { IfOutOfMemory result (responder.new ≡ responder.old) }
    ensures faults { IfErr result IsConversationFault }
{
    let Ok(mut lines) = LineBuffer::new(alloc) else {
        return Err(Fault::OutOfMemory);
    };
    let Ok(mut lexemes) = Vec::with_capacity(alloc, MAX_LINE) else {
        return Err(Fault::OutOfMemory);
    };
    let mut gathered = Gathered::new();
    let mut scratch = PrintBuffer::new();
    // A reader that still hasn't ended after so many reads counts as one that failed (docs/DECISIONS.md, "A reader
    // that never ends").
    'reading: for _ in 0..u64::MAX {
        send(writer, &mut gathered)?;
        if !lines.fill(reader)? {
            answer_line(
                alloc,
                responder,
                lines.rest(),
                lines.is_overlong(),
                &mut lexemes,
                writer,
                &mut gathered,
                &mut scratch,
            )?;
            send(writer, &mut gathered)?;
            return Ok(());
        }
        'answering: while let Some(line) = lines.line() {
            let passed = line.len() + 1;
            answer_line(
                alloc,
                responder,
                line,
                lines.is_overlong(),
                &mut lexemes,
                writer,
                &mut gathered,
                &mut scratch,
            )?;
            lines.pass(passed);
        }
    }
    send(writer, &mut gathered)?;
    Err(Fault::Read)
}
