ghost use Rattle.std.specs.Prelude.{◌≡◌, ◌+◌, ◌≤◌, [], ◌++◌, length, codes, decimal, OnOk, IfErr, OnErr};
ghost use Rattle.std.specs.List.{flat_map};
ghost use Rattle.front.specs.Replies.{row_text, row_line, item_line, refusal_line, first_line, listed, reply_text, numbered_line, pair_line, content_text, moved_line};
ghost use Rattle.std.specs.Io.KnownBytes.{Appends};
ghost use Rattle.change_list.specs.declared.item.Item.TheVariants.{Inserted};
ghost use Rattle.front.specs.Written.{HasRoomForLine, Says, TakesBeginning};

use crate::answer::Answer;
use crate::retrying::write_retrying;
use arrayvec::ArrayVec;
use change_list::{Item, Row};
use itoa::write_digits;
use key_class::{Fault, Refusal};
use query_text::{ClassText, PrintBuffer, append, append_number};
use std::io::Write;

/// How many bytes of answers are gathered before they are written: a write for each line would be slow.
const GATHERED: usize = 4_096;

/// The capacity of the gathered answers: less than `GATHERED` bytes, and the lines of `TOGETHER` rows behind them.
const ANSWERS: usize = 8_192;

/// How many rows are appended at once: their lines have at most 450 bytes each.
const TOGETHER: usize = 8;

/// Answers gathered for the writer, in an array, so that no memory needs to be requested for them.
pub type Gathered = ArrayVec<u8, ANSWERS>;

/// Writes all bytes. A write that a signal interrupts is tried again.
///
/// # Errors
/// `Write` if the writer failed. It took a beginning of the bytes, and is given no more.
fn write_out<W: Write>(writer: &mut W, bytes: &[u8]) -> Result<(), Fault>
    ensures ok { OnOk result (Appends (W.contents writer.old) (W.contents writer.new) bytes.now) }
    ensures part { OnErr result (TakesBeginning W.contents writer.old writer.new bytes.now) }
    ensures err { IfErr result (λ e. e ≡ Fault.Write) }
{
    let mut rest = bytes;
    'writing: while !rest.is_empty() {
        match write_retrying(writer, rest) {
            Ok(0) => return Err(Fault::Write),
            Ok(count) => rest = &rest[count..],
            Err(_) => return Err(Fault::Write),
        }
    }
    Ok(())
}

/// Writes what was gathered.
///
/// # Errors
/// `Write` if the writer failed. It took a beginning, and is given no more.
pub fn send<W: Write>(writer: &mut W, gathered: &mut Gathered) -> Result<(), Fault>
    ensures written { Says [] result W.contents writer.old writer.new gathered.old gathered.new }
    ensures empty { OnOk result (gathered.new.items ≡ []) }
    ensures err { IfErr result (λ e. e ≡ Fault.Write) }
{
    write_out(writer, gathered.as_slice())?;
    gathered.clear();
    Ok(())
}

/// Writes what was gathered, if that is at least `GATHERED` bytes, so that there is room for a further line.
///
/// # Errors
/// `Write` if the writer failed. It took a beginning, and is given no more.
pub fn send_enough<W: Write>(writer: &mut W, gathered: &mut Gathered) -> Result<(), Fault>
    ensures written { Says [] result W.contents writer.old writer.new gathered.old gathered.new }
    ensures room { OnOk result (HasRoomForLine gathered.new.items) }
    ensures err { IfErr result (λ e. e ≡ Fault.Write) }
{
    if gathered.len() < GATHERED {
        return Ok(());
    }
    send(writer, gathered)
}

/// Appends a number and a line feed.
fn append_last(gathered: &mut Gathered, number: u64)
    requires room { length gathered.old.items + 21 ≤ 8192 }
    ensures { gathered.new.items ≡ gathered.old.items ++ (decimal number ++ codes "\n") }
{
    let mut ending = [b'\n'; 21];
    let start = write_digits(number, &mut ending, 20);
    append(gathered, &ending[start..]);
}

/// Appends a line of some words and a number.
#[inline]
pub fn append_numbered(gathered: &mut Gathered, words: &[u8], number: u64)
    requires room { length gathered.old.items + (length words.now + 21) ≤ 8192 }
    ensures { gathered.new.items ≡ gathered.old.items ++ numbered_line words.now number }
{
    append(gathered, words);
    append_last(gathered, number);
}

/// Appends a line of some words and two numbers.
pub fn append_pair(gathered: &mut Gathered, words: &[u8], first: u64, second: u64)
    requires room { length gathered.old.items + (length words.now + 42) ≤ 8192 }
    ensures { gathered.new.items ≡ gathered.old.items ++ pair_line words.now first second }
{
    append(gathered, words);
    append_number(gathered, first);
    append_numbered(gathered, b" ", second);
}

/// Puts a row's key, its tag and a line feed in front of the bytes in `line`.
#[inline]
fn put_content<C: ClassText>(line: &mut PrintBuffer, row: &Row<C::Key>)
    requires room { length line.old ≤ 3200 }
    ensures text { line.new ≡ content_text C.texts.key_text row.now ++ (codes "\n" ++ line.old) }
    ensures short { length line.new ≤ length line.old + 425 }
{
    line.put_byte(b'\n');
    line.put_number(row.tag);
    line.put_byte(b' ');
    C::put_text(row.key, line);
}

/// Puts a row's number, its key, its tag and a line feed in front of the bytes in `line`.
#[inline]
fn put_row<C: ClassText>(line: &mut PrintBuffer, row: &Row<C::Key>)
    requires room { length line.old ≤ 3200 }
    ensures text { line.new ≡ row_text C.texts.key_text row.now ++ (codes "\n" ++ line.old) }
    ensures short { length line.new ≤ length line.old + 446 }
{
    put_content::<C>(line, row);
    line.put_byte(b' ');
    line.put_number(row.row);
}

/// Appends the line of a row. `line` is scratch: it is overwritten.
fn append_row_line<C: ClassText>(gathered: &mut Gathered, line: &mut PrintBuffer, row: &Row<C::Key>)
    requires room { HasRoomForLine gathered.old.items }
    ensures { gathered.new.items ≡ gathered.old.items ++ row_line C.texts.key_text row.now }
{
    line.clear();
    put_row::<C>(line, row);
    line.put(b"row ");
    append(gathered, line.as_slice());
}

/// Writes the lines of rows into `line`, from the last row to the first, since `line` is filled from its end.
fn put_rows<C: ClassText>(line: &mut PrintBuffer, rows: &[Row<C::Key>])
    requires few { length rows.now ≤ 8 }
    ensures text { line.new ≡ flat_map (row_line C.texts.key_text) rows.now }
    ensures short { length line.new ≤ 3600 }
{
    line.clear();
    let mut place = rows.len();
    while place > 0 {
        place -= 1;
        put_row::<C>(line, &rows[place]);
        line.put(b"row ");
    }
}

/// Appends the lines of rows. `line` is scratch: it is overwritten.
fn append_rows<C: ClassText>(gathered: &mut Gathered, line: &mut PrintBuffer, rows: &[Row<C::Key>])
    requires few { length rows.now ≤ 8 }
    requires room { HasRoomForLine gathered.old.items }
    ensures { gathered.new.items
        ≡ gathered.old.items ++ flat_map (row_line C.texts.key_text) rows.now }
{
    put_rows::<C>(line, rows);
    append(gathered, line.as_slice());
}

/// Appends the line of a row that was inserted. `line` is scratch: it is overwritten.
fn append_inserted_line<C: ClassText>(
    gathered: &mut Gathered,
    line: &mut PrintBuffer,
    row: &Row<C::Key>,
)
    requires room { HasRoomForLine gathered.old.items }
    ensures { gathered.new.items
        ≡ gathered.old.items ++ item_line C.texts.key_text (Inserted row.now) }
{
    line.clear();
    put_row::<C>(line, row);
    line.put(b"inserted ");
    append(gathered, line.as_slice());
}

/// Appends the line of a move: the row that it made, and the number of the row that it ended. `line` is scratch: it
/// is overwritten.
fn append_moved_line<C: ClassText>(
    gathered: &mut Gathered,
    line: &mut PrintBuffer,
    row: &Row<C::Key>,
    ended: u64,
)
    requires room { HasRoomForLine gathered.old.items }
    ensures { gathered.new.items
        ≡ gathered.old.items ++ moved_line C.texts.key_text row.now ended }
{
    line.clear();
    put_content::<C>(line, row);
    line.put_byte(b' ');
    line.put_number(ended);
    line.put_byte(b' ');
    line.put_number(row.row);
    line.put(b"moved ");
    append(gathered, line.as_slice());
}

/// Appends the line of an item. `line` is scratch: it is overwritten if the item has a key.
pub fn append_item<C: ClassText>(
    gathered: &mut Gathered,
    line: &mut PrintBuffer,
    item: &Item<C::Key>,
)
    requires room { HasRoomForLine gathered.old.items }
    ensures { gathered.new.items ≡ gathered.old.items ++ item_line C.texts.key_text item.now }
{
    match item {
        Item::Row(row) => append_row_line::<C>(gathered, line, row),
        Item::Inserted(row) => append_inserted_line::<C>(gathered, line, row),
        Item::Deleted(number, row) => append_pair(gathered, b"deleted ", *number, *row),
        Item::Moved(row, ended) => append_moved_line::<C>(gathered, line, row, *ended),
        Item::Mark(number) => append_numbered(gathered, b"mark ", *number),
    }
}

/// Appends the line of a refusal.
pub fn append_refusal(gathered: &mut Gathered, why: Refusal)
    requires room { HasRoomForLine gathered.old.items }
    ensures { gathered.new.items ≡ gathered.old.items ++ refusal_line why }
{
    append(gathered, b"refused ");
    append_number(gathered, why.number());
    append(gathered, b" ");
    append(gathered, why.name().as_bytes());
    match why {
        Refusal::QueryText(place) | Refusal::Line(place) => append_numbered(gathered, b" ", place),
        _ => append(gathered, b"\n"),
    }
}

/// Appends a refusal to the gathered answers, which may be written first.
///
/// # Errors
/// `Write` if the writer failed. It took a beginning of what was gathered.
pub fn gather_refusal<W: Write>(
    why: Refusal,
    writer: &mut W,
    gathered: &mut Gathered,
) -> Result<(), Fault>
    requires room { HasRoomForLine gathered.old.items }
    ensures written { Says (refusal_line why) result
        W.contents writer.old writer.new gathered.old gathered.new }
    ensures room { OnOk result (HasRoomForLine gathered.new.items) }
    ensures err { IfErr result (λ e. e ≡ Fault.Write) }
{
    append_refusal(gathered, why);
    send_enough(writer, gathered)
}

/// Appends the first line of an answer. `line` is scratch: it is overwritten if the answer has a key.
fn append_line<C: ClassText>(
    gathered: &mut Gathered,
    line: &mut PrintBuffer,
    reply: &Answer<C::Key>,
)
    requires room { HasRoomForLine gathered.old.items }
    ensures { gathered.new.items ≡ gathered.old.items ++ first_line C.texts.key_text reply.now }
{
    match reply {
        Answer::Committed(number) => append_numbered(gathered, b"committed ", *number),
        Answer::Opened(cursor) => append_numbered(gathered, b"opened ", *cursor),
        Answer::Given(item) => append_item::<C>(gathered, line, item),
        Answer::Empty => append(gathered, b"empty\n"),
        Answer::Asked => append(gathered, b"asked\n"),
        Answer::Found(rows) => append_numbered(gathered, b"found ", rows.len() as u64),
        Answer::Swept(number) => append_numbered(gathered, b"swept ", *number),
        Answer::Closed => append(gathered, b"closed\n"),
        Answer::Refused(why) => append_refusal(gathered, *why),
    }
}

/// The rows that an answer lists after its first line.
fn rows_of<K>(reply: &Answer<K>) -> &[Row<K>]
    ensures { result.now ≡ listed reply.now }
{
    match reply {
        Answer::Found(rows) => rows.as_slice(),
        _ => &[],
    }
}

/// Appends a line for each row, `TOGETHER` at a time, to the gathered answers, and writes these when they are enough.
/// `line` is scratch: it is overwritten.
///
/// # Errors
/// `Write` if the writer failed. It took a beginning of what was gathered.
fn write_rows<C: ClassText, W: Write>(
    writer: &mut W,
    gathered: &mut Gathered,
    line: &mut PrintBuffer,
    rows: &[Row<C::Key>],
) -> Result<(), Fault>
    requires room { HasRoomForLine gathered.old.items }
    ensures written { Says (flat_map (row_line C.texts.key_text) rows.now) result
        W.contents writer.old writer.new gathered.old gathered.new }
    ensures room { OnOk result (HasRoomForLine gathered.new.items) }
    ensures err { IfErr result (λ e. e ≡ Fault.Write) }
{
    let mut rest = rows;
    while !rest.is_empty() {
        let (some, others) = rest.split_at(rest.len().min(TOGETHER));
        append_rows::<C>(gathered, line, some);
        send_enough(writer, gathered)?;
        rest = others;
    }
    Ok(())
}

/// Appends the lines of an answer to the gathered ones, and writes these when they are enough. `line` is scratch: it
/// is overwritten if the answer has keys.
///
/// # Errors
/// `Write` if the writer failed. It took a beginning of what was gathered.
pub fn write_reply<C: ClassText, W: Write>(
    writer: &mut W,
    gathered: &mut Gathered,
    line: &mut PrintBuffer,
    reply: &Answer<C::Key>,
) -> Result<(), Fault>
    requires room { HasRoomForLine gathered.old.items }
    ensures written { Says (reply_text C.texts.key_text reply.now) result
        W.contents writer.old writer.new gathered.old gathered.new }
    ensures room { OnOk result (HasRoomForLine gathered.new.items) }
    ensures err { IfErr result (λ e. e ≡ Fault.Write) }
{
    append_line::<C>(gathered, line, reply);
    send_enough(writer, gathered)?;
    write_rows::<C, W>(writer, gathered, line, rows_of(reply))
}
