ghost use Rattle.std.specs.Prelude.{◌≡◌, IfOk, IfErr, OnOk};
ghost use Rattle.key_class.specs.declared.sides.Rel.{Rel};
ghost use Rattle.key_class.specs.Queries.{query_of};
ghost use Rattle.query_text.specs.Grammar.{rel_word};
ghost use Rattle.query_text.specs.Printing.{is_or, is_and_or_or, text_of, EachAtom, IsSpelling, Prints, PrintsAtom, ReadsAgain};
ghost use Rattle.query_text.specs.ClassTexts.{AtomReadsBack};

use crate::class::ClassText;
use crate::line::PrintBuffer;
use key_class::{Pred, Refusal, Rel};
use std::alloc::Global;
use std::io::{self, Write};

fn word_of(rel: Rel) -> &'static str
    ensures { result.now ≡ rel_word rel }
{
    match rel {
        Rel::Overlaps => "overlaps",
        Rel::Within => "within",
        Rel::Holds => "holds",
        Rel::Same => "same",
    }
}

fn is_or<A>(query: &Pred<A>) -> bool
    ensures { result ≡ is_or (query_of query.now) }
{
    match query {
        Pred::Or(_, _) => true,
        _ => false,
    }
}

fn is_and_or_or<A>(query: &Pred<A>) -> bool
    ensures { result ≡ is_and_or_or (query_of query.now) }
{
    match query {
        Pred::And(_, _) | Pred::Or(_, _) => true,
        _ => false,
    }
}

fn write_atom<C: ClassText, W: Write>(atom: &C::Atom, writer: &mut W) -> io::Result<()>
    ensures text { PrintsAtom C.texts atom.now W.contents writer.old writer.new result }
    ensures read_back { OnOk result (AtomReadsBack C.texts atom.now) }
{
    let (rel, operand) = C::parts(atom);
    let mut text = PrintBuffer::new();
    C::put_text(operand, &mut text);
    writer.write_all(word_of(rel).as_bytes())?;
    writer.write_all(text.as_slice())
}

/// Writes a query, in brackets if wanted.
fn write_query<C: ClassText, W: Write>(
    query: &Pred<C::Atom>,
    in_brackets: bool,
    writer: &mut W,
) -> io::Result<()>
    ensures text { Prints C.texts in_brackets query.now W.contents writer.old writer.new result }
    ensures read_back { OnOk result (EachAtom (AtomReadsBack C.texts) (query_of query.now)) }
{
    if in_brackets {
        writer.write_all(b"(")?;
        write_query::<C, W>(query, false, writer)?;
        return writer.write_all(b")");
    }
    match query {
        Pred::Atom(atom) => write_atom::<C, W>(atom, writer),
        Pred::And(left, right) => {
            write_query::<C, W>(left, is_or(left), writer)?;
            writer.write_all(b" and ")?;
            write_query::<C, W>(right, is_and_or_or(right), writer)
        }
        Pred::Or(left, right) => {
            write_query::<C, W>(left, false, writer)?;
            writer.write_all(b" or ")?;
            write_query::<C, W>(right, is_or(right), writer)
        }
        Pred::Not(part) => {
            writer.write_all(b"not ")?;
            write_query::<C, W>(part, is_and_or_or(part), writer)
        }
    }
}

/// The text of a query, with brackets only where the grammar needs them. If it has at most 4,096 bytes and the
/// query's depth is at most 32, it is parsed as the same query again.
///
/// # Errors
/// Only `OutOfMemory`.
pub fn print<C: ClassText>(alloc: Global, query: &Pred<C::Atom>) -> Result<Vec<u8>, Refusal>
    ensures text { IfOk result (λ text. text.items ≡ text_of C.texts (query_of query.now)) }
    ensures spelling { IfOk result (λ text. IsSpelling C.texts text.items (query_of query.now)) }
    ensures read_again { IfOk result (λ text. ReadsAgain C.texts text.items (query_of query.now)) }
    ensures refusal { IfErr result (λ e. e ≡ Refusal.OutOfMemory) }
{
    let mut text = Vec::new(alloc);
    match write_query::<C, Vec<u8>>(query, false, &mut text) {
        Ok(()) => Ok(text),
        Err(_) => Err(Refusal::OutOfMemory),
    }
}
