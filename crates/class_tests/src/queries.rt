use key_class::Pred;
use std::alloc::{AllocError, Global};
use std::test::Fail;

fn negated(alloc: Global, part: Pred<u8>) -> Result<Pred<u8>, Fail> {
    Ok(Pred::Not(Box::new(alloc, part)?))
}

fn both(alloc: Global, left: Pred<u8>, right: Pred<u8>) -> Result<Pred<u8>, Fail> {
    let left = Box::new(alloc, left)?;
    Ok(Pred::And(left, Box::new(alloc, right)?))
}

/// Writes the query in prefix form.
fn spell(query: &Pred<u8>, text: &mut String) -> Result<(), AllocError> {
    match query {
        Pred::Atom(atom) => {
            text.push('0')?;
            for _ in 0..*atom {
                text.push('\'')?;
            }
            Ok(())
        }
        Pred::And(left, right) => {
            text.push('&')?;
            spell(left, text)?;
            spell(right, text)
        }
        Pred::Or(left, right) => {
            text.push('|')?;
            spell(left, text)?;
            spell(right, text)
        }
        Pred::Not(part) => {
            text.push('!')?;
            spell(part, text)
        }
    }
}

fn is_spelled(alloc: Global, query: &Pred<u8>, wanted: &str) -> Result<bool, Fail> {
    let mut text = String::new(alloc);
    spell(query, &mut text)?;
    Ok(text.as_str() == wanted)
}

/// The query `1 and not 2`.
fn small(alloc: Global) -> Result<Pred<u8>, Fail> {
    let part = negated(alloc, Pred::Atom(2))?;
    both(alloc, Pred::Atom(1), part)
}

/// A copy; if memory is refused once it is tried again.
fn copied(alloc: Global, query: &Pred<u8>) -> Result<Pred<u8>, AllocError> {
    match query.copy(alloc) {
        Ok(copy) => Ok(copy),
        Err(AllocError) => query.copy(alloc),
    }
}

/// Must pass whichever allocation of the copy is refused: the query can then be copied again.
#[test]
fn answers_want_of_memory(rt: HostRuntime) -> Result<(), Fail> {
    let query = small(rt.alloc())?;
    let copy = copied(rt.alloc(), &query)?;
    for tree in [&query, &copy] {
        assert!(rt; is_spelled(rt.alloc(), tree, "&0'!0''")?);
    }
    Ok(())
}
