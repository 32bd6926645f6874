//! Answers as C gets them: a code, and values written through references.
ghost use Rattle.std.specs.Prelude.{◌≡◌, Err};
ghost use Rattle.libgist.specs.declared.denied.Denied.TheVariants.{NoHandle};
ghost use Rattle.libgist.specs.Told.{code_of, value_or, fault_or};

use crate::denied::Denied;
use key_class::Refusal;

/// The answer of an empty handle.
pub fn no_handle<V>() -> Result<V, Denied>
    ensures { result ≡ Err NoHandle }
{
    Err(Denied::NoHandle)
}

/// 0, or the number of the refusal.
pub fn code(answer: Result<(), Denied>) -> u32
    ensures { result ≡ code_of answer }
{
    match answer {
        Ok(_) => 0,
        Err(why) => why.number(),
    }
}

/// 0, or the number of the refusal. The value, if there is one, is written to `into`.
pub fn tell<V: Copy>(answer: Result<V, Denied>, into: &mut V) -> u32
    ensures code { result ≡ code_of answer }
    ensures value { into.new ≡ value_or answer into.old }
{
    match answer {
        Ok(value) => {
            *into = value;
            0
        }
        Err(why) => why.number(),
    }
}

/// 0, or the number of the refusal. The values, if there are any, are written to where they belong.
pub fn tell_both<V: Copy, W: Copy>(
    answer: Result<(V, W), Denied>,
    first: &mut V,
    second: &mut W,
) -> u32
    ensures code { result ≡ code_of answer }
    ensures values { (first.new, second.new) ≡ value_or answer (first.old, second.old) }
{
    match answer {
        Ok(both) => {
            *first = both.0;
            *second = both.1;
            0
        }
        Err(why) => why.number(),
    }
}

/// If the text of a query is refused, writes the place of the first wrong byte to `fault`.
pub fn tell_fault<V>(answer: &Result<V, Denied>, fault: &mut u64)
    ensures { fault.new ≡ fault_or answer.now fault.old }
{
    if let Err(Denied::By(Refusal::QueryText(place))) = answer {
        *fault = *place;
    }
}
