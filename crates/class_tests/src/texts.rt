use box_class::Boxes;
use interval_class::Intervals;
use key_class::Refusal;
use query_text::{ClassText, parse, print};
use set_class::Sets;
use std::alloc::Global;

/// Whether a text is parsed and printed as expected, and the printed text is parsed as the same query and printed
/// alike.
fn prints<C: ClassText>(alloc: Global, text: &[u8], expected: &[u8]) -> bool {
    let Ok(query) = parse::<C>(alloc, text) else {
        return false;
    };
    let Ok(printed) = print::<C>(alloc, &query) else {
        return false;
    };
    let Ok(again) = parse::<C>(alloc, &printed) else {
        return false;
    };
    printed.as_slice() == expected && query.same_as::<C>(&again)
}

/// Texts of queries over intervals, each with its printed form.
static PRINTED: [(&str, &str); 12] = [
    (
        "same ( 1  2 )or not(within(0 9)and overlaps(3 3))",
        "same(1 2) or not (within(0 9) and overlaps(3 3))",
    ),
    (
        "(same(1 1) or same(2 2)) or same(3 3)",
        "same(1 1) or same(2 2) or same(3 3)",
    ),
    (
        "same(1 1) or (same(2 2) or same(3 3))",
        "same(1 1) or (same(2 2) or same(3 3))",
    ),
    (
        "(same(1 1) and same(2 2)) and same(3 3)",
        "same(1 1) and same(2 2) and same(3 3)",
    ),
    (
        "same(1 1) and (same(2 2) and same(3 3))",
        "same(1 1) and (same(2 2) and same(3 3))",
    ),
    (
        "same(1 1) and same(2 2) or same(3 3)",
        "same(1 1) and same(2 2) or same(3 3)",
    ),
    (
        "same(1 1) or (same(2 2) and same(3 3))",
        "same(1 1) or same(2 2) and same(3 3)",
    ),
    (
        "(same(1 1) or same(2 2)) and same(3 3)",
        "(same(1 1) or same(2 2)) and same(3 3)",
    ),
    (
        "same(1 1) and (same(2 2) or same(3 3))",
        "same(1 1) and (same(2 2) or same(3 3))",
    ),
    ("not (not ((holds(-0 007))))", "not not holds(0 7)"),
    (
        "overlaps(-9223372036854775808 9223372036854775807)",
        "overlaps(-9223372036854775808 9223372036854775807)",
    ),
    (
        "not (same(1 1) or same(2 2))",
        "not (same(1 1) or same(2 2))",
    ),
];

static PRINTED_BOXES: [(&str, &str); 2] = [
    ("within( 0 00 5 9)", "within(0 0 5 9)"),
    (
        "holds(-2147483648 -2147483648 2147483647 2147483647)",
        "holds(-2147483648 -2147483648 2147483647 2147483647)",
    ),
];

static PRINTED_SETS: [(&str, &str); 4] = [
    ("holds{3 3 1}", "holds{1 3}"),
    ("within { }", "within{}"),
    ("overlaps{127 -0 64}", "overlaps{0 64 127}"),
    ("same{7}or same{1 7 127}", "same{7} or same{1 7 127}"),
];

#[test]
fn queries_are_printed_with_fewest_brackets(rt: HostRuntime) {
    for (text, expected) in &PRINTED {
        assert!(rt;
            prints::<Intervals>(rt.alloc(), text.as_bytes(), expected.as_bytes()),
            "{text}"
        );
    }
    for (text, expected) in &PRINTED_BOXES {
        assert!(rt;
            prints::<Boxes>(rt.alloc(), text.as_bytes(), expected.as_bytes()),
            "{text}"
        );
    }
    for (text, expected) in &PRINTED_SETS {
        assert!(rt;
            prints::<Sets>(rt.alloc(), text.as_bytes(), expected.as_bytes()),
            "{text}"
        );
    }
}

/// The printed form of a text that is parsed.
fn reprinted(alloc: Global, text: &[u8]) -> Result<Vec<u8>, Refusal> {
    let query = parse::<Intervals>(alloc, text)?;
    print::<Intervals>(alloc, &query)
}

/// Must pass whichever allocation is refused.
#[test]
fn refused_memory_is_answered(rt: HostRuntime) {
    let text = b"not (same(1 1) or same(2 2)) and (within(0 9) or not not holds(4 5))";
    match reprinted(rt.alloc(), text) {
        Ok(printed) => assert!(rt; printed.as_slice() == text.as_slice()),
        Err(refusal) => assert!(rt; refusal == Refusal::OutOfMemory),
    }
}
