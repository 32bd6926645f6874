//! Each law of classes, keys, queries and their texts is called once, and each call of a key that no class makes.
use box_class::Boxes;
use interval_class::Intervals;
use key_class::{Refusal, bounds_miss_no_match};
use query_text::{
    one_cut_for_text, one_meaning_for_text, one_meaning_for_tokens, set_texts_name_their_elements,
};
use set_class::{Elements, Sets};

#[test]
fn laws_hold(rt: HostRuntime) {
    interval_class::atoms_mean_their_words();
    box_class::atoms_mean_their_words();
    set_class::atoms_mean_their_words();
    bounds_miss_no_match::<Intervals>();
    bounds_miss_no_match::<Boxes>();
    bounds_miss_no_match::<Sets>();
    one_cut_for_text();
    one_meaning_for_text::<Sets>();
    one_meaning_for_tokens::<Sets>();
    set_texts_name_their_elements();
}

#[test]
fn makes_sets_of_numbers(rt: HostRuntime) -> Result<(), Refusal> {
    let set = Elements::empty().with(127)?;
    assert!(rt; set == Elements::new(&[127, 127])?);
    assert!(rt; set.contains(127) && !set.contains(0));
    Ok(())
}
