//! The rule of a history: one word holds its length.
ghost use Rattle.std.specs.Prelude.{◌≡◌};

use logbook::{Gain, Plain, Play, Rule};
use std::marker::Brand;

/// The rule: the word holds the length of the history. Clients of a history see no other part of it.
pub struct Law;

impl<K> Rule<K, u64> for Law {
    ghost use Rattle.std.specs.Prelude.{[]};
    ghost use base.Fml.{ftrue};
    ghost use Rattle.history.specs.Rules.{IsKept};

    ghost holds = { λ cells log. IsKept cells log };

    ghost first = { [] };

    ghost hinted = { λ n log. Unit {0} };

    ghost shows = { λ log. [] };

    ghost keeps = { λ names log. ftrue };

    ghost moves = { λ ask before after answer. Unit {0} };
}

/// A step that adds a value takes nothing in exchange.
pub(crate) struct Nothing;

impl<K> Gain<K, u64> for Nothing {
    ghost use base.Fml.{ftrue};

    ghost after = { λ names about answer. ftrue };
}

/// A step that adds a value.
pub(crate) struct Add;

impl<K> Play<K, u64> for Add {
    ghost use Rattle.history.specs.Rules.{Adds};

    ghost then = { Adds };
}

/// The argument of such a step is the value.
impl<K> Plain<K, K, u64> for Add {
    ghost use Rattle.std.specs.Prelude.{None};

    ghost ask = { λ value. value };

    ghost state = { λ value. None };
}

/// Names a history. Whoever opens a history picks the name.
pub trait Naming {
    ghost use Rattle.logbook.specs.Pages.{Book};

    ghost history: { Book };
}

impl Naming for Brand {
    ghost history = { record { number = 0; log_name = 0; cells_name = 0 } };
}
