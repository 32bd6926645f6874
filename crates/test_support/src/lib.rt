//! Queries of intervals for tests.
#![tactic(auto)]

ghost use Rattle.std.specs.Prelude.{◌≡◌, ◌<ℤ◌, IfErr, IfOk};
ghost use Rattle.key_class.specs.declared.refusal.Refusal.TheVariants.{BadConfig};
ghost use Rattle.test_support.specs.Overlapping.{AsksForOverlaps, highest, lowest};

use interval_class::{Atom, Interval};
use key_class::{Pred, Refusal, Rel};

/// Asks for what overlaps the interval with these ends, both inside.
///
/// # Errors
/// `BadConfig` if `lo` is above `hi`.
pub fn overlapping(lo: i64, hi: i64) -> Result<Pred<Atom>, Refusal>
    ensures asks { IfOk result (AsksForOverlaps lo hi) }
    ensures refused { IfErr result (λ why. (why ≡ BadConfig) × (hi <ℤ lo)) }
{
    let operand = Interval::new(lo, hi)?;
    Ok(Pred::Atom(Atom {
        rel: Rel::Overlaps,
        operand,
    }))
}

/// What overlaps any interval: every row.
pub fn all() -> Pred<Atom>
    ensures asks { AsksForOverlaps lowest highest result }
{
    Pred::Atom(Atom {
        rel: Rel::Overlaps,
        operand: Interval {
            lo: i64::MIN,
            hi: i64::MAX,
        },
    })
}
