ghost use Rattle.std.specs.Prelude.{◌≡◌};
ghost use Rattle.libgist.specs.Denials.{number_told, passed_on};
ghost use Rattle.libgist.specs.declared.denied.Denied.TheVariants.{By};

use key_class::Refusal;

/// Why a call of the library is refused.
#[derive(Clone, Copy, PartialEq, Eq)]
pub enum Denied {
    /// The call below refused.
    By(Refusal),
    /// The low end of a key is above its high end.
    BadEnds,
    /// The class differs from that of the store, the snapshot or the feed.
    OtherClass,
    /// The handle is empty, or holds something of another kind.
    NoHandle,
    /// A limit is out of range.
    BadLimits,
}

impl From<Refusal> for Denied {
    ghost from_gives = { λ why denied. denied ≡ By why };

    fn from(why: Refusal) -> Denied {
        Denied::By(why)
    }
}

impl Denied {
    /// The number by which C knows the refusal, as in `include/gist.h`.
    pub fn number(self) -> u32
        ensures { result ≡ number_told self }
    {
        match self {
            Denied::By(why) => why.number() as u32,
            Denied::BadEnds => 26,
            Denied::OtherClass => 27,
            Denied::NoHandle => 28,
            Denied::BadLimits => 29,
        }
    }
}

/// Wraps the refusal of a call below.
pub fn passed_on<V>(answer: Result<V, Refusal>) -> Result<V, Denied>
    ensures { result ≡ passed_on answer }
{
    match answer {
        Ok(value) => Ok(value),
        Err(why) => Err(Denied::By(why)),
    }
}
