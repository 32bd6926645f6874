ghost use Rattle.std.specs.Prelude.{◌≡◌, ◌≤◌, ◌<◌, ◌↔◌, Err, IfErr, IfOk};
ghost use Rattle.key_class.specs.Queries.{depth_of, query_of};
ghost use Rattle.key_class.specs.declared.refusal.Refusal.TheVariants.{BadConfig};

use key_class::limits::MAX_DEPTH;
use key_class::{Pred, Refusal};
use std::marker::Model;

/// A query that isn't deeper than a query may be, so that a test of a key needs little stack.
#[derive(Drop)]
pub struct BoundedQuery<'a, A> {
    query: &'a Pred<A>,
}

impl<'a, A> Model for BoundedQuery<'a, A> {
    ghost use Rattle.std.specs.Prelude.{◌≤◌};
    ghost use Rattle.std.specs.Coded.{codes};
    ghost use Rattle.key_class.specs.Limits.{most_depth};
    ghost use Rattle.key_class.specs.Queries.{Query, depth_of, query_of};
    ghost use Rattle.key_class.specs.QueryCodes.{query_code};

    ghost Value = { Query A };

    ghost coded = { Prim.hlevel (codes, query_code) };

    ghost view = { λ bounded. query_of bounded.query.now };

    ghost invariant = { λ bounded. depth_of (query_of bounded.query.now) ≤ most_depth };
}

impl<'a, A> BoundedQuery<'a, A> {
    /// The query, if it isn't too deep.
    ///
    /// # Errors
    /// `BadConfig` if it is deeper than 32.
    pub fn new(query: &'a Pred<A>) -> Result<BoundedQuery<'a, A>, Refusal>
        ensures ok { IfOk result (λ bounded. bounded ≡ query_of query.now) }
        ensures depth { (result ≡ Err BadConfig) ↔ (32 < depth_of (query_of query.now)) }
        ensures refusals { IfErr result (λ why. why ≡ BadConfig) }
    {
        if !query.is_within_depth(MAX_DEPTH) {
            return Err(Refusal::BadConfig);
        }
        Ok(BoundedQuery { query })
    }

    /// The query.
    pub fn query(&self) -> &'a Pred<A>
        ensures { query_of result.now ≡ self.now }
    {
        self.query
    }
}
