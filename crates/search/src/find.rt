ghost use Rattle.std.specs.Prelude.{IfErr, OnErr, OnOk};
ghost use Rattle.key_class.specs.Rules.{satisfies};
ghost use Rattle.search.specs.Searches.{IsSearchable, rows_below};
ghost use Rattle.search.specs.Sinks.{TakesAll, TakesSome};

use crate::bounded_query::BoundedQuery;
use crate::key_test::OneAtom;
use crate::row_sink::{RowSink, Stop};
use crate::search::Search;
use key_class::{KeyClass, Pred};
use page_table::PageTable;

/// Gives a sink all live rows of a tree that match a query, in any order.
///
/// # Errors
/// The sink takes no more rows; it has some of them.
pub fn find_all<C: KeyClass, S: RowSink<C::Key>>(
    table: &PageTable<C::Key>,
    query: &BoundedQuery<C::Atom>,
    sink: &mut S,
) -> Result<(), Stop>
    requires { IsSearchable C.rules.is_cover table.now }
    ensures all { OnOk result (TakesAll S.takes
        (rows_below (satisfies C.rules query.now) table.now 0) sink.old sink.new) }
    ensures some { OnErr result (TakesSome S.takes
        (rows_below (satisfies C.rules query.now) table.now 0) sink.old sink.new) }
    ensures why { IfErr result (S.stops sink.new) }
{
    match query.query() {
        Pred::Atom(atom) => {
            let test = OneAtom { atom: *atom };
            Search::<C, OneAtom<C::Atom>> { table, test: &test }.all(sink)
        }
        test => Search::<C, Pred<C::Atom>> { table, test }.all(sink),
    }
}
