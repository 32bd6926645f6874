//! Searches of a tree that stands still: a recursion from the root, which gives the live rows that it finds to a sink;
//! sinks; and rows in the order of their numbers.
#![tactic(auto)]

mod at_most;
mod bounded_query;
mod branch_test;
mod find;
mod key_test;
mod page_test;
mod picks;
mod row_sink;
mod search;
mod sinks;
mod slots;
mod sorting;

pub use at_most::AtMost;
pub use bounded_query::BoundedQuery;
pub use branch_test::{BranchTest, Covering};
pub use find::find_all;
pub use key_test::{KeyTest, OneAtom};
pub use picks::{ByBounds, wanted_bits};
pub use row_sink::{RowSink, Stop, row_of};
pub use sinks::Counter;
pub use slots::{AsRow, RowForm, Slots};
pub use sorting::sort_by_number;
