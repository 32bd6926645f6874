//! Tests of key classes: the splits of the three classes compared with vectors and, on random pages, with naive ones;
//! printed queries; copies of queries, sides and blocks; laws; and memory that is refused.
#![tactic(auto)]

#[cfg(test)]
mod boxes;
#[cfg(test)]
mod columns;
#[cfg(test)]
mod intervals;
#[cfg(test)]
mod laws;
#[cfg(test)]
mod letters;
#[cfg(test)]
mod picks;
#[cfg(test)]
mod plain_boxes;
#[cfg(test)]
mod plain_intervals;
#[cfg(test)]
mod plain_sets;
#[cfg(test)]
mod queries;
#[cfg(test)]
mod random_pages;
#[cfg(test)]
mod refusals;
#[cfg(test)]
mod sets;
#[cfg(test)]
mod sides;
#[cfg(test)]
mod texts;
