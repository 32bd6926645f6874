//! Tests of stores, worlds, feeds and the layers below: calls that no session and no other test makes, memory, reads and
//! writes that fail, and tasks that are published late.
#![tactic(auto)]

#[cfg(test)]
mod ceilings;
#[cfg(test)]
mod commits;
#[cfg(test)]
mod event_lists;
#[cfg(test)]
mod events;
#[cfg(test)]
mod faults;
#[cfg(test)]
mod feeds;
#[cfg(test)]
mod finders;
#[cfg(test)]
mod laws;
#[cfg(test)]
mod outlets;
#[cfg(test)]
mod plain_blocks;
#[cfg(test)]
mod random_tasks;
#[cfg(test)]
mod reach_classes;
#[cfg(test)]
mod reach_queries;
#[cfg(test)]
mod searches;
#[cfg(test)]
mod snapshots;
#[cfg(test)]
mod stores;
#[cfg(test)]
mod table_copies;
#[cfg(test)]
mod tasks;
