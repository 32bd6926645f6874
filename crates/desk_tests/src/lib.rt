//! Tests of desks: the answers of their calls, clients next to each other and in threads, receipts, pumps, feeds,
//! limits, and memory that is refused. Each plays a scene at a desk of its own, which is then finished and compared with
//! the stamps of its seats.
#![tactic(auto)]

#[cfg(test)]
mod calls;
#[cfg(test)]
mod clients;
#[cfg(test)]
mod desks;
#[cfg(test)]
mod example;
#[cfg(test)]
mod feeds;
#[cfg(test)]
mod limits;
#[cfg(test)]
mod orders;
#[cfg(test)]
mod receipts;
#[cfg(test)]
mod threads;
