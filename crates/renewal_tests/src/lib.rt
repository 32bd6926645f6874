//! Tests of what a map needs of stores and feeds: sweeps of one page in rotation, feeds that go on at other stores, and
//! stores that are dropped piece by piece.
#![tactic(auto)]

#[cfg(test)]
mod generations;
#[cfg(test)]
mod remains;
#[cfg(test)]
mod rotations;
