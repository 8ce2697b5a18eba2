//! Tests of hand-overs over their public calls: connections in memory, handed over to recording handlers.
//! This crate has nothing but tests.
#![tactic(auto)]

#[cfg(test)]
mod recorded_connections;
