//! The tests that cross crates, of what a run of the program does not show: how a session ends, drains that fail, replies
//! that wait, the wire, a cell's answers, and lines that no run brings about. This crate has nothing but tests.
#![tactic(auto)]

#[cfg(test)]
mod ample_memory;
#[cfg(test)]
mod cells;
#[cfg(test)]
mod deferred_sessions;
#[cfg(test)]
mod devices;
#[cfg(test)]
mod exchange;
#[cfg(test)]
mod lines;
#[cfg(test)]
mod polled_devices;
#[cfg(test)]
mod sessions;
#[cfg(test)]
mod wire;
