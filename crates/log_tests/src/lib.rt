//! Tests of logs and of reloads over memory, and of what takes little memory or none: what only a library call shows.
//! This crate has nothing but tests.
#![tactic(auto)]

#[cfg(test)]
mod changes;
#[cfg(test)]
mod deferred;
#[cfg(test)]
mod interrupted;
#[cfg(test)]
mod little_room;
#[cfg(test)]
mod no_memory;
#[cfg(test)]
mod owners;
#[cfg(test)]
mod records;
#[cfg(test)]
mod removals;
#[cfg(test)]
mod room;
#[cfg(test)]
mod sizes;
#[cfg(test)]
mod sweeps;
#[cfg(test)]
mod versions;
#[cfg(test)]
mod want_of_memory;
