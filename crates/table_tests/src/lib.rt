//! Tests of tables over their public calls: places, runs and counts on one thread, locks that are held on two.
//! This crate has nothing but tests.
#![tactic(auto)]

#[cfg(test)]
mod cells;
#[cfg(test)]
mod closing;
#[cfg(test)]
mod comparisons;
#[cfg(test)]
mod examples;
#[cfg(test)]
mod exchange;
#[cfg(test)]
mod gate_places;
#[cfg(test)]
mod gates;
#[cfg(test)]
mod last_run;
#[cfg(test)]
mod tables;
#[cfg(test)]
mod windows;
#[cfg(test)]
mod workers;
