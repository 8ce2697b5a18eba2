//! Tests of columns over their public calls: worked examples, and two columns driven by the same
//! changes, one merged at once and one row by row. This crate has nothing but tests.
#![tactic(auto)]

#[cfg(test)]
mod alike;
#[cfg(test)]
mod columns;
#[cfg(test)]
mod expectations;
#[cfg(test)]
mod gap_removals;
#[cfg(test)]
mod inner_pivots;
#[cfg(test)]
mod merges;
#[cfg(test)]
mod passes;
#[cfg(test)]
mod removals;
#[cfg(test)]
mod rows;
#[cfg(test)]
mod sizes;
#[cfg(test)]
mod steps;
#[cfg(test)]
mod want_of_memory;
#[cfg(test)]
mod windows;
