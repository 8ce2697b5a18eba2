//! The tests of sets, of bounds and of cracks, over public calls. They stand apart from the
//! crates that they test, since a crate with tests is proved twice. This crate has nothing but tests.
#![tactic(auto)]

#[cfg(test)]
mod bounds;
#[cfg(test)]
mod columns;
#[cfg(test)]
mod cracks;
#[cfg(test)]
mod owners;
#[cfg(test)]
mod refusals;
#[cfg(test)]
mod trials;
#[cfg(test)]
mod windows;
