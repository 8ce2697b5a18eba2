//! Tests of connections in memory that share one owner of sets, turn by turn, against a model that
//! asks the owner the same requests in the order in which they are due. This crate has nothing but tests.
#![tactic(auto)]

#[cfg(test)]
mod devices;
#[cfg(test)]
mod looks;
#[cfg(test)]
mod model;
#[cfg(test)]
mod orders;
#[cfg(test)]
mod recorded;
#[cfg(test)]
mod scripts;
#[cfg(test)]
mod served;
#[cfg(test)]
mod settling;
#[cfg(test)]
mod turns;
#[cfg(test)]
mod yields;
