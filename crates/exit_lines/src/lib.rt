//! How the program ends: an exit status, and the lines for standard error before it.
#![tactic(auto)]

mod lines_and_statuses;
mod printing;

pub use lines_and_statuses::{Finish, Line, Unusable};
pub use printing::print;
