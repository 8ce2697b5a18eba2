//! Commands: requests read as commands, and the reasons why one is refused.
//!
//! What a command makes of a sorted set is the matter of `zset_core`.
#![tactic(auto)]

mod add;
mod command;
mod flags;
mod given_pairs;
mod limit;
mod name;
mod parsed_arguments;
mod range_commands;
mod reading_by_name;
pub mod reading_laws;
mod refusal;

pub use command::Command;
pub use flags::Flags;
pub use given_pairs::GivenPairs;
pub use limit::Limit;
pub use parsed_arguments::{ChangeForm, Form, QuestionForm};
pub use refusal::Refusal;
