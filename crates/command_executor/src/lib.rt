//! What runs the commands of sessions: a trait, by which a session knows an executor. Owners of sets are such where they
//! stand: `sorted_sets` has the one, `append_log` the one with an append file.
#![tactic(auto)]

mod command_executor;

pub use command_executor::Exec;
