//! A worker of a server: it runs commands on the table that it shares with others, serves its connections turn by turn, and
//! settles the records of its changes.
#![tactic(auto)]

mod connection_handler;
mod settle_by_group_commit;
mod table_executor;

pub use connection_handler::ConnectionHandler;
pub use settle_by_group_commit::{Journal, handle_of};
pub use table_executor::Worker;
