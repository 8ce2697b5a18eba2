//! A server over TCP: connections handed over to workers that share a table of sets.
//!
//! `startup` leads to it: the numbers that it is asked for, its append file, its address. `server_run` opens the table and
//! closes it, and tells its totals.
#![tactic(auto)]

mod checked_server_options;
mod client_limit;
mod new_log;
mod serve_by_table_workers;
mod server_run;
mod server_sizes;
mod startup;
mod tcp_sockets_and_arrivals;
mod totals_line;

pub use server_sizes::Settings;
pub use startup::{Stock, serve_stock, serve_tcp};
pub use tcp_sockets_and_arrivals::TcpArrivals;
