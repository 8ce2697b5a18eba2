//! A table's beginning and end: it is opened with an owner's sets, and closed over its passes.
//!
//! In between workers share it: that is `set_table`. Opening gives each set a place and a cell, and makes a pass for each
//! worker. Closing compares what all passes were told with the cells and the log, and adds it up.
#![tactic(auto)]

mod closing_audit;
mod opening;

pub use closing_audit::totals::Totals;
pub use closing_audit::{CloseFault, close};
pub use opening::{TableOpenFault, open};
