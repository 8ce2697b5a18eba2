//! What a command line asks of a server, read.

ghost use Rattle.std.specs.Prelude.{◌≡◌, ◌≤◌, IfSome, IsSome};
ghost use Rattle.std.specs.Net.Grammar.{IsSocketText};
ghost use Rattle.std.specs.declared.net.socket_addr.SocketAddr.{SocketAddr};
ghost use Rattle.tcp_server.specs.ServerRanges.{IsInRange};
ghost use Rattle.command_line.specs.declared.limits.TheConstants.{MAX_CLIENTS, MAX_RECORDS};

use crate::server_sizes::Settings;
use command_line::{MAX_CLIENTS, MAX_RECORDS, ServeTask, SyncMode};
use std::net::SocketAddr;

/// How a server is run.
#[derive(Clone, Copy)]
pub struct ServerPlan {
    pub address: SocketAddr,
    pub settings: Settings,
    /// When the append file's changes are brought to the device.
    pub sync: SyncMode,
    /// How many records may be appended.
    pub max_records: u64,
    /// How many clients are served at once.
    pub max_clients: u64,
    /// For how many seconds a connection may send or take nothing; 0 for any time.
    pub timeout: u64,
    ghost clients_fit: { (1 ≤ max_clients) × (max_clients ≤ MAX_CLIENTS) },
    ghost records_fit: { (1 ≤ max_records) × (max_records ≤ MAX_RECORDS) },
}

impl ServerPlan {
    /// None where the address is no IP address with a port, or a number is out of its range. No name
    /// is looked up.
    pub fn read(task: &ServeTask<'_>) -> Option<Self>
        // The task's words spell the address,
        ensures address { IfSome result (λ plan. IsSocketText task.now.listen.now plan.address) }
        // and each number is the task's.
        ensures settings { IfSome result (λ plan. (plan.settings.workers ≡ task.now.workers)
            × (plan.settings.places ≡ task.now.places)
            × (plan.settings.connections ≡ task.now.connections)) }
        ensures numbers { IfSome result (λ plan. (plan.max_records ≡ task.now.max_records)
            × (plan.max_clients ≡ task.now.max_clients) × (plan.timeout ≡ task.now.timeout)) }
        ensures sync { IfSome result (λ plan. plan.sync ≡ task.now.sync) }
        ensures some { (address : SocketAddr) → IsSocketText task.now.listen.now address
            → IsInRange task.now → IsSome result }
    {
        let address = task.listen.parse::<SocketAddr>().ok()?;
        let settings = Settings::new(task.workers, task.places, task.connections)?;
        let max_records = task.max_records;
        if max_records < 1 || max_records > MAX_RECORDS {
            return None;
        }
        let max_clients = task.max_clients;
        if max_clients < 1 || max_clients > MAX_CLIENTS {
            return None;
        }
        Some(ServerPlan {
            address,
            settings,
            sync: task.sync,
            max_records,
            max_clients,
            timeout: task.timeout,
        })
    }
}
