//! How a server is set up.

ghost use Rattle.std.specs.Prelude.{◌≡◌, ◌≤◌, ◌↔◌, IfSome, IsSome};
ghost use Rattle.tcp_server.specs.ServerRanges.{AreSettings};
ghost use Rattle.command_line.specs.declared.limits.TheConstants.{MAX_CONNECTIONS, MAX_PLACES, MAX_WORKERS};

use command_line::{MAX_CONNECTIONS, MAX_PLACES, MAX_WORKERS};

/// How many workers, keys and connections a server has.
#[derive(Clone, Copy, Debug, PartialEq, Eq)]
pub struct Settings {
    /// How many threads serve connections.
    pub workers: usize,
    /// How many keys there may be.
    pub places: usize,
    /// After so many connections the server ends.
    pub connections: u64,
    ghost workers_fit: { (1 ≤ workers) × (workers ≤ MAX_WORKERS) },
    ghost places_fit: { (1 ≤ places) × (places ≤ MAX_PLACES) },
    ghost connections_fit: { (1 ≤ connections) × (connections ≤ MAX_CONNECTIONS) },
}

impl Settings {
    /// None where a number is out of its range: 1 to 64 workers, 1 to 4,096 places, 1 to 1,000,000
    /// connections.
    pub fn new(workers: usize, places: usize, connections: u64) -> Option<Self>
        ensures some { IsSome result ↔ AreSettings workers places connections }
        ensures settings { IfSome result (λ settings. (settings.workers ≡ workers)
            × (settings.places ≡ places) × (settings.connections ≡ connections)) }
    {
        let workers_fit = 1 <= workers && workers <= MAX_WORKERS as usize;
        let places_fit = 1 <= places && places <= MAX_PLACES as usize;
        let connections_fit = 1 <= connections && connections <= MAX_CONNECTIONS;
        if !(workers_fit && places_fit && connections_fit) {
            return None;
        }
        Some(Settings {
            workers,
            places,
            connections,
        })
    }
}
