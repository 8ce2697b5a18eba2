//! What `zcrackd serve` is asked for.

use crate::explain_option;
use crate::limits::{
    MAX_CLIENTS, MAX_CONNECTIONS, MAX_PLACES, MAX_RECORDS, MAX_TIMEOUT, MAX_WORKERS,
};
use clap::builder::ValueParser;
use clap::{Arg, ArgAction, ArgMatches, Command};
use std::alloc::{AllocError, Global};

/// When the changes that an append file keeps are brought to the device.
#[derive(Clone, Copy, Debug, PartialEq, Eq)]
pub enum SyncMode {
    /// Each change by a sync of its own, before it is made.
    Each,
    /// Many changes by one sync, before a reply leaves that may tell of one of them.
    Group,
}

/// The words for them.
const SYNC_MODES: [&str; 2] = ["each", "group"];

/// What a server is asked to do. Each number lies within the range that `--help` tells.
#[derive(Clone, Copy, Debug, PartialEq, Eq)]
pub struct ServeTask<'a> {
    /// Where to listen, as the words have it.
    pub listen: &'a str,
    /// The append file that keeps the changes.
    pub file: Option<&'a str>,
    /// When the file's changes are brought to the device.
    pub sync: SyncMode,
    /// Workers: 1 to 64.
    pub workers: usize,
    /// Places for keys: 1 to 4,096.
    pub places: usize,
    /// Records that may be appended: 1 to 2^40.
    pub max_records: u64,
    /// Connections after which the server ends: 1 to 1,000,000.
    pub connections: u64,
    /// Clients that are served at once: 1 to 64,000.
    pub max_clients: u64,
    /// Seconds after which a connection on which no byte moves is ended, or 0 for never: 0 to 86,400.
    pub timeout: u64,
}

fn listen_option<'a>(alloc: Global) -> Arg<'a> {
    Arg::new(alloc, "listen")
        .long("listen")
        .value_name("IP:PORT")
        .help("Where to listen, as 127.0.0.1:6380 or [::1]:6380; port 0 takes a free one")
        .action(ArgAction::Set)
        .required(true)
}

pub(crate) fn file_option<'a>(alloc: Global) -> Arg<'a> {
    Arg::new(alloc, "file")
        .long("file")
        .value_name("PATH")
        .help("Keeps the changes in this append file, which is made where it is missing")
        .action(ArgAction::Set)
}

pub(crate) fn sync_option<'a>(alloc: Global) -> Arg<'a> {
    Arg::new(alloc, "sync")
        .long("sync")
        .value_name("MODE")
        .help(
            "Syncs the append file: each change alone, or a group of them before its replies leave",
        )
        .value_parser(ValueParser::Names(&SYNC_MODES))
        .default_value("each")
}

/// An option for a whole number from `least` to `most`.
fn number_option<'a>(
    alloc: Global,
    name: &'static str,
    help: &'static str,
    least: u64,
    most: u64,
    default: &'static str,
) -> Arg<'a> {
    Arg::new(alloc, name)
        .long(name)
        .value_name("N")
        .help(help)
        .value_parser(ValueParser::unsigned(least, most))
        .default_value(default)
}

fn workers_option<'a>(alloc: Global) -> Arg<'a> {
    let help = "Workers, 1 to 64: threads that share the clients among them";
    number_option(alloc, "workers", help, 1, MAX_WORKERS, "4")
}

fn places_option<'a>(alloc: Global) -> Arg<'a> {
    let help =
        "Places for keys, 1 to 4096: a key keeps its place, also when its set is empty again";
    number_option(alloc, "places", help, 1, MAX_PLACES, "1024")
}

fn records_option<'a>(alloc: Global) -> Arg<'a> {
    let help = "Records that may be appended, 1 to 1099511627776; further changes are refused";
    number_option(alloc, "max-records", help, 1, MAX_RECORDS, "1000000000")
}

fn connections_option<'a>(alloc: Global) -> Arg<'a> {
    let help = "Connections, 1 to 1000000, after which the server ends";
    number_option(alloc, "connections", help, 1, MAX_CONNECTIONS, "100000")
}

fn clients_option<'a>(alloc: Global) -> Arg<'a> {
    let help = "Clients that are served at once, 1 to 64000; more wait until one has gone";
    number_option(alloc, "max-clients", help, 1, MAX_CLIENTS, "900")
}

fn timeout_option<'a>(alloc: Global) -> Arg<'a> {
    let help =
        "Ends a connection on which no byte moves for so many seconds, 0 to 86400; 0 is never";
    number_option(alloc, "timeout", help, 0, MAX_TIMEOUT, "0")
}

pub(crate) fn serve_command<'a>(alloc: Global) -> Result<Command<'a>, AllocError> {
    let options = vec![in alloc;
        listen_option(alloc),
        file_option(alloc),
        sync_option(alloc),
        workers_option(alloc),
        places_option(alloc),
        records_option(alloc),
        connections_option(alloc),
        clients_option(alloc),
        timeout_option(alloc),
        explain_option(alloc),
    ]?;
    Command::new(alloc, "serve")
        .about("Serves clients over TCP")
        .args(options)
}

/// The mode that is asked for. The option takes no other words.
pub(crate) fn asked_sync(words: &ArgMatches<'_>) -> Option<SyncMode> {
    match words.get_str("sync")? {
        "each" => Some(SyncMode::Each),
        "group" => Some(SyncMode::Group),
        _ => None,
    }
}

pub(crate) fn asked_serve<'a>(words: &ArgMatches<'a>) -> Option<ServeTask<'a>> {
    Some(ServeTask {
        listen: words.get_str("listen")?,
        file: words.get_str("file"),
        sync: asked_sync(words)?,
        workers: words.get_one("workers")?,
        places: words.get_one("places")?,
        max_records: words.get_one("max-records")?,
        connections: words.get_one("connections")?,
        max_clients: words.get_one("max-clients")?,
        timeout: words.get_one("timeout")?,
    })
}
