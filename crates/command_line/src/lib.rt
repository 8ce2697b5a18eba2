//! The command line of `zcrackd`. It stands in a crate of its own, since `clap` takes minutes to
//! check and the command line changes rarely.
#![tactic(auto)]

mod limits;
mod serve;

pub use crate::limits::{
    MAX_CLIENTS, MAX_CONNECTIONS, MAX_PLACES, MAX_RECORDS, MAX_TIMEOUT, MAX_WORKERS,
};
pub use crate::serve::{ServeTask, SyncMode};
use crate::serve::{asked_serve, asked_sync, file_option, serve_command, sync_option};
use clap::error::ErrorKind;
use clap::{Arg, ArgAction, ArgMatches, Command, Error};
use std::alloc::{AllocError, Global};

/// What `--version` prints behind the program's name.
const VERSION: &str = "0.3.0";

/// What the program is asked to do.
#[derive(Clone, Copy, Debug, PartialEq, Eq)]
pub enum Task<'a> {
    /// Serve standard input to standard output, with an append file where one is named.
    Stdio {
        file: Option<&'a str>,
        /// When the file's changes are brought to the device.
        sync: SyncMode,
    },
    /// Serve clients over TCP.
    Serve(ServeTask<'a>),
    /// Write a new append file that replays to the same sets as an old one.
    Rewrite {
        old: &'a str,
        new: &'a str,
    },
}

/// Why there is nothing to do.
#[derive(Debug, Drop)]
pub enum Unasked {
    /// A text is asked for, help or the version, which the error prints on standard output.
    Text(Error),
    /// The arguments ask for nothing that is known. The error prints on standard error what is wrong
    /// with them, and how they are used.
    Bad(Error),
    NoMemory,
}

/// Asks for what a terminal is told, where standard error is none.
pub(crate) fn explain_option<'a>(alloc: Global) -> Arg<'a> {
    Arg::new(alloc, "explain")
        .long("explain")
        .help("Tells on standard error what a terminal is told: causes, and what to do")
        .action(ArgAction::SetTrue)
}

fn stdio_command<'a>(alloc: Global) -> Result<Command<'a>, AllocError> {
    let options = vec![in alloc;
        file_option(alloc),
        sync_option(alloc),
        explain_option(alloc),
    ]?;
    Command::new(alloc, "stdio")
        .about("Serves standard input to standard output")
        .args(options)
}

fn rewrite_command<'a>(alloc: Global) -> Result<Command<'a>, AllocError> {
    let old = Arg::new(alloc, "OLD")
        .help("The append file that is read; no server may have it open")
        .required(true);
    let new = Arg::new(alloc, "NEW")
        .help("The append file that is made; nothing of this name may be there")
        .required(true);
    let words = vec![in alloc; old, new, explain_option(alloc)]?;
    Command::new(alloc, "rewrite")
        .about("Writes the append file OLD anew, as short as it can be, to NEW")
        .args(words)
}

/// The program's own command: those that name a task stand below it.
fn program<'a>(alloc: Global) -> Command<'a> {
    Command::new(alloc, "zcrackd")
        .about("A server for sorted sets whose commands are proved")
        .version(VERSION)
        .subcommand_required(true)
        .disable_help_subcommand(true)
}

/// A command with one more below it, if that one could be made.
fn with<'a>(
    command: Command<'a>,
    below: Result<Command<'a>, AllocError>,
) -> Result<Command<'a>, AllocError> {
    command.subcommand(below?)
}

// One command is held at a time: what several cost to prove grows with their type, which is large.
fn command<'a>(alloc: Global) -> Result<Command<'a>, AllocError> {
    let command = with(program(alloc), stdio_command(alloc))?;
    let command = with(command, serve_command(alloc))?;
    with(command, rewrite_command(alloc))
}

fn asked<'a>(found: &ArgMatches<'a>) -> Option<Task<'a>> {
    let (name, words) = found.subcommand()?;
    match name {
        "stdio" => Some(Task::Stdio {
            file: words.get_str("file"),
            sync: asked_sync(words)?,
        }),
        "serve" => Some(Task::Serve(asked_serve(words)?)),
        "rewrite" => Some(Task::Rewrite {
            old: words.get_str("OLD")?,
            new: words.get_str("NEW")?,
        }),
        _ => None,
    }
}

fn matches<'a>(alloc: Global, words: &'a [String]) -> Result<ArgMatches<'a>, Error> {
    command(alloc)?.try_get_matches_from(words)
}

/// Why the words of a command line were not taken.
fn reason_of(error: Error) -> Unasked {
    match error.kind() {
        ErrorKind::DisplayHelp | ErrorKind::DisplayVersion => Unasked::Text(error),
        ErrorKind::OutOfMemory => Unasked::NoMemory,
        _ => Unasked::Bad(error),
    }
}

/// The words of a command line, the program's name included, as `clap` has taken them.
#[derive(Drop)]
pub struct CommandLine<'a> {
    found: ArgMatches<'a>,
}

impl<'a> CommandLine<'a> {
    /// Takes the words of a command line.
    pub fn read(alloc: Global, words: &'a [String]) -> Result<Self, Unasked> {
        match matches(alloc, words) {
            Ok(found) => Ok(CommandLine { found }),
            Err(error) => Err(reason_of(error)),
        }
    }

    /// Whether causes are to be told on standard error, whatever that is.
    pub fn explains(&self) -> bool {
        match self.found.subcommand() {
            Some((_, words)) => words.get_flag("explain"),
            None => false,
        }
    }

    /// The task that is asked for.
    pub fn task(&self) -> Option<Task<'a>> {
        asked(&self.found)
    }
}
