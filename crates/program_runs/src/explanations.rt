//! What stands behind the lines of an end: which file or address, why, and what to do.

ghost use Rattle.std.specs.Prelude.{◌≡◌};
ghost use Rattle.exit_lines.specs.ExitStatusAndLines.{finish_by};
ghost use Rattle.exit_lines.specs.declared.lines_and_statuses.Line.TheVariants as lines;

use crate::file_progress_reports::WatchedFiles;
use append_file::FileFault;
use exit_lines::{Finish, Line, Unusable};
use std::alloc::Global;
use std::fs::Files;
use std::io;
use std::net::SocketAddr;

/// How the program ends, and what its lines mean in this case.
#[derive(Drop)]
pub struct Ending {
    pub finish: Finish,
    /// What is told behind the lines. There is none where nobody asked for it, or no memory was left
    /// for it.
    pub explanation: Option<String>,
}

/// By its path, why a file can't be used, with the system's cause where it is known.
fn why_unusable(
    alloc: Global,
    path: &str,
    fault: FileFault,
    refusal: Option<io::Error>,
) -> Option<String> {
    match (fault, refusal) {
        (FileFault::Open, Some(cause)) => { format!(in alloc; "{path}: {fault}: {cause}\n").ok() }
        _ => format!(in alloc; "{path}: {fault}\n").ok(),
    }
}

/// The path of the new file, which stands beside the old one, where a link leads to that.
fn renewed_path(files: &WatchedFiles<'_>, old: &str) -> Option<String> {
    let alloc = files.alloc();
    match files.symlink_metadata(old) {
        Ok(found) if found.is_symlink() => {
            let place = files.canonicalize(alloc, old).ok()?;
            format!(in alloc; "{}.new", place.as_str()).ok()
        }
        _ => format!(in alloc; "{old}.new").ok(),
    }
}

/// Why no file of version 2 took an old one's place: by the path of the new one.
fn why_not_renewed(files: &WatchedFiles<'_>, old: &str, fault: FileFault) -> Option<String> {
    let renewed = renewed_path(files, old)?;
    why_unusable(files.alloc(), renewed.as_str(), fault, files.refusal())
}

/// What to do with a file of an unknown version.
fn what_is_unknown(alloc: Global, path: &str) -> Option<String> {
    format!(in alloc; "{path}: a later zcrackd wrote it, which can read it\n").ok()
}

/// How much of a file stands from the byte on that is no record's, and how to do without it.
fn what_is_damaged(files: &WatchedFiles<'_>, path: &str, at: u64) -> Option<String> {
    let size = Files::metadata(files, path).ok()?.len();
    let behind = size.saturating_sub(at);
    format!(in files.alloc();
        "{path}: {behind} of its {size} bytes stand from byte {at} on; to do without them, copy it, and on the copy: truncate -s {at} COPY\n"
    ).ok()
}

/// What a line means for an append file: by its path. None where it says all, or says nothing of a file.
fn explanation_of(
    files: &WatchedFiles<'_>,
    line: Option<Line>,
    old: &str,
    new: &str,
) -> Option<String> {
    let alloc = files.alloc();
    match line? {
        Line::CannotUseFile(Unusable::Old(fault)) => {
            why_unusable(alloc, old, fault, files.refusal())
        }
        Line::CannotUseFile(Unusable::New(fault)) => {
            why_unusable(alloc, new, fault, files.refusal())
        }
        Line::CannotUseFile(Unusable::Renewed(fault)) => why_not_renewed(files, old, fault),
        Line::UnknownVersion => what_is_unknown(alloc, old),
        Line::FileDamaged(at) | Line::NoCommandInFile(at) => what_is_damaged(files, old, at),
        _ => None,
    }
}

impl Ending {
    /// An end whose lines say all.
    pub fn of(finish: Finish) -> Self
        ensures { result.finish ≡ finish }
    {
        Ending {
            finish,
            explanation: None,
        }
    }

    /// An end with an explanation of an append file that can't be used or is damaged: by its path.
    pub fn of_files(files: &WatchedFiles<'_>, finish: Finish, old: &str, new: &str) -> Self
        ensures { result.finish ≡ finish }
    {
        // No end has two lines that are explained.
        let [first, second] = finish.lines;
        let explanation = explanation_of(files, first, old, new);
        Ending {
            finish,
            explanation: explanation.or(explanation_of(files, second, old, new)),
        }
    }

    /// The end of a server whose words spell no address.
    pub fn of_no_address(alloc: Global, listen: &str) -> Self
        ensures { result.finish ≡ finish_by lines.BadCommandLine }
    {
        Ending {
            finish: Finish::by(Line::BadCommandLine),
            explanation: format!(in alloc;
                "--listen {listen}: it is no IP address with a port, and no name is looked up\n"
            ).ok(),
        }
    }

    /// The end of a server that can't listen on an address.
    pub fn of_address(alloc: Global, address: SocketAddr, cause: io::Error) -> Self
        ensures { result.finish ≡ finish_by lines.CannotListen }
    {
        Ending {
            finish: Finish::by(Line::CannotListen),
            explanation: format!(in alloc; "{address}: {cause}\n").ok(),
        }
    }

    /// The same end, with its explanation only where it is to be told.
    pub fn told_if(self, causes: bool) -> Self
        ensures { result.finish ≡ self.finish }
    {
        Ending {
            finish: self.finish,
            explanation: if causes { self.explanation } else { None },
        }
    }
}
