//! How the program ends.

ghost use Rattle.std.specs.Prelude.{◌≡◌, ◌≢◌, None, Some, [], ◌∷◌};
ghost use Rattle.std.specs.declared.io.ErrorKind.TheVariants as kinds;
ghost use Rattle.exit_lines.specs.ExitStatusAndLines as ends;
ghost use Rattle.exit_lines.specs.declared.lines_and_statuses.Line.TheVariants as lines;
ghost use Rattle.exit_lines.specs.ExitStatusAndLines.{noticed};

use append_file::FileFault;
use std::fmt;
use std::io::ErrorKind;

/// What can't be used, and why. The line is the same for all; its explanation tells more.
#[derive(Clone, Copy, Debug, PartialEq, Eq)]
pub enum Unusable {
    /// A standard stream is closed, and `/dev/null` can't be opened in its place.
    Stream,
    /// The append file that is there, or that a session makes.
    Old(FileFault),
    /// The file of version 2 that is to take the place of one of version 1.
    Renewed(FileFault),
    /// The append file that a rewrite makes.
    New(FileFault),
}

/// A line on standard error.
#[derive(Clone, Copy, Debug, PartialEq, Eq)]
pub enum Line {
    BadCommandLine,
    /// An append file can't be used: it can't be opened, made, locked, cut, written anew, synced or
    /// given its name, or it is in use.
    CannotUseFile(Unusable),
    /// The record that begins at this byte of the append file, counted from 0, is damaged.
    FileDamaged(u64),
    /// The record that begins at this byte of the append file, counted from 0, is no command that
    /// changes sets.
    NoCommandInFile(u64),
    /// The append file's first record names a version that this program does not know.
    UnknownVersion,
    FileReadFault,
    FileReadTooOften,
    /// A notice: so many bytes at the end of the append file are less than a record. The work goes
    /// on.
    TornEnd(u64),
    OutOfMemory,
    ReadFault,
    /// A reply could not be written, after so many bytes of replies had gone out.
    WriteFaultAfter(u128),
    /// What the program prints could not be written, or a new append file.
    WriteFault,
    /// The fault's number.
    ProtocolFault(u8),
    ReadTooOften,
    /// The append file has more keys than the server has places.
    MoreKeysThanPlaces,
    /// The address can't be listened on.
    CannotListen,
    /// The system gives no thread for a worker.
    CannotStartWorkers,
    /// No more connections could be accepted.
    AcceptFault,
    /// What the workers were told doesn't add up with the sets, or with the records.
    TotalsDisagree,
}

impl Line {
    /// The exit status of an end for this cause. After a notice the work goes on.
    pub fn status(self) -> u8
        ensures { result ≡ ends.status_of self }
    {
        match self {
            Line::TornEnd(_) => 0,
            Line::BadCommandLine => 2,
            Line::CannotUseFile(_)
            | Line::FileDamaged(_)
            | Line::NoCommandInFile(_)
            | Line::UnknownVersion
            | Line::FileReadFault
            | Line::FileReadTooOften
            | Line::MoreKeysThanPlaces
            | Line::CannotListen => 3,
            Line::OutOfMemory | Line::CannotStartWorkers => 4,
            Line::ReadFault
            | Line::WriteFaultAfter(_)
            | Line::WriteFault
            | Line::ProtocolFault(_)
            | Line::ReadTooOften
            | Line::AcceptFault
            | Line::TotalsDisagree => 1,
        }
    }

    /// The same line, where of the bytes that it counts so many were held back.
    fn without_held(self, held: usize) -> Line
        ensures { result ≡ ends.line_without_held held self }
    {
        match self {
            Line::WriteFaultAfter(out) => Line::WriteFaultAfter(out.saturating_sub(held as u128)),
            line => line,
        }
    }
}

impl fmt::Display for Line {
    fn fmt<W: fmt::Write>(&self, f: &mut fmt::Formatter<W>) -> fmt::Result {
        match self {
            Line::BadCommandLine => f.write_str("zcrackd: bad command line"),
            Line::CannotUseFile(_) => f.write_str("zcrackd: cannot use file"),
            Line::FileDamaged(at) => write!(f, "zcrackd: append file damaged at byte {at}"),
            Line::NoCommandInFile(at) => {
                write!(f, "zcrackd: append file has no command at byte {at}")
            }
            Line::UnknownVersion => f.write_str("zcrackd: unknown append file version"),
            Line::FileReadFault => f.write_str("zcrackd: append file read fault"),
            Line::FileReadTooOften => f.write_str("zcrackd: append file read too often"),
            Line::TornEnd(bytes) => write!(f, "zcrackd: torn end of {bytes} bytes"),
            Line::WriteFault => f.write_str("zcrackd: write fault"),
            Line::OutOfMemory => f.write_str("zcrackd: out of memory"),
            Line::ReadFault => f.write_str("zcrackd: read fault"),
            Line::WriteFaultAfter(out) => write!(f, "zcrackd: write fault after {out} bytes"),
            Line::ProtocolFault(number) => write!(f, "zcrackd: protocol fault {number}"),
            Line::ReadTooOften => f.write_str("zcrackd: read too often"),
            Line::MoreKeysThanPlaces => f.write_str("zcrackd: more keys than places"),
            Line::CannotListen => f.write_str("zcrackd: cannot listen"),
            Line::CannotStartWorkers => f.write_str("zcrackd: cannot start workers"),
            Line::AcceptFault => f.write_str("zcrackd: accept fault"),
            Line::TotalsDisagree => f.write_str("zcrackd: totals disagree"),
        }
    }
}

/// An exit status, and the lines for standard error before it, in order.
#[derive(Clone, Copy, Debug, PartialEq, Eq)]
pub struct Finish {
    pub status: u8,
    pub lines: [Option<Line>; 2],
}

impl Finish {
    /// An end with no line.
    pub fn quiet(status: u8) -> Self
        ensures { result ≡ record { status = status; lines = None ∷ None ∷ [] } }
    {
        Finish {
            status,
            lines: [None, None],
        }
    }

    /// The end out of memory.
    pub fn out_of_memory() -> Self
        ensures { result ≡ record { status = 4; lines = Some lines.OutOfMemory ∷ None ∷ [] } }
    {
        Finish::with_line(4, Line::OutOfMemory)
    }

    /// The end for one cause: its line, with its status.
    pub fn by(line: Line) -> Self
        ensures { result ≡ ends.finish_by line }
    {
        Finish::with_line(line.status(), line)
    }

    /// The end where the words of the command line could not be read, for this cause.
    pub fn without_words(cause: ErrorKind) -> Self
        ensures memory { cause ≡ kinds.OutOfMemory → result ≡ ends.finish_by lines.OutOfMemory }
        ensures other { cause ≢ kinds.OutOfMemory → result ≡ ends.finish_by lines.BadCommandLine }
    {
        if cause == ErrorKind::OutOfMemory {
            return Finish::out_of_memory();
        }
        Finish::by(Line::BadCommandLine)
    }

    /// An end with one line.
    pub fn with_line(status: u8, line: Line) -> Self
        ensures { result ≡ record { status = status; lines = Some line ∷ None ∷ [] } }
    {
        Finish {
            status,
            lines: [Some(line), None],
        }
    }

    /// The same end, without a line that was told before.
    pub fn without_line(self, told: Line) -> Self
        ensures { result.status ≡ self.status }
    {
        Finish {
            status: self.status,
            lines: self.lines.map(|line| line.filter(|line| *line != told)),
        }
    }

    /// The same end, after a session whose drain kept so many bytes of replies that it had taken:
    /// they count as written for the session, and did not go out.
    pub fn without_held(self, held: usize) -> Self
        ensures { result ≡ ends.without_held held self }
    {
        let [first, second] = self.lines;
        Finish {
            status: self.status,
            lines: [
                first.map(|line| line.without_held(held)),
                second.map(|line| line.without_held(held)),
            ],
        }
    }

    /// The same end, with a notice before its line where there is one.
    pub fn after_notice(self, notice: Option<Line>) -> Self
        ensures { result ≡ noticed notice self }
    {
        match notice {
            None => self,
            Some(line) => Finish {
                status: self.status,
                lines: [Some(line), self.lines[0]],
            },
        }
    }
}
