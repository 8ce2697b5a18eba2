//! Each line's text and status, and the end of a session that no run brings about. A line that no run brings about is seen
//! here alone.

use exit_lines::{Finish, Line, Unusable};
use program_runs::after_session;
use session_core::SessionFault;
use std::alloc::{AllocError, Allocator};
use std::test::Fail;

static LINES: [(Line, u8, &str); 19] = [
    (Line::BadCommandLine, 2, "zcrackd: bad command line"),
    (
        Line::CannotUseFile(Unusable::Stream),
        3,
        "zcrackd: cannot use file",
    ),
    (
        Line::FileDamaged(35),
        3,
        "zcrackd: append file damaged at byte 35",
    ),
    (
        Line::NoCommandInFile(70),
        3,
        "zcrackd: append file has no command at byte 70",
    ),
    (
        Line::UnknownVersion,
        3,
        "zcrackd: unknown append file version",
    ),
    (Line::FileReadFault, 3, "zcrackd: append file read fault"),
    (
        Line::FileReadTooOften,
        3,
        "zcrackd: append file read too often",
    ),
    (Line::TornEnd(10), 0, "zcrackd: torn end of 10 bytes"),
    (Line::OutOfMemory, 4, "zcrackd: out of memory"),
    (Line::ReadFault, 1, "zcrackd: read fault"),
    (
        Line::WriteFaultAfter(7),
        1,
        "zcrackd: write fault after 7 bytes",
    ),
    (Line::WriteFault, 1, "zcrackd: write fault"),
    (Line::ProtocolFault(3), 1, "zcrackd: protocol fault 3"),
    (Line::ReadTooOften, 1, "zcrackd: read too often"),
    (
        Line::MoreKeysThanPlaces,
        3,
        "zcrackd: more keys than places",
    ),
    (Line::CannotListen, 3, "zcrackd: cannot listen"),
    (Line::CannotStartWorkers, 4, "zcrackd: cannot start workers"),
    (Line::AcceptFault, 1, "zcrackd: accept fault"),
    (Line::TotalsDisagree, 1, "zcrackd: totals disagree"),
];

/// Whether a line has this text.
fn has_text<A: Allocator + Copy>(alloc: A, line: &Line, text: &str) -> Result<bool, AllocError> {
    let told = format!(in alloc; "{line}")?;
    Ok(told.as_str() == text)
}

#[test]
fn each_line_has_its_text_and_status(rt: HostRuntime) -> Result<(), Fail> {
    for (line, status, text) in &LINES {
        let has_text = has_text(rt.alloc(), line, text)?;
        assert!(rt; has_text && line.status() == *status, "{text}");
    }
    Ok(())
}

#[test]
fn too_many_reads_are_told(rt: HostRuntime) {
    let finish = after_session(Err(SessionFault::TooManyReads));
    assert_eq!(rt; finish, Finish::with_line(1, Line::ReadTooOften));
}
