//! The line that a server prints last, and how it ends then.

ghost use Rattle.std.specs.Prelude.{◌≡◌, ◌++◌, decimal, OnOk, IfOk};
ghost use Rattle.exit_lines.specs.DeviceStates.{drain_state};
ghost use Rattle.tcp_server.specs.ServerRun as server;
ghost use Rattle.exit_lines.specs.ExitStatusAndLines.{IsPrinted};
ghost use Rattle.tcp_server.specs.ServerRun.{totals_text};

use exit_lines::{Finish, Line, print};
use resp_wire::ByteDrain;
use std::alloc::{AllocError, Global};
use std::fmt::Write;
use table_lifetime::Totals;

/// Adds a count behind a word.
fn push_count(text: &mut String, word: &str, count: u128) -> Result<(), AllocError>
    ensures { OnOk result (text.new.bytes.items
        ≡ text.old.bytes.items ++ (word.now ++ decimal count)) }
{
    write!(text, "{word}{count}")
}

/// The line that tells how many connections came, and the totals of the table.
fn totals_line(alloc: Global, connections: u128, totals: &Totals) -> Result<String, AllocError>
    ensures { IfOk result (λ text. text.bytes.items ≡ totals_text connections totals.now) }
{
    let mut text = String::new(alloc);
    push_count(&mut text, "connections ", connections)?;
    push_count(&mut text, " sets ", totals.sets)?;
    push_count(&mut text, " members ", totals.members)?;
    push_count(&mut text, " added ", totals.added)?;
    push_count(&mut text, " removed ", totals.removed)?;
    push_count(&mut text, " records ", totals.records)?;
    text.push('\n')?;
    Ok(text)
}

/// Prints how many connections came, and the totals of the table.
pub fn print_totals<D: ByteDrain>(
    alloc: Global,
    drain: &mut D,
    connections: u128,
    totals: &Totals,
) -> Result<(), Line>
    ensures { IsPrinted (totals_text connections totals.now) result
        (drain_state D.told D.flushed D.failures drain.old)
        (drain_state D.told D.flushed D.failures drain.new) }
{
    let Ok(text) = totals_line(alloc, connections, totals) else {
        return Err(Line::OutOfMemory);
    };
    print(drain, text.as_bytes())?;
    Ok(())
}

/// How a server ends whose totals line came to this, and whether accepting failed.
pub fn server_finish(printed: Result<(), Line>, fault: bool) -> Finish
    ensures { result ≡ server.server_finish printed fault }
{
    match (printed, fault) {
        (Ok(()), false) => Finish::quiet(0),
        (Ok(()), true) => Finish::by(Line::AcceptFault),
        (Err(line), false) => Finish::by(line),
        (Err(line), true) => Finish {
            status: line.status(),
            lines: [Some(line), Some(Line::AcceptFault)],
        },
    }
}
