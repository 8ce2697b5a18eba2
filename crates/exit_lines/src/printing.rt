//! What the program prints on standard output.

ghost use Rattle.std.specs.Prelude.{◌≡◌, IfErr, OnOk};
ghost use Rattle.std.specs.Io.KnownBytes.{append_known};
ghost use Rattle.resp_wire.specs.Device.{Rose};
ghost use Rattle.exit_lines.specs.declared.lines_and_statuses.Line.TheVariants as lines;

use crate::lines_and_statuses::Line;
use resp_wire::{ByteDrain, write_all};

/// Writes a text to the drain, and sends it on.
pub fn print<D: ByteDrain>(drain: &mut D, text: &[u8]) -> Result<(), Line>
    ensures told { OnOk result (D.told drain.new ≡ append_known (D.told drain.old) text.now) }
    ensures flushed { OnOk result (D.flushed drain.new ≡ D.told drain.new) }
    ensures cause { IfErr result (λ line. (line ≡ lines.WriteFault)
        × Rose (D.failures drain.old) (D.failures drain.new)) }
{
    if write_all(drain, text).is_err() {
        return Err(Line::WriteFault);
    }
    drain.flush().map_err(|_| Line::WriteFault)
}
