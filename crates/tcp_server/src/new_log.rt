//! The log of a session or a server.

ghost use Rattle.std.specs.Prelude.{◌≡◌, ◌≤◌, false};
ghost use Rattle.command_line.specs.declared.limits.TheConstants.{MAX_RECORDS};

use append_log::{Log, LogSink};
use std::sync::ledger::{Blank, Ledger};

/// A log of no records, behind whatever its sink holds. Each append syncs its record; a log that is deferred leaves that
/// to others.
pub fn new_log<S: LogSink, L: Ledger>(
    blank: Blank,
    sink: S,
    max_records: u64,
    is_deferred: bool,
) -> Log<S, L>
    requires name { blank.name ≡ L.name }
    requires parts { blank.parts ≡ L.parts }
    requires two { 2 ≤ blank.parts }
    requires some { 1 ≤ max_records }
    requires limited { max_records ≤ MAX_RECORDS }
    ensures { result ≡ record {
      told = S.told sink;
      synced = S.synced sink;
      calls = S.calls sink;
      failures = S.failures sink;
      appended = 0;
      settled = 0;
      written = 0;
      limit = max_records;
      deferred = is_deferred;
      broken = false;
      parts = blank.parts;
    } }
{
    if is_deferred {
        Log::<_, L>::deferred(blank, sink, max_records)
    } else {
        Log::<_, L>::new(blank, sink, max_records)
    }
}
