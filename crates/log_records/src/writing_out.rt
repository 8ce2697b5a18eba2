//! Writing bytes out into a sink.

ghost use Rattle.std.specs.Prelude.{◌≡◌, length, true, false, IfSome};
ghost use Rattle.log_records.specs.LogViewAndSteps.{WroteOut};

use crate::log_sinks::LogSink;

/// How far a piece came into a sink.
#[derive(Clone, Copy, Debug, PartialEq, Eq)]
pub struct Out {
    /// The bytes that the sink took.
    pub taken: usize,
    /// Whether all went well.
    pub whole: bool,
}

/// Writes until all is out, or the sink fails.
pub fn write_out<S: LogSink>(sink: &mut S, bytes: &[u8]) -> Out
    ensures out { WroteOut (S.told sink.old) (S.told sink.new) (S.failures sink.old)
        (S.failures sink.new) bytes.now result }
    ensures synced { S.synced sink.new ≡ S.synced sink.old }
{
    let mut taken = 0;
    while taken < bytes.len() {
        match sink.write(&bytes[taken..]) {
            Ok(count) => taken += count,
            Err(_) => return Out {
                taken,
                whole: false,
            },
        }
    }
    Out { taken, whole: true }
}

/// Writes all, and then syncs, unless that is deferred.
pub fn put<S: LogSink>(sink: &mut S, bytes: &[u8], deferred: bool) -> Out
    ensures out { WroteOut (S.told sink.old) (S.told sink.new) (S.failures sink.old)
        (S.failures sink.new) bytes.now result }
    ensures synced { result.whole ≡ true → deferred ≡ false
        → IfSome (S.told sink.new) (λ all. S.synced sink.new ≡ length all) }
    ensures unsynced { deferred ≡ true → S.synced sink.new ≡ S.synced sink.old }
    ensures not_synced { result.whole ≡ false → S.synced sink.new ≡ S.synced sink.old }
{
    let out = write_out(sink, bytes);
    if !deferred && out.whole && sink.sync().is_err() {
        return Out {
            taken: out.taken,
            whole: false,
        };
    }
    out
}
