//! How often a device was called, and how often a call failed.

ghost use Rattle.std.specs.Prelude.{◌≡◌};
ghost use Rattle.byte_devices.specs.Device.{saturating_succ};

/// How often a device was called, and how often a call failed. At 2^64 - 1 a count stays.
#[derive(Drop)]
pub struct CallCount {
    pub(crate) calls: u64,
    pub(crate) failures: u64,
}

impl CallCount {
    /// Of a device that was not called yet.
    pub fn new() -> Self
        ensures { result ≡ record { calls = 0; failures = 0 } }
    {
        CallCount {
            calls: 0,
            failures: 0,
        }
    }

    /// Counts a call.
    pub fn called(&mut self)
        ensures { self.new ≡ record self.old { calls = saturating_succ self.old.calls } }
    {
        self.calls = self.calls.saturating_add(1);
    }

    /// Counts a call as failed, and gives its error.
    pub fn failed<E>(&mut self, error: E) -> E
        ensures error { result ≡ error }
        ensures count { self.new ≡ record self.old { failures = saturating_succ self.old.failures } }
    {
        self.failures = self.failures.saturating_add(1);
        error
    }
}
