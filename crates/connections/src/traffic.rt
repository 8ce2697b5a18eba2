//! How much a connection asks.

/// A connection that asks more requests than these before it waits again is busy.
const QUIET_REQUESTS: u64 = 4;

/// What is known of a connection's traffic. Quiet ones come first.
#[derive(Clone, Copy, Debug)]
pub enum Traffic {
    /// Nothing: it has not waited yet with a request answered.
    Unknown,
    /// At most [`QUIET_REQUESTS`] were run from one wait to the next.
    Quiet,
    /// More were, since it waited last.
    Busy,
}

impl Traffic {
    /// What is known after so many requests since the last wait, where it waits again or doesn't.
    pub fn behind(self, requests: u64, waits: bool) -> Self {
        if requests > QUIET_REQUESTS {
            Traffic::Busy
        } else if waits && requests > 0 {
            Traffic::Quiet
        } else {
            self
        }
    }
}
