//! Where a table calls the gate.

use crate::tables::{SILENCE, Talk, gated_day};
use set_table::TestGate;
use std::sync::atomic::{AtomicU64, Ordering};
use std::test::*;

// Records where it was called: each place a digit, the last one at the end.
#[derive(Drop)]
struct Recorder {
    places: AtomicU64,
}

impl TestGate for Recorder {
    fn inside(&self, place: usize) {
        let earlier = self.places.load(Ordering::SeqCst);
        let places = earlier.wrapping_mul(10).wrapping_add(place as u64);
        self.places.store(places, Ordering::SeqCst);
    }
}

// Of `a`, whose place is 2, and `b`, whose place is 3. The first count has to make its set ready, so it
// meets the gate under the shared lock and under the exclusive one.
const AT_TWO_PLACES: Talk<'static> = Talk {
    first: &[
        "ZADD a 1 x",
        "ZADD b 1 y",
        "ZCARD a",
        "ZCOUNT b 0 5",
        "ZCOUNT b 0 5",
        "ZREM a x",
        "PING",
    ],
    ..SILENCE
};

#[test]
fn the_gate_is_called_with_the_key_s_place(rt: HostRuntime) -> Result<(), Fail> {
    let recorder = Recorder {
        places: AtomicU64::new(0),
    };
    drop(gated_day(&rt, &rt, &AT_TWO_PLACES, &recorder)?);
    assert_eq!(rt; recorder.places.load(Ordering::SeqCst), 2_323_332);
    Ok(())
}
