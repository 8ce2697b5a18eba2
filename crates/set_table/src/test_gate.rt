//! What is called while a set's lock is held.

/// Called while a place's lock is held, before its cell is asked. A test can hold a run there until
/// one of another place is answered.
pub trait TestGate {
    fn inside(&self, place: usize);
}

/// A gate that does nothing.
#[derive(Drop)]
pub struct NoGate;

impl TestGate for NoGate {
    fn inside(&self, _place: usize) {}
}
