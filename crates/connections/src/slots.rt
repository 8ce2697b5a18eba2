//! The places of a worker's connections.

ghost use Rattle.std.specs.Prelude.{◌≡◌, ◌<◌, List, [], length, Option, Some, None, slice_get, slice_set};
ghost use Rattle.connections.specs.Places.{IsGrown, MayPut};

use std::alloc::{AllocError, Allocator};
use std::marker::Model;
use std::mem;

/// Values at places. A place keeps its value until it is taken out, and is given anew once it was
/// let go.
#[derive(Drop)]
pub struct Slots<T, A: Allocator> {
    slots: Vec<Option<T>, A>,
    /// The places that are free. There is room for all.
    free: Vec<usize, A>,
    count: usize,
}

/// Seen as what stands at each place.
impl<T, A: Allocator> Model for Slots<T, A> {
    ghost Value = { List (Option T) };

    ghost view = { λ s. s.slots.items };
}

impl<T: Drop, A: Allocator + Copy> Slots<T, A> {
    pub fn new(alloc: A) -> Self
        ensures none { result ≡ [] }
    {
        Slots {
            slots: Vec::new(alloc),
            free: Vec::new(alloc),
            count: 0,
        }
    }

    /// How many values there are, those among them that are out for a turn.
    pub fn count(&self) -> usize {
        self.count
    }

    /// How many places there are, from 0 on.
    pub fn len(&self) -> usize
        ensures len { result ≡ length self.now }
    {
        self.slots.len()
    }

    /// Makes a place where none is free. Gives the place that the next value will have.
    pub fn make_room(&mut self) -> Result<usize, AllocError>
        ensures grown { IsGrown self.old self.new }
    {
        if let Some(place) = self.free.last() {
            return Ok(*place);
        }
        let place = self.slots.len();
        self.free.reserve(place.saturating_add(1))?;
        self.slots.push(None)?;
        self.free.push(place)?;
        Ok(place)
    }

    /// Puts a value at the place that [`Slots::make_room`] gave. Without one it is dropped.
    pub fn put(&mut self, value: T)
        ensures put { MayPut value self.old self.new }
    {
        let Some(place) = self.free.pop() else {
            return;
        };
        if place < self.slots.len() && self.slots[place].is_none() {
            self.slots[place] = Some(value);
            self.count = self.count.saturating_add(1);
        }
    }

    /// The value at a place.
    pub fn get(&self, place: usize) -> Option<&T> {
        match self.slots.get(place) {
            Some(Some(value)) => Some(value),
            _ => None,
        }
    }

    /// Takes the value out of a place, which stays its own until it is let go.
    pub fn take(&mut self, place: usize) -> Option<T>
        requires place { place < length self.old }
        ensures value { slice_get self.old place ≡ Some result }
        ensures out { self.new ≡ slice_set self.old place None }
    {
        mem::replace(&mut self.slots[place], None)
    }

    /// Puts a value back that was taken out of this place.
    pub fn put_back(&mut self, place: usize, value: T)
        requires place { place < length self.old }
        ensures put { self.new ≡ slice_set self.old place (Some value) }
    {
        self.slots[place] = Some(value);
    }

    /// Lets a place go whose value was taken out.
    pub fn let_go(&mut self, place: usize)
        ensures same { self.new ≡ self.old }
    {
        self.count = self.count.saturating_sub(1);
        let _ = self.free.push(place);
    }
}
