//! What a worker begins with.

ghost use Rattle.std.specs.Prelude.{◌≡◌, ◌+◌, ◌<◌, ◌≤◌, ◌^◌, [], IfOk, All, map, vec_capacity};

use crate::handler::Handler;
use std::alloc::{AllocError, Global};

/// A worker that has not begun: its handler, and a list that has room for as many numbers as it may
/// take.
#[derive(Drop)]
pub struct Desk<H> {
    pub handler: H,
    pub taken: Vec<u64>,
    pub limit: usize,
    ghost empty: { taken.items ≡ [] },
    ghost room: { limit ≤ vec_capacity taken },
}

impl<H: Drop> Desk<H> {
    pub fn new(alloc: Global, handler: H, limit: usize) -> Result<Self, AllocError>
        ensures { IfOk result (λ desk. (desk.handler ≡ handler) × (desk.limit ≡ limit)) }
    {
        let taken = Vec::with_capacity(alloc, limit)?;
        Ok(Desk {
            handler,
            taken,
            limit,
        })
    }
}

/// A desk for each handler.
pub fn desks_of<C, H: Handler<C> + Drop>(
    alloc: Global,
    handlers: Vec<H>,
    limit: usize,
) -> Result<Vec<Desk<H>>, AllocError>
    requires room { All (λ h. H.handled h + limit < 2 ^ 64) handlers.items }
    ensures handlers { IfOk result (λ desks. map (λ d. d.handler) desks.items ≡ handlers.items) }
    ensures room { IfOk result
        (λ desks. All (λ d. H.handled d.handler + d.limit < 2 ^ 64) desks.items) }
{
    let mut desks = Vec::new(alloc);
    for handler in handlers {
        desks.push(Desk::new(alloc, handler, limit)?)?;
    }
    Ok(desks)
}
