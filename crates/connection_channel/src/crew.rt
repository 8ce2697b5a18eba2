//! Workers that have not begun, and the lists that are filled while they run.

ghost use Rattle.std.specs.Prelude.{◌≡◌, ◌+◌, ◌<◌, ◌≤◌, ◌^◌, [], IfOk, All, map, vec_capacity};

use crate::accepting::Unsent;
use crate::desks::{Desk, desks_of};
use crate::handler::Handler;
use crate::load_balancing::{Doors, doors_of};
use crate::promise::Child;
use crate::recalling_workers::Returned;
use std::alloc::{AllocError, Global};

/// Workers that have not begun, and how many connections they are to handle at most.
#[derive(Drop)]
pub struct Crew<H> {
    pub alloc: Global,
    pub desks: Vec<Desk<H>>,
    pub limit: u64,
}

/// A crew of these handlers, and the doors to them.
pub fn crew_of<C: Drop, H: Handler<C> + Drop>(
    alloc: Global,
    handlers: Vec<H>,
    limit: u64,
) -> Result<(Doors<H::Bell>, Crew<H>), AllocError>
    requires room { All (λ handler. H.handled handler + limit < 2 ^ 64) handlers.items }
    ensures handlers { IfOk result (λ r. map (λ d. d.handler) r.1.desks.items ≡ handlers.items) }
    ensures limit { IfOk result (λ r. r.1.limit ≡ limit) }
    ensures room { IfOk result
        (λ r. All (λ d. H.handled d.handler + d.limit < 2 ^ 64) r.1.desks.items) }
{
    let doors = doors_of(alloc, &handlers)?;
    let desks = desks_of(alloc, handlers, limit as usize)?;
    Ok((
        doors,
        Crew {
            alloc,
            desks,
            limit,
        },
    ))
}

/// The lists that are filled while workers run, each with its room: for so many workers, and for
/// `limit` numbers.
pub fn rooms<C: Drop + Send, H: Handler<C> + Drop + Send>(
    alloc: Global,
    workers: usize,
    limit: u64,
) -> Result<(Vec<Child<C, H>>, Returned<H>, Unsent), AllocError>
    ensures children { IfOk result (λ r. (r.0.items ≡ []) × (workers ≤ vec_capacity r.0)) }
    ensures returned { IfOk result (λ r. (r.1.handlers.items ≡ []) × (r.1.taken.items ≡ [])
        × (workers ≤ vec_capacity r.1.handlers) × (workers ≤ vec_capacity r.1.taken)) }
    ensures unsent { IfOk result (λ r. (r.2.numbers.items ≡ [])
        × (limit ≤ vec_capacity r.2.numbers)) }
{
    let children = Vec::with_capacity(alloc, workers)?;
    let returned = Returned::with_room(alloc, workers)?;
    let unsent = Unsent::with_room(alloc, limit)?;
    Ok((children, returned, unsent))
}
