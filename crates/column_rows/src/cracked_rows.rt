//! Rows with the pivots that part them.

ghost use Rattle.std.specs.Prelude.{[], ◌≡◌};
ghost use Rattle.crack_kernel.specs.PivotList.{ObeysPivots};

use crate::fingerprinted_rows::Rows;
use crack_kernel::Pivots;
use std::alloc::Allocator;
use std::mem;

/// Rows with the pivots that part them: below a pivot's place the scores are below its value, from
/// its place on they are not.
#[derive(Drop)]
pub struct Cracked<A: Allocator> {
    pub rows: Rows<A>,
    pub pivots: Pivots<A>,
    pub ghost law: { ObeysPivots pivots.list rows.items },
}

impl<A: Allocator + Copy> Cracked<A> {
    /// No rows. It takes no memory.
    pub fn new(alloc: A) -> Self
        ensures rows { result.rows.items ≡ [] }
        ensures pivots { result.pivots.list ≡ [] }
    {
        Cracked {
            rows: Rows::new(alloc),
            pivots: Pivots::new(alloc),
        }
    }

    /// Gives its rows and pivots up, and has none. It takes no memory.
    pub fn take(&mut self) -> Self
        ensures { result ≡ self.old }
    {
        let none = Cracked::new(self.rows.allocator());
        mem::replace(self, none)
    }
}
