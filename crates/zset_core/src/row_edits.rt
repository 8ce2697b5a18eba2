//! What a commit does to the rows of a set's column.
ghost use Rattle.std.specs.Prelude.{◌≡◌, ◌++◌, ◌∷◌, [], ◌+◌, ◌≤◌, length, count_by, OnOk};
ghost use Rattle.crack_kernel.specs.RowBag.{Test};
ghost use Rattle.ripple_column.specs.Content.{content_count};

use crack_kernel::Row;
use ripple_column::Column;
use short_bytes::ShortBytes;
use std::alloc::{AllocError, Allocator};

/// Rows that come in and rows that leave. One row may do both.
#[derive(Drop)]
pub struct Edits<A: Allocator> {
    pub coming: Vec<Row<A>, A>,
    pub leaving: Vec<Row<A>, A>,
}

impl<A: Allocator + Copy> Edits<A> {
    /// No edits.
    pub fn none(alloc: A) -> Self
        ensures coming { result.coming.items ≡ [] }
        ensures leaving { result.leaving.items ≡ [] }
    {
        Edits {
            coming: Vec::new(alloc),
            leaving: Vec::new(alloc),
        }
    }

    /// A row comes in.
    pub fn add(&mut self, score: i64, member: ShortBytes<A>) -> Result<(), AllocError>
        ensures coming { OnOk result
            (self.new.coming.items ≡ self.old.coming.items ++ (score, member) ∷ []) }
        ensures leaving { self.new.leaving.items ≡ self.old.leaving.items }
    {
        self.coming.push(Row::new(score, member))?;
        Ok(())
    }

    /// A row leaves.
    pub fn take(&mut self, score: i64, member: ShortBytes<A>) -> Result<(), AllocError>
        ensures leaving { OnOk result
            (self.new.leaving.items ≡ self.old.leaving.items ++ (score, member) ∷ []) }
        ensures coming { self.new.coming.items ≡ self.old.coming.items }
    {
        self.leaving.push(Row::new(score, member))?;
        Ok(())
    }
}

/// The rows come into the column. It takes no memory.
fn insert_all<A: Allocator + Copy>(column: &mut Column<A>, mut rows: Vec<Row<A>, A>)
    requires { length rows.items ≤ column.old.insert_spare }
    ensures content { (p : Test) → content_count p column.new ≡ content_count p column.old
        + count_by p rows.items }
    ensures spare { column.old.delete_spare ≤ column.new.delete_spare }
    ensures rows { column.new.rows ≡ column.old.rows }
    ensures pivots { column.new.pivots ≡ column.old.pivots }
{
    while let Some(row) = rows.pop() {
        column.insert(row);
    }
}

/// The rows, which the column has, leave it. It takes no memory.
fn delete_all<A: Allocator + Copy>(column: &mut Column<A>, mut rows: Vec<Row<A>, A>)
    requires room { length rows.items ≤ column.old.delete_spare }
    requires there { (p : Test) → count_by p rows.items ≤ content_count p column.old }
    ensures content { (p : Test) → content_count p column.old ≡ content_count p column.new
        + count_by p rows.items }
    ensures rows { column.new.rows ≡ column.old.rows }
    ensures pivots { column.new.pivots ≡ column.old.pivots }
    ensures spare { column.old.delete_spare ≤ column.new.delete_spare + length rows.items }
{
    while let Some(row) = rows.pop() {
        column.delete(row);
    }
}

/// The edits are made in a column that has room for them, and that has all rows that leave once the
/// others came in. It takes no memory.
pub fn make_edits<A: Allocator + Copy>(column: &mut Column<A>, edits: Edits<A>)
    requires coming { length edits.coming.items ≤ column.old.insert_spare }
    requires leaving { length edits.leaving.items ≤ column.old.delete_spare }
    requires there { (p : Test) → count_by p edits.leaving.items ≤ content_count p column.old
        + count_by p edits.coming.items }
    ensures content { (p : Test) → content_count p column.new + count_by p edits.leaving.items
        ≡ content_count p column.old + count_by p edits.coming.items }
    ensures rows { column.new.rows ≡ column.old.rows }
    ensures pivots { column.new.pivots ≡ column.old.pivots }
    ensures spare { column.old.delete_spare ≤ column.new.delete_spare + length edits.leaving.items }
{
    insert_all(column, edits.coming);
    delete_all(column, edits.leaving);
}
