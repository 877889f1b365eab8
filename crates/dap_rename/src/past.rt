//! The classes that ended at a stop.
ghost use Rattle.std.specs.Prelude.{◌≡◌, IfOk};

use crate::NameTable;
use std::alloc::{AllocError, Global};

/// The numbers of the classes between two stops, in the order of their canonical numbers.
#[derive(Drop)]
pub(crate) struct PastClasses {
    pub(crate) frames: Vec<i64>,
    pub(crate) references: Vec<i64>,
}

/// Returns the numbers of the table, in the order of their canonical numbers.
pub(crate) fn numbers_of<T: NameTable>(alloc: Global, table: &T) -> Result<Vec<i64>, AllocError>
    ensures { IfOk result (λ v. v.items ≡ T.numbers table.now) }
{
    let mut numbers = Vec::with_capacity(alloc, table.len())?;
    for index in 0..table.len() {
        numbers.push(table.at(index as i64 + 1))?;
    }
    Ok(numbers)
}
