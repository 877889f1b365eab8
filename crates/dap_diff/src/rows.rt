//! The records of two recordings in the order of the report.
use crate::entry::StoredEntry;
use std::alloc::{AllocError, Global};

/// A record of A, of B, or of both.
#[derive(Clone, Copy)]
pub enum Row<'m> {
    Pair(&'m StoredEntry<'m>, &'m StoredEntry<'m>),
    OnlyA(&'m StoredEntry<'m>),
    OnlyB(&'m StoredEntry<'m>),
}

/// Returns the counterpart of a record and its index.
fn counterpart_of<'m>(
    entry: &StoredEntry<'m>,
    others: &'m [StoredEntry<'m>],
) -> Option<(usize, &'m StoredEntry<'m>)> {
    let index = entry.counterpart?;
    Some((index, others.get(index)?))
}

/// Appends the records of B from one index to another that have no counterpart.
fn push_only_b<'m>(
    b: &'m [StoredEntry<'m>],
    from: usize,
    to: usize,
    rows: &mut Vec<Row<'m>>,
) -> Result<(), AllocError> {
    for index in from..to {
        if let Some(entry) = b.get(index)
            && entry.counterpart.is_none()
        {
            rows.push(Row::OnlyB(entry))?;
        }
    }
    Ok(())
}

/// Returns all records in the order of A. A record of B without a counterpart comes before the
/// first pair that comes after it in B.
pub fn rows_of<'m>(
    alloc: Global,
    a: &'m [StoredEntry<'m>],
    b: &'m [StoredEntry<'m>],
) -> Result<Vec<Row<'m>>, AllocError> {
    let mut rows = Vec::new(alloc);
    let mut passed = 0;
    for entry in a {
        match counterpart_of(entry, b) {
            Some((index, other)) => {
                push_only_b(b, passed, index, &mut rows)?;
                passed = passed.max(index);
                rows.push(Row::Pair(entry, other))?;
            }
            None => rows.push(Row::OnlyA(entry))?,
        }
    }
    push_only_b(b, passed, b.len(), &mut rows)?;
    Ok(rows)
}

/// Returns the first pair that comes in B before a pair that it follows in A.
pub fn first_out_of_order<'m>(
    rows: &[Row<'m>],
) -> Option<(&'m StoredEntry<'m>, &'m StoredEntry<'m>)> {
    let mut last = 0;
    for row in rows {
        if let Row::Pair(a, b) = row {
            if b.number < last {
                return Some((*a, *b));
            }
            last = b.number;
        }
    }
    None
}
