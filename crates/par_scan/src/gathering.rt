//! Putting together what was made of the parts.
ghost use Rattle.std.specs.Prelude.{◌≡◌, ◌++◌, map, IfOk};
ghost use Rattle.std.specs.List.{flat_map};

use std::alloc::{AllocError, Global};

/// The values of all results, or the first error.
pub(crate) fn all_ok<T: Drop>(
    alloc: Global,
    results: Vec<Result<T, AllocError>>,
) -> Result<Vec<T>, AllocError>
    ensures { IfOk result (λ values. results.items ≡ map Ok values.items) }
{
    let mut values = Vec::with_capacity(alloc, results.len())?;
    for each in results {
        values.push(each?)?;
    }
    Ok(values)
}

/// The first elements, followed by those of all parts.
pub(crate) fn append_all<T: Drop>(first: Vec<T>, parts: Vec<Vec<T>>) -> Result<Vec<T>, AllocError>
    ensures { IfOk result (λ all. all.items ≡ first.items ++ flat_map (λ part. part.items) parts.items) }
{
    let mut all = first;
    for part in parts {
        let mut moved = part;
        all.append(&mut moved)?;
    }
    Ok(all)
}
