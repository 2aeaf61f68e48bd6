//! Paths in the order of the bytes of their texts.
ghost use Rattle.std.specs.Prelude.{◌≡◌, All, IfOk};
ghost use Rattle.svn_path.specs.Path.{IsPathOf};
ghost use Rattle.branch_answer.specs.TextOrder.{entries_by_text, paths_by_text, sorted_by_text};

use std::alloc::{AllocError, Global};
use std::collections::BTreeMap;
use svn_path::{Names, Path};

/// These paths in the order of the bytes of their texts, each once.
pub(crate) fn in_order(
    alloc: Global,
    names: &Names,
    paths: Vec<Path>,
) -> Result<Vec<Path>, AllocError>
    requires { All (IsPathOf names.now) paths.items }
    ensures { IfOk result (λ sorted. paths_by_text names.now sorted.items
        ≡ sorted_by_text (paths_by_text names.now paths.items)) }
{
    let sorted = by_text(alloc, names, paths)?;
    sorted.into_values().collect(alloc)
}

/// These paths by their texts.
fn by_text(
    alloc: Global,
    names: &Names,
    paths: Vec<Path>,
) -> Result<BTreeMap<Vec<u8>, Path>, AllocError>
    requires { All (IsPathOf names.now) paths.items }
    ensures { IfOk result (λ sorted. entries_by_text sorted.entries
        ≡ sorted_by_text (paths_by_text names.now paths.items)) }
{
    let mut sorted = BTreeMap::new(alloc);
    for path in paths {
        let mut text = Vec::new(alloc);
        path.write(names, &mut text)?;
        sorted.insert(text, path)?;
    }
    Ok(sorted)
}
