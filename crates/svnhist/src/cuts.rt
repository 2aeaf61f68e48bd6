//! The lengths of blocks that a run is asked for.
ghost use Rattle.std.specs.Prelude.{◌≡◌, ◌<◌, [], ◌∷◌, All};

use std::slice;

/// The lengths of blocks of so many revisions, where 0 is one block.
pub(crate) fn cuts_of(block: &u32) -> &[u32]
    ensures none { block.now ≡ 0 → result.now ≡ [] }
    ensures one { 0 < block.now → result.now ≡ block.now ∷ [] }
    ensures positive { All (λ length. 0 < length) result.now }
{
    if *block == 0 {
        &[]
    } else {
        slice::from_ref(block)
    }
}
