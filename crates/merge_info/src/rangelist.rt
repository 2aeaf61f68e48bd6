//! Rangelists.
ghost use Rattle.std.specs.Prelude.{◌≡◌, None, Some, All, IfOk, IsErrOf};
ghost use Rattle.range_list.specs.Rangelist.{IsRun};
ghost use Rattle.merge_info.specs.Line.{elements_of, without_blanks};

use crate::element::element;
use crate::error::MergeError;
use range_list::Run;
use std::alloc::Global;

/// The runs of a rangelist, in their order: nothing, or elements separated by one comma each.
pub fn read_rangelist(alloc: Global, bytes: &[u8]) -> Result<Vec<Run>, MergeError>
    ensures ok { IfOk result (λ runs. elements_of bytes.now ≡ Some runs.items) }
    ensures runs { IfOk result (λ runs. All IsRun runs.items) }
    ensures malformed { IsErrOf result MergeError.Malformed → elements_of bytes.now ≡ None }
{
    let mut runs = Vec::new(alloc);
    if bytes.is_empty() {
        return Ok(runs);
    }
    // A closure finds the end of a short element sooner than `memchr` does.
    for part in bytes.split(|byte| *byte == b',') {
        let Some(run) = element(part) else {
            return Err(MergeError::Malformed);
        };
        runs.push(run)?;
    }
    Ok(runs)
}

/// What follows the spaces and tabs at the front.
pub(crate) fn without_blanks(bytes: &[u8]) -> &[u8]
    ensures { result.now ≡ without_blanks bytes.now }
{
    let start = bytes
        .iter()
        .position(|byte| *byte != b' ' && *byte != b'\t')
        .unwrap_or(bytes.len());
    let (_, rest) = bytes.split_at(start);
    rest
}
