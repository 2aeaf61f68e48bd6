//! Mergeinfo as it is printed.
ghost use Rattle.std.specs.Prelude.{◌≡◌, ◌++◌, IfOk, OnOk, flat_map};
ghost use Rattle.merge_info.specs.CanonicalValue.{inherited_value};
ghost use Rattle.merge_info.specs.Line.{IsPrintedPath};
ghost use Rattle.svn_text.specs.Appended.{BeginsWith};
ghost use Rattle.svn_text.specs.Line.{line_text};

use merge_info::MergeInfo;
use std::alloc::{AllocError, Global};
use std::marker::Model;
use std::snapshot::Snapshot;

/// The lines of the mergeinfo that holds for a path, seen as its value. The lines alone are kept.
#[derive(Drop)]
pub struct PrintedMergeinfo {
    text: Vec<u8>,
    /// The path's own value, or that of a path above it.
    value: Snapshot<MergeInfo>,
    /// What follows the path above.
    rest: Option<Snapshot<Vec<u8>>>,
}

impl Model for PrintedMergeinfo {
    ghost use Rattle.std.specs.Prelude.{◌≡◌};
    ghost use Rattle.merge_info.specs.Text.{value_text};
    ghost use Rattle.merge_info.specs.Value.{MergeInfoValue};
    ghost use Rattle.query_answer.specs.PrintedMergeinfo.{printed_value};

    ghost Value = { MergeInfoValue };

    ghost view = { λ printed. printed_value printed.value printed.rest };

    ghost invariant = { λ printed. printed.text.items ≡ value_text (printed_value printed.value printed.rest) };
}

impl PrintedMergeinfo {
    ghost use Rattle.query_answer.specs.Answer.{mergeinfo_lines};

    /// The lines of a value.
    pub(crate) fn of(alloc: Global, value: &MergeInfo) -> Result<Self, AllocError>
        ensures { IfOk result (λ printed. printed ≡ value.now) }
    {
        let mut text = Vec::new(alloc);
        value.write(&mut text)?;
        Ok(PrintedMergeinfo {
            text,
            value: Snapshot::of(value),
            rest: None,
        })
    }

    /// The lines of what a path inherits of a value, given what follows the path that has it.
    pub(crate) fn inherited(
        alloc: Global,
        value: &MergeInfo,
        rest: &Vec<u8>,
    ) -> Result<Self, AllocError>
        requires { IsPrintedPath rest.now.items }
        ensures { IfOk result (λ printed. printed ≡ inherited_value rest.now.items value.now) }
    {
        let mut text = Vec::new(alloc);
        value.write_inherited(rest, &mut text)?;
        Ok(PrintedMergeinfo {
            text,
            value: Snapshot::of(value),
            rest: Some(Snapshot::of(rest)),
        })
    }

    /// Appends the lines.
    #[tactic(auto, using(svn_text::proofs::Appended::appended))]
    pub(crate) fn write(&self, out: &mut Vec<u8>) -> Result<(), AllocError>
        ensures ok { OnOk result (out.new.items ≡ out.old.items ++ flat_map line_text (mergeinfo_lines self.now)) }
        ensures begins { BeginsWith out.old.items out.new.items }
    {
        out.extend_from_slice(self.text.as_slice())
    }
}
