//! The runs of several lines by their paths.
ghost use Rattle.std.specs.Prelude.{All, IfOk, OnOk, map};
ghost use Rattle.merge_info.specs.Line.{IsLine, line_view};
ghost use Rattle.merge_info.specs.RunsByPath.{AddsLine, AreRunsByPath};

use crate::line::Line;
use range_list::Run;
use std::alloc::{AllocError, Global};
use std::collections::BTreeMap;

/// The runs of all lines of each path.
pub(crate) fn runs_by_path(
    alloc: Global,
    lines: Vec<Line>,
) -> Result<BTreeMap<Vec<u8>, Vec<Run>>, AllocError>
    requires { All IsLine (map line_view lines.items) }
    ensures { IfOk result (AreRunsByPath (map line_view lines.items)) }
{
    let mut by_path = BTreeMap::new(alloc);
    for line in lines {
        add_line(&mut by_path, line)?;
    }
    Ok(by_path)
}

/// Adds a line's runs to those of its path.
fn add_line(by_path: &mut BTreeMap<Vec<u8>, Vec<Run>>, line: Line) -> Result<(), AllocError>
    requires { IsLine (line_view line) }
    ensures { OnOk result (AddsLine (line_view line) by_path.old by_path.new) }
{
    let Line { path, runs } = line;
    match by_path.get_mut(path.as_slice()) {
        Some(all) => all.extend_from_slice(&runs)?,
        None => {
            by_path.insert(path, runs)?;
        }
    }
    Ok(())
}
