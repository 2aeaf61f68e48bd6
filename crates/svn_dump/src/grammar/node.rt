//! What a node block says: a record of its revision.
ghost use Rattle.std.specs.Prelude.{◌≡◌, [], ◌||◌, IsFalse, Some, option_copied, IfErr, IfOk, OnOk};
ghost use Rattle.std.specs.List.{list_all, list_any};
ghost use Rattle.svn_path.specs.Components.{is_slash};
ghost use Rattle.svn_path.specs.Names.{with_names};
ghost use Rattle.svn_dump.specs.Draft.{Extends};
ghost use Rattle.svn_dump.specs.Record.{has_dot, has_late_source, is_long, is_root_action, paths_read, record_of, says_true};
ghost use Rattle.svn_dump.specs.Refusal.{action_refusals, first_holding};
ghost use Rattle.svn_dump.specs.HeaderValues.{has_changes_from_headers, is_delta_from_headers};
ghost use Rattle.svn_dump.specs.HeaderValues.{node_action_view, node_of_front};
ghost use Rattle.svn_dump.specs.NumberedRecord.{IsAcceptedAs, IsActOfNode, IsFirstAtAnySize, IsFirstReason, IsNumberedPath, IsRecordOfNode, IsTooLarge, has_long_source, is_act_large, is_path_large, record_refusals, texts_of_node};

use crate::grammar::block::BlockFront;
use crate::grammar::field::Field;
use crate::grammar::format::Format;
use crate::grammar::headers::Headers;
use crate::grammar::mi_text::MiText;
use crate::grammar::node_action::NodeAction;
use crate::read_error::ReadError;
use crate::record::{Act, NodeRecord};
use crate::refusal::Refusal;
use crate::texts::Texts;
use std::alloc::Global;
use svn_path::{Names, Path, has_dot};

/// How many components a path has at most.
const MOST_COMPONENTS: usize = 1024;

/// Whether the path has no component.
fn is_root(path: &[u8]) -> bool
    ensures { result ≡ list_all is_slash path.now }
{
    path.iter().all(|byte| *byte == b'/')
}

/// Whether the path is the root, and the action is no change.
fn is_root_action(path: &[u8], action: NodeAction) -> bool
    ensures { result ≡ is_root_action path.now (node_action_view action.entry) }
{
    is_root(path) && !action.is_change()
}

/// Whether a header is there with the value `true`.
fn says_true(value: Option<&[u8]>) -> bool
    ensures { result ≡ says_true (option_copied value.entry) }
{
    match value {
        None => false,
        Some(text) => text == b"true".as_slice(),
    }
}

/// Whether the section or the text of the block is said to be a difference to an earlier one, which format 2 does not
/// have.
fn is_delta(format: Format, headers: &Headers) -> bool
    ensures { result ≡ is_delta_from_headers format headers.now }
{
    match format {
        Format::Two => {
            says_true(headers.get(Field::PropertiesDelta))
                || says_true(headers.get(Field::TextDelta))
        }
        Format::Three => false,
    }
}

/// Whether the section holds changes to the properties, and not all of them, which format 3 has.
fn has_changes(format: Format, headers: &Headers) -> bool
    ensures { result ≡ has_changes_from_headers format headers.now }
{
    match format {
        Format::Two => false,
        Format::Three => says_true(headers.get(Field::PropertiesDelta)),
    }
}

/// Whether a path that is read has a component `.` or `..`.
fn has_dot_in_paths(path: &[u8], action: NodeAction) -> bool
    ensures { result ≡ list_any has_dot (paths_read path.now (node_action_view action.entry)) }
{
    match action {
        NodeAction::Copy { from, .. } => has_dot(path) || has_dot(from),
        _ => has_dot(path),
    }
}

/// The first reason against what a node block of a revision does.
fn refusal_of(rev: u32, found: &BlockFront, path: &[u8], action: NodeAction) -> Option<Refusal>
    ensures { result ≡ first_holding
        (action_refusals rev (node_of_front found.now path.now) (node_action_view action.entry)) }
{
    if has_dot_in_paths(path, action) {
        Some(Refusal::BadPath)
    } else if is_delta(found.format, &found.headers) {
        Some(Refusal::Delta)
    } else if action.has_late_source(rev) {
        Some(Refusal::CopyRevision)
    } else if is_root_action(path, action) {
        Some(Refusal::RootAction)
    } else if rev == 0 {
        Some(Refusal::RevisionZero)
    } else {
        None
    }
}

/// The path that the bytes tell.
fn path_of(alloc: Global, names: &mut Names, bytes: &[u8]) -> Result<Path, ReadError>
    requires { IsFalse (has_dot bytes.now) }
    ensures path { IfOk result (IsNumberedPath bytes.now names.old names.new) }
    ensures short { IfOk result (λ _. IsFalse (is_long bytes.now)) }
    ensures refused { IfErr result (IsTooLarge (is_path_large names.old bytes.now)) }
    ensures grows { Extends names.old names.new }
{
    let path = Path::read_without_dots(alloc, names, bytes)?;
    if path.len() > MOST_COMPONENTS {
        return Err(ReadError::Refused(Refusal::TooLarge));
    }
    Ok(path)
}

/// What a node block does, by the numbers of the tables.
fn act_of(
    alloc: Global,
    names: &mut Names,
    texts: &mut Texts,
    action: NodeAction,
    mergeinfo: MiText,
) -> Result<Act, ReadError>
    requires { IsFalse (list_any has_dot (paths_read [] (node_action_view action))) }
    ensures act { IfOk result (IsActOfNode action.entry mergeinfo.entry names.old names.new texts.new) }
    ensures texts { OnOk result (texts.new ≡ with_names texts.old (texts_of_node action.entry mergeinfo.entry)) }
    ensures short { OnOk result (IsFalse (has_long_source action.entry)) }
    ensures refused { IfErr result (IsTooLarge (is_act_large names.old texts.old action.entry mergeinfo.entry)) }
    ensures grows { Extends names.old names.new }
    ensures texts_grow { Extends texts.old texts.new }
{
    Ok(match action {
        NodeAction::Delete => Act::Delete,
        NodeAction::Change => Act::Change {
            mi: mergeinfo.into_mi(texts)?,
        },
        NodeAction::Add { replace, kind } => Act::Add {
            replace,
            kind,
            mi: mergeinfo.into_mi(texts)?,
        },
        NodeAction::Copy {
            replace,
            from_rev,
            from,
        } => Act::Copy {
            replace,
            from: path_of(alloc, names, from)?,
            from_rev,
            mi: mergeinfo.into_mi(texts)?,
        },
    })
}

/// The revision, the action and the mergeinfo of a node block after so many revisions. The only reason against such a
/// block can be its size.
fn accepted_node<'a>(
    revisions: u32,
    found: &BlockFront<'a>,
    path: &[u8],
) -> Result<(u32, NodeAction<'a>, MiText<'a>), Refusal>
    ensures ok { IfOk result (λ read. IsAcceptedAs revisions (node_of_front found.now path.now) read.0 read.1 read.2) }
    ensures refused { IfErr result (IsFirstAtAnySize revisions (node_of_front found.now path.now)) }
{
    let changes = has_changes(found.format, &found.headers);
    let Some(mergeinfo) = MiText::of(changes, found.properties) else {
        return Err(Refusal::Props);
    };
    let (Some(rev), Some(action)) = (revisions.checked_sub(1), NodeAction::of(&found.headers))
    else {
        return Err(Refusal::BadRecord);
    };
    match refusal_of(rev, found, path, action) {
        None => Ok((rev, action, mergeinfo)),
        Some(refusal) => Err(refusal),
    }
}

/// The record of a node block after so many revisions, given the value of its path.
pub(crate) fn record_of(
    alloc: Global,
    names: &mut Names,
    texts: &mut Texts,
    revisions: u32,
    found: &BlockFront,
    path: &[u8],
) -> Result<NodeRecord, ReadError>
    ensures record { IfOk result
        (IsRecordOfNode revisions (node_of_front found.now path.now) names.old names.new texts.old texts.new) }
    ensures refused { IfErr result
        (IsFirstReason (record_refusals revisions (node_of_front found.now path.now) names.old texts.old)) }
    ensures grows { Extends names.old names.new }
    ensures texts_grow { Extends texts.old texts.new }
{
    let (rev, action, mergeinfo) = accepted_node(revisions, found, path)?;
    let path = path_of(alloc, names, path)?;
    let act = act_of(alloc, names, texts, action, mergeinfo)?;
    Ok(NodeRecord { rev, path, act })
}
