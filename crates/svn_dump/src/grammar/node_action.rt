//! The actions of node blocks.
ghost use Rattle.std.specs.Prelude.{◌≡◌, option_map};
ghost use Rattle.svn_dump.specs.Node.{is_change, kind_of};
ghost use Rattle.svn_dump.specs.Record.{has_late_source};
ghost use Rattle.svn_dump.specs.HeaderValues.{addition_from_headers, node_action_from_headers, node_action_view};

use crate::grammar::field::Field;
use crate::grammar::headers::Headers;
use crate::record::Kind;
use svn_text::{GREATEST_REVISION, number_up_to};

/// What a node block does, by its headers alone. The path of a copy's source is lent by the dump.
#[derive(Clone, Copy)]
pub(crate) enum NodeAction<'a> {
    Delete,
    Change,
    Add {
        replace: bool,
        kind: Kind,
    },
    Copy {
        replace: bool,
        from_rev: u32,
        from: &'a [u8],
    },
}

/// The kind of this name.
fn kind_of(value: &[u8]) -> Option<Kind>
    ensures { result ≡ kind_of value.now }
{
    if value == b"file".as_slice() {
        Some(Kind::File)
    } else if value == b"dir".as_slice() {
        Some(Kind::Dir)
    } else {
        None
    }
}

/// An addition, which is a copy where its headers name a source.
fn addition<'a>(headers: &Headers<'a>, replace: bool) -> Option<NodeAction<'a>>
    ensures { option_map node_action_view result ≡ addition_from_headers replace headers.now }
{
    match (
        headers.get(Field::CopyfromRevision),
        headers.get(Field::CopyfromPath),
    ) {
        (Some(from_rev), Some(from)) => match number_up_to(GREATEST_REVISION, from_rev) {
            Some(from_rev) => Some(NodeAction::Copy {
                replace,
                from_rev: from_rev as u32,
                from,
            }),
            None => None,
        },
        (None, None) => match headers.get(Field::NodeKind).and_then(kind_of) {
            Some(kind) => Some(NodeAction::Add { replace, kind }),
            None => None,
        },
        _ => None,
    }
}

impl<'a> NodeAction<'a> {
    /// What the headers say, if they say one thing.
    pub(crate) fn of(headers: &Headers<'a>) -> Option<Self>
        ensures { option_map node_action_view result ≡ node_action_from_headers headers.now }
    {
        let Some(name) = headers.get(Field::NodeAction) else {
            return None;
        };
        if name == b"delete".as_slice() {
            Some(NodeAction::Delete)
        } else if name == b"change".as_slice() {
            Some(NodeAction::Change)
        } else if name == b"add".as_slice() {
            addition(headers, false)
        } else if name == b"replace".as_slice() {
            addition(headers, true)
        } else {
            None
        }
    }

    /// Whether it is a change.
    pub(crate) fn is_change(self) -> bool
        ensures { result ≡ is_change (node_action_view self.entry) }
    {
        matches!(self, NodeAction::Change)
    }

    /// Whether it copies from this revision or a later one.
    pub(crate) fn has_late_source(self, rev: u32) -> bool
        ensures { result ≡ has_late_source rev (node_action_view self.entry) }
    {
        match self {
            NodeAction::Copy { from_rev, .. } => rev <= from_rev,
            _ => false,
        }
    }
}
