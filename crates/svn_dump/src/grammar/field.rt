//! The names of headers.
ghost use Rattle.std.specs.Prelude.{◌≡◌, MatchOption};
ghost use Rattle.svn_dump.specs.Field.{IsFieldOf, IsUnlisted, field_index};

/// A header name that is read, in the order of the list of such names.
#[derive(Clone, Copy, Debug, PartialEq, Eq)]
pub(crate) enum Field {
    Uuid,
    RevisionNumber,
    NodePath,
    NodeKind,
    NodeAction,
    CopyfromRevision,
    CopyfromPath,
    PropertiesLength,
    TextLength,
    ContentLength,
    PropertiesDelta,
    TextDelta,
}

impl Field {
    /// The field of that name, if it is one that is read.
    pub(crate) fn of(name: &[u8]) -> Option<Field>
        ensures { MatchOption result (IsUnlisted name.now) (IsFieldOf name.now) }
    {
        if name == b"UUID".as_slice() {
            Some(Field::Uuid)
        } else if name == b"Revision-number".as_slice() {
            Some(Field::RevisionNumber)
        } else if name == b"Node-path".as_slice() {
            Some(Field::NodePath)
        } else if name == b"Node-kind".as_slice() {
            Some(Field::NodeKind)
        } else if name == b"Node-action".as_slice() {
            Some(Field::NodeAction)
        } else if name == b"Node-copyfrom-rev".as_slice() {
            Some(Field::CopyfromRevision)
        } else if name == b"Node-copyfrom-path".as_slice() {
            Some(Field::CopyfromPath)
        } else if name == b"Prop-content-length".as_slice() {
            Some(Field::PropertiesLength)
        } else if name == b"Text-content-length".as_slice() {
            Some(Field::TextLength)
        } else if name == b"Content-length".as_slice() {
            Some(Field::ContentLength)
        } else if name == b"Prop-delta".as_slice() {
            Some(Field::PropertiesDelta)
        } else if name == b"Text-delta".as_slice() {
            Some(Field::TextDelta)
        } else {
            None
        }
    }

    /// Its index in the list of names.
    pub(crate) fn index(self) -> usize
        ensures { result ≡ field_index self }
    {
        self as usize
    }
}
