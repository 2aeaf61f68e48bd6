//! The property section of a node.
ghost use Rattle.std.specs.Prelude.{◌≡◌, ◌≢◌, ◌∷◌, MatchOption, option_map};
ghost use Rattle.svn_dump.specs.HeaderValues.{section_entry_view, mi_text_view};
ghost use Rattle.svn_dump.specs.Property.{BeginsOtherwise, deleted_entry_of, entry_of, piece_of, section_of};
ghost use Rattle.svn_dump.specs.Property.{setting_by, text_of_length, valued_entry_of};

use crate::grammar::line::split_line;
use crate::grammar::mi_text::MiText;
use svn_text::number_up_to;

/// An entry of a section: a name, and its value where the property isn't deleted.
#[derive(Clone, Copy)]
pub(crate) struct SectionEntry<'a> {
    pub(crate) name: &'a [u8],
    pub(crate) value: Option<&'a [u8]>,
}

/// `count` bytes, and what follows the newline after them.
fn split_counted(bytes: &[u8], count: u64) -> Option<(&[u8], &[u8])>
    ensures { option_map (λ parts. (parts.0.now, parts.1.now)) result ≡ text_of_length bytes.now count }
{
    if count >= bytes.len() as u64 {
        return None;
    }
    let end = count as usize;
    if bytes[end] != b'\n' {
        return None;
    }
    Some((&bytes[..end], &bytes[end + 1..]))
}

/// What follows the letter and the space at the front of a piece.
fn after_letter(letter: u8, bytes: &[u8]) -> Option<&[u8]>
    ensures { MatchOption result (BeginsOtherwise letter bytes.now)
        (λ rest. bytes.now ≡ letter ∷ 32 ∷ rest.now) }
{
    match bytes {
        [first, b' ', rest @ ..] if *first == letter => Some(rest),
        _ => None,
    }
}

/// The text of a piece at the front, and what follows the piece.
fn split_piece(letter: u8, bytes: &[u8]) -> Option<(&[u8], &[u8])>
    requires { letter ≢ 10 }
    ensures { option_map (λ parts. (parts.0.now, parts.1.now)) result ≡ piece_of letter bytes.now }
{
    let (digits, rest) = split_line(after_letter(letter, bytes)?)?;
    split_counted(rest, number_up_to(rest.len() as u64, digits)?)
}

/// The property at the front, and what follows it.
fn split_valued(bytes: &[u8]) -> Option<(SectionEntry<'_>, &[u8])>
    ensures { option_map (λ parts. (section_entry_view parts.0, parts.1.now)) result ≡ valued_entry_of bytes.now }
{
    let (name, rest) = split_piece(b'K', bytes)?;
    let (value, rest) = split_piece(b'V', rest)?;
    let value = Some(value);
    Some((SectionEntry { name, value }, rest))
}

/// The deleted property at the front, and what follows it.
fn split_deleted(bytes: &[u8]) -> Option<(SectionEntry<'_>, &[u8])>
    ensures { option_map (λ parts. (section_entry_view parts.0, parts.1.now)) result ≡ deleted_entry_of bytes.now }
{
    let (name, rest) = split_piece(b'D', bytes)?;
    Some((SectionEntry { name, value: None }, rest))
}

/// The entry at the front, and what follows it. Only changes delete properties.
fn split_entry(has_changes: bool, bytes: &[u8]) -> Option<(SectionEntry<'_>, &[u8])>
    ensures { option_map (λ both. (section_entry_view both.0, both.1.now)) result ≡ entry_of has_changes bytes.now }
{
    match split_valued(bytes) {
        None if has_changes => split_deleted(bytes),
        found => found,
    }
}

/// What a section of changes or of the whole list says of the mergeinfo, and `None` if the bytes are no section.
pub(crate) fn mergeinfo_of(has_changes: bool, section: &[u8]) -> Option<MiText<'_>>
    ensures { option_map mi_text_view result
        ≡ option_map (setting_by has_changes) (section_of has_changes section.now) }
{
    let mut found = MiText::unnamed(has_changes);
    let mut rest = section;
    while rest != b"PROPS-END\n".as_slice() {
        let (entry, more) = split_entry(has_changes, rest)?;
        if entry.name == b"svn:mergeinfo".as_slice() {
            found = MiText::Put(entry.value);
        }
        rest = more;
    }
    Some(found)
}
