//! The lengths of a block's body and of its parts.
ghost use Rattle.std.specs.Prelude.{◌≡◌, ◌+◌, ◌≤◌, Some, IfSome, option_copied, option_map};
ghost use Rattle.svn_dump.specs.Block.{length_or_zero, whole_length};
ghost use Rattle.svn_text.specs.Number.{greatest_length};
ghost use Rattle.svn_dump.specs.HeaderValues.{body_length_from_headers, field_value};
ghost use Rattle.svn_dump.specs.declared.grammar.field.Field.TheVariants.{PropertiesLength};

use crate::grammar::field::Field;
use crate::grammar::headers::Headers;
use svn_text::number_up_to;

/// The greatest length of a part of a block.
pub(crate) const GREATEST_LENGTH: u64 = 9_223_372_036_854_775_807;

/// A length, 0 where its header isn't there.
fn length_or_zero(value: Option<&[u8]>) -> Option<u64>
    ensures { result ≡ length_or_zero (option_copied value.entry) }
{
    match value {
        None => Some(0),
        Some(digits) => number_up_to(GREATEST_LENGTH, digits),
    }
}

/// How long a body is, given the lengths of its two parts, and the value of its own header, if any.
fn whole_length(properties: u64, text: u64, value: Option<&[u8]>) -> Option<u64>
    requires properties { properties ≤ greatest_length }
    requires text { text ≤ greatest_length }
    ensures value { result ≡ whole_length properties text (option_copied value.entry) }
    ensures enough { IfSome result (λ whole. properties + text ≤ whole) }
{
    let parts = properties + text;
    if parts > GREATEST_LENGTH {
        return None;
    }
    match value {
        None => Some(parts),
        Some(digits) => { number_up_to(GREATEST_LENGTH, digits).filter(|whole| *whole >= parts) }
    }
}

/// How long the property section and the whole body of a block with these headers are.
pub(crate) fn lengths_of(headers: &Headers) -> Option<(u64, u64)>
    ensures whole { option_map (λ lengths. lengths.1) result ≡ body_length_from_headers headers.now }
    ensures section { IfSome result
        (λ lengths. length_or_zero (field_value headers.now PropertiesLength) ≡ Some lengths.0) }
    ensures within { IfSome result (λ lengths. lengths.0 ≤ lengths.1) }
{
    let properties = length_or_zero(headers.get(Field::PropertiesLength))?;
    let text = length_or_zero(headers.get(Field::TextLength))?;
    let whole = whole_length(properties, text, headers.get(Field::ContentLength))?;
    Some((properties, whole))
}
