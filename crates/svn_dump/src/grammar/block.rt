//! The blocks of a dump.
ghost use Rattle.std.specs.Prelude.{◌≡◌, IsFalse, IsTrue, IfErr, IfOk, IfSome, MatchOption};
ghost use Rattle.svn_dump.specs.FirstRefusal.{IsEmptyLines, begins_with_newline, without_empty_lines};
ghost use Rattle.svn_dump.specs.FrontBlock.{BeginsWithBlock, BeginsWithHeaders};
ghost use Rattle.svn_dump.specs.PartialHeader.{IsDecidedFront};
ghost use Rattle.svn_text.specs.Bytes.{is_not_empty};

use crate::grammar::format::Format;
use crate::grammar::headers::Headers;
use crate::grammar::length::lengths_of;
use crate::grammar::line::{header_of, split_line};
use crate::refusal::Refusal;

/// What is read of a block.
#[derive(Drop)]
pub(crate) struct BlockFront<'a> {
    pub(crate) headers: Headers<'a>,
    /// The property section at the front of the body, empty where there is none or it isn't read.
    pub(crate) properties: &'a [u8],
    /// The format of its dump.
    pub(crate) format: Format,
}

/// The bytes without the empty lines at their front, if there is more than these.
pub(crate) fn skip_empty_lines(bytes: &[u8]) -> Option<&[u8]>
    ensures same { MatchOption result (IsEmptyLines bytes.now) (λ rest. rest.now ≡ without_empty_lines bytes.now) }
    ensures some { IfSome result (λ rest. IsTrue (is_not_empty rest.now)) }
    ensures all { IfSome result (λ rest. IsFalse (begins_with_newline rest.now)) }
{
    let mut rest = bytes;
    while let [b'\n', more @ ..] = rest {
        rest = more;
    }
    (!rest.is_empty()).then_some(rest)
}

/// The headers of a block, and what follows the empty line after them, if the bytes do not end before it.
pub(crate) fn headers_of(bytes: &[u8]) -> Result<(Headers<'_>, Option<&[u8]>), Refusal>
    ensures headers { IfOk result (λ found. BeginsWithHeaders bytes.now found.0 found.1) }
    ensures refused { IfErr result (IsDecidedFront bytes.now) }
{
    let mut headers = Headers::new();
    let mut rest = bytes;
    while let Some((line, more)) = split_line(rest) {
        if line.is_empty() {
            return Ok((headers, Some(more)));
        }
        let Some((name, value)) = header_of(line) else {
            return Err(Refusal::Header);
        };
        headers.add(name, value)?;
        rest = more;
    }
    Ok((headers, None))
}

/// The block of a dump of this format that the bytes begin with, and what follows it, or `None` where the bytes end in
/// it. The text of its body is skipped.
pub(crate) fn first_block(
    format: Format,
    bytes: &[u8],
) -> Result<Option<(BlockFront<'_>, &[u8])>, Refusal>
    requires some { IsTrue (is_not_empty bytes.now) }
    requires not_empty_line { IsFalse (begins_with_newline bytes.now) }
    ensures found { IfOk result (λ found. IfSome found
        (λ parts. BeginsWithBlock bytes.now parts.0.headers parts.0.properties.now parts.1.now)) }
    ensures format { IfOk result (λ found. IfSome found (λ parts. parts.0.format ≡ format)) }
    ensures refused { IfErr result (IsDecidedFront bytes.now) }
{
    let (headers, rest) = headers_of(bytes)?;
    let Some(rest) = rest else {
        return Ok(None);
    };
    let Some((section, whole)) = lengths_of(&headers) else {
        return Err(Refusal::Length);
    };
    if whole > rest.len() as u64 {
        return Ok(None);
    }
    let (body, rest) = rest.split_at(whole as usize);
    let (properties, _) = body.split_at(section as usize);
    Ok(Some((
        BlockFront {
            headers,
            properties,
            format,
        },
        rest,
    )))
}
