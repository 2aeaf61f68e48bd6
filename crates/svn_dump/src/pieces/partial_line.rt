//! The first line of a dump, as far as it has come.
ghost use Rattle.std.specs.Prelude.{◌≡◌, ◌≢◌, ◌<◌, ◌≤◌, ◌++◌, ◌∷◌, [], ℕ, List, length, slice_index_or, MatchOption, Some, IfErr, IfOk, IfSome};
ghost use Rattle.std.specs.Bool.{MatchBool};
ghost use Rattle.svn_dump.specs.FirstRefusal.{line_refusals, magic};
ghost use Rattle.svn_dump.specs.Format.{version};
ghost use Rattle.svn_dump.specs.PartialLine.{EndsLine, IsDecidedLine, IsFrontOfLine, IsLineAfter, IsPartialLine};
ghost use Rattle.svn_dump.specs.Refusal.{first_holding};

use crate::grammar::format::Format;
use crate::refusal::Refusal;

/// The name, the colon and the space before the version.
const NAME: &[u8; 28] = b"SVN-fs-dump-format-version: ";

/// What has come of the first line, without its newline.
#[derive(Clone, Copy)]
pub(crate) enum PartialLine {
    /// So many bytes of what stands before the version.
    Front(usize),
    /// All of them, and the version of a format.
    Version(Format),
    /// All of them, and another version.
    OtherVersion,
}

/// What one more byte makes of the line.
#[derive(Clone, Copy)]
pub(crate) enum LineAfter {
    GoesOn(PartialLine),
    /// It ends, and gives this format.
    Ends(Format),
}

/// Whether a byte stands in what is before the version, after so many bytes.
fn is_next(count: usize, byte: u8) -> bool
    ensures { MatchBool result (count < length magic × byte ≡ slice_index_or magic count 0)
        (count < length magic → byte ≢ slice_index_or magic count 0) }
{
    count < NAME.len() && byte == NAME[count]
}

/// The line after what stands before the version, and one more byte.
fn after_name(byte: u8) -> Result<PartialLine, Refusal>
    ensures ok { IfOk result (λ next. IsPartialLine next (magic ++ byte ∷ [])) }
    ensures refused { IfErr result (IsDecidedLine (magic ++ byte ∷ [])) }
{
    if byte == b'2' {
        Ok(PartialLine::Version(Format::Two))
    } else if byte == b'3' {
        Ok(PartialLine::Version(Format::Three))
    } else if byte == b'\n' {
        Err(Refusal::Version)
    } else {
        Ok(PartialLine::OtherVersion)
    }
}

/// The line after so many bytes of what stands before the version, and one more byte.
fn after_front(count: usize, byte: u8) -> Result<PartialLine, Refusal>
    ensures ok { IfOk result (λ next. (bytes : List ℕ) → IsFrontOfLine count bytes
        → IsPartialLine next (bytes ++ byte ∷ [])) }
    ensures refused { IfErr result (λ refusal. (bytes : List ℕ) → IsFrontOfLine count bytes
        → IsDecidedLine (bytes ++ byte ∷ []) refusal) }
{
    if is_next(count, byte) {
        Ok(PartialLine::Front(count + 1))
    } else if count < NAME.len() {
        Err(Refusal::Magic)
    } else {
        after_name(byte)
    }
}

/// The line after the version of a format, and one more byte.
fn after_version(format: Format, byte: u8) -> LineAfter
    ensures { IsLineAfter result (magic ++ (version format ++ byte ∷ [])) }
{
    if byte == b'\n' {
        LineAfter::Ends(format)
    } else {
        LineAfter::GoesOn(PartialLine::OtherVersion)
    }
}

impl PartialLine {
    /// The line after one more byte.
    fn after(self, byte: u8) -> Result<LineAfter, Refusal>
        ensures ok { IfOk result (λ next. (bytes : List ℕ) → IsPartialLine self bytes
            → IsLineAfter next (bytes ++ byte ∷ [])) }
        ensures refused { IfErr result (λ refusal. (bytes : List ℕ) → IsPartialLine self bytes
            → IsDecidedLine (bytes ++ byte ∷ []) refusal) }
    {
        match self {
            PartialLine::Front(count) => match after_front(count, byte) {
                Ok(next) => Ok(LineAfter::GoesOn(next)),
                Err(refusal) => Err(refusal),
            },
            PartialLine::Version(format) => Ok(after_version(format, byte)),
            PartialLine::OtherVersion if byte == b'\n' => Err(Refusal::Version),
            PartialLine::OtherVersion => Ok(LineAfter::GoesOn(self)),
        }
    }

    /// Goes on with a piece, and answers the format and what follows the line, or `None` where the piece ends in it.
    pub(crate) fn extend<'p>(
        &mut self,
        piece: &'p [u8],
    ) -> Result<Option<(Format, &'p [u8])>, Refusal>
        ensures ok { IfOk result (λ left. (bytes : List ℕ) → IsPartialLine self.old bytes
            → MatchOption left (IsPartialLine self.new (bytes ++ piece.now))
            (λ found. EndsLine bytes piece.now found.0 found.1.now)) }
        ensures within { IfOk result (λ left. IfSome left (λ found. length found.1.now ≤ length piece.now)) }
        ensures refused { IfErr result (λ refusal. (bytes : List ℕ) → IsPartialLine self.old bytes
            → IsDecidedLine (bytes ++ piece.now) refusal) }
    {
        let mut rest = piece;
        while let [byte, more @ ..] = rest {
            rest = more;
            match self.after(*byte)? {
                LineAfter::Ends(format) => return Ok(Some((format, rest))),
                LineAfter::GoesOn(line) => *self = line,
            }
        }
        Ok(None)
    }

    /// Why an input that ends here is refused.
    pub(crate) fn refusal(self) -> Refusal
        ensures { (bytes : List ℕ) → IsPartialLine self bytes
            → first_holding (line_refusals bytes) ≡ Some result }
    {
        match self {
            PartialLine::Front(count) if count < NAME.len() => Refusal::Magic,
            PartialLine::Front(_) => Refusal::Truncated,
            PartialLine::Version(_) => Refusal::Truncated,
            PartialLine::OtherVersion => Refusal::Truncated,
        }
    }
}
