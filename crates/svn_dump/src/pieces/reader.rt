//! What is kept of a dump that is read in pieces.
ghost use Rattle.std.specs.Prelude.{◌≡◌, ◌<◌, ◌≤◌, ℕ, List, [], length, IfErr, IfOk, IfSome, IsErrOf, OnOk};
ghost use Rattle.svn_dump.specs.Draft.{IsWholeHistory};
ghost use Rattle.svn_dump.specs.Dump.{history_in_bytes};
ghost use Rattle.svn_dump.specs.DumpError.{IsRefusal};
ghost use Rattle.svn_dump.specs.DumpText.{IsDumpText};
ghost use Rattle.svn_dump.specs.Feed.{IsPausedAt};
ghost use Rattle.svn_dump.specs.Growth.{GrowsTo};
ghost use Rattle.svn_dump.specs.Reader.{AddsWholeBlock, BeginsBlock, HasReadAll, IsInBody, IsInLine};
ghost use Rattle.svn_dump.specs.Reader.{ReadsAfter, ReadsBlock, ReadsHeader, ReadsUpTo};
ghost use Rattle.svn_dump.specs.Reader.{RefusesAfter, RefusesBlock, RefusesWholeBlock, RefusesHeader, RefusesUpTo};
ghost use Rattle.svn_dump.specs.declared.pieces.reader.Progress.TheVariants.{Blocks};

use crate::draft::Draft;
use crate::dump::Dump;
use crate::error::DumpError;
use crate::grammar::block::{BlockFront, first_block, headers_of, skip_empty_lines};
use crate::grammar::format::Format;
use crate::paused::Paused;
use crate::pieces::partial_body::PartialBody;
use crate::pieces::partial_header::PartialHeader;
use crate::pieces::partial_line::PartialLine;
use crate::read_error::ReadError;
use crate::refusal::Refusal;
use std::alloc::Global;
use std::mem::replace;
use svn_text::Seed;

/// Where the next byte belongs.
#[derive(Drop)]
pub(crate) enum Progress {
    /// The first line.
    Line(PartialLine),
    /// Before a block.
    Blocks,
    /// The header of a block.
    Header(PartialHeader),
    /// The body of a block with this header.
    Body(PartialHeader, PartialBody),
}

/// The records so far, and the part of the dump that has begun and not ended.
#[derive(Drop)]
pub(crate) struct Reader {
    pub(crate) alloc: Global,
    pub(crate) draft: Draft,
    pub(crate) progress: Progress,
    /// The format that the first line gave, format 2 until it has come.
    pub(crate) format: Format,
    /// The offset at which the block in progress begins.
    pub(crate) at: u64,
}

impl Reader {
    /// A reader of a dump of which nothing has come. It takes no memory.
    pub(crate) fn new(alloc: Global, seed: Seed) -> Self
        ensures read { HasReadAll result [] }
        ensures whole { IsWholeHistory result.draft }
    {
        Reader {
            alloc,
            draft: Draft::new(alloc, seed),
            progress: Progress::Line(PartialLine::Front(0)),
            format: Format::Two,
            at: 0,
        }
    }

    /// Reads a piece that ends at this offset.
    pub(crate) fn read(&mut self, end: u64, piece: &[u8]) -> Result<(), ReadError>
        requires { length piece.now ≤ end }
        ensures ok { OnOk result (ReadsUpTo self.old self.new end piece.now) }
        ensures keeps { OnOk result (IsWholeHistory self.old.draft → IsWholeHistory self.new.draft) }
        ensures grows { OnOk result (GrowsTo self.old.draft self.new.draft) }
        ensures refused { IfErr result (RefusesUpTo self.old self.new end piece.now) }
    {
        let Some(mut rest) = self.resume(piece)? else {
            return Ok(());
        };
        while let Some(block) = skip_empty_lines(rest) {
            self.at = end - block.len() as u64;
            let Some(after) = self.read_block(block)? else {
                return Ok(());
            };
            rest = after;
        }
        Ok(())
    }

    /// Goes on with the part in progress, and answers what follows it, or `None` where the piece ends in it.
    fn resume<'p>(&mut self, piece: &'p [u8]) -> Result<Option<&'p [u8]>, ReadError>
        ensures ok { IfOk result (ReadsAfter (HasReadAll self.old) self.new piece.now) }
        ensures within { IfOk result (λ left. IfSome left (λ rest. length rest.now ≤ length piece.now)) }
        ensures progress { IfOk result (λ left. IfSome left (λ rest. self.new.progress ≡ Blocks)) }
        ensures keeps { OnOk result (IsWholeHistory self.old.draft → IsWholeHistory self.new.draft) }
        ensures grows { OnOk result (GrowsTo self.old.draft self.new.draft) }
        ensures refused { IfErr result (RefusesAfter (HasReadAll self.old) self.new piece.now) }
    {
        match replace(&mut self.progress, Progress::Blocks) {
            Progress::Blocks => Ok(Some(piece)),
            Progress::Line(line) => self.read_line(line, piece),
            Progress::Header(header) => self.read_header(header, piece),
            Progress::Body(header, body) => self.read_body(header, body, piece),
        }
    }

    /// Goes on with the first line.
    fn read_line<'p>(
        &mut self,
        line: PartialLine,
        piece: &'p [u8],
    ) -> Result<Option<&'p [u8]>, ReadError>
        requires { self.old.progress ≡ Blocks }
        ensures ok { IfOk result (ReadsAfter (IsInLine self.old line) self.new piece.now) }
        ensures within { IfOk result (λ left. IfSome left (λ rest. length rest.now ≤ length piece.now)) }
        ensures progress { IfOk result (λ left. IfSome left (λ rest. self.new.progress ≡ Blocks)) }
        ensures keeps { OnOk result (IsWholeHistory self.old.draft → IsWholeHistory self.new.draft) }
        ensures grows { OnOk result (GrowsTo self.old.draft self.new.draft) }
        ensures refused { IfErr result (RefusesAfter (IsInLine self.old line) self.new piece.now) }
    {
        let mut line = line;
        match line.extend(piece)? {
            None => {
                self.progress = Progress::Line(line);
                Ok(None)
            }
            Some((format, rest)) => {
                self.format = format;
                Ok(Some(rest))
            }
        }
    }

    /// Reads a block that begins here. A whole one is read where it lies.
    fn read_block<'p>(&mut self, block: &'p [u8]) -> Result<Option<&'p [u8]>, ReadError>
        requires progress { self.old.progress ≡ Blocks }
        requires begins { BeginsBlock block.now }
        ensures ok { IfOk result (ReadsBlock self.old self.new block.now) }
        ensures within { IfOk result (λ left. IfSome left (λ rest. length rest.now < length block.now)) }
        ensures progress { IfOk result (λ left. IfSome left (λ rest. self.new.progress ≡ Blocks)) }
        ensures keeps { OnOk result (IsWholeHistory self.old.draft → IsWholeHistory self.new.draft) }
        ensures grows { OnOk result (GrowsTo self.old.draft self.new.draft) }
        ensures refused { IfErr result (RefusesBlock self.old self.new block.now) }
    {
        match first_block(self.format, block)? {
            None => self.read_header(PartialHeader::new(self.alloc), block),
            Some((found, rest)) => {
                self.draft.add(self.alloc, &found)?;
                Ok(Some(rest))
            }
        }
    }

    /// Goes on with a header.
    fn read_header<'p>(
        &mut self,
        header: PartialHeader,
        piece: &'p [u8],
    ) -> Result<Option<&'p [u8]>, ReadError>
        requires { self.old.progress ≡ Blocks }
        ensures ok { IfOk result (ReadsHeader self.old header self.new piece.now) }
        ensures within { IfOk result (λ left. IfSome left (λ rest. length rest.now < length piece.now)) }
        ensures progress { IfOk result (λ left. IfSome left (λ rest. self.new.progress ≡ Blocks)) }
        ensures keeps { OnOk result (IsWholeHistory self.old.draft → IsWholeHistory self.new.draft) }
        ensures grows { OnOk result (GrowsTo self.old.draft self.new.draft) }
        ensures refused { IfErr result (RefusesHeader self.old header self.new piece.now) }
    {
        let mut header = header;
        match header.extend(piece)? {
            None => {
                self.progress = Progress::Header(header);
                Ok(None)
            }
            Some(rest) => {
                let body = header.body(self.alloc)?;
                self.read_body(header, body, rest)
            }
        }
    }

    /// Goes on with the body of a block with this header.
    fn read_body<'p>(
        &mut self,
        header: PartialHeader,
        body: PartialBody,
        piece: &'p [u8],
    ) -> Result<Option<&'p [u8]>, ReadError>
        requires { self.old.progress ≡ Blocks }
        ensures ok { IfOk result (ReadsAfter (IsInBody self.old header body) self.new piece.now) }
        ensures within { IfOk result (λ left. IfSome left (λ rest. length rest.now ≤ length piece.now)) }
        ensures progress { IfOk result (λ left. IfSome left (λ rest. self.new.progress ≡ Blocks)) }
        ensures keeps { OnOk result (IsWholeHistory self.old.draft → IsWholeHistory self.new.draft) }
        ensures grows { OnOk result (GrowsTo self.old.draft self.new.draft) }
        ensures refused { IfErr result (RefusesAfter (IsInBody self.old header body) self.new piece.now) }
    {
        let mut body = body;
        match body.extend(piece)? {
            None => {
                self.progress = Progress::Body(header, body);
                Ok(None)
            }
            Some(rest) => {
                self.add_block(&header, &body)?;
                Ok(Some(rest))
            }
        }
    }

    /// Adds a block whose last byte has come.
    fn add_block(&mut self, header: &PartialHeader, body: &PartialBody) -> Result<(), ReadError>
        ensures progress { self.new.progress ≡ self.old.progress }
        ensures at { self.new.at ≡ self.old.at }
        ensures format { self.new.format ≡ self.old.format }
        ensures added { OnOk result (AddsWholeBlock self.old header.now body.now self.new) }
        ensures keeps { OnOk result (IsWholeHistory self.old.draft → IsWholeHistory self.new.draft) }
        ensures grows { OnOk result (GrowsTo self.old.draft self.new.draft) }
        ensures refused { IfErr result (RefusesWholeBlock self.old header.now body.now) }
    {
        let (headers, _) = headers_of(header.bytes())?;
        let properties = body.section.as_slice();
        self.draft.add(
            self.alloc,
            &BlockFront {
                format: self.format,
                headers,
                properties,
            },
        )?;
        Ok(())
    }

    /// The dump of so many bytes, if they are one, and what goes on reading after them.
    pub(crate) fn pause(self, end: u64) -> Result<(Dump, Paused), DumpError>
        requires { IsWholeHistory self.draft }
        ensures ok { IfOk result (λ both. (bytes : List ℕ) → HasReadAll self bytes
            → IsDumpText bytes (history_in_bytes both.0)) }
        ensures dump { IfOk result (λ both. both.0 ≡ self.draft) }
        ensures paused { IfOk result (λ both. (bytes : List ℕ) → HasReadAll self bytes → end ≡ length bytes
            → IsPausedAt both.1 both.0 bytes) }
        ensures count { IfOk result (λ both. both.1.count ≡ end) }
        ensures refused { IfErr result (λ e. (bytes : List ℕ) → HasReadAll self bytes → end ≡ length bytes
            → IsRefusal bytes e) }
        ensures memory { IsErrOf result DumpError.Memory → ⊥ }
    {
        let Reader {
            alloc,
            draft,
            progress,
            format,
            at,
        } = self;
        match progress {
            Progress::Blocks => {
                let paused = Paused {
                    alloc,
                    format,
                    count: end,
                };
                Ok((draft.finish(end)?, paused))
            }
            Progress::Line(line) => Err(ReadError::Refused(line.refusal()).at(0)),
            Progress::Header(header) => Err(ReadError::Refused(header.refusal()).at(at)),
            Progress::Body(..) => Err(ReadError::Refused(Refusal::Truncated).at(at)),
        }
    }
}
