//! The header of a block of which a part has come.
ghost use Rattle.std.specs.Prelude.{◌≡◌, ◌≤◌, ◌+◌, ◌++◌, ◌∷◌, [], length, IsFalse, IsTrue, MatchOption, Some, IfErr, IfOk, OnOk};
ghost use Rattle.std.specs.List.{list_any};
ghost use Rattle.svn_dump.specs.FirstRefusal.{after_lines, front_refusals};
ghost use Rattle.svn_dump.specs.HeaderValues.{are_of_node};
ghost use Rattle.svn_dump.specs.PartialHeader.{AreHeaderLines, EndsHeader, ExtendsHeader, IsBodyAfter, IsDecidedFront, IsDecidedFrontError, IsPartialHeader};
ghost use Rattle.svn_dump.specs.Refusal.{first_holding};
ghost use Rattle.svn_text.specs.Bytes.{is_not_empty};
ghost use Rattle.svn_text.specs.Line.{is_newline};

use crate::grammar::block::headers_of;
use crate::grammar::headers::Headers;
use crate::grammar::length::lengths_of;
use crate::grammar::line::{header_of, split_line};
use crate::pieces::partial_body::PartialBody;
use crate::read_error::ReadError;
use crate::refusal::Refusal;
use std::alloc::Global;
use std::marker::Model;

/// The lines of a block's header that have come, and the front of one more. None of them is empty.
#[derive(Drop)]
pub(crate) struct PartialHeader {
    bytes: Vec<u8>,
    /// Where the line begins whose newline has not come.
    start: usize,
    /// The listed names of the whole lines, without their values.
    names: Headers<'static>,
}

impl Model for PartialHeader {
    ghost use Rattle.std.specs.Prelude.{ℕ, List};
    ghost use Rattle.svn_dump.specs.PartialHeader.{IsPartialHeader};

    ghost Value = { List ℕ };

    ghost view = { λ h. h.bytes.items };

    ghost invariant = { λ h. IsPartialHeader h.bytes.items h.start h.names };
}

impl PartialHeader {
    /// A header of which nothing has come. It takes no memory.
    pub(crate) fn new(alloc: Global) -> Self
        ensures { result ≡ [] }
    {
        PartialHeader {
            bytes: Vec::new(alloc),
            start: 0,
            names: Headers::new(),
        }
    }

    /// What has come of it.
    pub(crate) fn bytes(&self) -> &[u8]
        ensures { result.now ≡ self.now }
    {
        &self.bytes
    }

    /// Goes on with a piece, and answers what follows the empty line, or `None` where the piece ends before that.
    pub(crate) fn extend<'p>(&mut self, piece: &'p [u8]) -> Result<Option<&'p [u8]>, ReadError>
        ensures ok { IfOk result (λ left. MatchOption left (ExtendsHeader self.old piece.now self.new)
            (λ rest. EndsHeader self.old piece.now self.new rest.now)) }
        ensures refused { IfErr result (IsDecidedFrontError (self.old ++ piece.now)) }
    {
        let mut rest = piece;
        while let Some((end, more)) = split_line(rest) {
            if end.is_empty() && self.start == self.bytes.len() {
                return Ok(Some(more));
            }
            self.end_line(end)?;
            rest = more;
        }
        self.bytes.extend_from_slice(rest)?;
        Ok(None)
    }

    /// Ends the last line with these bytes and a newline.
    fn end_line(&mut self, end: &[u8]) -> Result<(), ReadError>
        requires one_line { IsFalse (list_any is_newline end.now) }
        requires some { IsTrue (is_not_empty (after_lines self.old ++ end.now)) }
        ensures ok { OnOk result (self.new ≡ self.old ++ (end.now ++ 10 ∷ [])) }
        ensures refused { IfErr result (IsDecidedFrontError (self.old ++ (end.now ++ 10 ∷ []))) }
    {
        self.bytes.extend_from_slice(end)?;
        let names = self.names_with_last()?;
        self.bytes.push(b'\n')?;
        self.start = self.bytes.len();
        self.names = names;
        Ok(())
    }

    /// The names with that of the last line, which is whole but for its newline.
    fn names_with_last(&self) -> Result<Headers<'static>, Refusal>
        requires { IsTrue (is_not_empty (after_lines self.now)) }
        ensures ok { IfOk result (IsPartialHeader (self.now ++ 10 ∷ []) (length self.now + 1)) }
        ensures refused { IfErr result (IsDecidedFront (self.now ++ 10 ∷ [])) }
    {
        let (_, line) = self.bytes.split_at(self.start);
        let Some((name, _)) = header_of(line) else {
            return Err(Refusal::Header);
        };
        let mut names = self.names.dup();
        names.add(name, b"")?;
        Ok(names)
    }

    /// The body that follows. Its property section is kept where the block is a node.
    pub(crate) fn body(&self, alloc: Global) -> Result<PartialBody, Refusal>
        requires { AreHeaderLines self.now }
        ensures body { IfOk result (IsBodyAfter self.now) }
        ensures refused { IfErr result (IsDecidedFront (self.now ++ 10 ∷ [])) }
    {
        let (headers, _) = headers_of(&self.bytes)?;
        let Some((section, whole)) = lengths_of(&headers) else {
            return Err(Refusal::Length);
        };
        Ok(PartialBody::new(alloc, kept_length(&headers, section), whole))
    }

    /// Why a block that ends here is refused.
    pub(crate) fn refusal(&self) -> Refusal
        ensures { first_holding (front_refusals self.now) ≡ Some result }
    {
        match headers_of(&self.bytes) {
            Err(refusal) => refusal,
            Ok((headers, _)) => match lengths_of(&headers) {
                None => Refusal::Length,
                Some(_) => Refusal::Truncated,
            },
        }
    }
}

/// How much is kept of a section of this length: nothing where it isn't read.
fn kept_length(headers: &Headers, section: u64) -> u64
    ensures within { result ≤ section }
    ensures all { IsTrue (are_of_node headers.now) → result ≡ section }
    ensures none { IsFalse (are_of_node headers.now) → result ≡ 0 }
{
    if headers.are_of_node() { section } else { 0 }
}
