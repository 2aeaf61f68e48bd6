//! Bytes of an input that were read before they are needed.
ghost use Rattle.std.specs.Prelude.{◌≡◌, ◌+◌, ◌<◌, ◌≤◌, [], drop, length, IfErr, IfNone, IfOk, IfSome, IsErrOf, IsFalse, IsTrue, OnOk};
ghost use Rattle.svn_text.specs.Cut.{Lacks};
ghost use Rattle.svn_report.specs.Load.{most_reads};
ghost use Rattle.svn_report.specs.ReportFrom.{most_bytes};
ghost use Rattle.svn_report.specs.declared.run_error.RunError.TheVariants.{Memory};
ghost use Rattle.live_history.specs.Client.{IsAllRepliedTo, IsRepliedUpTo};
ghost use Rattle.live_history.specs.ReadAhead.{AreNear, HasLine, IsLineEnd, IsReadEnd, room, stream};
ghost use Rattle.live_history.specs.Stream.{AreLast, AreTaken};
ghost use Rattle.live_history.specs.Waiting.{IsInPiece};
ghost use Rattle.live_history.specs.declared.talk_error.TalkError.TheVariants.{Run};

use crate::client::Client;
use crate::talk_error::TalkError;
use devices::Source;
use std::alloc::{AllocError, Global};
use std::marker::Model;
use svn_report::RunError;
use svn_text::split_at_byte;

/// How many reads a talk makes at most.
const MOST_READS: u64 = 4_294_967_296;

/// How many bytes one read gives at most.
const MOST_BYTES: usize = 65_536;

/// Bytes of an input that were read and not taken yet, and room for one more read. No byte is searched twice for the end
/// of a line.
#[derive(Drop)]
pub(crate) struct ReadAhead {
    alloc: Global,
    /// What was read; the first `taken` bytes were taken.
    bytes: Vec<u8>,
    taken: usize,
    /// How many of the others are known to be no newline.
    searched: usize,
    piece: Vec<u8>,
    /// How many reads may still be made.
    reads: u64,
}

impl Model for ReadAhead {
    ghost use Rattle.std.specs.Prelude.{◌≡◌, ◌+◌, ◌≤◌, drop, length, take, vec_len};
    ghost use Rattle.svn_text.specs.Cut.{Lacks};
    ghost use Rattle.svn_report.specs.ReportFrom.{most_bytes};
    ghost use Rattle.live_history.specs.ReadAhead.{ReadAheadValue};

    ghost Value = { ReadAheadValue };

    ghost view = { λ ahead. record { unread = drop ahead.taken ahead.bytes.items; reads = ahead.reads } };

    ghost invariant = { λ ahead. (ahead.taken + ahead.searched ≤ length ahead.bytes.items)
        × Lacks 10 (take ahead.searched (drop ahead.taken ahead.bytes.items)) × (vec_len ahead.piece ≡ most_bytes)
        × (length ahead.bytes.items ≤ ahead.taken + ahead.searched + most_bytes) };
}

impl ReadAhead {
    /// Nothing was read yet.
    pub(crate) fn new(alloc: Global) -> Result<Self, AllocError>
        ensures unread { IfOk result (λ ahead. ahead.unread ≡ []) }
        ensures reads { IfOk result (λ ahead. ahead.reads ≡ most_reads) }
    {
        let mut piece = Vec::with_capacity(alloc, MOST_BYTES)?;
        piece.resize(MOST_BYTES, 0)?;
        Ok(ReadAhead {
            alloc,
            bytes: Vec::new(alloc),
            taken: 0,
            searched: 0,
            piece,
            reads: MOST_READS,
        })
    }

    /// The bytes that were read and not taken yet.
    pub(crate) fn unread(&self) -> &[u8]
        ensures { result.now ≡ self.now.unread }
    {
        &self.bytes.as_slice()[self.taken..]
    }

    /// Takes so many bytes.
    pub(crate) fn take(&mut self, count: usize)
        requires { count ≤ length self.old.unread }
        ensures unread { self.new.unread ≡ drop count self.old.unread }
        ensures reads { self.new.reads ≡ self.old.reads }
    {
        self.taken += count;
        self.searched = self.searched.saturating_sub(count);
    }

    /// Reads once, and says how many bytes came: 0 is the end of the input.
    fn read<C: Client>(&mut self, client: &mut C) -> Result<usize, TalkError>
        requires line { Lacks 10 self.old.unread }
        requires replied { IsAllRepliedTo (C.first client.old) (C.input client.old) (C.output client.old) }
        ensures few { IfOk result (λ count. count ≤ most_bytes) }
        ensures more { IfOk result (λ count. length self.new.unread ≡ length self.old.unread + count) }
        ensures taken { IfOk result (λ count. 0 < count
            → AreTaken (stream self.old (C.input client.old)) (stream self.new (C.input client.new)) []) }
        ensures end { IfOk result (λ count. count ≡ 0
            → AreLast (stream self.old (C.input client.old)) (C.input client.new) self.new.unread) }
        ensures kept { IfOk result (λ count. count ≡ 0 → self.new.unread ≡ self.old.unread) }
        ensures less { IfOk result (λ _. room self.new < room self.old) }
        ensures error { IfErr result
            (λ e. IsReadEnd (stream self.old (C.input client.old)) (C.input client.new) e self.old.unread) }
        ensures unfailed { OnOk result ((C.input client.new).failures ≡ (C.input client.old).failures) }
        ensures unended { IfOk result (λ size. 0 < size → (C.input client.new).ends ≡ (C.input client.old).ends) }
        ensures memory { IsErrOf result (Run Memory)
            → (C.input client.new).failures ≡ (C.input client.old).failures }
        ensures open { IsErrOf result (Run Memory) → (C.input client.new).ends ≡ (C.input client.old).ends }
        ensures output { C.output client.new ≡ C.output client.old }
        ensures first { C.first client.new ≡ C.first client.old }
    {
        if self.reads == 0 {
            return Err(TalkError::Run(RunError::Read(Source::Input)));
        }
        self.reads -= 1;
        self.forget()?;
        self.searched = self.unread().len();
        match client.read(self.piece.as_mut_slice()) {
            Err(_) => Err(TalkError::Run(RunError::Read(Source::Input))),
            Ok(0) => Ok(0),
            Ok(count) => {
                self.bytes.extend_from_slice(&self.piece[..count])?;
                Ok(count)
            }
        }
    }

    /// Reads once where all that was read is taken. `false` where nothing is left.
    pub(crate) fn read_some<C: Client>(&mut self, client: &mut C) -> Result<bool, TalkError>
        requires piece { IsInPiece (C.first client.old) (C.output client.old)
            (stream self.old (C.input client.old)).come }
        ensures some { IfOk result (λ more. IsTrue more → 0 < length self.new.unread) }
        ensures taken { IfOk result (λ more. IsTrue more
            → AreTaken (stream self.old (C.input client.old)) (stream self.new (C.input client.new)) []) }
        ensures end { IfOk result (λ more. IsFalse more
            → AreLast (stream self.old (C.input client.old)) (C.input client.new) []) }
        ensures room { IfOk result (λ more. room self.new ≤ room self.old) }
        ensures near { IfOk result
            (λ _. length self.old.unread ≤ most_bytes → length self.new.unread ≤ most_bytes) }
        ensures error { IfErr result
            (λ e. IsReadEnd (stream self.old (C.input client.old)) (C.input client.new) e []) }
        ensures unfailed { OnOk result ((C.input client.new).failures ≡ (C.input client.old).failures) }
        ensures unended { IfOk result (λ any. IsTrue any → (C.input client.new).ends ≡ (C.input client.old).ends) }
        ensures memory { IsErrOf result (Run Memory)
            → (C.input client.new).failures ≡ (C.input client.old).failures }
        ensures open { IsErrOf result (Run Memory) → (C.input client.new).ends ≡ (C.input client.old).ends }
        ensures output { C.output client.new ≡ C.output client.old }
        ensures first { C.first client.new ≡ C.first client.old }
    {
        if self.unread().is_empty() {
            Ok(self.read(client)? > 0)
        } else {
            Ok(true)
        }
    }

    /// Keeps nothing of the bytes that were taken.
    fn forget(&mut self) -> Result<(), AllocError>
        ensures { self.new ≡ self.old }
    {
        if self.taken > 0 {
            self.bytes = Vec::from_slice(self.alloc, self.unread())?;
            self.taken = 0;
        }
        Ok(())
    }

    /// Reads until there is a whole line, and answers its length; `None` where nothing is left.
    pub(crate) fn read_line<C: Client>(
        &mut self,
        client: &mut C,
    ) -> Result<Option<usize>, TalkError>
        requires replied { IsRepliedUpTo (C.first client.old) (C.output client.old)
            (stream self.old (C.input client.old)).come }
        ensures line { IfOk result (λ found. IfSome found (HasLine self.new.unread)) }
        ensures near { IfOk result (λ found. IfSome found (λ _. AreNear self.new.unread)) }
        ensures taken { IfOk result (λ found. IfSome found (λ _.
            AreTaken (stream self.old (C.input client.old)) (stream self.new (C.input client.new)) [])) }
        ensures end { IfOk result (λ found. IfNone found
            (AreLast (stream self.old (C.input client.old)) (C.input client.new) [])) }
        ensures room { IfOk result (λ found. room self.new ≤ room self.old) }
        ensures error { IfErr result (IsLineEnd (stream self.old (C.input client.old)) (C.input client.new)) }
        ensures unfailed { OnOk result ((C.input client.new).failures ≡ (C.input client.old).failures) }
        ensures unended { IfOk result
            (λ found. IfSome found (λ _. (C.input client.new).ends ≡ (C.input client.old).ends)) }
        ensures memory { IsErrOf result (Run Memory)
            → (C.input client.new).failures ≡ (C.input client.old).failures }
        ensures open { IsErrOf result (Run Memory) → (C.input client.new).ends ≡ (C.input client.old).ends }
        ensures output { C.output client.new ≡ C.output client.old }
        ensures first { C.first client.new ≡ C.first client.old }
    {
        'reads: loop {
            if let Some(len) = self.line() {
                return Ok(Some(len));
            }
            if self.read(client)? == 0 {
                return if self.unread().is_empty() {
                    Ok(None)
                } else {
                    Err(TalkError::Cut)
                };
            }
        }
    }

    /// The length of the first line, where all of it was read.
    fn line(&self) -> Option<usize>
        ensures line { IfSome result (HasLine self.now.unread) }
        ensures near { IfSome result (λ _. AreNear self.now.unread) }
        ensures none { IfNone result (Lacks 10 self.now.unread) }
    {
        match split_at_byte(b'\n', &self.unread()[self.searched..]) {
            Some((front, _)) => Some(self.searched + front.len()),
            None => None,
        }
    }
}
