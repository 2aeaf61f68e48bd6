//! Reading a dump piece by piece.
ghost use Rattle.std.specs.Prelude.{◌≡◌, ◌+◌, ◌<◌, ◌^◌, ◌++◌, ℕ, List, [], None, Some, length, IfErr, IfOk, IfSome, IsErrOf, OnOk};
ghost use Rattle.svn_dump.specs.Decided.{IsDecidedError, IsUndecided};
ghost use Rattle.svn_dump.specs.Draft.{IsWholeHistory};
ghost use Rattle.svn_dump.specs.Dump.{history_in_bytes};
ghost use Rattle.svn_dump.specs.DumpError.{DumpsAreExact, DumpsAreOne, IsRefusal};
ghost use Rattle.svn_dump.specs.DumpText.{IsDumpText, names_of, values_of};
ghost use Rattle.svn_dump.specs.Feed.{HasRead, IsPausedAt};
ghost use Rattle.svn_dump.specs.Growth.{GrowsTo};
ghost use Rattle.svn_dump.specs.Property.{SectionsAreExact};
ghost use Rattle.svn_dump.specs.declared.error.DumpError.{DumpError};

use crate::dump::Dump;
use crate::error::DumpError;
use crate::paused::Paused;
use crate::pieces::reader::Reader;
use std::alloc::Global;
use std::marker::Model;
use svn_text::Seed;

/// A reader of a dump that comes in pieces.
///
/// It keeps the records so far with their names and mergeinfo texts, the header of the block in progress and, of a
/// node's block, what has come of its property section; nothing else of a body. Room is taken for bytes that have come,
/// never for a length that a header claims.
#[derive(Drop)]
pub struct Feed {
    pub(crate) reader: Reader,
    /// How many bytes have come.
    pub(crate) count: u64,
    /// The error that was answered.
    pub(crate) error: Option<DumpError>,
}

impl Model for Feed {
    ghost use Rattle.svn_dump.specs.Feed.{FeedValue};
    ghost use Rattle.std.specs.Prelude.{MatchOption, ⊤};
    ghost use Rattle.svn_dump.specs.Draft.{IsWholeHistory};

    ghost Value = { FeedValue };

    ghost view = { λ f. record { reader = f.reader; count = f.count; error = f.error } };

    ghost invariant = { λ f. MatchOption f.error (IsWholeHistory f.reader.draft) (λ _. ⊤) };
}

impl Feed {
    /// A reader to which nothing has come, with the fixed seed. It takes no memory. Where strangers write the dump,
    /// take `with_seed`.
    pub fn new(alloc: Global) -> Self
        ensures read { HasRead result [] }
        ensures count { result.count ≡ 0 }
        ensures error { result.error ≡ None }
        ensures undecided { IsUndecided [] }
    {
        Feed::with_seed(alloc, Seed::fixed())
    }

    /// A reader to which nothing has come. Names and mergeinfo texts are found by the hashes of a seed. It takes no
    /// memory.
    pub fn with_seed(alloc: Global, seed: Seed) -> Self
        ensures read { HasRead result [] }
        ensures count { result.count ≡ 0 }
        ensures error { result.error ≡ None }
        ensures undecided { IsUndecided [] }
    {
        Feed {
            reader: Reader::new(alloc, seed),
            count: 0,
            error: None,
        }
    }

    /// Reads the next bytes of the dump, perhaps none. Fewer than 2^64 may come in all, also after an error.
    ///
    /// A refusal comes with the byte that decides it: the first one that differs from `SVN-fs-dump-format-version: `,
    /// the newline of a first line with another version, that of a faulty header line, the empty line after a header
    /// with faulty lengths, and for the reasons against a whole block its last byte, which is the empty line where the
    /// body has no bytes. What only the end of the input shows, `finish` answers. After an error the same error is
    /// answered from then on.
    pub fn feed(&mut self, bytes: &[u8]) -> Result<(), DumpError>
        requires few { self.old.count + length bytes.now < 2 ^ 64 }
        ensures read { (before : List ℕ) → HasRead self.old before → HasRead self.new (before ++ bytes.now) }
        ensures count { self.new.count ≡ self.old.count + length bytes.now }

        // `Ok`: these bytes decide no refusal. An error: the refusal that they decide, or want of memory.
        ensures undecided { OnOk result
            ((before : List ℕ) → HasRead self.old before → IsUndecided (before ++ bytes.now)) }
        ensures decided { IfErr result
            (λ error. (before : List ℕ) → HasRead self.old before → IsDecidedError (before ++ bytes.now) error) }

        // The dump only grows.
        ensures grows { OnOk result (GrowsTo self.old.reader.draft self.new.reader.draft) }

        // An error is answered from then on.
        ensures ok { OnOk result (self.new.error ≡ None) }
        ensures kept { IfErr result (λ error. self.new.error ≡ Some error) }
        ensures again { IfSome self.old.error (λ error. IsErrOf result error) }
    {
        self.count += bytes.len() as u64;
        if let Some(error) = self.error {
            return Err(error);
        }
        match self.reader.read(self.count, bytes) {
            Ok(()) => Ok(()),
            Err(error) => {
                let error = error.at(self.reader.at);
                self.error = Some(error);
                Err(error)
            }
        }
    }

    /// The dump of all bytes that have come, if they are one, and what goes on reading after them. Otherwise the answer
    /// of `finish`, and nothing is kept: bytes that end in a block are no dump, nor are those without a revision.
    pub fn pause(self) -> Result<(Dump, Paused), DumpError>
        // What holds of all bytes, whatever is answered.
        ensures exactly { DumpsAreExact }
        ensures one { DumpsAreOne }
        ensures sections { SectionsAreExact }

        ensures ok { IfOk result (λ both. (bytes : List ℕ) → HasRead self bytes
            → IsDumpText bytes (history_in_bytes both.0)) }
        ensures names { IfOk result (λ both. (bytes : List ℕ) → HasRead self bytes
            → both.0.names ≡ names_of (history_in_bytes both.0)) }
        ensures values { IfOk result (λ both. (bytes : List ℕ) → HasRead self bytes
            → both.0.values ≡ values_of (history_in_bytes both.0)) }
        ensures refused { IfErr result (λ error. (bytes : List ℕ) → HasRead self bytes → IsRefusal bytes error) }
        ensures again { IfSome self.error (λ error. IsErrOf result error) }
        ensures memory { IsErrOf result DumpError.Memory → self.error ≡ Some DumpError.Memory }

        // The dump and what goes on are of the same bytes.
        ensures whole { IfOk result (λ both. IsWholeHistory both.0) }
        ensures dump { IfOk result (λ both. both.0 ≡ self.reader.draft) }
        ensures paused { IfOk result (λ both. (bytes : List ℕ) → HasRead self bytes
            → IsPausedAt both.1 both.0 bytes) }
        ensures count { IfOk result (λ both. both.1.count ≡ self.count) }
    {
        let Feed {
            reader,
            count,
            error,
        } = self;
        match error {
            Some(error) => Err(error),
            None => reader.pause(count),
        }
    }

    /// The answer of `read` on all bytes that have come, or the error that `feed` answered.
    pub fn finish(self) -> Result<Dump, DumpError>
        // What holds of all bytes, whatever is answered.
        ensures exactly { DumpsAreExact }
        ensures one { DumpsAreOne }
        ensures sections { SectionsAreExact }

        ensures ok { IfOk result (λ dump. (bytes : List ℕ) → HasRead self bytes
            → IsDumpText bytes (history_in_bytes dump)) }
        ensures names { IfOk result (λ dump. (bytes : List ℕ) → HasRead self bytes
            → dump.names ≡ names_of (history_in_bytes dump)) }
        ensures values { IfOk result (λ dump. (bytes : List ℕ) → HasRead self bytes
            → dump.values ≡ values_of (history_in_bytes dump)) }
        ensures refused { IfErr result (λ error. (bytes : List ℕ) → HasRead self bytes → IsRefusal bytes error) }
        ensures again { IfSome self.error (λ error. IsErrOf result error) }
        ensures memory { IsErrOf result DumpError.Memory → self.error ≡ Some DumpError.Memory }
    {
        let (dump, _) = self.pause()?;
        Ok(dump)
    }
}
