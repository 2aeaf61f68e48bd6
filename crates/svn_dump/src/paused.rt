//! A reader that waits for more of its dump.
ghost use Rattle.std.specs.Prelude.{◌≡◌, ℕ, List, None};
ghost use Rattle.svn_dump.specs.Draft.{IsWholeHistory};
ghost use Rattle.svn_dump.specs.Feed.{HasRead, IsPausedAt};

use crate::draft::Draft;
use crate::dump::Dump;
use crate::feed::Feed;
use crate::grammar::format::Format;
use crate::pieces::reader::{Progress, Reader};
use std::alloc::Global;

/// The state of a reader at a pause, without the dump that it handed out.
#[derive(Drop)]
pub struct Paused {
    pub(crate) alloc: Global,
    pub(crate) format: Format,
    /// How many bytes have come.
    pub(crate) count: u64,
}

impl Paused {
    /// The reader that goes on with the dump that `Feed::pause` gave beside this, or with an equal one. Of another dump
    /// nothing is promised.
    pub fn resume(self, dump: Dump) -> Feed
        requires { IsWholeHistory dump }
        ensures read { (bytes : List ℕ) → IsPausedAt self dump bytes → HasRead result bytes }
        ensures dump { result.reader.draft ≡ dump }
        ensures count { result.count ≡ self.count }
        ensures error { result.error ≡ None }
    {
        Feed {
            reader: Reader {
                alloc: self.alloc,
                draft: Draft::of(dump),
                progress: Progress::Blocks,
                format: self.format,
                at: self.count,
            },
            count: self.count,
            error: None,
        }
    }
}
