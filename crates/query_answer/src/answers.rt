//! What is answered to queries.
ghost use Rattle.std.specs.Prelude.{◌≡◌, ◌+◌, ◌++◌, OnErr, OnOk};
ghost use Rattle.svn_text.specs.Appended.{BeginsWith};
ghost use Rattle.query_answer.specs.Answer.{HasPathsOf, answer_head, answer_in_bytes, answer_text_at};

use crate::printed_mergeinfo::PrintedMergeinfo;
use crate::repo::Repo;
use crate::status::Status;
use crate::verbs::{eligible, locate, log, merged, segments};
use merge_info::MergeInfo;
use path_index::{Hit, Segment};
use std::alloc::AllocError;
use svn_path::{Names, Path};
use svn_text::push_number;

/// The answer to a query, with paths by the names of a repository. Contracts see its status and its result lines, and
/// promise nothing else of the variant.
#[derive(Drop)]
pub enum Answer {
    /// There are no result lines, for this reason.
    Refused(Status),
    /// Where a path was located, if anywhere.
    Location(Option<Path>),
    /// Where a path was located in all revisions, the newest first.
    Segments(Vec<Segment>),
    /// The operative revisions of a path, the newest first, each in one of these segments.
    Log {
        segments: Vec<Segment>,
        hits: Vec<Hit>,
    },
    /// The mergeinfo that holds for a path.
    Mergeinfo(PrintedMergeinfo),
    /// The revisions that were merged into a target, in rising order.
    Merged(Vec<MergedRevision>),
    /// The revisions that are still to be merged into a target, in rising order.
    Eligible(Vec<u32>),
}

/// The mergeinfo that holds for a path: its own, or what it inherits.
#[derive(Drop)]
pub enum Effective {
    Value(MergeInfo),
    /// The text of the nearest mergeinfo is malformed.
    Malformed,
}

/// A revision of a source that the mergeinfo of a target has, and whether it is inheritable there.
#[derive(Clone, Copy, Debug, PartialEq, Eq)]
pub struct MergedRevision {
    pub rev: u32,
    pub inheritable: bool,
}

impl Answer {
    /// Appends the answer to the query of a place. Places begin at 0, and the printed numbers at 1.
    pub fn write(&self, repo: &Repo, place: u32, out: &mut Vec<u8>) -> Result<(), AllocError>
        requires { HasPathsOf repo.now.names self.now }
        ensures ok { OnOk result (out.new.items ≡ out.old.items ++ answer_text_at repo.now.names place self.now) }
        ensures err { OnErr result (out.new.items ≡ out.old.items) }
    {
        let before = out.len();
        let written = self.append(repo.names(), place, out);
        if written.is_err() {
            out.truncate(before);
        }
        written
    }

    /// Appends the answer, or as much of it as there is memory for.
    #[tactic(auto, using(svn_text::proofs::Appended::appended))]
    fn append(&self, names: &Names, place: u32, out: &mut Vec<u8>) -> Result<(), AllocError>
        requires { HasPathsOf names.now self.now }
        ensures ok { OnOk result (out.new.items ≡ out.old.items ++ answer_text_at names.now place self.now) }
        ensures begins { BeginsWith out.old.items out.new.items }
    {
        append_head(place, self.status(), out)?;
        match self {
            Answer::Refused(_) => Ok(()),
            Answer::Location(path) => locate::append_location(names, path.as_ref(), out),
            Answer::Segments(segments) => segments::append_segments(names, segments, out),
            Answer::Log { segments, hits } => log::append_log(names, segments, hits, out),
            Answer::Mergeinfo(value) => value.write(out),
            Answer::Merged(revisions) => merged::append_merged(revisions, out),
            Answer::Eligible(revisions) => eligible::append_eligible(revisions, out),
        }
    }

    /// The status of the answer.
    fn status(&self) -> Status
        ensures { (names : _) → result ≡ (answer_in_bytes names self.now).status }
    {
        match self {
            Answer::Refused(status) => *status,
            _ => Status::Ok,
        }
    }
}

/// Appends the first line of an answer, or as much of it as there is memory for.
#[tactic(auto, using(svn_text::proofs::Appended::appended))]
pub fn append_head(place: u32, status: Status, out: &mut Vec<u8>) -> Result<(), AllocError>
    ensures ok { OnOk result (out.new.items ≡ out.old.items ++ answer_head (place + 1) status) }
    ensures begins { BeginsWith out.old.items out.new.items }
{
    out.push(b'#')?;
    push_number(out, u64::from(place) + 1)?;
    out.push(b' ')?;
    out.extend_from_slice(status.text())?;
    out.push(b'\n')?;
    Ok(())
}
