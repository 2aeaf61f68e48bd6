//! The verbs of queries, each in a file of its own.
ghost use Rattle.std.specs.Prelude.{IfOk};
ghost use Rattle.query_answer.specs.Answer.{IsAnswer};
ghost use Rattle.query_answer.specs.Query.{query_view};
ghost use Rattle.query_answer.specs.Repo.{answer_in, text_read_for};
ghost use Rattle.query_answer.specs.Unanswered.{HasAnswer};
ghost use Rattle.query_answer.specs.Worker.{IsSeenOf, IsUnreadWhereRefused, KnowsWhatWasRead, Learns, Reads};

pub(crate) mod eligible;
pub(crate) mod locate;
pub(crate) mod log;
pub(crate) mod merged;
mod mergeinfo;
mod pair;
pub(crate) mod segments;
mod source;

use crate::answers::Answer;
use crate::query::Query;
use crate::repo::Repo;
use crate::status::Status;
use crate::unanswered::Unanswered;
use pair::{Choice, answer_pair};
use std::alloc::{AllocError, Global};
use value_memo::{Memo, Seen};

/// The answer to a query.
///
/// The memo has a cell for each mergeinfo text of the repository, and the worker was answered for such texts alone. It is
/// answered for one text more at most, also where memory runs out: the nearest mergeinfo of the path of `mergeinfo`, or
/// of the target of `merged` and `eligible`, and for none where the query or a peg is refused. The next queries of the
/// worker find what the text says, and so do other workers once it is in the memo.
pub fn answer<'r>(
    alloc: Global,
    repo: &'r Repo,
    query: &Query<'_>,
    memo: &Memo<'r>,
    seen: &mut Seen<'r>,
) -> Result<Answer, AllocError>
    requires seen { IsSeenOf repo.now.values memo.now seen.old }
    ensures answer { IfOk result (IsAnswer repo.now.names (answer_in repo.now (query_view query.now))) }
    ensures seen { IsSeenOf repo.now.values memo.now seen.new }
    ensures learns { Learns repo.now.values (text_read_for repo.now (query_view query.now)) seen.old seen.new }
    ensures knows { KnowsWhatWasRead result (text_read_for repo.now (query_view query.now)) seen.new }
    ensures unread { IsUnreadWhereRefused result seen.old seen.new }
{
    match answer_verb(alloc, repo, query, memo, seen) {
        Ok(answer) => Ok(answer),
        Err(Unanswered::Refused(status)) => Ok(Answer::Refused(status)),
        Err(Unanswered::Memory) => Err(AllocError),
    }
}

/// The answer to a query, if it has result lines.
fn answer_verb<'r>(
    alloc: Global,
    repo: &'r Repo,
    query: &Query<'_>,
    memo: &Memo<'r>,
    seen: &mut Seen<'r>,
) -> Result<Answer, Unanswered>
    requires seen { IsSeenOf repo.now.values memo.now seen.old }
    ensures answer { HasAnswer repo.now (answer_in repo.now (query_view query.now)) result }
    ensures worker { Reads repo.now memo.now (text_read_for repo.now (query_view query.now)) result seen.old seen.new }
{
    match query {
        Query::Bad => Err(Unanswered::Refused(Status::BadQuery)),
        Query::Locate { of, rev } => locate::answer_locate(alloc, repo, of, *rev),
        Query::Segments { of } => segments::answer_segments(alloc, repo, of),
        Query::Log { of, range } => log::answer_log(alloc, repo, of, *range),
        Query::Mergeinfo { of } => mergeinfo::answer_mergeinfo(alloc, repo, of, memo, seen),
        Query::Merged { of, target, range } => {
            answer_pair(alloc, repo, of, target, Choice::Merged, *range, memo, seen)
        }
        Query::Eligible { of, target, range } => {
            answer_pair(
                alloc,
                repo,
                of,
                target,
                Choice::Eligible,
                *range,
                memo,
                seen,
            )
        }
    }
}
