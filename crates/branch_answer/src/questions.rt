//! The questions, each in a file of its own.
ghost use Rattle.std.specs.Prelude.{◌≡◌, [], IfErr, IfOk, OnOk};
ghost use Rattle.svn_dump.specs.Dump.{history_in_bytes};
ghost use Rattle.query_answer.specs.Repo.{trees_in_bytes};
ghost use Rattle.query_answer.specs.Worker.{IsSeenOf};
ghost use Rattle.branch_answer.specs.DescendantsLaw.{HaveDescendants};
ghost use Rattle.branch_answer.specs.HoldsLaw.{HoldsByRange};
ghost use Rattle.branch_answer.specs.LivesLaw.{HaveLives};
ghost use Rattle.branch_answer.specs.NewRevisions.{NewOneWay, NothingIsNew};
ghost use Rattle.branch_answer.specs.Question.{question_view};
ghost use Rattle.branch_answer.specs.QuestionAnswer.{kept_answer, question_answer_in};
ghost use Rattle.branch_answer.specs.Told.{IsUntold, TellsLines};

mod ancestor;
mod descendants;
mod distance;
mod entry;
mod explicit;
mod holds;
mod list;
mod lives;
mod new;

use crate::answer::Answer;
use crate::question::Question;
use query_answer::{Repo, Status, Unanswered};
use std::alloc::{AllocError, Global};
use value_memo::{Memo, Seen};

/// The answer to a question.
///
/// The memo has a cell for each mergeinfo text of the repository, and the worker was answered for such texts alone.
pub fn answer_question<'r>(
    alloc: Global,
    repo: &'r Repo,
    question: &Question<'_>,
    memo: &Memo<'r>,
    seen: &mut Seen<'r>,
) -> Result<Answer, AllocError>
    requires seen { IsSeenOf repo.now.values memo.now seen.old }
    ensures seen { IsSeenOf repo.now.values memo.now seen.new }
    ensures answer { IfOk result
        (λ answer. answer ≡ kept_answer (question_answer_in repo.now (question_view question.now))) }
    // The lives of each path share no revision, and are all in which it is there.
    ensures lives { HaveLives (trees_in_bytes repo.now) }
    // The descendants of a path are the paths that were located there, and no others.
    ensures descendants { HaveDescendants (trees_in_bytes repo.now) }
    // What a path holds of a range is what it holds of a wider one, without the revisions outside.
    ensures holds { HoldsByRange (history_in_bytes repo.now) (trees_in_bytes repo.now) }
    // Nothing is new between a path and itself.
    ensures new { NothingIsNew (history_in_bytes repo.now) (trees_in_bytes repo.now) }
    // No revision is new between two paths in both directions.
    ensures one_way { NewOneWay (history_in_bytes repo.now) (trees_in_bytes repo.now) }
{
    let mut text = Vec::new(alloc);
    match append_lines(alloc, repo, question, memo, seen, &mut text) {
        Ok(()) => Ok(Answer {
            status: Status::Ok,
            text,
        }),
        Err(Unanswered::Refused(status)) => Ok(Answer {
            status,
            text: Vec::new(alloc),
        }),
        Err(Unanswered::Memory) => Err(AllocError),
    }
}

/// Appends the result lines of a question.
fn append_lines<'r>(
    alloc: Global,
    repo: &'r Repo,
    question: &Question<'_>,
    memo: &Memo<'r>,
    seen: &mut Seen<'r>,
    out: &mut Vec<u8>,
) -> Result<(), Unanswered>
    requires seen { IsSeenOf repo.now.values memo.now seen.old }
    ensures seen { IsSeenOf repo.now.values memo.now seen.new }
    ensures lines { OnOk result (TellsLines (question_answer_in repo.now (question_view question.now))
        out.old.items out.new.items) }
    ensures none { IfErr result (IsUntold (question_answer_in repo.now (question_view question.now))) }
{
    match question {
        Question::Bad => Err(Unanswered::Refused(Status::BadQuery)),
        Question::Entry { of } => entry::append_entry(alloc, repo, of, out),
        Question::List { of } => list::append_list(alloc, repo, of, out),
        Question::Lives { of } => lives::append_lives(alloc, repo, of, out),
        Question::Explicit { of } => explicit::append_explicit(alloc, repo, of, out),
        Question::Ancestor { of, other } => ancestor::append_ancestor(alloc, repo, of, other, out),
        Question::Holds { of, range } => {
            holds::append_holds(alloc, repo, of, *range, memo, seen, out)
        }
        Question::New { comparison } => {
            new::append_new(alloc, repo, comparison, memo, seen, out)
        }
        Question::NewRanges { comparison } => {
            new::append_new_ranges(alloc, repo, comparison, memo, seen, out)
        }
        Question::Distance {
            from,
            uncounted,
            to,
        } => distance::append_distance(alloc, repo, from, uncounted, to, memo, seen, out),
        Question::Descendants { of, rev } => {
            descendants::append_descendants(alloc, repo, of, *rev, out)
        }
    }
}
