//! Answering lines of a talk by several workers.
ghost use Rattle.std.specs.Prelude.{◌≡◌, ◌+◌, ◌^◌, ◌<◌, ◌≤◌, IfOk, length, map};
ghost use Rattle.branch_answer.specs.Question.{question_view};
ghost use Rattle.branch_answer.specs.QuestionAnswer.{question_answer_in};
ghost use Rattle.query_answer.specs.Answer.{answer_text};
ghost use Rattle.query_answer.specs.Query.{query_of};
ghost use Rattle.query_answer.specs.Repo.{answer_in};
ghost use Rattle.query_answer.specs.Worker.{IsSeenOf};
ghost use Rattle.svn_report.specs.Report.{most_queries};
ghost use Rattle.live_history.specs.Answering.{texts_to_batch};

use branch_answer::{Question, answer_question};
use query_answer::{Query, Repo, answer};
use query_pool::{GatherError, Job, NoGate, Workers, gather, serve};
use std::alloc::{AllocError, Global};
use std::sync::Wait;
use std::thread::Threads;
use value_memo::{Memo, Seen};

/// The bytes that are reserved for an answer at first. Most answers are shorter.
const USUAL_LENGTH: usize = 128;

/// Some lines of a talk on a repository, before which `first` others were answered. A place is that of a line among them,
/// and the result there is the text of its answer.
#[derive(Drop)]
pub(crate) struct Batch<'r, 'a> {
    pub(crate) alloc: Global,
    pub(crate) repo: &'r Repo,
    pub(crate) memo: &'a Memo<'r>,
    pub(crate) first: u32,
    pub(crate) lines: &'a [&'a [u8]],
    ghost cells: { length repo.now.values ≤ length memo.now },
    ghost few: { length lines.now ≤ most_queries },
    ghost numbered: { first + length lines.now < 2 ^ 32 },
}

impl<'r> Job for Batch<'r, '_> {
    ghost use Rattle.query_answer.specs.Worker.{IsSeenOf};
    ghost use Rattle.live_history.specs.Answering.{HasLine, IsTextAt};

    type Out = Vec<u8>;

    type State = Seen<'r>;

    ghost has = { λ batch place. HasLine batch.lines.now place };

    ghost lawful = { λ batch seen. IsSeenOf batch.repo.now.values batch.memo.now seen };

    ghost gives = { λ batch place text. IsTextAt batch.repo.now batch.first batch.lines.now place text.items };

    fn state(&self) -> Result<Seen<'r>, AllocError> {
        Seen::new(self.alloc, self.memo)
    }

    fn run(&self, place: u32, seen: &mut Seen<'r>) -> Result<Vec<u8>, AllocError> {
        let line = self.lines[place as usize];
        match Question::read(line) {
            Some(question) => self.answer_to_question(place, &question, seen),
            None => self.answer_to_query(place, line, seen),
        }
    }
}

impl<'r> Batch<'r, '_> {
    /// The answer to a question at a place.
    fn answer_to_question(
        &self,
        place: u32,
        question: &Question<'_>,
        seen: &mut Seen<'r>,
    ) -> Result<Vec<u8>, AllocError>
        requires place { self.now.first + place < 2 ^ 32 }
        requires seen { IsSeenOf self.now.repo.now.values self.now.memo.now seen.old }
        ensures seen { IsSeenOf self.now.repo.now.values self.now.memo.now seen.new }
        ensures text { IfOk result (λ text. text.items ≡ answer_text (self.now.first + place + 1)
            (question_answer_in self.now.repo.now (question_view question.now))) }
    {
        let mut text = Vec::with_capacity(self.alloc, USUAL_LENGTH)?;
        let answer = answer_question(self.alloc, self.repo, question, self.memo, seen)?;
        answer.write(self.first + place, &mut text)?;
        Ok(text)
    }

    /// The answer to a query at a place.
    fn answer_to_query(
        &self,
        place: u32,
        line: &[u8],
        seen: &mut Seen<'r>,
    ) -> Result<Vec<u8>, AllocError>
        requires place { self.now.first + place < 2 ^ 32 }
        requires seen { IsSeenOf self.now.repo.now.values self.now.memo.now seen.old }
        ensures seen { IsSeenOf self.now.repo.now.values self.now.memo.now seen.new }
        ensures text { IfOk result (λ text. text.items ≡ answer_text (self.now.first + place + 1)
            (answer_in self.now.repo.now (query_of line.now))) }
    {
        let mut text = Vec::with_capacity(self.alloc, USUAL_LENGTH)?;
        let query = Query::read(line);
        answer(self.alloc, self.repo, &query, self.memo, seen)?.write(
            self.repo,
            self.first + place,
            &mut text,
        )?;
        Ok(text)
    }
}

impl Batch<'_, '_> {
    /// The answers to the lines, in their order, found by so many workers.
    pub(crate) fn answers<R: Threads + Wait + Sync>(
        &self,
        rt: &R,
        workers: Workers,
    ) -> Result<Vec<Vec<u8>>, AllocError>
        ensures { IfOk result (λ texts. map (λ text. text.items) texts.items
            ≡ texts_to_batch self.now.repo.now self.now.first self.now.lines.now) }
    {
        let n = self.lines.len() as u32;
        let parts = serve(rt, self.alloc, self, n, workers.count, &NoGate)?;
        match gather(self.alloc, parts, n) {
            Ok(texts) => Ok(texts),
            Err(GatherError::Memory) => Err(AllocError),
            Err(_) => unreachable!(),
        }
    }
}
