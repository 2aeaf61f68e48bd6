//! What is answered to questions.
ghost use Rattle.std.specs.Prelude.{◌≡◌, ◌++◌, OnErr, OnOk};
ghost use Rattle.svn_text.specs.Appended.{BeginsWith};
ghost use Rattle.branch_answer.specs.QuestionAnswer.{kept_text_at};

use query_answer::{Status, append_head};
use std::alloc::AllocError;
use std::marker::Model;

/// The answer to a question: its status, and the text of its result lines.
#[derive(Drop)]
pub struct Answer {
    pub(crate) status: Status,
    pub(crate) text: Vec<u8>,
}

impl Model for Answer {
    ghost use Rattle.branch_answer.specs.QuestionAnswer.{AnswerValue};

    ghost Value = { AnswerValue };

    ghost view = { λ a. record { status = a.status; text = a.text.items } };
}

impl Answer {
    /// Appends the answer to the question of a place. Places begin at 0, and the printed numbers at 1.
    pub fn write(&self, place: u32, out: &mut Vec<u8>) -> Result<(), AllocError>
        ensures ok { OnOk result (out.new.items ≡ out.old.items ++ kept_text_at place self.now) }
        ensures err { OnErr result (out.new.items ≡ out.old.items) }
    {
        let before = out.len();
        let written = self.append(place, out);
        if written.is_err() {
            out.truncate(before);
        }
        written
    }

    /// Appends the answer, or as much of it as there is memory for.
    #[tactic(auto, using(svn_text::proofs::Appended::appended))]
    fn append(&self, place: u32, out: &mut Vec<u8>) -> Result<(), AllocError>
        ensures ok { OnOk result (out.new.items ≡ out.old.items ++ kept_text_at place self.now) }
        ensures begins { BeginsWith out.old.items out.new.items }
    {
        append_head(place, self.status, out)?;
        out.extend_from_slice(self.text.as_slice())
    }
}
