//! Questions about branches, and their answers: what stands at a path and below it, and what became of it.
//!
//! A line that begins with `ask` is a question. It is answered on a repository, and its answer is written with its place
//! among the lines, in the form of the answer to a query:
//!
//! ```
//! if let Some(question) = Question::read(line.as_bytes()) {
//!     let answer = answer_question(alloc, repo, &question, memo, seen)?;
//!     let written = answer.write(place, out);
//! }
//! ```
#![tactic(auto)]

mod answer;
mod counted;
mod descendants;
mod explicit;
mod held_revisions;
mod holding;
mod holdings;
mod kind;
mod life;
mod moves;
mod new_revisions;
mod operative;
mod operatives;
mod presence;
mod question;
mod questions;
mod text_order;

pub use answer::Answer;
pub use question::{Comparison, Question};
pub use questions::answer_question;
