//! The first word of an answer.
ghost use Rattle.std.specs.Prelude.{◌≡◌};
ghost use Rattle.query_answer.specs.Answer.{status_text};

/// Whether a query was answered, or why it was not.
#[derive(Clone, Copy, Debug, PartialEq, Eq)]
pub enum Status {
    Ok,
    BadQuery,
    NoSuchRevision,
    NoSuchPath,
    MalformedMergeinfo,
}

impl Status {
    /// The status as it is printed.
    pub fn text(self) -> &'static [u8]
        ensures { result.now ≡ status_text self }
    {
        match self {
            Status::Ok => b"ok",
            Status::BadQuery => b"bad-query",
            Status::NoSuchRevision => b"no-such-revision",
            Status::NoSuchPath => b"no-such-path",
            Status::MalformedMergeinfo => b"malformed-mergeinfo",
        }
    }
}
