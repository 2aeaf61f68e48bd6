//! The arguments of a run on two files.
ghost use Rattle.std.specs.Prelude.{map, string_bytes, IfNone, IfSome};
ghost use Rattle.svnhist.specs.Arguments.{ArgumentsValue, IsArguments, arguments_view};

use query_pool::MOST_WORKERS;
use svn_text::{GREATEST_REVISION, number_up_to};

/// The path of the dump.
#[derive(Clone, Copy, Debug)]
pub(crate) struct DumpPath<'a>(pub &'a str);

/// The path of the query lines.
#[derive(Clone, Copy, Debug)]
pub(crate) struct QueriesPath<'a>(pub &'a str);

/// What a run is asked to do, lent by its arguments.
#[derive(Clone, Copy, Debug)]
pub(crate) struct Arguments<'a> {
    pub dump: DumpPath<'a>,
    pub queries: QueriesPath<'a>,
    /// How many revisions a block has, 0 for one block.
    pub block: u32,
    /// How many workers are to answer, from 1 to 64.
    pub workers: usize,
}

/// What the arguments after the program's name ask for, or `None` where they are wrong.
pub(crate) fn read_arguments(texts: &[String]) -> Option<Arguments<'_>>
    ensures found { IfSome result (λ asked. IsArguments (map string_bytes texts.now) (arguments_view asked)) }
    ensures none { IfNone result ((value : ArgumentsValue) → IsArguments (map string_bytes texts.now) value → ⊥) }
{
    let [dump, queries, block, workers] = texts else {
        return None;
    };
    let block = number_up_to(GREATEST_REVISION, block.as_bytes())?;
    let workers = number_up_to(MOST_WORKERS as u64, workers.as_bytes())?;
    if workers == 0 {
        return None;
    }
    Some(Arguments {
        dump: DumpPath(dump.as_str()),
        queries: QueriesPath(queries.as_str()),
        block: block as u32,
        workers: workers as usize,
    })
}
