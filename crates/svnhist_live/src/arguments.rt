//! The arguments of a talk.
ghost use Rattle.std.specs.Prelude.{map, string_bytes, IfNone, IfSome};
ghost use Rattle.svnhist_live.specs.Arguments.{ArgumentsValue, IsArguments, arguments_view};

use query_pool::MOST_WORKERS;
use svn_text::number_up_to;

/// What a talk is about, lent by the arguments.
#[derive(Clone, Copy, Debug)]
pub(crate) struct Arguments<'a> {
    /// The path of the dump.
    pub dump: &'a str,
    /// How many workers are to answer, from 1 to 64.
    pub workers: usize,
}

/// What the arguments after the program's name ask for, or `None` where they are wrong.
pub(crate) fn read_arguments(texts: &[String]) -> Option<Arguments<'_>>
    ensures found { IfSome result (λ asked. IsArguments (map string_bytes texts.now) (arguments_view asked)) }
    ensures none { IfNone result ((value : ArgumentsValue) → IsArguments (map string_bytes texts.now) value → ⊥) }
{
    let [dump, workers] = texts else {
        return None;
    };
    let workers = number_up_to(MOST_WORKERS as u64, workers.as_bytes())?;
    if workers == 0 {
        return None;
    }
    Some(Arguments {
        dump: dump.as_str(),
        workers: workers as usize,
    })
}
