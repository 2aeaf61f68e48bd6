//! Runs in text.
ghost use Rattle.std.specs.Prelude.{◌≡◌, ◌+◌, ◌<◌, ◌≤◌, [], ◌∷◌, ◌++◌, OnErr, OnOk, codes, decimal, drop, if◌then◌else◌};
ghost use Rattle.svn_text.specs.Appended.{BeginsWith};
ghost use Rattle.range_list.specs.Rangelist.{inheritable_runs};
ghost use Rattle.range_list.specs.Text.{range_text, rangelist_text, run_text};

use crate::run::Run;
use itoa::write_digits;
use std::alloc::AllocError;

/// The bytes of a comma and the longest run, `,4294967295-4294967295*`.
const MOST_BYTES: usize = 23;

/// Appends the runs, separated by commas, or as many of them as there is memory for.
#[tactic(auto, using(svn_text::proofs::Appended::appended))]
pub(crate) fn append_runs(runs: &[Run], out: &mut Vec<u8>) -> Result<(), AllocError>
    ensures ok { OnOk result (out.new.items ≡ out.old.items ++ rangelist_text runs.now) }
    ensures begins { BeginsWith out.old.items out.new.items }
{
    let Some((first, others)) = runs.split_first() else {
        return Ok(());
    };
    write_run(*first, false, out)?;
    for run in others {
        write_run(*run, true, out)?;
    }
    Ok(())
}

/// Appends the inheritable ones of the runs, separated by commas, or as many of them as there is memory for.
#[tactic(auto, using(svn_text::proofs::Appended::appended))]
pub(crate) fn append_inheritable_runs(runs: &[Run], out: &mut Vec<u8>) -> Result<(), AllocError>
    ensures ok { OnOk result (out.new.items ≡ out.old.items ++ rangelist_text (inheritable_runs runs.now)) }
    ensures begins { BeginsWith out.old.items out.new.items }
{
    let mut follows = false;
    for run in runs {
        if run.inheritable {
            write_run(*run, follows, out)?;
            follows = true;
        }
    }
    Ok(())
}

/// Appends a run, after a comma if it follows another one.
fn write_run(run: Run, follows: bool, out: &mut Vec<u8>) -> Result<(), AllocError>
    ensures ok { OnOk result
        (out.new.items ≡ out.old.items ++ (if follows then codes "," else []) ++ run_text run) }
    ensures err { OnErr result (out.new.items ≡ out.old.items) }
{
    let mut text = [0; MOST_BYTES];
    let start = put_star(run.inheritable, &mut text);
    let start = put_range(run, &mut text, start);
    let start = put_comma(follows, &mut text, start);
    out.extend_from_slice(&text[start..])
}

/// Puts a star at the end for numbers that are not inheritable, and answers where the text begins.
fn put_star(inheritable: bool, text: &mut [u8; MOST_BYTES]) -> usize
    ensures start { 22 ≤ result }
    ensures within { result ≤ 23 }
    ensures written { drop result text.new ≡ (if inheritable then [] else codes "*") }
{
    if inheritable {
        return MOST_BYTES;
    }
    put_byte(b'*', text, MOST_BYTES)
}

/// Puts the first and the last number before the text, or one number where they are the same, and answers where it
/// begins then.
fn put_range(run: Run, text: &mut [u8; MOST_BYTES], start: usize) -> usize
    requires start { 22 ≤ start }
    requires within { start ≤ 23 }
    ensures start { 0 < result }
    ensures within { result ≤ 23 }
    ensures written { drop result text.new ≡ range_text run ++ drop start text.old }
{
    let start = put_number(run.hi, text, start);
    if run.lo == run.hi {
        return start;
    }
    let start = put_byte(b'-', text, start);
    put_number(run.lo, text, start)
}

/// Puts a comma before the text of a run that follows another one, and answers where it begins then.
fn put_comma(follows: bool, text: &mut [u8; MOST_BYTES], start: usize) -> usize
    requires start { 0 < start }
    requires within { start ≤ 23 }
    ensures within { result ≤ 23 }
    ensures written { drop result text.new ≡ (if follows then codes "," else []) ++ drop start text.old }
{
    if !follows {
        return start;
    }
    put_byte(b',', text, start)
}

/// Puts a number before the text, and answers where it begins then.
fn put_number(number: u32, text: &mut [u8; MOST_BYTES], start: usize) -> usize
    requires start { 10 ≤ start }
    requires within { start ≤ 23 }
    ensures start { start ≤ result + 10 }
    ensures within { result ≤ 23 }
    ensures written { drop result text.new ≡ decimal number ++ drop start text.old }
{
    write_digits(u64::from(number), text, start)
}

/// Puts a byte before the text, and answers where it begins then.
fn put_byte(byte: u8, text: &mut [u8; MOST_BYTES], start: usize) -> usize
    requires start { 0 < start }
    requires within { start ≤ 23 }
    ensures start { result + 1 ≡ start }
    ensures written { drop result text.new ≡ byte ∷ drop start text.old }
{
    text[start - 1] = byte;
    start - 1
}
