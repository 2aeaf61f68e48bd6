//! Answers from an index that was joined of two parts.
ghost use Rattle.std.specs.Prelude.{◌+◌, ◌++◌, ◌≡◌, ◌^◌, ◌<◌, ◌≤◌, length, IfOk};

use crate::answered::check_answers;
use crate::repository::with_index;
use par_scan::Acts;
use path_index::Index;
use query_answer::Repo;
use sample_dumps::MERGED;
use std::alloc::{AllocError, Global};
use std::test::Fail;
use std::thread::Threads;
use svn_dump::{NodeRecord, read};

// The unit before an index, joined to it.
fn after_unit(index: &Index) -> Result<Index, AllocError>
    ensures records { IfOk result (λ joined. joined.records ≡ index.now.records) }
    ensures first { IfOk result (λ joined. joined.first ≡ index.now.first) }
{
    let unit = index.unit()?;
    let joined = unit.join(index);
    drop(unit);
    joined
}

// A copy of an index, joined to its unit.
fn copied(index: &Index) -> Result<Index, AllocError>
    ensures records { IfOk result (λ copied. copied.records ≡ index.now.records) }
    ensures first { IfOk result (λ copied. copied.first ≡ index.now.first) }
{
    let copied = index.dup()?;
    let joined = after_unit(&copied);
    drop(copied);
    joined
}

// A copy of the index of these records.
fn copied_index(alloc: Global, records: &[NodeRecord], first: u32) -> Result<Index, AllocError>
    requires { first + length records.now < 2 ^ 32 }
    ensures records { IfOk result (λ index. index.records ≡ records.now) }
    ensures first { IfOk result (λ index. index.first ≡ first) }
{
    let index = Index::build(alloc, records, first)?;
    let joined = copied(&index);
    drop(index);
    joined
}

// The index of the first records of a history, joined to that of those after them.
fn joined_index(alloc: Global, records: &[NodeRecord], later: &Index) -> Result<Index, AllocError>
    requires few { length records.now + length later.now.records < 2 ^ 32 }
    requires fits { later.now.first ≡ length records.now }
    ensures records { IfOk result (λ index. index.records ≡ records.now ++ later.now.records) }
    ensures first { IfOk result (λ index. index.first ≡ 0) }
{
    let first = Index::build(alloc, records, 0)?;
    let joined = first.join(later);
    drop(first);
    joined
}

// An index of some records, joined of that of the first ones and a copy of that of the others.
fn joined(alloc: Global, records: &[NodeRecord], count: usize) -> Result<Index, AllocError>
    requires few { length records.now < 2 ^ 32 }
    requires count { count ≤ length records.now }
    ensures records { IfOk result (λ index. index.records ≡ records.now) }
    ensures first { IfOk result (λ index. index.first ≡ 0) }
{
    let (front, back) = records.split_at(count);
    let later = copied_index(alloc, back, count as u32)?;
    let joined = joined_index(alloc, front, &later);
    drop(later);
    joined
}

// The repository of a dump, whose index is joined of the records up to a revision and those after it.
fn repo_in_parts<R: Threads + Sync>(
    rt: &R,
    alloc: Global,
    bytes: &[u8],
    rev: u32,
) -> Result<Repo, Fail> {
    let dump = read(alloc, bytes)?;
    let count = dump.records().partition_point(|each| each.rev <= rev);
    match joined(alloc, dump.records(), count) {
        Ok(index) => with_index(rt, alloc, dump, index),
        Err(e) => {
            drop(dump);
            Err(e)?
        }
    }
}

// The answers on the dump in two parts.
fn check_parts<R: Threads + Sync>(
    rt: &R,
    alloc: Global,
    rev: u32,
    lines: &str,
    wanted: &str,
) -> Result<(), Fail> {
    let repo = repo_in_parts(rt, alloc, MERGED, rev)?;
    let checked = check_answers(alloc, &repo, lines, wanted);
    drop(repo);
    checked
}

const LINES: &str = "segments\t/branches/b@8
log\t/branches/b@8
locate\t/branches/b@8\t1";

const ANSWERS: &str = "#1 ok
4-8 /branches/b
3-3 -
1-2 /trunk
#2 ok
r5 /branches/b
r4 /branches/b
r2 /trunk
r1 /trunk
#3 ok
/trunk
";

#[test]
fn a_joined_index_answers_as_one(rt: HostRuntime) -> Result<(), Fail> {
    check_parts(&rt, rt.alloc(), 5, LINES, ANSWERS)
}
