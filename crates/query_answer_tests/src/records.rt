//! The records of a revision.

use crate::repository::repo_of;
use query_answer::Repo;
use sample_dumps::MOVES;
use std::test::Fail;

/// How many records a revision has, and the revision of the first one; `None` if there is none.
fn records_in(repo: &Repo, rev: u32) -> Option<(usize, u32)> {
    if rev > repo.youngest() {
        return None;
    }
    let records = repo.records_in(rev);
    let first = records.first()?;
    Some((records.len(), first.rev))
}

#[test]
fn a_revision_has_the_records_that_follow_it(rt: HostRuntime) -> Result<(), Fail> {
    let repo = repo_of(&rt, rt.alloc(), MOVES)?;
    let none = records_in(&repo, 0);
    let first = records_in(&repo, 1);
    let last = records_in(&repo, 2);
    drop(repo);
    assert!(rt; none == None);
    assert!(rt; (first, last) == (Some((3, 1)), Some((3, 2))));
    Ok(())
}
