//! Indexes of two parts of `MERGED`, joined.
ghost use Rattle.std.specs.Prelude.{◌≡◌, IfOk};
ghost use Rattle.path_index_tests.specs.Merged.{first_records, last_records, IsIndexOf};

use crate::indexes::joined;
use crate::merged::{parts_of, says_all};
use par_scan::Acts;
use path_index::Index;
use sample_dumps::MERGED;
use std::alloc::{AllocError, Global};
use std::test::Fail;
use svn_dump::{NodeRecord, read};

// The unit before an index, joined to it.
fn after_unit(index: &Index) -> Result<Index, AllocError>
    ensures { IfOk result (IsIndexOf index.now.records index.now.first) }
{
    let unit = index.unit()?;
    let joined = unit.join(index);
    drop(unit);
    joined
}

// A copy of an index, joined to its unit.
fn copied(index: &Index) -> Result<Index, AllocError>
    ensures { IfOk result (IsIndexOf index.now.records index.now.first) }
{
    let copied = index.dup()?;
    let joined = after_unit(&copied);
    drop(copied);
    joined
}

// The index of the last part, or a copy of it after its unit.
fn last_index(alloc: Global, last: &[NodeRecord], is_copied: bool) -> Result<Index, AllocError>
    requires { last.now ≡ last_records }
    ensures { IfOk result (IsIndexOf last_records 6) }
{
    let index = Index::build(alloc, last, 6)?;
    if !is_copied {
        return Ok(index);
    }
    let copied = copied(&index);
    drop(index);
    copied
}

// Whether the index of the first part, joined to one of the last part, says what it should.
fn says_all_joined(alloc: Global, first: &[NodeRecord], later: &Index) -> Result<bool, AllocError>
    requires first { first.now ≡ first_records }
    requires later { IsIndexOf last_records 6 later.now }
{
    let earlier = Index::build(alloc, first, 0)?;
    let both = joined(alloc, &earlier, later);
    drop(earlier);
    let both = both?;
    let says = says_all(&both, alloc);
    drop(both);
    says
}

fn says_all_in_parts(alloc: Global, records: &[NodeRecord], is_copied: bool) -> Result<bool, Fail> {
    let (first, last) = parts_of(records)?;
    let later = last_index(alloc, last, is_copied)?;
    let says = says_all_joined(alloc, first, &later);
    drop(later);
    Ok(says?)
}

// Whether both such indexes do so.
fn both_say_all(alloc: Global, records: &[NodeRecord]) -> Result<bool, Fail> {
    Ok(says_all_in_parts(alloc, records, false)? && says_all_in_parts(alloc, records, true)?)
}

#[test]
fn an_index_of_two_parts_answers_as_one(rt: HostRuntime) -> Result<(), Fail> {
    let dump = read(rt.alloc(), MERGED)?;
    let says = both_say_all(rt.alloc(), dump.records());
    drop(dump);
    assert!(rt; says?);
    Ok(())
}
