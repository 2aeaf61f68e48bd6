//! `lives`: when a path came to be, and when it went.
ghost use Rattle.std.specs.Prelude.{◌≡◌, ◌++◌, ◌≤◌, All, IfErr, IfOk, IfSome, OnOk, flat_map, option_map};
ghost use Rattle.svn_path.specs.Path.{IsPathOf, components_of};
ghost use Rattle.query_answer.specs.Peg.{peg_view};
ghost use Rattle.query_answer.specs.Repo.{trees_in_bytes};
ghost use Rattle.branch_answer.specs.KeptLife.{HasPathsOf, life_text, lives_in_bytes};
ghost use Rattle.branch_answer.specs.Life.{lives_of, next_path};
ghost use Rattle.branch_answer.specs.Presence.{HasKindIn, IsFirstOfLife, IsKnownPath, IsLastOfLife, IsLifeIn, IsThereIn};
ghost use Rattle.branch_answer.specs.QuestionAnswer.{lives_answer};
ghost use Rattle.branch_answer.specs.Told.{IsUntold, TellsLines};

use crate::life::Life;
use crate::moves::first_path_from;
use crate::presence::{is_itself, is_there, newest_with};
use query_answer::{Peg, Repo, Status, Unanswered};
use std::alloc::{AllocError, Global};
use svn_dump::{Kind, Origin};
use svn_path::{Names, Path};

/// Appends the lives of the path of a peg up to its revision, the newest first.
pub(crate) fn append_lives(
    alloc: Global,
    repo: &Repo,
    peg: &Peg<'_>,
    out: &mut Vec<u8>,
) -> Result<(), Unanswered>
    ensures lines { OnOk result (TellsLines (lives_answer (trees_in_bytes repo.now) (peg_view peg.now)) out.old.items
        out.new.items) }
    ensures none { IfErr result (IsUntold (lives_answer (trees_in_bytes repo.now) (peg_view peg.now))) }
{
    let at = repo.path_of(alloc, peg)?;
    let lives = lives_up_to(alloc, repo, &at.path, at.rev)?;
    if lives.is_empty() {
        return Err(Unanswered::Refused(Status::NoSuchPath));
    }
    append_all(repo.names(), lives.as_slice(), out)?;
    Ok(())
}

/// Appends the lines of these lives.
fn append_all(names: &Names, lives: &[Life], out: &mut Vec<u8>) -> Result<(), AllocError>
    requires { All (HasPathsOf names.now) lives.now }
    ensures { OnOk result (out.new.items ≡ out.old.items ++ flat_map (life_text names.now) lives.now) }
{
    for life in lives {
        life.append(names, out)?;
    }
    Ok(())
}

/// The lives of a path up to a revision, the newest first.
fn lives_up_to(alloc: Global, repo: &Repo, path: &Path, top: u32) -> Result<Vec<Life>, AllocError>
    requires { IsKnownPath repo.now path.now top }
    ensures exact { IfOk result (λ lives. lives_in_bytes repo.now.names lives.items
        ≡ lives_of (trees_in_bytes repo.now) (components_of repo.now.names path.now) top) }
    ensures of_names { IfOk result (λ lives. All (HasPathsOf repo.now.names) lives.items) }
{
    let mut lives = Vec::new(alloc);
    let mut from = Some(top);
    'lives: while let Some(rev) = from {
        let Some(last) = newest_with(repo, path, 0, rev)? else {
            break;
        };
        let life = life_up_to(alloc, repo, path, last, top)?;
        from = life.first.checked_sub(1);
        lives.push(life)?;
    }
    Ok(lives)
}

/// The life whose last revision this is, among those up to `top`.
fn life_up_to(
    alloc: Global,
    repo: &Repo,
    path: &Path,
    last: u32,
    top: u32,
) -> Result<Life, AllocError>
    requires { IsLastOfLife repo.now path.now last top }
    ensures { IfOk result (IsLifeIn repo.now path.now last top) }
{
    let (first, origin) = first_of_life(repo, path, last)?;
    Ok(Life {
        first,
        last,
        kind: kind_in(repo, path, first)?,
        origin,
        next: next_path(alloc, repo, path, last, top)?,
    })
}

/// The kind of a path in a revision that has it.
fn kind_in(repo: &Repo, path: &Path, rev: u32) -> Result<Kind, AllocError>
    requires { IsThereIn repo.now path.now rev }
    ensures { IfOk result (HasKindIn repo.now path.now rev) }
{
    match repo.entry(path, rev)? {
        Some(entry) => Ok(entry.kind),
        None => unreachable!(),
    }
}

/// Where a path went after the last revision of a life, if it did, up to `top`.
fn next_path(
    alloc: Global,
    repo: &Repo,
    path: &Path,
    last: u32,
    top: u32,
) -> Result<Option<Path>, AllocError>
    requires known { IsKnownPath repo.now path.now top }
    requires within { last ≤ top }
    ensures next { IfOk result (λ next. option_map (components_of repo.now.names) next
        ≡ next_path (trees_in_bytes repo.now) (components_of repo.now.names path.now) top last) }
    ensures of_names { IfOk result (λ next. IfSome next (IsPathOf repo.now.names)) }
{
    if last == top || is_there(repo, path, last + 1)? {
        return Ok(None);
    }
    first_path_from(alloc, repo, path, last)
}

/// The first revision of the life to which a revision belongs, and where the path came from there.
fn first_of_life(repo: &Repo, path: &Path, rev: u32) -> Result<(u32, Option<Origin>), AllocError>
    requires { IsThereIn repo.now path.now rev }
    ensures { IfOk result (λ found. IsFirstOfLife repo.now path.now rev found.0 found.1) }
{
    let mut first = rev;
    'copies: loop {
        first = repo.last_set(path, first);
        let origin = repo.origin(path, first)?;
        if !is_itself(origin.as_ref(), path, first) {
            return Ok((first, origin));
        }
        first -= 1;
    }
}
