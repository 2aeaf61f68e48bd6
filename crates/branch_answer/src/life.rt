//! A life of a path.
ghost use Rattle.std.specs.Prelude.{◌≡◌, ◌++◌, OnOk, flat_map};
ghost use Rattle.svn_text.specs.Line.{line_text};
ghost use Rattle.svn_path.specs.Path.{IsPathOf, components_of};
ghost use Rattle.branch_answer.specs.KeptLife.{HasPathsOf, life_in_bytes, life_text};
ghost use Rattle.branch_answer.specs.Life.{life_line, next_lines, origin_lines, place_line};

use crate::kind::kind_text;
use std::alloc::AllocError;
use svn_dump::{Kind, Origin};
use svn_path::{Names, Path};
use svn_text::push_number;

/// A run of revisions through which a path stood as one and the same node.
#[derive(Drop)]
pub(crate) struct Life {
    pub(crate) first: u32,
    pub(crate) last: u32,
    pub(crate) kind: Kind,
    /// Where the path of the first revision came from.
    pub(crate) origin: Option<Origin>,
    /// Where it went on in the revision after the last.
    pub(crate) next: Option<Path>,
}

impl Life {
    /// Appends the lines of the life.
    pub(crate) fn append(&self, names: &Names, out: &mut Vec<u8>) -> Result<(), AllocError>
        requires { HasPathsOf names.now self.now }
        ensures { OnOk result (out.new.items ≡ out.old.items ++ life_text names.now self.now) }
    {
        self.append_revisions(out)?;
        self.append_origin(names, out)?;
        self.append_next(names, out)?;
        Ok(())
    }

    /// Appends the line with the revisions and the kind.
    fn append_revisions(&self, out: &mut Vec<u8>) -> Result<(), AllocError>
        ensures { (names : _) → OnOk result (out.new.items
            ≡ out.old.items ++ line_text (life_line (life_in_bytes names self.now))) }
    {
        push_number(out, u64::from(self.first))?;
        out.push(b'-')?;
        push_number(out, u64::from(self.last))?;
        out.push(b' ')?;
        out.extend_from_slice(kind_text(self.kind))?;
        out.push(b'\n')?;
        Ok(())
    }

    /// Appends the line with the origin, if there is one.
    fn append_origin(&self, names: &Names, out: &mut Vec<u8>) -> Result<(), AllocError>
        requires { HasPathsOf names.now self.now }
        ensures { OnOk result (out.new.items
            ≡ out.old.items ++ flat_map line_text (origin_lines (life_in_bytes names.now self.now).origin)) }
    {
        match &self.origin {
            Some(origin) => append_place(
                b"from ".as_slice(),
                u64::from(origin.rev),
                &origin.path,
                names,
                out,
            ),
            None => Ok(()),
        }
    }

    /// Appends the line with the path at which the life went on, if there is one.
    fn append_next(&self, names: &Names, out: &mut Vec<u8>) -> Result<(), AllocError>
        requires { HasPathsOf names.now self.now }
        ensures { OnOk result (out.new.items
            ≡ out.old.items ++ flat_map line_text (next_lines self.now.last (life_in_bytes names.now self.now).next)) }
    {
        match &self.next {
            Some(path) => append_place(
                b"to ".as_slice(),
                u64::from(self.last) + 1,
                path,
                names,
                out,
            ),
            None => Ok(()),
        }
    }
}

/// Appends a line with a word, a revision and a path.
fn append_place(
    word: &[u8],
    rev: u64,
    path: &Path,
    names: &Names,
    out: &mut Vec<u8>,
) -> Result<(), AllocError>
    requires { IsPathOf names.now path.now }
    ensures { OnOk result (out.new.items
        ≡ out.old.items ++ line_text (place_line word.now rev (components_of names.now path.now))) }
{
    out.extend_from_slice(word)?;
    push_number(out, rev)?;
    out.push(b' ')?;
    path.write(names, out)?;
    out.push(b'\n')?;
    Ok(())
}
