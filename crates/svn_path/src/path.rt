//! Paths, read, looked up, compared and printed.
ghost use Rattle.std.specs.Prelude.{◌≡◌, ℕ, ◌≤◌, ◌↔◌, List, [], ◌++◌, Some, drop, take, length, IsTrue, IfOk, OnOk, OnErr, IsErrOf, refl};
ghost use Rattle.std.specs.Cmp.{partial_equiv_from_equiv, partial_order_from_agreeing_total};
ghost use Rattle.std.specs.Cmp.Lexicographic.{pointwise, slice_cmp};
ghost use Rattle.std.specs.Ordering.{as_partial_cmp};
ghost use Rattle.svn_text.specs.Appended.{BeginsWith};
ghost use Rattle.svn_path.specs.Below.{is_below, parent_of};
ghost use Rattle.svn_path.specs.Components.{parts_of, parts_text, path_text, HasDot};
ghost use Rattle.svn_path.specs.Lookup.{IsLookup};
ghost use Rattle.svn_path.specs.Names.{with_names};
ghost use Rattle.svn_path.specs.Path.{same_name, components_of, IsPathOf, HasNoRoomForAll};
ghost use Rattle.svn_path.specs.PathOrder.{name_cmp, paths_equiv, paths_total, paths_ties};

use crate::names::{NameId, Names, NamesError};
use crate::parts::{has_dot, next_part};
use smallvec::SmallVec;
use std::alloc::{AllocError, AllocFailed, Global};
use std::cmp::Ordering;
use std::marker::Model;
use thiserror::Error;

/// Why bytes were not read as a path.
#[derive(Debug, Drop, Error)]
pub enum PathError {
    #[error("a component of the path is `.` or `..`")]
    Dot,
    #[error("the table of names is full")]
    Full,
    #[error("out of memory")]
    Memory,
}

/// The components of most paths are so few, and need no memory of their own.
type Parts = SmallVec<NameId, 4>;

/// A path from the root of the repository, seen as the list of its components' numbers.
#[derive(Drop)]
pub struct Path {
    parts: Parts,
}

/// What a search for a path in a table of names gave.
#[derive(Drop)]
pub enum Lookup {
    /// The path, all of whose components have a number.
    Known(Path),
    /// Some component has no number.
    Unknown,
}

impl Model for Path {
    ghost use Rattle.std.specs.Prelude.{List};
    ghost use Rattle.svn_path.specs.declared.names.NameId.{NameId};

    ghost Value = { List NameId };

    ghost view = { λ p. p.parts.items };
}

impl PartialEq for Path {
    ghost eq = { pointwise same_name };

    ghost laws = { partial_equiv_from_equiv paths_equiv };

    fn eq(&self, other: &Path) -> bool {
        self.parts == other.parts
    }
}

impl Eq for Path {
    ghost laws = { paths_equiv };
}

impl PartialOrd for Path {
    ghost partial_cmp = { as_partial_cmp (slice_cmp name_cmp) };

    ghost laws = { partial_order_from_agreeing_total (slice_cmp name_cmp) paths_total (λ _ _. refl) paths_ties };

    fn partial_cmp(&self, other: &Path) -> Option<Ordering> {
        Some(self.cmp(other))
    }
}

/// Paths are ordered component by component, by the numbers in the table.
impl Ord for Path {
    ghost cmp = { slice_cmp name_cmp };

    ghost total = { paths_total };

    ghost matches_partial_cmp = { λ _ _. refl };

    ghost matches_eq = { paths_ties };

    fn cmp(&self, other: &Path) -> Ordering {
        self.parts.cmp(&other.parts)
    }
}

impl From<NamesError> for PathError {
    ghost use Rattle.svn_path.specs.PathError.{path_error_of};

    ghost from_gives = { λ e reported. reported ≡ path_error_of e };

    fn from(e: NamesError) -> PathError {
        match e {
            NamesError::Full => PathError::Full,
            NamesError::Memory => PathError::Memory,
        }
    }
}

impl From<AllocError> for PathError {
    ghost use Rattle.svn_path.specs.declared.path.PathError.TheVariants.{Memory};

    ghost from_gives = { λ _ e. e ≡ Memory };

    fn from(_e: AllocError) -> PathError {
        PathError::Memory
    }
}

impl<T: Drop> From<AllocFailed<T>> for PathError {
    ghost use Rattle.svn_path.specs.declared.path.PathError.TheVariants.{Memory};

    ghost from_gives = { λ _ e. e ≡ Memory };

    fn from(_e: AllocFailed<T>) -> PathError {
        PathError::Memory
    }
}

impl Path {
    /// The root of the repository. It takes no memory.
    pub fn root(alloc: Global) -> Self
        ensures { result ≡ [] }
    {
        Path {
            parts: Parts::new(alloc),
        }
    }

    /// Reads a path. Components that are new are added at the end of the table.
    pub fn read(alloc: Global, names: &mut Names, bytes: &[u8]) -> Result<Self, PathError>
        ensures within { IfOk result (λ path. IsPathOf names.new path) }
        ensures components { IfOk result (λ path. components_of names.new path ≡ parts_of bytes.now) }
        ensures table { OnOk result (names.new ≡ with_names names.old (parts_of bytes.now)) }

        // `Dot` is looked for first, and leaves the table as it was.
        ensures dot { IsErrOf result PathError.Dot ↔ HasDot bytes.now }
        ensures unchanged { IsErrOf result PathError.Dot → names.new ≡ names.old }

        // Any other refusal may leave some leading new components in the table.
        ensures full { IsErrOf result PathError.Full → HasNoRoomForAll names.new (parts_of bytes.now) }
        ensures err { OnErr result ((n : ℕ) × (names.new ≡ with_names names.old (take n (parts_of bytes.now)))) }
    {
        if has_dot(bytes) {
            return Err(PathError::Dot);
        }
        Path::read_without_dots(alloc, names, bytes)
    }

    /// Reads a path in which no component is `.` or `..`, for callers that looked for these.
    pub fn read_without_dots(
        alloc: Global,
        names: &mut Names,
        bytes: &[u8],
    ) -> Result<Self, PathError>
        requires { HasDot bytes.now → ⊥ }
        ensures within { IfOk result (λ path. IsPathOf names.new path) }
        ensures components { IfOk result (λ path. components_of names.new path ≡ parts_of bytes.now) }
        ensures table { OnOk result (names.new ≡ with_names names.old (parts_of bytes.now)) }

        // A refusal may leave some leading new components in the table.
        ensures full { IsErrOf result PathError.Full → HasNoRoomForAll names.new (parts_of bytes.now) }
        ensures err { OnErr result ((n : ℕ) × (names.new ≡ with_names names.old (take n (parts_of bytes.now)))) }
        ensures never_dot { IsErrOf result PathError.Dot → ⊥ }
    {
        let mut parts = Parts::new(alloc);
        let mut rest = bytes;
        while let Some((part, more)) = next_part(rest) {
            let id = names.add(part)?;
            parts.push(id)?;
            rest = more;
        }
        Ok(Path { parts })
    }

    /// Looks a path up, without adding to the table.
    pub fn find(alloc: Global, names: &Names, bytes: &[u8]) -> Result<Lookup, PathError>
        ensures ok { IfOk result (IsLookup names.now (parts_of bytes.now)) }
        ensures dot { IsErrOf result PathError.Dot ↔ HasDot bytes.now }
        ensures never_full { IsErrOf result PathError.Full → ⊥ }
    {
        if has_dot(bytes) {
            return Err(PathError::Dot);
        }
        Ok(Path::look_up(alloc, names, bytes)?)
    }

    /// Looks a path up where `.` and `..` are components like any other. No table has them, so such a path is unknown.
    pub fn look_up(alloc: Global, names: &Names, bytes: &[u8]) -> Result<Lookup, AllocError>
        ensures { IfOk result (IsLookup names.now (parts_of bytes.now)) }
    {
        let mut parts = Parts::new(alloc);
        let mut rest = bytes;
        while let Some((part, more)) = next_part(rest) {
            match names.find(part) {
                Some(id) => parts.push(id)?,
                None => return Ok(Lookup::Unknown),
            }
            rest = more;
        }
        Ok(Lookup::Known(Path { parts }))
    }

    /// The numbers of the components, the one below the root first.
    pub fn parts(&self) -> &[NameId]
        ensures { result.now ≡ self.now }
    {
        self.parts.as_slice()
    }

    /// The path of these components.
    pub fn of(alloc: Global, parts: &[NameId]) -> Result<Self, AllocError>
        ensures { IfOk result (λ path. path ≡ parts.now) }
    {
        Ok(Path {
            parts: Parts::from_slice(alloc, parts)?,
        })
    }

    /// Whether this path is the other one or below it.
    pub fn starts_with(&self, front: &Path) -> bool
        ensures { IsTrue result ↔ IsTrue (is_below same_name front.now self.now) }
    {
        self.parts().starts_with(front.parts())
    }

    /// How many components it has: none for the root.
    pub fn len(&self) -> usize
        ensures { result ≡ length self.now }
    {
        self.parts.len()
    }

    /// Whether it is the root.
    pub fn is_empty(&self) -> bool
        ensures { IsTrue result ↔ (self.now ≡ []) }
    {
        self.parts.is_empty()
    }

    /// An equal path.
    pub fn dup(&self) -> Result<Self, AllocError>
        ensures { IfOk result (λ path. path ≡ self.now) }
    {
        Path::of(*self.parts.allocator(), self.parts())
    }

    /// The path of the directory that this path is in: `None` for the root.
    pub fn parent(&self) -> Result<Option<Self>, AllocError>
        ensures { IfOk result (λ path. path ≡ parent_of self.now) }
    {
        match self.parts().split_last() {
            None => Ok(None),
            Some((_, above)) => Ok(Some(Path::of(*self.parts.allocator(), above)?)),
        }
    }

    /// The path of these components below this path.
    pub fn join(&self, rest: &[NameId]) -> Result<Self, AllocError>
        ensures { IfOk result (λ path. path ≡ self.now ++ rest.now) }
    {
        let count = self.len().saturating_add(rest.len());
        let mut parts = Parts::with_capacity(*self.parts.allocator(), count)?;
        parts.extend_from_slice(self.parts())?;
        parts.extend_from_slice(rest)?;
        Ok(Path { parts })
    }

    /// This path with `to` in place of `from` at its front.
    pub fn rebase(&self, from: &Path, to: &Path) -> Result<Self, AllocError>
        requires { IsTrue (is_below same_name from.now self.now) }
        ensures { IfOk result (λ path. path ≡ to.now ++ drop (length from.now) self.now) }
    {
        let (_, rest) = self.parts().split_at(from.len());
        to.join(rest)
    }

    /// Appends the path as it is printed.
    pub fn write(&self, names: &Names, out: &mut Vec<u8>) -> Result<(), AllocError>
        requires { IsPathOf names.now self.now }
        ensures ok { OnOk result (out.new.items ≡ out.old.items ++ path_text (components_of names.now self.now)) }
        ensures err { OnErr result (out.new.items ≡ out.old.items) }
    {
        write_parts(self.parts(), names, out)
    }

    /// Appends what follows the first `depth` components, printed as a path of its own.
    pub fn write_below(
        &self,
        depth: usize,
        names: &Names,
        out: &mut Vec<u8>,
    ) -> Result<(), AllocError>
        requires names { IsPathOf names.now self.now }
        requires depth { depth ≤ length self.now }
        ensures ok { OnOk result
            (out.new.items ≡ out.old.items ++ path_text (drop depth (components_of names.now self.now))) }
        ensures err { OnErr result (out.new.items ≡ out.old.items) }
    {
        let (_, below) = self.parts().split_at(depth);
        write_parts(below, names, out)
    }
}

/// Appends the components as a path is printed.
fn write_parts(parts: &[NameId], names: &Names, out: &mut Vec<u8>) -> Result<(), AllocError>
    requires { IsPathOf names.now parts.now }
    ensures ok { OnOk result (out.new.items ≡ out.old.items ++ path_text (components_of names.now parts.now)) }
    ensures err { OnErr result (out.new.items ≡ out.old.items) }
{
    if parts.is_empty() {
        out.push(b'/')?;
        return Ok(());
    }
    let before = out.len();
    let written = append_parts(parts, names, out);
    if written.is_err() {
        out.truncate(before);
    }
    written
}

/// Appends a slash and the name for each component, or as much of this as there is memory for.
#[tactic(auto, using(svn_text::proofs::Appended::appended))]
fn append_parts(parts: &[NameId], names: &Names, out: &mut Vec<u8>) -> Result<(), AllocError>
    requires { IsPathOf names.now parts.now }
    ensures ok { OnOk result (out.new.items ≡ out.old.items ++ parts_text (components_of names.now parts.now)) }
    ensures begins { BeginsWith out.old.items out.new.items }
{
    for id in parts {
        out.push(b'/')?;
        out.extend_from_slice(names.text(*id))?;
    }
    Ok(())
}
