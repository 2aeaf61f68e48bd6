//! The table of names. A path has the numbers of its components in such a table.
ghost use Rattle.std.specs.Prelude.{◌≡◌, ℕ, ◌<◌, ◌≤◌, ◌↔◌, List, [], Some, All, length, slice_get, bytes_eq, IsTrue, IsOk, IsSome, IfOk, IfSome, OnErr, IsErrOf};
ghost use Rattle.std.specs.List.{IsDistinct};
ghost use Rattle.svn_path.specs.Components.{IsComponent};
ghost use Rattle.svn_path.specs.Names.{has_name, with_name, most_names, HasNoRoomFor};

use std::alloc::{AllocError, Global};
use std::marker::Model;
use svn_text::{Seed, TextTable, TextTableError};
use thiserror::Error;

/// The number of a name in a table. Numbers begin at 0 and follow the order in which names came.
#[derive(Clone, Copy, Debug, Default, PartialEq, Eq, PartialOrd, Ord, Hash)]
pub struct NameId(pub u32);

/// Why a table didn't take a name.
#[derive(Debug, Drop, Error)]
pub enum NamesError {
    #[error("the table of names is full")]
    Full,
    #[error("out of memory")]
    Memory,
}

/// The distinct components of a repository's paths, seen as the list of their bytes.
#[derive(Drop)]
pub struct Names {
    known: TextTable,
}

impl Model for Names {
    ghost use Rattle.std.specs.Prelude.{ℕ, List};
    ghost use Rattle.svn_path.specs.Names.{IsTable};

    ghost Value = { List (List ℕ) };

    ghost view = { λ n. n.known };

    ghost invariant = { λ n. IsTable n.known };
}

impl From<AllocError> for NamesError {
    ghost use Rattle.svn_path.specs.declared.names.NamesError.TheVariants.{Memory};

    ghost from_gives = { λ _ e. e ≡ Memory };

    fn from(_e: AllocError) -> NamesError {
        NamesError::Memory
    }
}

impl From<TextTableError> for NamesError {
    ghost use Rattle.std.specs.Prelude.{◌≡◌};
    ghost use Rattle.svn_path.specs.NamesError.{names_error_of};

    ghost from_gives = { λ e error. error ≡ names_error_of e };

    fn from(e: TextTableError) -> NamesError {
        match e {
            TextTableError::Full => NamesError::Full,
            TextTableError::Memory => NamesError::Memory,
        }
    }
}

impl Names {
    /// A table without names, with the fixed seed. It takes no memory. Where strangers choose the names, take
    /// `with_seed`: names that all have one hash make each look-up as slow as a search through all of them.
    pub fn new(alloc: Global) -> Self
        ensures { result ≡ [] }
    {
        Names::with_seed(alloc, Seed::fixed())
    }

    /// A table without names, whose hashes begin with a seed. It takes no memory.
    pub fn with_seed(alloc: Global, seed: Seed) -> Self
        ensures { result ≡ [] }
    {
        Names {
            known: TextTable::new(alloc, seed),
        }
    }

    /// The seed by which names are found.
    pub fn seed(&self) -> Seed {
        self.known.seed()
    }

    /// The number of a name, which is added at the end of the table where it is new.
    pub fn add(&mut self, name: &[u8]) -> Result<NameId, NamesError>
        requires { IsComponent name.now }
        ensures number { IfOk result (λ id. slice_get self.new id.0 ≡ Some name.now) }
        ensures table { IfOk result (λ _. self.new ≡ with_name self.old name.now) }
        ensures known { IsTrue (has_name self.old name.now) → IsOk result }
        ensures full { IsErrOf result NamesError.Full ↔ HasNoRoomFor self.old name.now }
        ensures err { OnErr result (self.new ≡ self.old) }
    {
        Ok(NameId(self.known.add(name)?))
    }

    /// The number of a name, if the table has it.
    pub fn find(&self, name: &[u8]) -> Option<NameId>
        ensures number { IfSome result (λ id. slice_get self.now id.0 ≡ Some name.now) }
        ensures found { IsSome result ↔ IsTrue (has_name self.now name.now) }
    {
        self.known.find(name).map(NameId)
    }

    /// The name of a number.
    pub fn text(&self, id: NameId) -> &[u8]
        requires { id.0 < length self.now }
        ensures { slice_get self.now id.0 ≡ Some result.now }
    {
        self.known.text(id.0)
    }

    /// How many names there are.
    pub fn len(&self) -> usize
        ensures count { result ≡ length self.now }
        ensures few { length self.now ≤ most_names }
        ensures components { All IsComponent self.now }
        ensures distinct { IsDistinct bytes_eq self.now }
    {
        self.known.len()
    }

    pub fn is_empty(&self) -> bool
        ensures { IsTrue result ↔ (self.now ≡ []) }
    {
        self.known.is_empty()
    }
}
