//! What an index keeps of a copy.
ghost use Rattle.std.specs.Prelude.{◌≡◌, ◌+◌, ◌^◌, ◌<◌, IfOk};

use std::alloc::AllocError;
use svn_path::Path;

/// The index of a record that copies, where it copies to, and from where.
#[derive(Drop)]
pub struct Copied {
    pub(crate) index: u32,
    pub to: Path,
    pub from: Path,
    pub from_rev: u32,
}

impl Copied {
    ghost use Rattle.path_index.specs.Records.{moved_by};

    /// The copy, of a record whose index is greater by `shift`.
    pub(crate) fn moved(self, shift: u32) -> Self
        requires { self.index + shift < 2 ^ 32 }
        ensures { result ≡ moved_by shift self }
    {
        Copied {
            index: self.index + shift,
            ..self
        }
    }

    /// An equal copy.
    pub(crate) fn dup(&self) -> Result<Self, AllocError>
        ensures { IfOk result (λ copied. copied ≡ self.now) }
    {
        Ok(Copied {
            index: self.index,
            to: self.to.dup()?,
            from: self.from.dup()?,
            from_rev: self.from_rev,
        })
    }
}
