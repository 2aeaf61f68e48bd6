//! The body of a block of which a part has come.
ghost use Rattle.std.specs.Prelude.{◌≡◌, ◌≤◌, [], drop, take, IfOk, MatchOption};
ghost use Rattle.svn_dump.specs.PartialBody.{EndsBody, ExtendsBody, IsPartialBody};

use std::alloc::{AllocError, Global};

/// What has come of the body of a block. Nothing of it is kept but the front of its property section, where this is
/// read.
#[derive(Drop)]
pub(crate) struct PartialBody {
    /// What has come of the section.
    pub(crate) section: Vec<u8>,
    /// How many bytes of the section are still to come.
    pub(crate) wanted: u64,
    /// How many bytes of the body are still to come.
    pub(crate) left: u64,
}

impl PartialBody {
    /// A body of this length, of which nothing has come. It takes no memory.
    pub(crate) fn new(alloc: Global, section: u64, whole: u64) -> Self
        requires { section ≤ whole }
        ensures { IsPartialBody result section whole [] }
    {
        PartialBody {
            section: Vec::new(alloc),
            wanted: section,
            left: whole,
        }
    }

    /// Goes on with a piece, and answers what follows the body, or `None` where the piece ends in it.
    pub(crate) fn extend<'p>(&mut self, piece: &'p [u8]) -> Result<Option<&'p [u8]>, AllocError>
        ensures { IfOk result (λ left. MatchOption left (ExtendsBody self.old self.new piece.now)
            (λ rest. EndsBody self.old self.new piece.now rest.now)) }
    {
        let (body, rest) = split_at_most(self.left, piece);
        let (section, _) = split_at_most(self.wanted, body);
        self.section.extend_from_slice(section)?;
        self.wanted -= section.len() as u64;
        self.left -= body.len() as u64;
        Ok((self.left == 0).then_some(rest))
    }
}

/// The first bytes, at most so many, and the others.
fn split_at_most(most: u64, bytes: &[u8]) -> (&[u8], &[u8])
    ensures front { result.0.now ≡ take most bytes.now }
    ensures back { result.1.now ≡ drop most bytes.now }
{
    if most < bytes.len() as u64 {
        bytes.split_at(most as usize)
    } else {
        bytes.split_at(bytes.len())
    }
}
