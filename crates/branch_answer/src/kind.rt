//! How kinds are printed.
ghost use Rattle.std.specs.Prelude.{◌≡◌};
ghost use Rattle.branch_answer.specs.Listing.{kind_text};

use svn_dump::Kind;

/// The word for a kind.
pub(crate) fn kind_text(kind: Kind) -> &'static [u8]
    ensures { result.now ≡ kind_text kind }
{
    match kind {
        Kind::File => b"file",
        Kind::Dir => b"dir",
    }
}
