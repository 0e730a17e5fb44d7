//! How entries are listed: git-ls-tree(1).

ghost use Rattle.std.specs.Prelude.{◌≡◌, ◌++◌, length, take, OnOk};
ghost use Rattle.git_model.specs.Modes.{kind_of_mode, six_digits};
ghost use Rattle.git_objects.specs.Listing.{listing};

use crate::mode::mode_digits;
use crate::parts::append_parts;
use git_model::{FileMode, Kind};
use git_names::{Memory, Name, kind_word};
use git_paths::quote_into;

/// The six octal digits of a mode in a listing: git-ls-tree(1). Takes no memory.
pub fn six_digits(mode: FileMode) -> &'static [u8]
    ensures { result.now ≡ six_digits mode }
{
    match mode {
        FileMode::Directory => b"040000",
        _ => mode_digits(mode),
    }
}

/// The kind of object that an entry of this mode asks for. Takes no memory.
pub fn kind_of_mode(mode: FileMode) -> Kind
    ensures { result ≡ kind_of_mode mode }
{
    match mode {
        FileMode::Directory => Kind::Tree,
        FileMode::Gitlink => Kind::Commit,
        _ => Kind::Blob,
    }
}

/// Appends an entry as git-ls-tree(1) lists it, without a line end: its mode, its kind, the name of
/// its object in 40 digits, a tab, and its path, in quotes if a byte needs them.
///
/// `Memory` (90) if `out` cannot grow. A part of the entry may then have been appended; what was
/// there before is unchanged.
pub fn append_listing(
    mode: FileMode,
    id: Name,
    path: &[u8],
    out: &mut Vec<u8>,
) -> Result<(), Memory>
    ensures written { OnOk result (out.new.items ≡ out.old.items ++ listing mode id path.now) }
    ensures kept { take (length out.old.items) out.new.items ≡ out.old.items }
{
    let digits = id.to_hex();
    let kind = kind_word(kind_of_mode(mode));
    append_parts(&[six_digits(mode), b" ", kind, b" ", &digits, b"\t"], out)?;
    quote_into(path, out)
}
