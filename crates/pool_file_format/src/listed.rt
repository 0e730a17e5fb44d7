//! Files whose lists are lent, so that printing them copies nothing.

ghost use Rattle.std.specs.Prelude.{◌≡◌};
ghost use Rattle.pool_file_format.specs.Format.{RawObject as Object};
ghost use Rattle.pool_file_format.specs.Shown.{object_of, lent_object_of};

use crate::raw::{RawFile, RawObject, RawTenant};

/// An object whose contents are lent: the byte of its kind (commit 1, tree 2, blob 3, tag 4), and
/// its contents.
#[derive(Clone, Copy)]
pub struct LentObject<'a> {
    pub kind: u8,
    pub bytes: &'a [u8],
}

/// An object to print, whoever owns its contents.
pub trait Printed {
    // The object that is printed.
    ghost object: { Self → Object };

    /// The byte of its kind.
    fn kind(&self) -> u8
        ensures { result ≡ (object self.now).kind };

    /// Its contents.
    fn contents(&self) -> &[u8]
        ensures { result.now ≡ (object self.now).bytes };
}

impl Printed for RawObject {
    ghost object = { object_of };

    fn kind(&self) -> u8 {
        self.kind
    }

    fn contents(&self) -> &[u8] {
        self.bytes.as_slice()
    }
}

impl<'a> Printed for LentObject<'a> {
    ghost object = { lent_object_of };

    fn kind(&self) -> u8 {
        self.kind
    }

    fn contents(&self) -> &[u8] {
        self.bytes
    }
}

/// A file whose lists are lent.
#[derive(Clone, Copy)]
pub struct Listed<'a, O> {
    pub version: u32,
    pub objects: &'a [O],
    pub tenants: &'a [RawTenant],
}
