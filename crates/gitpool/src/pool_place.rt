//! Where a pool file is kept, so that a run that goes on can save to it.
//!
//! A new file is written beside the pool file, and takes its place when it is whole. So at each
//! moment there is one whole pool file: the old one or the new one.

ghost use Rattle.std.specs.Prelude.{ℕ, List, [], None, Option, OnErr, OnOk, IfOk};
ghost use Rattle.std.specs.Io.KnownBytes.{Keeps};
ghost use Rattle.gitpool.specs.Places.{IsAsKnown, IsPut};

use byte_devices::WriteFault;
use std::io::Write;

/// A place where a pool file is kept, and replaced as a whole.
pub trait PoolPlace {
    /// A new file beside the pool file, while it is written.
    type NewFile: Write;

    /// The bytes of the pool file, where they are known.
    ghost file: { Self → Option (List ℕ) } = { λ _. None };

    /// Makes an empty new file. The pool file stays as it is.
    fn begin(&mut self) -> Result<Self::NewFile, WriteFault>
        ensures kept { Keeps (file self.old) (file self.new) }
        ensures empty { IfOk result (λ new. IsAsKnown (file self.old)
            (Self.NewFile.contents new) []) };

    /// Puts the new file in the place of the pool file, once it is on the disk. After an error the
    /// pool file is as it was, and the new file is gone. A file of a disk, whose bytes no clause
    /// knows, is the new one after an error if only the sync of its folder failed.
    fn put_in_place(&mut self, new: Self::NewFile) -> Result<(), WriteFault>
        ensures put { OnOk result (IsPut (file self.old) (Self.NewFile.contents new)
            (file self.new)) }
        ensures kept { OnErr result (Keeps (file self.old) (file self.new)) };

    /// Removes a new file that was not written whole. The pool file stays as it is.
    fn give_up(&mut self, new: Self::NewFile)
        ensures { Keeps (file self.old) (file self.new) };
}
