//! Laws of pool files. Each is a function with an empty body, whose clauses speak only of
//! definitions.

ghost use Rattle.std.specs.Prelude.{◌≡◌, ℕ, ◌++◌, List, [], length, Ok};
ghost use Rattle.byte_devices.specs.Reading.{AreBytes};
ghost use Rattle.pool_file_format.specs.Format.{RawFile, FitsFile, body_text};
ghost use Rattle.pool_file_format.specs.Lengths.{by_lengths};

/// The text of a file that fits the format, with a digest of 20 bytes after it, is read as that
/// file and that digest. No other bytes are read as a file.
pub fn what_is_printed_is_read()
    ensures again { (f : RawFile) (digest : List ℕ) → FitsFile f → length digest ≡ 20
        → by_lengths (body_text f ++ digest) ≡ Ok ((f, digest), []) }
    ensures found { (bytes : List ℕ) (x : _) → AreBytes bytes → by_lengths bytes ≡ Ok x
        → (bytes ≡ body_text x.0.0 ++ x.0.1) × FitsFile x.0.0 × (length x.0.1 ≡ 20) }
{}
