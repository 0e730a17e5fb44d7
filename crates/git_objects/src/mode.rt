//! Modes in octal digits, as trees have them: git-ls-tree(1).

ghost use Rattle.std.specs.Prelude.{◌≡◌, ◌≢◌, ◌↔◌, ◌/◌, ◌%◌, IsTrue, MatchOption};
ghost use Rattle.std.specs.{List.{list_all}, Str.Parse.{digits_value}};
ghost use Rattle.git_model.specs.{declared.file_mode.FileMode.{FileMode}, Tree.{mode_digits}};
ghost use Rattle.git_model.specs.{TreeReading.{mode_named_by, mode_of}, Readable.{is_octal_digit, AreModeDigits}};

use git_model::FileMode;

// How many octal digits a mode has at most in a tree that Git can walk.
const MODE_DIGITS: usize = 7;

/// The octal digits that Git writes for a mode, without a leading zero. Takes no memory.
pub fn mode_digits(mode: FileMode) -> &'static [u8]
    ensures { result.now ≡ mode_digits mode }
{
    match mode {
        FileMode::Regular => b"100644",
        FileMode::Executable => b"100755",
        FileMode::Symlink => b"120000",
        FileMode::Gitlink => b"160000",
        FileMode::Directory => b"40000",
    }
}

/// Reads a mode from its octal digits. `None` for every other text, such as one with a leading
/// zero. Takes no memory.
pub fn read_mode(digits: &[u8]) -> Option<FileMode>
    ensures { MatchOption result ((mode : FileMode) → digits.now ≢ mode_digits mode)
        (λ mode. digits.now ≡ mode_digits mode) }
{
    match digits {
        b"100644" => Some(FileMode::Regular),
        b"100755" => Some(FileMode::Executable),
        b"120000" => Some(FileMode::Symlink),
        b"160000" => Some(FileMode::Gitlink),
        b"40000" => Some(FileMode::Directory),
        _ => None,
    }
}

fn is_octal_digit(byte: u8) -> bool
    ensures { result ≡ is_octal_digit byte }
{
    byte >= b'0' && byte <= b'7'
}

fn are_octal(digits: &[u8]) -> bool
    ensures { result ≡ list_all is_octal_digit digits.now }
{
    digits.iter().all(|byte| is_octal_digit(*byte))
}

/// Whether these are the digits of a mode of any tree that Git can walk: 1 to 7 octal digits.
pub fn are_mode_digits(digits: &[u8]) -> bool
    ensures { IsTrue result ↔ AreModeDigits digits.now }
{
    if digits.is_empty() {
        return false;
    }
    digits.len() <= MODE_DIGITS && are_octal(digits)
}

// The number that octal digits write.
fn octal_number(digits: &[u8]) -> u32
    requires { AreModeDigits digits.now }
    ensures { result ≡ digits_value 8 digits.now }
{
    let mut number = 0u32;
    for digit in digits {
        number = number * 8 + u32::from(*digit - b'0');
    }
    number
}

// What Git knows a mode by: its format, which is all but its last twelve bits, of sixteen; and a
// file by whether its owner may execute it.
fn mode_of(bits: u32) -> FileMode
    ensures { result ≡ mode_of (bits / 4096 % 16) bits }
{
    match bits / 4096 % 16 {
        8 if bits / 64 % 2 == 1 => FileMode::Executable,
        8 => FileMode::Regular,
        10 => FileMode::Symlink,
        4 => FileMode::Directory,
        _ => FileMode::Gitlink,
    }
}

/// The mode that Git makes of the octal digits of any tree that it can walk. Takes no memory.
pub fn mode_named_by(digits: &[u8]) -> FileMode
    requires { AreModeDigits digits.now }
    ensures { result ≡ mode_named_by digits.now }
{
    match read_mode(digits) {
        Some(mode) => mode,
        None => mode_of(octal_number(digits)),
    }
}
