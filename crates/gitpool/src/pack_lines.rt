//! The lines that ask for a pack: git-pack-objects(1), `--revs`.

ghost use Rattle.std.specs.Prelude.{◌≡◌, ◌++◌, ◌∷◌, [], OnOk};
ghost use Rattle.byte_devices.specs.Device.{device_of, seen};
ghost use Rattle.gitpool.specs.RevisionReading.{AddsName, ReadsText, TakesByte, TakesBytes};
ghost use Rattle.gitpool.specs.RevisionReading.{TakesLast, TakesLine, TakesText, asking};
ghost use Rattle.gitpool.specs.Revisions.{name_in};

use git_objects::{Counted, Memory, Name};
use std::alloc::Global;
use std::io::Read;
use tenant_service::PackFault;

// The most bytes that the lines may have.
const TEXT_LIMIT: usize = 67_108_864;

// The most bytes that one call of `read` may give.
const BLOCK: usize = 8_192;

/// The names that are wanted, and those that the asker has.
#[derive(Drop)]
pub(crate) struct Revisions {
    pub(crate) wants: Vec<Name>,
    pub(crate) haves: Vec<Name>,
}

// The name that 40 hexadecimal digits write.
fn name_in(digits: &[u8]) -> Option<Name>
    ensures { result ≡ name_in digits.now }
{
    Name::from_hex(digits)
}

fn push(names: &mut Vec<Name>, id: Name) -> Result<(), Memory>
    ensures { OnOk result (names.new.items ≡ names.old.items ++ id ∷ []) }
{
    Ok(names.push(id)?)
}

// Adds the name that these digits write.
fn add(names: &mut Vec<Name>, digits: &[u8]) -> Result<(), PackFault>
    ensures { AddsName (name_in digits.now) names.old.items result names.new.items }
{
    match name_in(digits) {
        Some(id) => Ok(push(names, id)?),
        None => Err(PackFault::UnknownObject),
    }
}

impl Revisions {
    /// No names yet.
    pub(crate) fn new(alloc: Global) -> Revisions
        ensures wants { result.wants.items ≡ [] }
        ensures haves { result.haves.items ≡ [] }
    {
        Revisions {
            wants: Vec::new(alloc),
            haves: Vec::new(alloc),
        }
    }

    // Takes one line, `NAME` or `^NAME`.
    fn take_line(&mut self, line: &[u8]) -> Result<(), PackFault>
        ensures { TakesLine line.now self.old.wants.items self.old.haves.items result
            self.new.wants.items self.new.haves.items }
    {
        match line {
            [b'^', digits @ ..] => add(&mut self.haves, digits),
            digits => add(&mut self.wants, digits),
        }
    }

    // Takes one byte of a text, after these bytes of its line.
    fn take_byte(&mut self, line: &mut Vec<u8>, byte: u8) -> Result<(), PackFault>
        ensures { TakesByte byte (asking line.old.items self.old.wants.items self.old.haves.items)
            result (asking line.new.items self.new.wants.items self.new.haves.items) }
    {
        if byte != b'\n' {
            return Ok(push_byte(line, byte)?);
        }
        self.take_line(line)?;
        line.clear();
        Ok(())
    }

    // Takes the bytes of a text, up to those after its last line feed, which are left in `line`.
    fn take_bytes(&mut self, line: &mut Vec<u8>, text: &[u8]) -> Result<(), PackFault>
        ensures { TakesBytes text.now
            (asking line.old.items self.old.wants.items self.old.haves.items) result
            (asking line.new.items self.new.wants.items self.new.haves.items) }
    {
        for byte in text {
            self.take_byte(line, *byte)?;
        }
        Ok(())
    }

    // Takes what is after the last line feed, if it is not empty.
    fn take_last(&mut self, line: &[u8]) -> Result<(), PackFault>
        ensures { TakesLast (asking line.now self.old.wants.items self.old.haves.items) result
            self.new.wants.items self.new.haves.items }
    {
        if line.is_empty() {
            return Ok(());
        }
        self.take_line(line)
    }

    /// Takes the lines of a text. `UnknownObject` (16) if one of them is no revision, `Memory` (90)
    /// if there is no room for the names. Then some of the lines may be taken.
    pub(crate) fn take(&mut self, alloc: Global, text: &[u8]) -> Result<(), PackFault>
        ensures { TakesText text.now self.old.wants.items self.old.haves.items result
            self.new.wants.items self.new.haves.items }
    {
        let mut line = Vec::new(alloc);
        self.take_bytes(&mut line, text)?;
        self.take_last(&line)
    }
}

fn push_byte(line: &mut Vec<u8>, byte: u8) -> Result<(), Memory>
    ensures { OnOk result (line.new.items ≡ line.old.items ++ byte ∷ []) }
{
    Ok(line.push(byte)?)
}

fn append(text: &mut Vec<u8>, piece: &[u8]) -> Result<(), Memory>
    ensures { OnOk result (text.new.items ≡ text.old.items ++ piece.now) }
{
    Ok(text.extend_from_slice(piece)?)
}

/// Reads the lines into `text`, up to the end of the input.
///
/// `Device` (68) if a call of `read` fails, `Limit` (25) if there are more than 67,108,864 bytes,
/// `Memory` (90) if there is no room for them.
pub(crate) fn read_text<R: Read>(
    reader: &mut Counted<R>,
    text: &mut Vec<u8>,
) -> Result<(), PackFault>
    requires { text.old.items ≡ [] }
    ensures { ReadsText (seen (R.remaining (device_of reader.old)) reader.old) result
        (seen (R.remaining (device_of reader.new)) reader.new) text.new.items }
{
    let _passed = reader.passed();
    let mut block = [0; BLOCK];
    while text.len() <= TEXT_LIMIT {
        match reader.read(&mut block) {
            Ok(0) => return Ok(()),
            Ok(n) => append(text, block.split_at(n).0)?,
            Err(_) => return Err(PackFault::Device),
        }
    }
    Err(PackFault::Limit)
}
