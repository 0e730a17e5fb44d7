//! The entry of an object: its kind and size, and its contents as a zlib stream of stored blocks.

ghost use Rattle.std.specs.Prelude.{◌≡◌, ◌-◌, ◌≤◌, ◌<◌, ◌∷◌, ◌++◌, length, OnOk, OnErr};
ghost use Rattle.std.specs.Int.{w16, w32, to_be_bytes, to_le_bytes};
ghost use Rattle.git_model.specs.Content.{content_from};
ghost use Rattle.pool_file_format.specs.Sinks.{Gives};
ghost use Rattle.pack_text.specs.{Adler.{adler32}, PackText.{number_of, size_text, zlib_text}};
ghost use Rattle.pack_text.specs.PackText.{block_text, blocks_text, entry_text, head_text};

use crate::adler::adler32;
use crate::sink::Sink;
use byte_devices::DeviceFault;
use git_model::{Kind, Memory};

// The most bytes of a stored block.
const STORED: usize = 65_535;

/// The number that a pack has for a kind.
pub fn number_of(kind: Kind) -> u8
    ensures { result ≡ number_of kind }
{
    match kind {
        Kind::Commit => 1,
        Kind::Tree => 2,
        Kind::Blob => 3,
        Kind::Tag => 4,
    }
}

// A byte and the rest of a size, in at most `left` more bytes.
#[tactic(auto, unfolding(crate::specs::PackText::size_text))]
fn put_size<S: Sink>(sink: &mut S, left: u8, byte: u8, rest: usize) -> Result<(), DeviceFault>
    requires { byte < 128 }
    ensures { Gives S.Took S.Failed sink.old result sink.new (size_text left byte rest) }
{
    if left == 0 || rest == 0 {
        return sink.take(&[byte]);
    }
    sink.take(&[byte + 128])?;
    put_size(sink, left - 1, (rest % 128) as u8, rest / 128)
}

fn put_head<S: Sink>(sink: &mut S, kind: Kind, size: usize) -> Result<(), DeviceFault>
    ensures { Gives S.Took S.Failed sink.old result sink.new (head_text kind size) }
{
    put_size(
        sink,
        10,
        number_of(kind) * 16 + (size % 16) as u8,
        size / 16,
    )
}

// What stands before the bytes of a stored block.
fn block_head(last: u8, length: u16) -> [u8; 5]
    ensures { result ≡ last ∷ to_le_bytes w16 length ++ to_le_bytes w16 (65535 - length) }
{
    let [low, high] = length.to_le_bytes();
    let [low_complement, high_complement] = (65_535 - length).to_le_bytes();
    [last, low, high, low_complement, high_complement]
}

fn put_block<S: Sink>(sink: &mut S, last: u8, part: &[u8]) -> Result<(), DeviceFault>
    requires { length part.now ≤ 65535 }
    ensures { Gives S.Took S.Failed sink.old result sink.new (block_text last part.now) }
{
    sink.take(&block_head(last, part.len() as u16))?;
    sink.take(part)
}

fn put_blocks<S: Sink>(sink: &mut S, bytes: &[u8]) -> Result<(), DeviceFault>
    ensures { Gives S.Took S.Failed sink.old result sink.new
        (blocks_text (length bytes.now) bytes.now) }
{
    let mut rest = bytes;
    while rest.len() > STORED {
        let (part, after) = rest.split_at(STORED);
        put_block(sink, 0, part)?;
        rest = after;
    }
    put_block(sink, 1, rest)
}

fn put_checksum<S: Sink>(sink: &mut S, bytes: &[u8]) -> Result<(), DeviceFault>
    ensures { Gives S.Took S.Failed sink.old result sink.new (to_be_bytes w32 (adler32 bytes.now)) }
{
    sink.take(&adler32(bytes).to_be_bytes())
}

fn put_zlib<S: Sink>(sink: &mut S, bytes: &[u8]) -> Result<(), DeviceFault>
    ensures { Gives S.Took S.Failed sink.old result sink.new (zlib_text bytes.now) }
{
    sink.take(&[0x78, 0x01])?;
    put_blocks(sink, bytes)?;
    put_checksum(sink, bytes)
}

/// The entry of an object, block by block.
pub fn put_entry<S: Sink>(sink: &mut S, kind: Kind, contents: &[u8]) -> Result<(), DeviceFault>
    ensures { Gives S.Took S.Failed sink.old result sink.new
        (entry_text (content_from kind contents.now)) }
{
    put_head(sink, kind, contents.len())?;
    put_zlib(sink, contents)
}

/// Appends the entry of an object to a vector. `Memory` (90) if there is no room for it; the vector
/// then has what it had.
pub fn append_entry(out: &mut Vec<u8>, kind: Kind, contents: &[u8]) -> Result<(), Memory>
    ensures appended { OnOk result (out.new.items
        ≡ out.old.items ++ entry_text (content_from kind contents.now)) }
    ensures kept { OnErr result (out.new.items ≡ out.old.items) }
{
    let length = out.len();
    match put_entry(out, kind, contents) {
        Ok(()) => Ok(()),
        Err(_) => {
            out.truncate(length);
            Err(Memory)
        }
    }
}
