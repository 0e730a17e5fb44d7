//! Whole packs.

ghost use Rattle.std.specs.{Prelude.{◌≡◌, ◌%◌, [], OnOk}, List.{flat_map}};
ghost use Rattle.byte_devices.specs.Device.{device_of, seen};
ghost use Rattle.pool_file_format.specs.Sinks.{Gives, Writes};
ghost use Rattle.pack_text.specs.BlockWriting.{TookBlocks, FailedBlocks};
ghost use Rattle.pack_text.specs.PackText.{entry_text, header_text, pack_body, pack_text};

use crate::block_writer::{BlockWriter, write_bytes};
use crate::entry::put_entry;
use crate::pack_contents::PackContents;
use crate::sink::Sink;
use byte_devices::{Counted, DeviceFault};
use pool_file_format::{DigestState, StreamingDigest};
use std::alloc::Global;
use std::io::Write;

// The header of a pack with so many objects.
fn header(count: usize) -> [u8; 12]
    ensures { result ≡ header_text count }
{
    let [first, second, third, fourth] = ((count % 4_294_967_296) as u32).to_be_bytes();
    [
        b'P', b'A', b'C', b'K', 0, 0, 0, 2, first, second, third, fourth,
    ]
}

// The entries of all objects.
fn put_entries<S: Sink, C: PackContents>(sink: &mut S, contents: &C) -> Result<(), DeviceFault>
    ensures { Gives S.Took S.Failed sink.old result sink.new
        (flat_map entry_text (C.contents contents.now)) }
{
    for position in 0..contents.len() {
        if let Some((kind, bytes)) = contents.at(position) {
            put_entry(sink, kind, bytes)?;
        }
    }
    Ok(())
}

// All bytes of a pack before its digest.
fn put_body<S: Sink, C: PackContents>(sink: &mut S, contents: &C) -> Result<(), DeviceFault>
    ensures { Gives S.Took S.Failed sink.old result sink.new (pack_body (C.contents contents.now)) }
{
    sink.take(&header(contents.len()))?;
    put_entries(sink, contents)
}

// The same in blocks, up to the last one.
fn put_blocks<D: DigestState, W: Write, C: PackContents>(
    blocks: &mut BlockWriter<'_, D, W>,
    contents: &C,
) -> Result<(), DeviceFault>
    ensures gives { Gives (TookBlocks D.Holds W.contents) (FailedBlocks D.Holds W.contents)
        blocks.old result blocks.new (pack_body (C.contents contents.now)) }
    ensures none { OnOk result (blocks.new.block.items ≡ []) }
{
    put_body(blocks, contents)?;
    blocks.pass_on()
}

/// Writes the pack of these objects, in this order: gitformat-pack(5). It ends with the digest,
/// under this naming, of all bytes before it. Git reads a pack whose digest is SHA-1. There must be
/// fewer than 2^32 objects: a greater count is written modulo 2^32, and no reader takes such a pack.
///
/// The pack is never held: it is written in blocks of less than 128 KiB. Takes memory for one
/// block. If there is none, each piece is written by a call of its own, so no answer is `Memory`.
///
/// `DeviceFault` (68) if a call of `write` answered an error or took nothing. A prefix of the pack
/// has then been written.
pub fn write_pack<N: StreamingDigest, C: PackContents, W: Write>(
    alloc: Global,
    naming: &N,
    contents: &C,
    writer: &mut Counted<W>,
) -> Result<(), DeviceFault>
    ensures { Writes (seen (W.contents (device_of writer.old)) writer.old) result
        (seen (W.contents (device_of writer.new)) writer.new)
        (pack_text N.digest_of (C.contents contents.now)) }
{
    let mut blocks = BlockWriter {
        running: naming.start(),
        block: Vec::new(alloc),
        writer,
    };
    let answer = put_blocks(&mut blocks, contents);
    let BlockWriter {
        running,
        block: _block,
        writer,
    } = blocks;
    answer?;
    write_bytes(writer, &N::end(running))
}
