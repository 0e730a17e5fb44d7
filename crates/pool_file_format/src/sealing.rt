//! Reading and writing whole files with their digests.

ghost use Rattle.std.specs.{Prelude.{◌≡◌, [], OnOk}, Str.{bytes_eq}};
ghost use Rattle.byte_devices.specs.Device.{device_of, calls_of, counted_on, seen};
ghost use Rattle.git_model.specs.Limits.{reads_limit};
ghost use Rattle.pool_file_format.specs.{Format.{body_text, raw_text}, Lengths.{sealed_at}};
ghost use Rattle.pool_file_format.specs.Shown.{file_of, lent_file, listed_file, listed_text};
ghost use Rattle.pool_file_format.specs.{Shown.{object_of}, Sinks.{Gives, Goes, Writes}};
ghost use Rattle.pool_file_format.specs.Taking.{shown, ReadsAll};

use crate::digesting::{DigestState, Fed, StreamingDigest};
use crate::fault::Fault;
use crate::gathering::{Buffered, HashingWriter};
use crate::listed::{LentObject, Listed, Printed};
use crate::printing::put_body;
use crate::raw::{RawFile, RawObject, RawTenant};
use crate::reading::read_file_by;
use crate::refusal::Refusal;
use crate::sink::Sink;
use byte_devices::{Copied, Counted, DeviceFault, Lending};
use std::alloc::Global;
use std::io::{Read, Write};

// The lists of a file, lent.
fn listed(file: &RawFile) -> Listed<'_, RawObject>
    ensures { listed_file object_of result ≡ file_of file.now }
{
    Listed {
        version: file.version,
        objects: &file.objects,
        tenants: &file.tenants,
    }
}

/// The digest of all bytes of a file before its digest, under this naming. Takes no memory.
pub fn digest_of<N: StreamingDigest>(naming: &N, file: &RawFile) -> [u8; 20]
    ensures { result ≡ N.digest_of (body_text (file_of file.now)) }
{
    let mut fed = Fed {
        running: naming.start(),
    };
    // A digest takes all bytes, so this answers no fault.
    let _fed = put_body(&mut fed, &listed(file));
    let Fed { running } = fed;
    N::end(running)
}

// Whether these are the same bytes.
fn is_same(digest: &[u8], other: &[u8]) -> bool
    ensures { result ≡ bytes_eq digest.now other.now }
{
    digest == other
}

/// Reads a file by its lengths, up to the end of the input, and checks its digest under this
/// naming. Does not judge what the file says.
///
/// - `Refused` with the first fault from left to right: `NoPoolFile` (60) at the first byte that
///   differs from `gitpool LF`, `UnknownVersion` (61) if the version is not 1 or 2, `CutOff` (62)
///   if the input ends early, `TrailingBytes` (69) if it goes on after the digest. After all of
///   these, `WrongDigest` (63) if the digest is not that of the bytes before it.
/// - `Device` (68) if a call of `read` answered an error, or if 2^32 calls were made.
/// - `Memory` (90) if there is no memory for what is read.
///
/// What was read is gone from the reader; after a file, nothing is left in it.
pub fn read_sealed<N: StreamingDigest, R: Read>(
    alloc: Global,
    naming: &N,
    reader: &mut Counted<R>,
) -> Result<RawFile, Fault>
    ensures { ReadsAll (counted_on (calls_of reader.old) reads_limit) (sealed_at N.digest_of)
        (seen (R.remaining (device_of reader.old)) reader.old) (shown file_of result)
        (seen (R.remaining (device_of reader.new)) reader.new) }
{
    read_sealed_by::<N, R, Copied>(alloc, naming, reader)
}

/// `read_sealed` with contents that are lent, if `L` lends them; they are not copied then.
pub fn read_sealed_by<N: StreamingDigest, R: Read, L: Lending<R>>(
    alloc: Global,
    naming: &N,
    reader: &mut Counted<R>,
) -> Result<RawFile, Fault>
    ensures { ReadsAll (counted_on (calls_of reader.old) reads_limit) (sealed_at N.digest_of)
        (seen (R.remaining (device_of reader.old)) reader.old) (shown file_of result)
        (seen (R.remaining (device_of reader.new)) reader.new) }
{
    let (file, digest) = read_file_by::<R, L>(alloc, reader)?;
    let own = digest_of(naming, &file);
    if !is_same(&digest, &own) {
        return Err(Fault::Refused(Refusal::WrongDigest));
    }
    Ok(file)
}

/// Writes a file, and its digest under this naming after it. Takes no memory.
///
/// `DeviceFault` (68) if a call of `write` answered an error or took nothing. A prefix of the text
/// has then been written.
pub fn write_sealed<N: StreamingDigest, W: Write>(
    naming: &N,
    file: &RawFile,
    writer: &mut Counted<W>,
) -> Result<(), DeviceFault>
    ensures { Writes (seen (W.contents (device_of writer.old)) writer.old) result
        (seen (W.contents (device_of writer.new)) writer.new)
        (raw_text N.digest_of (file_of file.now)) }
{
    put_body(writer, &listed(file))?;
    let digest = digest_of(naming, file);
    writer.take(&digest)
}

// Writes all bytes of a file before its digest to a gathering sink with an empty block, and passes
// the last block on.
fn put_gathered<S: Sink, O: Printed>(
    gathered: &mut Buffered<'_, S>,
    file: &Listed<'_, O>,
) -> Result<(), DeviceFault>
    requires { gathered.old.block.items ≡ [] }
    ensures gives { Gives S.Took S.Failed gathered.old.sink.now result gathered.new.sink.now
        (listed_text O.object file.now) }
    ensures same { gathered.new.sink.ghost_name ≡ gathered.old.sink.ghost_name }
{
    put_body(gathered, file)?;
    gathered.pass_on()
}

// The same in blocks, into any sink.
fn put_blocks<S: Sink, O: Printed>(
    alloc: Global,
    sink: &mut S,
    file: &Listed<'_, O>,
) -> Result<(), DeviceFault>
    ensures { Gives S.Took S.Failed sink.old result sink.new
        (listed_text O.object file.now) }
{
    let mut gathered = Buffered {
        block: Vec::new(alloc),
        sink,
    };
    let answer = put_gathered(&mut gathered, file);
    let Buffered {
        block: _block,
        sink: _sink,
    } = gathered;
    answer
}

// The same in blocks, into a digest and a sink.
fn put_both<D: DigestState, S: Sink, O: Printed>(
    alloc: Global,
    running: &mut D,
    sink: &mut S,
    file: &Listed<'_, O>,
) -> Result<(), DeviceFault>
    ensures gives { Gives S.Took S.Failed sink.old result sink.new
        (listed_text O.object file.now) }
    ensures fed { OnOk result (Goes D.Holds running.old running.new
        (listed_text O.object file.now)) }
{
    let mut digested = HashingWriter { running, sink };
    put_blocks(alloc, &mut digested, file)
}

/// Writes a file of version 2 whose objects' contents are lent, and its digest after it, in one
/// pass. Contents are copied only to gather small pieces into blocks of at most 64 KiB.
///
/// Takes memory for a block. If there is none, each piece is written by a call of its own, so no
/// answer is `Memory`. `DeviceFault` (68) if a call of `write` answered an error or took nothing. A
/// prefix of the text has then been written.
pub fn write_lent<N: StreamingDigest, W: Write>(
    alloc: Global,
    naming: &N,
    objects: &[LentObject<'_>],
    tenants: &[RawTenant],
    writer: &mut Counted<W>,
) -> Result<(), DeviceFault>
    ensures { Writes (seen (W.contents (device_of writer.old)) writer.old) result
        (seen (W.contents (device_of writer.new)) writer.new)
        (raw_text N.digest_of (lent_file objects.now tenants.now)) }
{
    let file = Listed {
        version: 2,
        objects,
        tenants,
    };
    let mut running = naming.start();
    put_both(alloc, &mut running, writer, &file)?;
    writer.take(&N::end(running))
}
