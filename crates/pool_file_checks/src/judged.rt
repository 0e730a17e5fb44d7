//! Reading and judging a pool file.

ghost use Rattle.std.specs.Prelude.{◌≡◌, IfOk};
ghost use Rattle.byte_devices.specs.Device.{device_of, calls_of, counted_on, seen};
ghost use Rattle.git_model.specs.Limits.{reads_limit};
ghost use Rattle.pool_file_format.specs.{Shown.{objects_of, file_of}, Taking.{shown}};
ghost use Rattle.pool_file_checks.specs.{Own.{names_of}, Quick.{KnowsSums}};
ghost use Rattle.pool_file_checks.specs.Judging.{Judges, Finds, ReadsTexts, IsBlamed};
ghost use Rattle.pool_file_checks.specs.Judging.{ReadsAndJudges};

use crate::known::KnownSums;
use crate::name_objects;
use crate::whole::judge_file;
use byte_devices::{Copied, Counted, Lending};
use git_names::Name;
use pool_file_format::{Fault, RawFile, StreamingDigest, read_sealed_by};
use std::alloc::Global;
use std::io::Read;

/// A file that passed its checks, the names of its objects in their order, and the summaries that
/// are known of a tenant's objects.
#[derive(Drop)]
pub struct Judged {
    pub file: RawFile,
    pub names: Vec<Name>,
    pub known: KnownSums,
}

/// Reads a pool file of either version up to the end of the input, checks its digest, and judges
/// what it says. The naming makes the digest and the names of objects. The answer is the file, the
/// names of its objects, and the summaries that were found of a tenant's objects. Every file of
/// repositories that can be saved is answered.
///
/// - `Refused` with the first fault. First come the faults of the bytes, from left to right:
///   `NoPoolFile` (60) at the first byte that differs from `gitpool LF`, `UnknownVersion` (61) if
///   the version is not 1 or 2, `CutOff` (62) if the input ends early, `TrailingBytes` (69) if it
///   goes on after the digest. Then comes `WrongDigest` (63). Then come the refusals of
///   `check_file`, in its order: `NotCanonical` (64), `BadObject` (65), `MissingReference` (66) and
///   `BadRef` (67).
/// - `Device` (68) if a call of `read` answered an error, or if 2^32 calls were made.
/// - `Memory` (90) if there is no memory for what is read, named and marked.
///
/// What was read is gone from the reader; after a file, nothing is left in it.
pub fn read_judged<N: StreamingDigest, R: Read>(
    alloc: Global,
    naming: &N,
    reader: &mut Counted<R>,
) -> Result<Judged, Fault>
    // The file, or the first refusal, if the reader's bytes are known.
    ensures exact { Judges N.digest_of (R.remaining (device_of reader.old))
        (shown (λ j. file_of j.file) result) (R.remaining (device_of reader.new)) }
    // What is answered is what the bytes say.
    ensures found { Finds N.digest_of (R.remaining (device_of reader.old))
        (shown (λ j. file_of j.file) result) }
    // Every text of repositories is answered.
    ensures only { ReadsTexts N.digest_of (R.remaining (device_of reader.old))
        (shown (λ j. file_of j.file) result) }
    // Which calls are made, and when the device is blamed.
    ensures cause { IsBlamed (counted_on (calls_of reader.old) reads_limit)
        (seen (R.remaining (device_of reader.old)) reader.old)
        (shown (λ j. file_of j.file) result)
        (seen (R.remaining (device_of reader.new)) reader.new) }
    // The name of each object, made once for every caller that needs it.
    ensures names { IfOk result
        (λ j. j.names.items ≡ names_of N.digest_of (objects_of j.file.objects.items)) }
    // The summaries of a tenant's objects, for a caller that would else read its trees again.
    ensures known { IfOk result
        (λ j. KnowsSums N.digest_of (objects_of j.file.objects.items) j.known) }
{
    read_judged_by::<N, R, Copied>(alloc, naming, reader)
}

/// `read_judged` with contents that are lent, if `L` lends them; they are not copied then.
pub fn read_judged_by<N: StreamingDigest, R: Read, L: Lending<R>>(
    alloc: Global,
    naming: &N,
    reader: &mut Counted<R>,
) -> Result<Judged, Fault>
    ensures { ReadsAndJudges N.digest_of (counted_on (calls_of reader.old) reads_limit)
        (seen (R.remaining (device_of reader.old)) reader.old) result
        (seen (R.remaining (device_of reader.new)) reader.new) }
{
    let file = read_sealed_by::<N, R, L>(alloc, naming, reader)?;
    let names = name_objects(alloc, naming, &file.objects)?;
    let known = judge_file(alloc, &names, &file)?;
    Ok(Judged { file, names, known })
}
