//! Loading all repositories of a pool file.

ghost use Rattle.std.specs.Prelude.{IfOk};
ghost use Rattle.byte_devices.specs.Device.{device_of, calls_of, counted_on, seen};
ghost use Rattle.git_model.specs.Limits.{reads_limit};
ghost use Rattle.pool_file_format.specs.Taking.{shown};
ghost use Rattle.pool_file_checks.specs.Judging.{IsBlamed};
ghost use Rattle.pool_file.specs.Loading.{loaded_repositories, AreTenants, LoadsAs, LoadsText};
ghost use Rattle.pool_file.specs.Loading.{LoadsEach, Loads};

use crate::building::build;
use crate::tenant::Tenant;
use byte_devices::{Copied, Counted, Lending};
use content_pool::Pool;
use pool_file_checks::read_judged_by;
use pool_file_format::{Fault, StreamingDigest};
use std::alloc::Global;
use std::io::Read;

/// Reads a pool file of either version up to the end of the input, and makes its repositories: a
/// pool that has each content once, and the tenants in the order of their names. The naming makes
/// the digest of the file and the names of objects; it must be the one that saved the file.
///
/// - `Refused` with the first fault. First come the faults of the bytes, from left to right:
///   `NoPoolFile` (60), `UnknownVersion` (61), `CutOff` (62) and `TrailingBytes` (69). Then comes
///   `WrongDigest` (63). Then come the faults of what the file says: `NotCanonical` (64),
///   `BadObject` (65), `MissingReference` (66) and `BadRef` (67), in the order of
///   `pool_file_checks::check_file`.
/// - `Device` (68) if a call of `read` answered an error, or if 2^32 calls were made.
/// - `Memory` (90) if there is no memory for what is read, marked or made.
///
/// What was read is gone from the reader; after repositories, nothing is left in it.
pub fn load<N: StreamingDigest, R: Read>(
    alloc: Global,
    naming: N,
    reader: &mut Counted<R>,
) -> Result<(Pool<N>, Vec<Tenant>), Fault>
    // The repositories, or the first refusal, if the reader's bytes are known.
    ensures exact { LoadsAs N.digest_of (R.remaining (device_of reader.old))
        (shown (λ r. loaded_repositories r.0 r.1.items) result) (R.remaining
        (device_of reader.new)) }
    // What is answered is what the bytes say.
    ensures found { LoadsText N.digest_of (R.remaining (device_of reader.old))
        (shown (λ r. loaded_repositories r.0 r.1.items) result) }
    // Every text of repositories is answered.
    ensures only { LoadsEach N.digest_of (R.remaining (device_of reader.old))
        (shown (λ r. loaded_repositories r.0 r.1.items) result) }
    // Which calls are made, and when the device is blamed.
    ensures cause { IsBlamed (counted_on (calls_of reader.old) reads_limit)
        (seen (R.remaining (device_of reader.old)) reader.old)
        (shown (λ r. loaded_repositories r.0 r.1.items) result)
        (seen (R.remaining (device_of reader.new)) reader.new) }
    // The tenants are good ones over this pool, even if the reader's bytes are not known.
    ensures tenants { IfOk result (λ r. AreTenants N.digest_of r.0 r.1.items) }
{
    load_by::<N, R, Copied>(alloc, naming, reader)
}

/// `load` with contents that are lent, if `L` lends them; the pool keeps them without a copy. Nobody
/// may write into lent bytes while the process lives.
pub fn load_by<N: StreamingDigest, R: Read, L: Lending<R>>(
    alloc: Global,
    naming: N,
    reader: &mut Counted<R>,
) -> Result<(Pool<N>, Vec<Tenant>), Fault>
    ensures { Loads N.digest_of (counted_on (calls_of reader.old) reads_limit)
        (seen (R.remaining (device_of reader.old)) reader.old) result
        (seen (R.remaining (device_of reader.new)) reader.new) }
{
    let judged = read_judged_by::<N, R, L>(alloc, &naming, reader)?;
    let loaded = build(alloc, naming, judged)?;
    Ok(loaded)
}
