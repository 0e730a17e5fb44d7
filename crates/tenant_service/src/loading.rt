//! Loads of a service, and its tenants after one: each has its repository, and no stream.

ghost use Rattle.std.specs.{Prelude.{◌≡◌, ◌++◌, ◌∷◌, [], map, IfOk, OnOk, None}, List.{IsDistinct}};
ghost use Rattle.std.specs.{Map.{lookup}, Str.{bytes_eq}};
ghost use Rattle.byte_devices.specs.Device.{device_of, calls_of, counted_on, seen};
ghost use Rattle.git_model.specs.Limits.{reads_limit};
ghost use Rattle.tenant_service.specs.{Entries.{entry_of}, Saved.{Loads}};

use crate::service::Service;
use crate::tenant::{OpenStream, Tenant};
use crate::tenants::add_tenant;
use byte_devices::{Counted, Lending, Lends, Lent};
use git_objects::Memory;
use indexmap::IndexMap;
use pool_file::Tenant as Loaded;
use pool_file_format::{Fault, StreamingDigest};
use revisions::FirstParentCache;
use std::alloc::Global;
use std::io::Read;
use tenant_refs::TenantName;

// Adds a loaded tenant, whose name is new.
fn take_in(
    alloc: Global,
    tenants: &mut IndexMap<TenantName, Tenant>,
    loaded: Loaded,
) -> Result<(), Memory>
    requires { lookup (bytes_eq loaded.name) tenants.old.entries ≡ None }
    ensures { OnOk result (tenants.new.entries ≡ tenants.old.entries ++ entry_of loaded ∷ []) }
{
    let Loaded { name, table, refs } = loaded;
    let tenant = Tenant {
        table,
        refs,
        phase: OpenStream::Closed,
        chain: FirstParentCache::new(alloc),
    };
    add_tenant(tenants, name, tenant)
}

// Adds all loaded tenants, in their order.
fn take_all_in(
    alloc: Global,
    tenants: &mut IndexMap<TenantName, Tenant>,
    loaded: Vec<Loaded>,
) -> Result<(), Memory>
    requires empty { tenants.old.entries ≡ [] }
    requires distinct { IsDistinct bytes_eq (map (λ t. t.name) loaded.items) }
    ensures { OnOk result (tenants.new.entries ≡ map entry_of loaded.items) }
{
    let mut rest = loaded.into_iter();
    while let Some(tenant) = rest.next() {
        take_in(alloc, tenants, tenant)?;
    }
    Ok(())
}

// The loaded tenants by their names, which are distinct. `Memory` (90) if there is no room for
// their entries; then the tenants are dropped.
fn tenants_of(alloc: Global, loaded: Vec<Loaded>) -> Result<IndexMap<TenantName, Tenant>, Memory>
    requires { IsDistinct bytes_eq (map (λ t. t.name) loaded.items) }
    ensures { IfOk result (λ tenants. tenants.entries ≡ map entry_of loaded.items) }
{
    let mut tenants = IndexMap::new(alloc);
    match take_all_in(alloc, &mut tenants, loaded) {
        Ok(()) => Ok(tenants),
        Err(memory) => {
            drop(tenants);
            Err(memory)
        }
    }
}

impl<N: StreamingDigest> Service<N> {
    // Reads a pool file. Contents that are lent, if `L` lends them, are not copied.
    pub(crate) fn load_by<R: Read, L: Lending<R>>(
        alloc: Global,
        naming: N,
        reader: &mut Counted<R>,
    ) -> Result<Service<N>, Fault>
        ensures { Loads N.digest_of (counted_on (calls_of reader.old) reads_limit)
            (seen (R.remaining (device_of reader.old)) reader.old) result
            (seen (R.remaining (device_of reader.new)) reader.new) }
    {
        let (pool, loaded) = pool_file::load_by::<N, R, L>(alloc, naming, reader)?;
        let tenants = tenants_of(alloc, loaded)?;
        Ok(Service {
            alloc,
            pool,
            tenants,
        })
    }

    /// `load` from a reader that may lend its bytes, for a host that has mapped a pool file, or for
    /// a program that reads one in large chunks. The service keeps each content that the reader
    /// lends without a copy, so it takes memory only for what was not lent, and for tables and refs.
    /// Nothing that the service does later frees what was lent.
    ///
    /// **Duty.** Nobody may write into the lent bytes while the process lives, not even once the
    /// service is dropped: a `&'static [u8]` promises that. A mapped file must not be cut or written
    /// in place either.
    ///
    /// The answer is what `load` answers of the same bytes, under the same numbers. `Fault::Refused`
    /// has the first thing that is wrong: `NoPoolFile` (60), `UnknownVersion` (61), `CutOff` (62)
    /// and `TrailingBytes` (69) from left to right; then `WrongDigest` (63); then what the file says
    /// may be `NotCanonical` (64), `BadObject` (65), `MissingReference` (66) or `BadRef` (67).
    /// `Fault::Device` (68): a call of `read` failed, or 2^32 calls were made; a loan is no call.
    /// `Fault::Memory` (90): an allocation failed. After a fault there is no service, and what was
    /// read or lent is gone from the reader. After a service nothing is left in the reader.
    pub fn load_lent<R: Lends>(
        alloc: Global,
        naming: N,
        reader: &mut Counted<R>,
    ) -> Result<Service<N>, Fault>
        // What `load` ensures of the same reader.
        ensures { Loads N.digest_of (counted_on (calls_of reader.old) reads_limit)
            (seen (R.remaining (device_of reader.old)) reader.old) result
            (seen (R.remaining (device_of reader.new)) reader.new) }
    {
        Service::load_by::<R, Lent>(alloc, naming, reader)
    }
}
