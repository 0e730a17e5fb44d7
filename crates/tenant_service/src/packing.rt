//! Questions for a pack of one tenant: which objects a client is missing, and these objects as a
//! pack has them.
//!
//! A tenant has here the objects of its last checkpoint, as for an Ask. Nothing changes.

ghost use Rattle.std.specs.Prelude.{◌≡◌, [], MatchResult, true, false};
ghost use Rattle.byte_devices.specs.Device.{device_of, seen};
ghost use Rattle.pack_objects.specs.{Entries.{AppendsAnswer}, Missing.{TellsMissing}};
ghost use Rattle.pack_objects.specs.Packs.{WritesPack};
ghost use Rattle.tenant_refs.specs.TenantName.{is_tenant_name};
ghost use Rattle.tenant_service.specs.Packing.{entries_for, last_objects, missing_for, pack_for};
ghost use Rattle.pack_objects.specs.declared.fault.PackFault.TheVariants as fault;

use crate::service::Service;
use crate::tenants::name_of;
use byte_devices::Counted;
use git_objects::{Name, Naming};
use pack_objects::{MissingObject, PackFault, append_entries, missing, write_missing};
use pool_file_format::StreamingDigest;
use std::io::Write;
use tenant_tables::{Objects, Sight, Table};

impl<N: Naming> Service<N> {
    // The objects of a tenant at its last checkpoint. Those of `nobody`, which has none, if the
    // tenant was never seen. 32 if its name is bad.
    fn last_objects<'a>(
        &'a self,
        tenant: &[u8],
        nobody: &'a Table,
    ) -> Result<Objects<'a, N>, PackFault>
        requires { nobody.now.entries ≡ [] }
        ensures { MatchResult result
            (λ objects. (is_tenant_name tenant.now ≡ true)
            × (objects ≡ last_objects tenant.now self.now))
            (λ e. (is_tenant_name tenant.now ≡ false) × (e ≡ fault.BadTenantName)) }
    {
        let Ok(_name) = name_of(tenant) else {
            return Err(PackFault::BadTenantName);
        };
        match self.view(tenant) {
            Some((pool, table, _)) => Ok(Objects::of(pool, table, Sight::Committed)),
            None => Ok(Objects::of(&self.pool, nobody, Sight::Committed)),
        }
    }

    /// The objects of a tenant, at its last checkpoint, that the wanted names reach and the had
    /// names do not, each with its kind and size, in the order of the repository: an object comes
    /// after all that it refers to. This is what git-rev-list(1) lists with `--objects`, but exact.
    /// A had name that is that of no object counts for nothing, and names of other tenants' objects
    /// are such names. A tenant that was never seen has no objects.
    ///
    /// `PackFault::BadTenantName` (32) if the name is bad; else `UnknownObject` (16) if a wanted
    /// name is that of no object; else `Memory` (90) if an allocation fails.
    pub fn missing(
        &self,
        tenant: &[u8],
        wants: &[Name],
        haves: &[Name],
    ) -> Result<Vec<MissingObject>, PackFault>
        ensures { TellsMissing (missing_for tenant.now self.now wants.now haves.now) result }
    {
        self.is_sound();
        let nobody = Table::new(self.alloc);
        let objects = self.last_objects(tenant, &nobody)?;
        missing(self.alloc, &objects, wants, haves)
    }

    /// Appends the entries of objects of a tenant, at its last checkpoint, one after another, as a
    /// pack has them (gitformat-pack(5)). A name that stands more than once has as many entries.
    ///
    /// `PackFault::BadTenantName` (32) if the name of the tenant is bad; else `UnknownObject` (16)
    /// if a name is that of no object of this tenant; else `Limit` (25) if all the entries together
    /// would be longer than `limit` bytes; else `Memory` (90) if there is no room for them. After a
    /// refusal `out` has what it had.
    pub fn entries(
        &self,
        tenant: &[u8],
        names: &[Name],
        limit: u64,
        out: &mut Vec<u8>,
    ) -> Result<(), PackFault>
        ensures { AppendsAnswer (entries_for tenant.now self.now names.now limit) out.old.items
            result out.new.items }
    {
        let nobody = Table::new(self.alloc);
        let objects = self.last_objects(tenant, &nobody)?;
        append_entries(&objects, names, limit, out)
    }
}

impl<N: StreamingDigest> Service<N> {
    /// Writes the pack of what `missing` tells, as `git pack-objects --revs --stdout` does, without
    /// deltas and without compression. The pack is never held in memory.
    ///
    /// `PackFault::BadTenantName` (32) if the name is bad; else `UnknownObject` (16) if a wanted
    /// name is that of no object; else `Memory` (90) if an allocation fails. Nothing is written
    /// then. `Device` (68): a call of the writer failed, and a prefix of the pack is written.
    pub fn write_pack<W: Write>(
        &self,
        tenant: &[u8],
        wants: &[Name],
        haves: &[Name],
        writer: &mut Counted<W>,
    ) -> Result<(), PackFault>
        ensures { WritesPack N.digest_of (pack_for tenant.now self.now wants.now haves.now)
            (seen (W.contents (device_of writer.old)) writer.old) result
            (seen (W.contents (device_of writer.new)) writer.new) }
    {
        self.is_sound();
        let nobody = Table::new(self.alloc);
        let objects = self.last_objects(tenant, &nobody)?;
        write_missing(
            self.alloc,
            &objects,
            self.pool.naming(),
            wants,
            haves,
            writer,
        )
    }
}
