//! Saves of a service: its tenants as they are at their last checkpoints, or as they were when their
//! streams were opened.

ghost use Rattle.std.specs.Prelude.{◌≡◌, ℕ, List, map, IfOk};
ghost use Rattle.byte_devices.specs.Device.{device_of, seen};
ghost use Rattle.pool_file_checks.specs.{Repositories.{file_text}, Saving.{IsTextOf}};
ghost use Rattle.pool_file.specs.Saves.{Saves};
ghost use Rattle.tenant_service.specs.Entries.{opened_parts_of, parts_lent, parts_of};
ghost use Rattle.tenant_service.specs.HeldObjects.{opened_held};
ghost use Rattle.tenant_service.specs.Saved.{saved_as_opened, saved_of, IsLoadedFrom};
ghost use Rattle.tenant_service.specs.TenantState.{TenantStates, Idle, held_of};

use crate::service::Service;
use crate::tenant::{OpenStream, Tenant};
use byte_devices::Counted;
use git_objects::Naming;
use indexmap::IndexMap;
use pool_file::TenantView;
use pool_file_format::{Fault, StreamingDigest};
use std::alloc::{AllocError, Global};
use std::io::Write;
use tenant_refs::TenantName;

/// Each tenant's name, table and refs, in the order in which the tenants were seen, to be saved with
/// the committed objects. Takes memory only for the list; `AllocError` if there is no room for it.
pub fn lend_all<'a>(
    alloc: Global,
    tenants: &'a IndexMap<TenantName, Tenant>,
) -> Result<Vec<TenantView<'a>>, AllocError>
    ensures { IfOk result (λ lent.
        map parts_lent lent.items ≡ map parts_of tenants.entry.now.entries) }
{
    let mut lent = Vec::new(alloc);
    for place in 0..tenants.len() {
        let (name, tenant) = tenants.get_index(place).unwrap();
        let table = &tenant.table;
        let objects = table.committed_len();
        let refs = &tenant.refs;
        lent.push(TenantView {
            name,
            table,
            objects,
            refs,
        })?;
    }
    Ok(lent)
}

// A tenant, lent as it was when its stream was opened; without a stream, as it is.
fn lend_as_opened<'a>(name: &'a TenantName, tenant: &'a Tenant) -> TenantView<'a>
    ensures { parts_lent result ≡ opened_parts_of (name.entry.now, tenant.entry.now) }
{
    let table = &tenant.table;
    match &tenant.phase {
        OpenStream::Closed => TenantView {
            name,
            table,
            objects: table.committed_len(),
            refs: &tenant.refs,
        },
        OpenStream::Running(opened, _) | OpenStream::Dead(opened, _) => TenantView {
            name,
            table,
            objects: opened.objects,
            refs: &opened.refs,
        },
    }
}

// The same of all tenants, in the order in which they were seen.
fn lend_all_as_opened<'a>(
    alloc: Global,
    tenants: &'a IndexMap<TenantName, Tenant>,
) -> Result<Vec<TenantView<'a>>, AllocError>
    ensures { IfOk result (λ lent.
        map parts_lent lent.items ≡ map opened_parts_of tenants.entry.now.entries) }
{
    let mut lent = Vec::new(alloc);
    let many = tenants.len();
    for place in 0..many {
        let (name, tenant) = tenants.get_index(place).unwrap();
        lent.push(lend_as_opened(name, tenant))?;
    }
    Ok(lent)
}

impl<N: Naming> Service<N> {
    /// The text that `save_as_opened` writes is a text of what is saved. A service that is loaded
    /// from it has of every tenant what the tenant had when its stream was opened, and no stream;
    /// without a stream, what the tenant has. This is a fact for proofs: a call does nothing.
    pub fn comes_back_as_opened(&self)
        ensures text { IsTextOf N.digest_of (saved_as_opened self.now)
            (file_text N.digest_of (saved_as_opened self.now)) }
        ensures same { (loaded : TenantStates)
            → IsLoadedFrom N.digest_of (file_text N.digest_of (saved_as_opened self.now)) loaded
            → (tenant : List ℕ) → held_of tenant loaded
            ≡ Idle (opened_held (held_of tenant self.now)) }
    {
        self.is_sound();
        self.has_distinct_names();
        self.has_few_names();
        self.has_few_contents();
        let _pool = &self.pool;
    }
}

impl<N: StreamingDigest> Service<N> {
    /// Writes the repositories of all tenants at their last checkpoints as a pool file, in version
    /// 2. What a running stream has not saved is left out, and so is a tenant that has neither an
    /// object nor another HEAD than the first.
    ///
    /// `Fault::Device` (68): a call of `write` failed or took no byte. `Fault::Memory` (90): an
    /// allocation failed. In both cases a prefix of the file is written. `Fault::Refused` is
    /// never answered. The service is as it was.
    pub fn save<W: Write>(&self, writer: &mut Counted<W>) -> Result<(), Fault>
        ensures { Saves (seen (W.contents (device_of writer.old)) writer.old) result
            (seen (W.contents (device_of writer.new)) writer.new)
            (file_text N.digest_of (saved_of self.now)) }
    {
        let lent = lend_all(self.alloc, &self.tenants)?;
        pool_file::save_views(self.alloc, &self.pool, &lent, writer)
    }

    /// Writes a pool file as `save` does, but with each tenant that has a stream, running or dead,
    /// as it was when the stream was opened. What the stream has saved since is left out too: a
    /// journal that has the stream from its Open on can carry it out again after a load of this
    /// file. A tenant without a stream is saved as by `save`.
    ///
    /// The faults are those of `save`, and leave the same.
    pub fn save_as_opened<W: Write>(&self, writer: &mut Counted<W>) -> Result<(), Fault>
        ensures { Saves (seen (W.contents (device_of writer.old)) writer.old) result
            (seen (W.contents (device_of writer.new)) writer.new)
            (file_text N.digest_of (saved_as_opened self.now)) }
    {
        let lent = lend_all_as_opened(self.alloc, &self.tenants)?;
        pool_file::save_views(self.alloc, &self.pool, &lent, writer)
    }
}
