//! Backups of one tenant: a pool file that has this tenant alone.

ghost use Rattle.std.specs.Prelude.{◌≡◌, ℕ, List, filter, map, false, IfOk, MatchResult, None};
ghost use Rattle.std.specs.{Prelude.{Some}, Str.{bytes_eq}};
ghost use Rattle.byte_devices.specs.Device.{device_of, seen};
ghost use Rattle.content_pool.specs.Pool.{Cells};
ghost use Rattle.pool_file_checks.specs.{Repositories.{file_text}, Saving.{IsTextOf}};
ghost use Rattle.pool_file.specs.Saves.{Saves};
ghost use Rattle.tenant_service.specs.{Entries.{parts_lent, parts_of}, HeldObjects.{last_held}};
ghost use Rattle.tenant_service.specs.Extracting.{Extracts, Writes, extract_refusal, only};
ghost use Rattle.tenant_service.specs.{Saved.{IsLoadedFrom, saved_of}, Tenants.{holdings}};
ghost use Rattle.tenant_service.specs.TenantState.{Idle, TenantStates, empty_repository, held_of};

use crate::extract_fault::ExtractFault;
use crate::removing::is_streaming;
use crate::saving::lend_all;
use crate::service::Service;
use crate::tenant::Tenant;
use crate::tenants::name_of;
use byte_devices::Counted;
use indexmap::IndexMap;
use pool_file::TenantView;
use pool_file_format::{Fault, StreamingDigest};
use std::alloc::{AllocError, Global};
use std::io::Write;
use tenant_refs::TenantName;

// The name of a tenant that may be extracted. 32 if the name is bad, and 31 if the tenant has a
// stream.
fn name_without_stream(
    tenants: &IndexMap<TenantName, Tenant>,
    tenant: &[u8],
) -> Result<TenantName, ExtractFault>
    ensures { (pool : Cells)
        → let refusal = extract_refusal tenant.now (holdings pool tenants.now.entries) in
        MatchResult result (λ name. (refusal ≡ None) × (name ≡ tenant.now))
        (λ fault. refusal ≡ Some fault) }
{
    let Ok(name) = name_of(tenant) else {
        return Err(ExtractFault::BadTenantName);
    };
    if is_streaming(tenants, &name) {
        return Err(ExtractFault::StreamIsOpen);
    }
    Ok(name)
}

// The tenant of this name, as it is lent to a save; none if it was never seen. `AllocError` if
// there is no room for the list.
fn lend_only<'a>(
    alloc: Global,
    tenants: &'a IndexMap<TenantName, Tenant>,
    name: &TenantName,
) -> Result<Vec<TenantView<'a>>, AllocError>
    ensures { IfOk result (λ lent. map parts_lent lent.items
        ≡ map parts_of (filter (λ e. bytes_eq name.now e.0) tenants.entry.now.entries)) }
{
    let all = lend_all(alloc, tenants)?;
    let mut only = Vec::new(alloc);
    for view in &all {
        if *name == *view.name {
            only.push(*view)?;
        }
    }
    Ok(only)
}

// What a save answers, as a fault of an extraction. A save refuses nothing.
fn fault_of(fault: Fault) -> ExtractFault
    ensures { (old new : _) (text : List ℕ) → Saves old (Err fault) new text
        → Writes old (Err result) new text }
{
    match fault {
        Fault::Memory => ExtractFault::Memory,
        _ => ExtractFault::Device,
    }
}

impl<N: StreamingDigest> Service<N> {
    // Writes a pool file that has the tenant of this name alone.
    fn save_only<W: Write>(&self, name: &TenantName, writer: &mut Counted<W>) -> Result<(), Fault>
        ensures { Saves (seen (W.contents (device_of writer.old)) writer.old) result
            (seen (W.contents (device_of writer.new)) writer.new)
            (file_text N.digest_of (saved_of (only name.now self.now))) }
    {
        let lent = lend_only(self.alloc, &self.tenants, name)?;
        pool_file::save_views(self.alloc, &self.pool, &lent, writer)
    }

    /// Writes the repository of one tenant at its last checkpoint as a pool file, in version 2. No
    /// other tenant is in it. A tenant that was never seen, or that has neither an object nor
    /// another HEAD than the first, gives the file of no tenants.
    ///
    /// `ExtractFault::BadTenantName` (32) if the name is bad, and `StreamIsOpen` (31) if the tenant
    /// has a stream, even a dead one; then nothing is written. `Device` (68): a call of `write`
    /// failed or took no byte. `Memory` (90): an allocation failed. After these two a prefix of the
    /// file is written. The service is as it was.
    pub fn extract<W: Write>(
        &self,
        tenant: &[u8],
        writer: &mut Counted<W>,
    ) -> Result<(), ExtractFault>
        ensures { Extracts (extract_refusal tenant.now self.now)
            (seen (W.contents (device_of writer.old)) writer.old) result
            (seen (W.contents (device_of writer.new)) writer.new)
            (file_text N.digest_of (saved_of (only tenant.now self.now))) }
    {
        let name = name_without_stream(&self.tenants, tenant)?;
        match self.save_only(&name, writer) {
            Ok(()) => Ok(()),
            Err(fault) => Err(fault_of(fault)),
        }
    }

    /// The text that `extract` writes is a text of what is extracted. A service that is loaded from
    /// it has of this tenant what its last checkpoint has here, and of nobody else anything. This
    /// is a fact for proofs: a call does nothing.
    pub fn extracted_comes_back(&self, tenant: &[u8])
        ensures text { IsTextOf N.digest_of (saved_of (only tenant.now self.now))
            (file_text N.digest_of (saved_of (only tenant.now self.now))) }
        ensures own { (loaded : TenantStates)
            → IsLoadedFrom N.digest_of (file_text N.digest_of (saved_of (only tenant.now self.now)))
            loaded → held_of tenant.now loaded ≡ Idle (last_held (held_of tenant.now self.now)) }
        ensures others { (loaded : TenantStates)
            → IsLoadedFrom N.digest_of (file_text N.digest_of (saved_of (only tenant.now self.now)))
            loaded → (other : List ℕ) → bytes_eq other tenant.now ≡ false
            → held_of other loaded ≡ Idle empty_repository }
    {
        let _name = tenant;
        self.is_sound();
        self.has_distinct_names();
        self.has_few_names();
        self.has_few_contents();
    }
}
