//! The checks of a tenant's name and numbers, in their order.

ghost use Rattle.std.specs.{Prelude.{◌≡◌, ◌≢◌, ◌↔◌, ◌<◌, IsTrue, All}, Option.{option_map}};
ghost use Rattle.git_model.specs.RefStore.{first_head};
ghost use Rattle.pool_file_checks.specs.{Checks.{Checked}, Tenants.{number_checks}};
ghost use Rattle.pool_file_checks.specs.Tenants.{IsNameIn, IsWorthSaving, name_checks};
ghost use Rattle.pool_file_format.specs.Shown.{tenant_of};

use crate::order::is_after;
use pool_file_format::{Fault, RawTenant, Refusal};
use tenant_refs::{FIRST_HEAD, is_tenant_name};

// How many objects and refs a tenant may have.
const OBJECTS_LIMIT: usize = 4_194_304;

const REFS_LIMIT: usize = 65_536;

fn has_one_part(text: &[u8]) -> bool
    ensures { IsTrue result ↔ All (λ byte. byte ≢ 47) text.now }
{
    text.iter().all(|byte| *byte != b'/')
}

fn is_name_in(version: u32, text: &[u8]) -> bool
    ensures { IsTrue result ↔ IsNameIn version text.now }
{
    is_tenant_name(text) && (version != 1 || has_one_part(text))
}

fn has_first_head(tenant: &RawTenant) -> bool
    ensures { IsTrue result ↔ ((tenant_of tenant.now).head ≡ first_head) }
{
    tenant.head.as_slice() == FIRST_HEAD
}

// Whether a tenant has anything to save.
fn is_worth_saving(tenant: &RawTenant) -> bool
    ensures { IsTrue result ↔ IsWorthSaving (tenant_of tenant.now) }
{
    !tenant.numbers.as_slice().is_empty() || !has_first_head(tenant)
}

/// Judges the name of a tenant in a file of this version. `last` is the name of the tenant before
/// it, if there is one.
///
/// `Refused` with `NotCanonical` (64) if the name is bad, has several parts in version 1, or does
/// not come after `last`, or if the tenant has neither an object nor a HEAD other than
/// `refs/heads/main`. Takes no memory.
pub fn check_name(version: u32, last: Option<&[u8]>, tenant: &RawTenant) -> Result<(), Fault>
    ensures { Checked (name_checks version (option_map (λ o. o.now) last.entry)
        (tenant_of tenant.now)) result }
{
    if !is_name_in(version, &tenant.name) {
        return Err(Fault::Refused(Refusal::NotCanonical));
    }
    if !is_after(last, &tenant.name) {
        return Err(Fault::Refused(Refusal::NotCanonical));
    }
    if !is_worth_saving(tenant) {
        return Err(Fault::Refused(Refusal::NotCanonical));
    }
    Ok(())
}

// Whether each of these numbers is below the count.
fn are_below(count: u64, numbers: &[u64]) -> bool
    ensures { IsTrue result ↔ All (λ n. n < count) numbers.now }
{
    numbers.iter().all(|number| *number < count)
}

/// Judges the numbers of a tenant's objects, in a file with `count` objects, and how many objects
/// and refs the tenant has.
///
/// `Refused` with `NotCanonical` (64) if a number is not below `count`, or if the tenant has more
/// than 4,194,304 objects or 65,536 refs. Takes no memory.
pub fn check_numbers(count: u64, tenant: &RawTenant) -> Result<(), Fault>
    ensures { Checked (number_checks count (tenant_of tenant.now)) result }
{
    if !are_below(count, &tenant.numbers) {
        return Err(Fault::Refused(Refusal::NotCanonical));
    }
    if tenant.numbers.as_slice().len() > OBJECTS_LIMIT {
        return Err(Fault::Refused(Refusal::NotCanonical));
    }
    if tenant.refs.as_slice().len() > REFS_LIMIT {
        return Err(Fault::Refused(Refusal::NotCanonical));
    }
    Ok(())
}
