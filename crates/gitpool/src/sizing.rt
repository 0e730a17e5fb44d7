//! What each tenant has, as lines. This is for the operator.

ghost use Rattle.std.specs.{Prelude.{◌≡◌, ◌++◌, IfOk, OnOk, map, string_bytes}, List.{flat_map}};
ghost use Rattle.git_objects.specs.Device.{device_of, seen};
ghost use Rattle.tenant_service.specs.Sizes.{sizes_told};
ghost use Rattle.gitpool.specs.Sizing.{line_of, numbers_text, sizes_text, WritesSizes};

use byte_devices::WriteFault;
use git_objects::{Counted, Memory, Naming, write_all};
use std::alloc::{AllocError, Global};
use std::io::Write;
use tenant_service::{Service, TenantSizes};

// What a line says after the name of the tenant.
fn numbers_of(alloc: Global, sizes: &TenantSizes<'_>) -> Result<String, AllocError>
    ensures { IfOk result (λ text. string_bytes text ≡ numbers_text (sizes_told sizes.now)) }
{
    let objects = sizes.objects;
    let bytes = sizes.bytes;
    let own = sizes.own_bytes;
    let refs = sizes.refs;
    format!(in alloc; " objects {objects} bytes {bytes} own {own} refs {refs}\n")
}

// Appends a line for each tenant.
fn append_lines(alloc: Global, all: &[TenantSizes<'_>], out: &mut Vec<u8>) -> Result<(), Memory>
    ensures { OnOk result (out.new.items
        ≡ out.old.items ++ flat_map line_of (map sizes_told all.now)) }
{
    for sizes in all {
        let numbers = numbers_of(alloc, sizes)?;
        out.extend_from_slice(sizes.tenant)?;
        out.extend_from_slice(numbers.as_bytes())?;
    }
    Ok(())
}

/// Appends a line for each tenant to `out`, as `sizes` writes them.
///
/// `Memory` (90): there was no memory for the lines. Then a part of them may be in `out`.
pub(crate) fn append_sizes<N: Naming>(
    alloc: Global,
    service: &Service<N>,
    out: &mut Vec<u8>,
) -> Result<(), Memory>
    ensures { OnOk result (out.new.items ≡ out.old.items ++ sizes_text service.now) }
{
    let all = service.sizes()?;
    append_lines(alloc, &all, out)
}

/// Writes what each tenant has at its last checkpoint, in lines such as `acme objects 3 bytes 133
/// own 120 refs 1`, in the order of the names: how many objects, the sum of their sizes in bytes,
/// the same sum without the contents that another tenant has too, and how many refs
/// (`Service::sizes`).
///
/// `WriteFault::Memory` (90): there was no memory for the lines, and no call of the writer was
/// made. `WriteFault::Device` (68): a call of the writer failed, and a prefix of the lines is
/// written.
pub fn sizes<N: Naming, W: Write>(
    alloc: Global,
    service: &Service<N>,
    writer: &mut Counted<W>,
) -> Result<(), WriteFault>
    ensures { WritesSizes service.now
        (seen (W.contents (device_of writer.old)) writer.old)
        (seen (W.contents (device_of writer.new)) writer.new) result }
{
    let mut text = Vec::new(alloc);
    match append_sizes(alloc, service, &mut text) {
        Ok(()) => {}
        Err(Memory) => return Err(WriteFault::Memory),
    }
    write_all(writer, &text)?;
    Ok(())
}
