//! Tenants of pool files, judged check by check.

use super::lines::push_ref;
use super::parts::{Object, code_of, objects_of, tenant_of};
use pool_file_checks::{check_held, check_name, check_numbers, check_refs};
use pool_file_format::{Fault, RawObject, RawRef, RawTenant};
use std::alloc::Global;

const MAIN: &[u8] = b"refs/heads/main";

// The version, the name before, the name, the numbers of objects, HEAD, and the number of the
// refusal, 0 for none.
type NameRow<'a> = (u32, Option<&'a [u8]>, &'a [u8], &'a [u64], &'a [u8], u16);

const NAMES: &[NameRow<'static>] = &[
    (1, None, b"t", &[0], MAIN, 0),
    (2, None, b"t", &[0], MAIN, 0),
    (2, Some(b"s"), b"t", &[0], MAIN, 0),
    (2, Some(b"t"), b"t/a", &[0], MAIN, 0),
    // Bad names, and one of two parts in version 1.
    (2, None, b"", &[0], MAIN, 64),
    (2, None, b"-t", &[0], MAIN, 64),
    (2, None, b"t/", &[0], MAIN, 64),
    (2, None, b"t t", &[0], MAIN, 64),
    (1, None, b"t/a", &[0], MAIN, 64),
    // Out of order, and twice.
    (2, Some(b"u"), b"t", &[0], MAIN, 64),
    (2, Some(b"t"), b"t", &[0], MAIN, 64),
    // Without an object another HEAD is needed, whatever it is.
    (2, None, b"t", &[], MAIN, 64),
    (2, None, b"t", &[], b"refs/heads/m", 0),
    (2, None, b"t", &[], b"", 0),
];

// How many objects the file has, the numbers of a tenant's objects, how many times 0 follows them,
// how many refs the tenant has, and the number of the refusal.
type NumberRow<'a> = (u64, &'a [u64], usize, usize, u16);

const NUMBERS: &[NumberRow<'static>] = &[
    (0, &[], 0, 0, 0),
    (1, &[0], 0, 0, 0),
    (3, &[2, 0, 1], 0, 0, 0),
    (1, &[1], 0, 0, 64),
    (2, &[0, 1, 2], 0, 0, 64),
    (2, &[18_446_744_073_709_551_615], 0, 0, 64),
    // The greatest counts, and one more.
    (1, &[], 4_194_304, 65_536, 0),
    (1, &[], 4_194_305, 0, 64),
    (1, &[], 1, 65_537, 64),
];

const BLOB: u64 = 0;

const COMMIT: u64 = 1;

const TAG: u64 = 2;

// A blob, a commit, and a tag `v`, whose target does not matter here.
const OBJECTS: &[Object<'static>] = &[
    (3, b""),
    (1, b""),
    (
        4,
        b"object 4b825dc642cb6eb9a060e54bf8d69288fbee4904\ntype commit\ntag v\n\n",
    ),
];

// Full names of refs with the places of their targets, HEAD, and the number of the refusal.
type RefRow<'a> = (&'a [(&'a [u8], u64)], &'a [u8], u16);

const REFS: &[RefRow<'static>] = &[
    (&[], MAIN, 0),
    (&[(b"refs/namespaces/t/refs/heads/m", COMMIT)], MAIN, 0),
    (&[(b"refs/namespaces/t/refs/tags/v", TAG)], MAIN, 0),
    (
        &[
            (b"refs/namespaces/t/refs/heads/m", COMMIT),
            (b"refs/namespaces/t/refs/tags/v", COMMIT),
        ],
        MAIN,
        0,
    ),
    // Names outside of the tenant's namespaces, and bad names.
    (&[(b"refs/heads/m", COMMIT)], MAIN, 67),
    (&[(b"refs/namespaces/u/refs/heads/m", COMMIT)], MAIN, 67),
    (&[(b"refs/namespaces/t/refs/heads/m.", COMMIT)], MAIN, 67),
    (&[(b"refs/namespaces/t/HEAD", COMMIT)], MAIN, 67),
    // Targets of other kinds, and a tag under another ref.
    (&[(b"refs/namespaces/t/refs/heads/m", BLOB)], MAIN, 67),
    (&[(b"refs/namespaces/t/refs/heads/v", TAG)], MAIN, 67),
    (&[(b"refs/namespaces/t/refs/tags/w", TAG)], MAIN, 67),
    // Out of order, and twice.
    (
        &[
            (b"refs/namespaces/t/refs/heads/n", COMMIT),
            (b"refs/namespaces/t/refs/heads/m", COMMIT),
        ],
        MAIN,
        64,
    ),
    (
        &[
            (b"refs/namespaces/t/refs/heads/m", COMMIT),
            (b"refs/namespaces/t/refs/heads/m", COMMIT),
        ],
        MAIN,
        64,
    ),
    // A ref to a place without an object has no target of the wrong kind.
    (&[(b"refs/namespaces/t/refs/heads/m", 3)], MAIN, 66),
    (&[(b"refs/namespaces/t/refs/heads/m.", 3)], MAIN, 67),
    // HEAD comes last.
    (&[], b"HEAD", 67),
    (&[], b"", 67),
    (&[(b"refs/namespaces/t/refs/heads/m", 3)], b"HEAD", 66),
    // All names come before their order.
    (
        &[
            (b"refs/namespaces/t/refs/heads/n", COMMIT),
            (b"refs/namespaces/t/refs/heads/m", BLOB),
        ],
        MAIN,
        67,
    ),
];

fn is_name_judged_so(alloc: Global, row: &NameRow<'_>) -> Result<bool, Fault> {
    let tenant = tenant_of(alloc, row.2, row.3, row.4)?;
    Ok(code_of(check_name(row.0, row.1, &tenant)) == row.5)
}

fn push_zeros(numbers: &mut Vec<u64>, count: usize) -> Result<(), Fault> {
    for _ in 0..count {
        numbers.push(0)?;
    }
    Ok(())
}

fn push_empty_refs(alloc: Global, refs: &mut Vec<RawRef>, count: usize) -> Result<(), Fault> {
    for _ in 0..count {
        push_ref(alloc, refs, b"", 0)?;
    }
    Ok(())
}

fn is_number_row_judged_so(alloc: Global, row: &NumberRow<'_>) -> Result<bool, Fault> {
    let mut tenant = tenant_of(alloc, b"t", row.1, MAIN)?;
    push_zeros(&mut tenant.numbers, row.2)?;
    push_empty_refs(alloc, &mut tenant.refs, row.3)?;
    Ok(code_of(check_numbers(row.0, &tenant)) == row.4)
}

fn push_refs(alloc: Global, refs: &mut Vec<RawRef>, rows: &[(&[u8], u64)]) -> Result<(), Fault> {
    for (name, place) in rows {
        push_ref(alloc, refs, name, *place)?;
    }
    Ok(())
}

fn is_ref_row_judged_so(
    alloc: Global,
    objects: &[RawObject],
    row: &RefRow<'_>,
) -> Result<bool, Fault> {
    let mut tenant = tenant_of(alloc, b"t", &[0, 1, 2], row.1)?;
    push_refs(alloc, &mut tenant.refs, row.0)?;
    Ok(code_of(check_refs(alloc, objects, &tenant)) == row.2)
}

fn are_ref_rows_judged_so(alloc: Global, objects: &[RawObject]) -> Result<bool, Fault> {
    for row in REFS {
        if !is_ref_row_judged_so(alloc, objects, row)? {
            return Ok(false);
        }
    }
    Ok(true)
}

fn are_refs_judged_so(alloc: Global) -> Result<bool, Fault> {
    let objects = objects_of(alloc, OBJECTS)?;
    are_ref_rows_judged_so(alloc, &objects)
}

fn push_tenant(
    alloc: Global,
    tenants: &mut Vec<RawTenant>,
    name: &[u8],
    numbers: &[u64],
) -> Result<(), Fault> {
    tenants.push(tenant_of(alloc, name, numbers, MAIN)?)?;
    Ok(())
}

// The answer for three objects, of which two tenants have these.
fn code_of_held(alloc: Global, first: &[u64], second: &[u64]) -> Result<u16, Fault> {
    let mut tenants = Vec::new(alloc);
    push_tenant(alloc, &mut tenants, b"t", first)?;
    push_tenant(alloc, &mut tenants, b"u", second)?;
    Ok(code_of(check_held(alloc, 3, &tenants)))
}

// The numbers of two tenants' objects, and the number of the refusal.
const HELD: &[(&[u64], &[u64], u16)] = &[
    (&[2, 0], &[0, 1], 0),
    (&[2], &[0], 64),
    (&[], &[0, 1], 64),
    (&[0, 1, 2], &[], 0),
];

#[test]
fn judges_names(rt: HostRuntime) {
    for row in NAMES {
        assert!(rt; is_name_judged_so(rt.alloc(), row) == Ok(true));
    }
}

#[test]
fn judges_numbers_and_counts(rt: HostRuntime) {
    for row in NUMBERS {
        assert!(rt; is_number_row_judged_so(rt.alloc(), row) == Ok(true));
    }
}

#[test]
fn judges_refs_and_head(rt: HostRuntime) {
    assert!(rt; are_refs_judged_so(rt.alloc()) == Ok(true));
}

#[test]
fn judges_what_is_held(rt: HostRuntime) {
    for (first, second, code) in HELD {
        assert!(rt; code_of_held(rt.alloc(), first, second) == Ok(*code));
    }
}
