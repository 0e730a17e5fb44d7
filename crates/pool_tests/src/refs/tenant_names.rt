//! Names of tenants: full names by gitnamespaces(7), and the limit.

use std::alloc::Global;
use std::test::Fail;
use tenant_refs::{RefName, TenantName, TenantNameFault, full_name, is_tenant_name};

const JUDGED: &[(&[u8], bool)] = &[
    (b"a", true),
    (b"a/b", true),
    (b"A-z_09", true),
    (b"_", true),
    (b"0/1/2", true),
    (b"", false),
    (b"a/", false),
    (b"/a", false),
    (b"a//b", false),
    (b"-a", false),
    (b"a/-b", false),
    (b"a.b", false),
    (b"a b", false),
    (b"caf\xc3\xa9", false),
    (b"a\n", false),
];

// Whether `a/b` with so many `x` after it is a tenant name.
fn takes_so_many_more(alloc: Global, count: usize) -> Result<bool, Fail> {
    let mut text = Vec::from_slice(alloc, b"a/b")?;
    for _ in 0..count {
        text.push(b'x')?;
    }
    Ok(is_tenant_name(&text))
}

// Whether a name is read with its bytes, and comes after another name.
fn reads_after(text: &[u8], earlier: &[u8]) -> Result<bool, Fail> {
    let name = TenantName::read(text)?;
    let again = TenantName::read(text)?;
    let earlier = TenantName::read(earlier)?;
    Ok(name.as_bytes() == text && again == name && earlier < name)
}

fn code_of(text: &[u8]) -> u16 {
    match TenantName::read(text) {
        Ok(_) => 0,
        Err(fault) => fault.code(),
    }
}

// Whether the branch `m` of the tenant `a/b` has this full name.
fn has_full_name(alloc: Global, text: &[u8]) -> Result<bool, Fail> {
    let tenant = TenantName::read(b"a/b")?;
    let branch = RefName::read(alloc, b"refs/heads/m")?;
    let full = full_name(alloc, &tenant, &branch)?;
    Ok(full.as_slice() == text)
}

#[test]
fn judges_tenant_names_by_their_parts(rt: HostRuntime) {
    for (text, is_well) in JUDGED {
        assert_eq!(rt; is_tenant_name(text), *is_well, "{text:?}");
    }
}

#[test]
fn reads_a_tenant_name_of_64_bytes_in_all(rt: HostRuntime) -> Result<(), Fail> {
    assert!(rt; takes_so_many_more(rt.alloc(), 61)? && !takes_so_many_more(rt.alloc(), 62)?);
    assert!(rt; reads_after(b"team/a", b"team")?);
    assert_eq!(rt; code_of(b"a//b"), 32);
    assert_eq!(rt; TenantNameFault::BadTenantName.code(), 32);
    Ok(())
}

#[test]
fn puts_each_part_into_its_own_namespace(rt: HostRuntime) -> Result<(), Fail> {
    let expected = b"refs/namespaces/a/refs/namespaces/b/refs/heads/m";
    assert!(rt; has_full_name(rt.alloc(), expected)?);
    Ok(())
}
