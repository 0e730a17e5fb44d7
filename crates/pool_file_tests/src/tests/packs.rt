//! Entries of packs, compared with bytes that Git accepts.
//!
//! A script in Python made the bytes: its `zlib` read each entry back, with a checksum of its own,
//! and `git index-pack --strict --stdin` accepted packs of them.

use git_model::{Kind, Memory};
use git_names::{Name, Naming, Sha1Naming};
use pack_text::{adler32, append_entry, entry_len};
use std::alloc::Global;

// Contents, and the entry of a blob that has them.
const ENTRIES: &[(&[u8], &[u8])] = &[
    (b"", b"\x30\x78\x01\x01\0\0\xff\xff\0\0\0\x01"),
    (
        b"hello\n",
        b"\x36\x78\x01\x01\x06\0\xf9\xffhello\n\x08\x4b\x02\x1f",
    ),
];

// Blobs of so many bytes 7: the length of the entry, its SHA-1, and Adler-32 of the blob.
const SEVENS: &[(usize, u64, &[u8; 40], u32)] = &[
    (
        15,
        27,
        b"d7a35f0bd5dd805d6153def95ea3d6422854904f",
        56_033_386,
    ),
    (
        16,
        29,
        b"4e6361b848f1437459f36140f1e8feafc01a3f9a",
        63_438_961,
    ),
    (
        2_047,
        2_060,
        b"fcae2d1235cd33aabc55709565a6e60408cc1a24",
        4_178_589_690,
    ),
    (
        2_048,
        2_062,
        b"d47a600e67dfd048a3853f245e4362b4aa321a2f",
        824_195_073,
    ),
    (
        65_535,
        65_549,
        b"2d29cc55d90702bc2ff2a95fa5ee96c22be10435",
        49_086_563,
    ),
    (
        65_536,
        65_555,
        b"5cf78452818729faef801450453a35634cb3191a",
        56_033_386,
    ),
    (
        131_071,
        131_095,
        b"71488483d4e1b9dcfdd845d380dcf1c5151b6712",
        201_457_868,
    ),
];

fn entry_of(alloc: Global, contents: &[u8]) -> Result<Vec<u8>, Memory> {
    let mut out = Vec::new(alloc);
    append_entry(&mut out, Kind::Blob, contents)?;
    Ok(out)
}

fn has_entry(alloc: Global, contents: &[u8], wanted: &[u8]) -> Result<bool, Memory> {
    let entry = entry_of(alloc, contents)?;
    Ok(entry.as_slice() == wanted)
}

// What Python said of a blob of so many bytes 7.
fn of_sevens(alloc: Global, size: usize) -> Result<(u64, [u8; 40], u32), Memory> {
    let contents = Vec::from_elem(alloc, 7, size)?;
    let entry = entry_of(alloc, &contents)?;
    let digest = Name::from_bytes(Sha1Naming.digest(&entry)).to_hex();
    Ok((entry.len() as u64, digest, adler32(&contents)))
}

#[test]
fn appends_entries(rt: HostRuntime) {
    for (contents, wanted) in ENTRIES {
        assert!(rt; has_entry(rt.alloc(), *contents, *wanted) == Ok(true));
    }
}

#[test]
fn divides_contents_into_blocks(rt: HostRuntime) {
    for (size, length, digits, checksum) in SEVENS {
        let wanted = (*length, **digits, *checksum);
        assert!(rt; entry_len(*size as u64) == *length);
        assert!(rt; of_sevens(rt.alloc(), *size) == Ok(wanted));
    }
}
