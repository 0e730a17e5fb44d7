//! Whole files as lines of a text: the last digit of the number of the refusal (a point for none)
//! and the version, the letters of the objects, and a word for each tenant.
//!
//! That word has the name of the tenant, the digits of the numbers of its objects, and capital
//! letters for its refs, and for HEAD if that is not `refs/heads/main`. A line that begins with `#`
//! says what the lines after it show.

use super::parts::{Object, number_of, push_object, tenant_of};
use pool_file_format::{Fault, RawFile, RawObject, RawRef, RawTenant};
use std::alloc::Global;

// The names in these contents are those that `git hash-object` gave.
const OBJECTS: &[(u8, Object<'static>)] = &[
    (
        b'c',
        (
            1,
            b"tree 4b825dc642cb6eb9a060e54bf8d69288fbee4904\nauthor A <a@b> 0 +0000\ncommitter A <a@b> 0 +0000\n\nx\n",
        ),
    ),
    // The empty tree, a tree of the blob `b`, and one with the empty tree as a directory.
    (b'e', (2, b"")),
    (
        b'f',
        (
            2,
            b"100644 a\0\xce\x016%\x03\x0b\xa8\xdb\xa9\x06\xf7V\x96\x7f\x9e\x9c\xa3\x94FJ",
        ),
    ),
    (
        b'd',
        (
            2,
            b"40000 a\0K\x82]\xc6B\xcbn\xb9\xa0`\xe5K\xf8\xd6\x92\x88\xfb\xeeI\x04",
        ),
    ),
    (b'b', (3, b"hello\n")),
    // A tag `v` of the commit `c`.
    (
        b't',
        (
            4,
            b"object 7b8051db3dcc0fcfd006919cfa7376ddbd7bdc1a\ntype commit\ntag v\n\n",
        ),
    ),
    // Contents of no commit.
    (b'x', (1, b"x")),
    (b'A', (3, b"a")),
    (b'B', (3, b"b")),
    (b'D', (3, b"ab")),
];

// Full names of refs, and the places of their targets.
const REFS: &[(u8, &[u8], u64)] = &[
    (b'M', b"refs/namespaces/t/refs/heads/m", 1),
    (b'N', b"refs/namespaces/t/refs/heads/m", 0),
    (b'O', b"refs/namespaces/t/refs/heads/m", 5),
    (b'V', b"refs/namespaces/t/refs/tags/v", 4),
    (b'W', b"refs/namespaces/t/refs/tags/w", 4),
];

/// Whether a line says a file.
pub fn is_row(line: &[u8]) -> bool {
    match line {
        [] => false,
        [b'#', ..] => false,
        _ => true,
    }
}

/// The number of the refusal that a line says, 0 for none.
pub fn code_in(line: &[u8]) -> u16 {
    match line {
        [digit, ..] => number_of(*digit),
        [] => 0,
    }
}

fn version_in(line: &[u8]) -> u32 {
    match line {
        [_, b'1', ..] => 1,
        _ => 2,
    }
}

// A letter that stands for nothing is a mistake in a table.
fn push_letter(alloc: Global, objects: &mut Vec<RawObject>, letter: u8) -> Result<(), Fault> {
    for (own, (kind, bytes)) in OBJECTS {
        if *own == letter {
            return push_object(alloc, objects, *kind, bytes);
        }
    }
    Err(Fault::Device)
}

fn push_letters(alloc: Global, objects: &mut Vec<RawObject>, word: &[u8]) -> Result<(), Fault> {
    for letter in word {
        push_letter(alloc, objects, *letter)?;
    }
    Ok(())
}

/// Adds a ref.
pub fn push_ref(
    alloc: Global,
    refs: &mut Vec<RawRef>,
    name: &[u8],
    place: u64,
) -> Result<(), Fault> {
    let name = Vec::from_slice(alloc, name)?;
    refs.push(RawRef { name, place })?;
    Ok(())
}

fn push_ref_of(alloc: Global, refs: &mut Vec<RawRef>, letter: u8) -> Result<(), Fault> {
    for (own, name, place) in REFS {
        if *own == letter {
            return push_ref(alloc, refs, name, *place);
        }
    }
    Err(Fault::Device)
}

// Capital letters are refs, but for `H` and `K`, which are HEAD.
fn put_capital(alloc: Global, tenant: &mut RawTenant, letter: u8) -> Result<(), Fault> {
    match letter {
        b'H' => tenant.head = Vec::from_slice(alloc, b"HEAD")?,
        b'K' => tenant.head = Vec::from_slice(alloc, b"refs/heads/m")?,
        _ => push_ref_of(alloc, &mut tenant.refs, letter)?,
    }
    Ok(())
}

fn put_byte(alloc: Global, tenant: &mut RawTenant, byte: u8) -> Result<(), Fault> {
    match byte {
        b'0'..=b'9' => tenant.numbers.push(byte.wrapping_sub(b'0') as u64)?,
        b'A'..=b'Z' => put_capital(alloc, tenant, byte)?,
        _ => tenant.name.push(byte)?,
    }
    Ok(())
}

fn put_bytes(alloc: Global, tenant: &mut RawTenant, word: &[u8]) -> Result<(), Fault> {
    for byte in word {
        put_byte(alloc, tenant, *byte)?;
    }
    Ok(())
}

fn push_tenant(alloc: Global, tenants: &mut Vec<RawTenant>, word: &[u8]) -> Result<(), Fault> {
    let mut tenant = tenant_of(alloc, b"", &[], b"refs/heads/main")?;
    put_bytes(alloc, &mut tenant, word)?;
    tenants.push(tenant)?;
    Ok(())
}

fn put_word(alloc: Global, file: &mut RawFile, place: usize, word: &[u8]) -> Result<(), Fault> {
    match place {
        0 => Ok(()),
        1 => push_letters(alloc, &mut file.objects, word),
        _ => push_tenant(alloc, &mut file.tenants, word),
    }
}

fn put_words(alloc: Global, file: &mut RawFile, line: &[u8]) -> Result<(), Fault> {
    for (place, word) in line.split(|byte| *byte == b' ').enumerate() {
        put_word(alloc, file, place, word)?;
    }
    Ok(())
}

/// The file that a line says.
pub fn file_of(alloc: Global, line: &[u8]) -> Result<RawFile, Fault> {
    let mut file = RawFile {
        version: version_in(line),
        objects: Vec::new(alloc),
        tenants: Vec::new(alloc),
    };
    put_words(alloc, &mut file, line)?;
    Ok(file)
}
