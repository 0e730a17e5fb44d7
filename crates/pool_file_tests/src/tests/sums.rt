//! The sizes of tenants' trees.

use super::indexed::{
    BLOB, Check, EMPTY, NO_TREE, OBJECTS, OF_DIRECTORY, OF_EMPTY, OF_FILE, OF_GITLINK, Row,
    are_judged_so,
};
use super::parts::code_of;
use content_pool::Bytes;
use git_names::{Kind, Name, Sha1Naming, name_of};
use indexmap::IndexMap;
use pool_file_checks::check_sums;
use pool_file_format::{Fault, RawObject};
use std::alloc::Global;

const ROWS: &[Row<'static>] = &[
    (&[], 0),
    (&[BLOB], 0),
    (&[EMPTY], 0),
    (&[BLOB, OF_FILE, OF_DIRECTORY], 0),
    (&[OF_GITLINK], 0),
    // An empty directory, alone and after what is well.
    (&[EMPTY, OF_EMPTY], 65),
    (&[EMPTY, BLOB, OF_FILE, OF_EMPTY, OF_DIRECTORY], 65),
    // A tree that is missing or comes later has no files here.
    (&[OF_DIRECTORY], 65),
    (&[OF_DIRECTORY, BLOB, OF_FILE], 65),
    (&[NO_TREE], 65),
    (&[BLOB, OF_FILE, NO_TREE], 65),
];

// How many trees there are on one another, how long the names of their entries are, the letters of
// the directories, each of which is the tree below, and the letters of the files.
type Level<'a> = (usize, usize, &'a [u8], &'a [u8]);

// Levels from the lowest on, and the number of the refusal, 0 for none.
type Tower<'a> = (&'a [Level<'a>], u16);

const TOWERS: &[Tower<'static>] = &[
    // 256 components, and 257.
    (&[(1, 1, b"", b"a"), (255, 1, b"a", b"")], 0),
    (&[(1, 1, b"", b"a"), (256, 1, b"a", b"")], 65),
    // The deepest entry decides, and not the last.
    (&[(1, 1, b"", b"a"), (255, 1, b"a", b"b")], 0),
    (&[(1, 1, b"", b"a"), (256, 1, b"a", b"b")], 65),
    // Paths of 16,383 bytes, and of 16,384: in a file's name, or in a directory's.
    (&[(1, 16_383, b"", b"a")], 0),
    (&[(1, 16_384, b"", b"a")], 65),
    (&[(1, 16_381, b"", b"a"), (1, 1, b"a", b"")], 0),
    (&[(1, 16_382, b"", b"a"), (1, 1, b"a", b"")], 65),
    (&[(1, 1, b"", b"a"), (1, 16_381, b"a", b"")], 0),
    (&[(1, 1, b"", b"a"), (1, 16_382, b"a", b"")], 65),
    // 256 components of 63 bytes with slashes between are 16,383 bytes.
    (&[(1, 63, b"", b"a"), (255, 63, b"a", b"")], 0),
    (&[(1, 64, b"", b"a"), (255, 63, b"a", b"")], 65),
    // The fifth power of 16 is 1,048,576; one file more is above it.
    (&[(1, 1, b"", SIXTEEN), (4, 1, SIXTEEN, b"")], 0),
    (
        &[
            (1, 1, b"", SIXTEEN),
            (3, 1, SIXTEEN, b""),
            (1, 1, SIXTEEN, b"q"),
        ],
        65,
    ),
    // A count of files that wraps around in 32 bits.
    (&[(1, 1, b"", SIXTEEN), (7, 1, SIXTEEN, b"")], 65),
];

const SIXTEEN: &[u8] = b"abcdefghijklmnop";

fn append_letters(contents: &mut Vec<u8>, letter: u8, length: usize) -> Result<(), Fault> {
    for _ in 0..length {
        contents.push(letter)?;
    }
    Ok(())
}

fn append_entry(
    contents: &mut Vec<u8>,
    mode: &[u8],
    letter: u8,
    length: usize,
    id: &Name,
) -> Result<(), Fault> {
    contents.extend_from_slice(mode)?;
    append_letters(contents, letter, length)?;
    contents.push(0)?;
    contents.extend_from_slice(id.as_bytes())?;
    Ok(())
}

fn append_entries(
    contents: &mut Vec<u8>,
    mode: &[u8],
    letters: &[u8],
    length: usize,
    id: &Name,
) -> Result<(), Fault> {
    for letter in letters {
        append_entry(contents, mode, *letter, length, id)?;
    }
    Ok(())
}

fn append_tree(contents: &mut Vec<u8>, level: &Level<'_>, below: &Name) -> Result<(), Fault> {
    append_entries(contents, b"40000 ", level.2, level.1, below)?;
    append_entries(contents, b"100644 ", level.3, level.1, below)
}

fn tree_on(alloc: Global, level: &Level<'_>, below: &Name) -> Result<Vec<u8>, Fault> {
    let mut contents = Vec::new(alloc);
    append_tree(&mut contents, level, below)?;
    Ok(contents)
}

// The objects of a tower, their numbers under their names, and the name of the last one.
#[derive(Drop)]
struct Grown {
    objects: Vec<RawObject>,
    index: IndexMap<Name, usize>,
    below: Name,
}

fn add_object(grown: &mut Grown, id: Name, bytes: Vec<u8>) -> Result<(), Fault> {
    let bytes = Bytes::taken(bytes);
    grown.objects.push(RawObject { kind: 2, bytes })?;
    grown.index.insert(id, grown.index.len())?;
    grown.below = id;
    Ok(())
}

fn add_tree(alloc: Global, grown: &mut Grown, level: &Level<'_>) -> Result<(), Fault> {
    let bytes = tree_on(alloc, level, &grown.below)?;
    let id = name_of(alloc, &Sha1Naming, Kind::Tree, &bytes)?;
    add_object(grown, id, bytes)
}

fn add_level(alloc: Global, grown: &mut Grown, level: &Level<'_>) -> Result<(), Fault> {
    for _ in 0..level.0 {
        add_tree(alloc, grown, level)?;
    }
    Ok(())
}

fn add_levels(alloc: Global, grown: &mut Grown, levels: &[Level<'_>]) -> Result<(), Fault> {
    for level in levels {
        add_level(alloc, grown, level)?;
    }
    Ok(())
}

fn code_of_tower(alloc: Global, levels: &[Level<'_>]) -> Result<u16, Fault> {
    let mut grown = Grown {
        objects: Vec::new(alloc),
        index: IndexMap::new(alloc),
        below: Name::from_bytes([0; 20]),
    };
    add_levels(alloc, &mut grown, levels)?;
    Ok(code_of(check_sums(alloc, &grown.objects, &grown.index)))
}

#[test]
fn judges_the_trees_of_a_tenant(rt: HostRuntime) {
    assert!(rt; are_judged_so(rt.alloc(), &Sha1Naming, &Check::Sums, OBJECTS, ROWS) == Ok(true));
}

#[test]
fn trees_may_reach_each_limit(rt: HostRuntime) {
    for (levels, code) in TOWERS {
        assert!(rt; code_of_tower(rt.alloc(), levels) == Ok(*code));
    }
}
