//! Commits, trees and tags that git 2.39 made, with the names that it gave them: merges, an
//! encoding, a message that is empty, each mode, names around a dot and a slash, a tag of a tag and
//! one without a tagger.

use git_names::{Kind, Sha1Naming, name_of};
use git_objects::{read_commit, read_tag, read_tree, write_commit, write_tag, write_tree};
use std::alloc::Global;

// What single bytes of a text stand for.
type Short<'a> = &'a [(u8, &'a [u8])];

// Who made most commits, and all tags.
const PEOPLE: Short<'static> = &[
    (
        b'%',
        b"author A U Thor <author@example.com> 1112911993 -0700\n",
    ),
    (
        b'#',
        b" C O Mitter <committer@example.com> 1112912053 +0230\n",
    ),
];

// The entries of trees, each under a letter.
const ENTRIES: Short<'static> = &[
    (
        b'A',
        b"100644 ..b\0\xf7\x19\xef\xd40\xd5+\xcf\xc8VjC\xb2\xebeV\x88\xd3\x88q",
    ),
    (
        b'B',
        b"100644 .hidden\0\xa27<r-\xed\xbf\x05\xf6f\x9e\xba\x1e\xa0DHB\x13\xd0=",
    ),
    (
        b'C',
        b"40000 a-b\0ZbE\xfd\xa7\xdc\06\xe8\xbf\x9e\x16i\x94AnY\xd9\x07 ",
    ),
    (
        b'D',
        b"100644 a.txt\0\xce\x016%\x03\x0b\xa8\xdb\xa9\x06\xf7V\x96\x7f\x9e\x9c\xa3\x94FJ",
    ),
    (
        b'E',
        b"40000 a\0\xabi\xb4\xab\xf3\xbb\x84\xd4\xe2h\xbdB\xd8NJ\x9a^$+\xd3",
    ),
    (
        b'F',
        b"100644 a0\0\xb6\x80%4]S\x01\xab\xadM\x9e\xc9\x16oERC\xa0\xd7F",
    ),
    (
        b'G',
        b"100644 caf\xc3\xa9 b.txt\0\xf2\xadlv\xf0\x11Zk\xa5\xb0\x04V\xa8I\x81\x0e~\xc0\xaf ",
    ),
    (
        b'H',
        b"40000 deep\07\x9a\xbdk\x05\x04U@N,\xf07j\x94T\xb7F\xcc\xa3p",
    ),
    (
        b'I',
        b"100644 four\0\xb8blL\xff(IbO\xb6\x7f\x87\xcd\n\xd7+\x166q\xad",
    ),
    (
        b'J',
        b"120000 link\0\x8d\x14\xcb\xf9\x83\xb3\xfa\xd6\x83\x17\x1c\x94\x18\x99\x8d\x9fh4\x08#",
    ),
    (
        b'K',
        b"100755 run\0\x1a$\x85%\x1c3\xa7\x0429L\x93\xfb\x893\x0e\xf2\x14\xbf\xc9",
    ),
    (
        b'L',
        b"160000 sub\0\x83l\x14TY\xfbc\x11\xd5\xfd\x8f\xfb'7\xae\xd7\x01\x0e\xa17",
    ),
    (
        b'M',
        b"100644 three\0\0u\x0e\xdc\x07\xd6A]\xcc\x07\xae\x03Q\xe99{\x02\"\xb7\xba",
    ),
    (
        b'N',
        b"40000 er\0\x8a6Q\xe1\xdb\xef\x13\xe4S\x1b\xbe*\xf2\\\"\x96@Q\xcb5",
    ),
];

// The objects of each kind are in one text, with `;` between two of them. Each is written as the 40
// digits of its name and then its contents, in which bytes of `PEOPLE` or `ENTRIES` are short for
// others.
const COMMITS: &[u8] = b"ff412f8fe7dc86624567e8ebe1abe8cee4058709\
    tree 2e81171448eb9f2ee3821e3d447aa6b2fe3ddba1\n\
    %committer#\n\
    Say hello\n;\
    e682a05acf59e507d42e0fee35087d91d4e5c788\
    tree 026b409f7152739b5044f2ab4f6689ec3be25b63\n\
    parent b1831c932328b7bf21b47c4c4d86c59c6c8f1553\n\
    %committer#\
    \n;\
    836c145459fb6311d5fd8ffb2737aed7010ea137\
    tree 7b0cacbc673ef45c6fd80574560110ed4861baf5\n\
    parent ff412f8fe7dc86624567e8ebe1abe8cee4058709\n\
    %committer#\n\
    Go deep\n;\
    b0abb8706c950a224ca36468261aae2e64176b9b\
    tree 026b409f7152739b5044f2ab4f6689ec3be25b63\n\
    parent 7828680f6816bc525ca3f23386e6b0657cbbd7cd\n\
    %committer#\n\
    Add a gitlink\n;\
    b1831c932328b7bf21b47c4c4d86c59c6c8f1553\
    tree 026b409f7152739b5044f2ab4f6689ec3be25b63\n\
    parent b0abb8706c950a224ca36468261aae2e64176b9b\n\
    author J\xf6rg <author@example.com> 1112911993 -0700\n\
    committer#\
    encoding ISO-8859-1\n\
    \n\
    Gr\xfc\xdfe\n;\
    e4e405bc9a0cfe08d422d4eef631905b1bd126d5\
    tree 1d2268f76fea8050fdf58be5f99b5ef2d43381e4\n\
    parent ff412f8fe7dc86624567e8ebe1abe8cee4058709\n\
    author A U Thor <author@example.com> 1700000000 +0000\n\
    committer#\n\
    Add names around a dot and a slash\n\
    \n\
    A body of\n\
    two lines.\n;\
    57cbe5914d457e2a4eeea18baf02e18f707e6541\
    tree 97085d6699fc413031e6173d455783ceaa77f8fc\n\
    parent e4e405bc9a0cfe08d422d4eef631905b1bd126d5\n\
    parent 836c145459fb6311d5fd8ffb2737aed7010ea137\n\
    %committer#\n\
    Merge branch 'side'\n;\
    7828680f6816bc525ca3f23386e6b0657cbbd7cd\
    tree a594b804e72bbea6fa9a39810152534f1fceff13\n\
    parent 57cbe5914d457e2a4eeea18baf02e18f707e6541\n\
    parent 47843038d147eeb65ff09a43624e7f9d72f65f14\n\
    parent ff3819a528f5758a36c9606d26d2449e5a688332\n\
    %committer#\n\
    Merge two at once\n";

const TREES: &[u8] = b"379abd6b050455404e2cf0376a9454b746cca370N;\
    2e81171448eb9f2ee3821e3d447aa6b2fe3ddba1D;\
    7b0cacbc673ef45c6fd80574560110ed4861baf5DGH;\
    1d2268f76fea8050fdf58be5f99b5ef2d43381e4ABCDEFJK;\
    97085d6699fc413031e6173d455783ceaa77f8fcABCDEFGHJK;\
    026b409f7152739b5044f2ab4f6689ec3be25b63ABCDEFGHIJKLM";

const TAGS: &[u8] = b"6eceee50a611d37a90d97336cc91f4d148931809\
    object 7828680f6816bc525ca3f23386e6b0657cbbd7cd\n\
    type commit\n\
    tag v0.1\n\
    \n\
    An old tag without a tagger\n;\
    86ea9681c60005b032814683a7d26c0eee662e31\
    object e682a05acf59e507d42e0fee35087d91d4e5c788\n\
    type commit\n\
    tag v1\n\
    tagger#\n\
    Version 1\n;\
    868f4659c306e74d403e52b45e53a41289f54a9d\
    object ce013625030ba8dba906f756967f9e9ca394464a\n\
    type blob\n\
    tag blob-tag\n\
    tagger#\n\
    A blob\n;\
    aa7e92f703b621bb23d007bd08cced2ae7bb4083\
    object 86ea9681c60005b032814683a7d26c0eee662e31\n\
    type tag\n\
    tag of-tag\n\
    tagger#\n\
    A tag of a tag\n;\
    d6d9ed6a74a953e3513864c269ba7e9b39bb6c1d\
    object b0abb8706c950a224ca36468261aae2e64176b9b\n\
    type commit\n\
    tag v2\n\
    tagger#\n\
    Version 2\n\
    \n\
    with a body\n;\
    ed52ba1bfceb4e0499ff16b2eeb7230fb85c19a0\
    object e682a05acf59e507d42e0fee35087d91d4e5c788\n\
    type commit\n\
    tag release/1.0\n\
    tagger#\n\
    In a directory\n";

fn is_named_so(alloc: Global, kind: Kind, digits: &[u8], contents: &[u8]) -> bool {
    match name_of(alloc, &Sha1Naming, kind, contents) {
        Ok(id) => id.to_hex().as_slice() == digits,
        Err(_) => false,
    }
}

// Whether contents are read, and there was room to write them again.
fn writes_commit(alloc: Global, contents: &[u8], written: &mut Vec<u8>) -> bool {
    match read_commit(alloc, contents) {
        Ok(Some(parts)) => write_commit(&parts, written).is_ok(),
        _ => false,
    }
}

fn writes_tree(alloc: Global, contents: &[u8], written: &mut Vec<u8>) -> bool {
    match read_tree(alloc, contents) {
        Ok(Some(entries)) => write_tree(&entries, written).is_ok(),
        _ => false,
    }
}

fn writes_tag(alloc: Global, contents: &[u8], written: &mut Vec<u8>) -> bool {
    match read_tag(alloc, contents) {
        Ok(Some(parts)) => write_tag(&parts, written).is_ok(),
        _ => false,
    }
}

fn writes(alloc: Global, kind: Kind, contents: &[u8], written: &mut Vec<u8>) -> bool {
    match kind {
        Kind::Commit => writes_commit(alloc, contents, written),
        Kind::Tree => writes_tree(alloc, contents, written),
        Kind::Tag => writes_tag(alloc, contents, written),
        Kind::Blob => false,
    }
}

fn is_same(alloc: Global, kind: Kind, contents: &[u8]) -> bool {
    let mut written = Vec::new(alloc);
    writes(alloc, kind, contents, &mut written) && written.as_slice() == contents
}

// Writes what a byte stands for, which is itself where nothing is said of it.
fn takes(out: &mut Vec<u8>, short: Short<'_>, byte: u8) -> bool {
    match short.iter().find(|row| row.0 == byte) {
        Some(row) => out.extend_from_slice(row.1).is_ok(),
        None => out.push(byte).is_ok(),
    }
}

fn takes_all(out: &mut Vec<u8>, short: Short<'_>, text: &[u8]) -> bool {
    for byte in text {
        if !takes(out, short, *byte) {
            return false;
        }
    }
    true
}

fn short_of(kind: Kind) -> Short<'static> {
    match kind {
        Kind::Tree => ENTRIES,
        _ => PEOPLE,
    }
}

// Whether an object is read, written again to the same bytes, and named as Git names it.
fn goes(alloc: Global, kind: Kind, digits: &[u8], text: &[u8]) -> bool {
    let mut contents = Vec::new(alloc);
    takes_all(&mut contents, short_of(kind), text)
        && is_same(alloc, kind, &contents)
        && is_named_so(alloc, kind, digits, &contents)
}

fn is_made(alloc: Global, kind: Kind, made: &[u8]) -> bool {
    match (made.get(..40), made.get(40..)) {
        (Some(digits), Some(text)) => goes(alloc, kind, digits, text),
        _ => false,
    }
}

// The index of the first object of a text for which this does not hold.
fn first_otherwise(alloc: Global, kind: Kind, all: &[u8]) -> Option<usize> {
    all.split(|byte| *byte == b';')
        .position(|made| !is_made(alloc, kind, made))
}

#[test]
fn reads_and_writes_what_git_made(rt: HostRuntime) {
    assert_eq!(rt; first_otherwise(rt.alloc(), Kind::Commit, COMMITS), None);
    assert_eq!(rt; first_otherwise(rt.alloc(), Kind::Tree, TREES), None);
    assert_eq!(rt; first_otherwise(rt.alloc(), Kind::Tag, TAGS), None);
}
