//! Trees and tags that are refused, and similar ones that are read.

mod by_others;
mod made_by_git;

use git_objects::{
    FileMode, TreeEntry, is_entry_name, mode_digits, read_mode, read_tag, read_tree,
};
use std::alloc::Global;
use std::cmp::Ordering;

// A file `a`, a file `a.txt` and a directory `a`, each with an object name of twenty letters.
const THREE: &[u8; 90] =
    b"100644 a\0oooooooooooooooooooo100644 a.txt\0oooooooooooooooooooo40000 a\0oooooooooooooooooooo";

// The last two of them: `.` is less than the slash with which a directory's name is compared.
const FILE_FIRST: &[u8] = b"100644 a.txt\0oooooooooooooooooooo40000 a\0oooooooooooooooooooo";

// A file `a` and a directory `a`, with three entries between them and one after them.
const FAR_TWIN: &[u8] = b"100644 a\0oooooooooooooooooooo\
40000 a-\0oooooooooooooooooooo\
100644 a-b\0oooooooooooooooooooo\
100755 a.txt\0oooooooooooooooooooo\
40000 a\0oooooooooooooooooooo\
100644 a0\0oooooooooooooooooooo";

// A directory between files whose names go on with a byte that is less than a slash and with one
// that is more.
const BETWEEN: &[u8] = b"100644 a.txt\0oooooooooooooooooooo\
40000 a\0oooooooooooooooooooo\
100644 a0\0oooooooooooooooooooo";

// A directory after a file whose name goes on with a byte that is more than a slash.
const DIRECTORY_LAST: &[u8] = b"100644 a0\0oooooooooooooooooooo40000 a\0oooooooooooooooooooo";

// Which texts are trees.
const TREES: &[(&[u8], bool)] = &[
    (b"40000 x\0oooooooooooooooooooo", true),
    (b"040000 x\0oooooooooooooooooooo", false),
    (THREE, false),
    (
        b"100644 a\0oooooooooooooooooooo100644 a.txt\0oooooooooooooooooooo",
        true,
    ),
    (FILE_FIRST, true),
    (FAR_TWIN, false),
    (DIRECTORY_LAST, false),
    (BETWEEN, true),
    (
        b"40000 a\0oooooooooooooooooooo100644 a.txt\0oooooooooooooooooooo",
        false,
    ),
    (
        b"100644 b\0oooooooooooooooooooo100644 b\0oooooooooooooooooooo",
        false,
    ),
    (b"100644 a/b\0oooooooooooooooooooo", false),
    (b"100644 ..\0oooooooooooooooooooo", false),
    (b"100644 ...\0oooooooooooooooooooo", true),
    (b"100644 \0oooooooooooooooooooo", false),
    (b"100644 a\0ooooooooooooooooooo", false),
];

const TAGS: &[(&[u8], bool)] = &[
    (
        b"object ce013625030ba8dba906f756967f9e9ca394464a\ntype blob\ntag a.b\n\nx\n",
        true,
    ),
    (
        b"object ce013625030ba8dba906f756967f9e9ca394464a\ntype blob\ntag a..b\n\nx\n",
        false,
    ),
    (
        b"object ce013625030ba8dba906f756967f9e9ca394464a\ntype tree\ntag a.b\n\nx\n",
        false,
    ),
];

// Whether contents are those of a tree; `None` if memory ran out.
fn is_tree(alloc: Global, contents: &[u8]) -> Option<bool> {
    match read_tree(alloc, contents) {
        Ok(entries) => Some(entries.is_some()),
        Err(_) => None,
    }
}

fn is_tag(alloc: Global, contents: &[u8]) -> Option<bool> {
    match read_tag(alloc, contents) {
        Ok(parts) => Some(parts.is_some()),
        Err(_) => None,
    }
}

fn are_in_order(entries: &[TreeEntry<'_>]) -> bool {
    match entries {
        [file, directory] => {
            file.order(directory) == Ordering::Less
                && is_entry_name(file.name)
                && !is_entry_name(b"a/b")
        }
        _ => false,
    }
}

// Whether a file comes before a directory whose name is a prefix of the file's name.
fn has_the_file_first(alloc: Global) -> bool {
    match read_tree(alloc, FILE_FIRST) {
        Ok(Some(entries)) => are_in_order(&entries),
        _ => false,
    }
}

// The index of the first text for which the table is wrong.
fn first_tree_otherwise(alloc: Global) -> Option<usize> {
    TREES
        .iter()
        .position(|row| is_tree(alloc, row.0) != Some(row.1))
}

// The same for tags.
fn first_tag_otherwise(alloc: Global) -> Option<usize> {
    TAGS.iter()
        .position(|row| is_tag(alloc, row.0) != Some(row.1))
}

fn are_modes() -> bool {
    mode_digits(FileMode::Executable) == b"100755".as_slice()
        && read_mode(b"160000") == Some(FileMode::Gitlink)
}

#[test]
fn reads_trees_alone(rt: HostRuntime) {
    assert_eq!(rt; first_tree_otherwise(rt.alloc()), None);
}

#[test]
fn reads_a_file_before_a_directory_and_their_modes(rt: HostRuntime) {
    assert!(rt; has_the_file_first(rt.alloc()) && are_modes());
}

#[test]
fn refuses_tags_of_trees_and_names_of_no_ref(rt: HostRuntime) {
    assert_eq!(rt; first_tag_otherwise(rt.alloc()), None);
}
