//! What no clause states about edits: that calls succeed, and the names that Git gives.

use crate::branch::{Case, first_otherwise};
use git_paths::{Path, Place};
use std::alloc::Global;

const CASES: &[Case] = &[
    Case {
        does: "names the tree of one file as git does",
        steps: "put test.txt 83baae61804e65cc73a7201a7252750c76066a30\n\
            tree / d8329fc1cc938780ffdd9f94e0d364e0ea74f579",
    },
    // `git mktree` gave both names.
    Case {
        does: "lists a file before a directory that begins like it",
        steps: "put a/x hello\n\
            put a.txt hello\n\
            put a0 hello\n\
            tree a e31a96220fbfbe7601ecc086a36b96dc27a8867e\n\
            tree / 05fe239d84aa39652126ca721bbc3e1ab4843e23",
    },
    Case {
        does: "a file takes the place of a directory and the other way round",
        steps: "put d hello\n\
            put d/x hello\n\
            mode d 40000\n\
            put d hello\n\
            mode d 100644\n\
            none d/x\n\
            put d/x hello\n\
            drop d/x\n\
            none d\n\
            tree / empty",
    },
    Case {
        does: "a directory is renamed below itself",
        steps: "put a/x hello\n\
            rename a a/b\n\
            mode a/b/x 100644\n\
            none a/x\n\
            18 rename a/x c\n\
            20 rename a/b/x /\n\
            rename a a\n\
            mode a/b/x 100644",
    },
    Case {
        does: "a quoted path is copied",
        steps: "put \"a\\303\\251\" hello\n\
            copy \"a\\303\\251\" b\n\
            mode b 100644\n\
            mode \"a\\303\\251\" 100644\n\
            18 copy c d",
    },
    Case {
        does: "a file at the root is refused",
        steps: "20 put / hello\n\
            tree / empty",
    },
    Case {
        does: "a directory is copied to the root and the root moved",
        steps: "put a/x hello\n\
            put b hello\n\
            copy a /\n\
            mode x 100644\n\
            none b\n\
            rename / y\n\
            mode y/x 100644\n\
            clear\n\
            tree / empty",
    },
    // `git write-tree` gave both names.
    Case {
        does: "equal trees are stored once",
        steps: "put a/x hello\n\
            put b/x hello\n\
            store 9854b9a77fc33676ac0c5896aefadc58646f02aa\n\
            stored 2\n\
            put c hello\n\
            store b32af180dda50079e627a64158631e69e684154a\n\
            stored 3",
    },
    // `git write-tree` gave the name.
    Case {
        does: "a directory that is named has its mode",
        steps: "put a/b/c hello\n\
            mode a/b 40000\n\
            tree a/b 435927d2fe872add393f6b83553075ffeb232cba",
    },
    Case {
        does: "a path past the limits is refused",
        steps: "put-long 256 1\n\
            25 put-long 257 1\n\
            put-long 1 16383\n\
            25 put-long 1 16384",
    },
];

#[test]
fn files_go_as_git_says(rt: HostRuntime) {
    assert_eq!(rt; first_otherwise(rt.alloc(), CASES), None);
}

// Whether a path is read, and printed as it was written.
fn is_printed(alloc: Global, text: &[u8]) -> bool {
    match Path::read(alloc, text, Place::Last) {
        Ok((path, _)) => is_quoted_as(alloc, &path, text),
        Err(_) => false,
    }
}

fn is_quoted_as(alloc: Global, path: &Path, text: &[u8]) -> bool {
    let mut out = Vec::new(alloc);
    path.quote_into(&mut out).is_ok() && out.as_slice() == text
}

#[test]
fn a_quoted_path_is_printed(rt: HostRuntime) {
    assert!(rt; is_printed(rt.alloc(), b"\"a\\303\\251\""));
}
