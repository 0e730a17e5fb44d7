//! What no contract says about commits: that calls succeed, and that the names are those that Git
//! gives.
//!
//! `git fast-import` gave each name, for a stream that does what the steps say. Each commit of that
//! stream follows a `reset`, so that its only parents are those that it names. The blob `hello` has
//! the name ce013625030ba8dba906f756967f9e9ca394464a, and the empty tree
//! 4b825dc642cb6eb9a060e54bf8d69288fbee4904.

use crate::repository::{Case, first_wrong};
use std::alloc::Global;

// What cases begin with: a commit that is begun, one of two directories, and one on a commit of one
// file.
const BEGUN: &[u8] = b"blob 1 hello\n;\
    begin x\n";

const TWO_DIRECTORIES: &[u8] = b"blob 1 hello\n;\
    begin x\n;\
    modify 0 100644 :1 a/b/x;\
    modify 0 100644 :1 c/y;\
    close 2 cf780e9a36220c9a1149be6eff64a0394682cccd";

const ON_ONE_FILE: &[u8] = b"blob 1 hello\n;\
    begin x\n;\
    modify 0 100644 :1 f;\
    close 2 28139c25c808723300683a56bda158d153221c0e;\
    begin y\n;\
    from 2";

// The steps of a case are one text, because the prover reads a text faster than a table.
const CASES: &[Case] = &[
    Case {
        does: "one file",
        begin: BEGUN,
        steps: b"modify 0 100644 :1 test.txt;\
            close 2 eb92ddbd5e6860a8c3150a81fb07fa9e154ca366;\
            stored 3",
    },
    Case {
        does: "a file before a directory that begins like it",
        begin: BEGUN,
        steps: b"modify 0 100644 :1 a/x;\
            modify 0 100644 ce013625030ba8dba906f756967f9e9ca394464a a.txt;\
            close 2 e9c2c12b6a92247b55498374994d945a526fba79",
    },
    Case {
        does: "an empty directory goes, and no files are the empty tree",
        begin: BEGUN,
        steps: b"modify 0 100644 :1 d;\
            modify 0 100644 :1 d/x;\
            delete d/x;\
            shows_none d;\
            shows 40000 4b825dc642cb6eb9a060e54bf8d69288fbee4904;\
            close 2 7b8051db3dcc0fcfd006919cfa7376ddbd7bdc1a",
    },
    Case {
        does: "a directory is renamed below itself, and a missing one is refused",
        begin: BEGUN,
        steps: b"modify 0 100644 :1 a/x;\
            rename 0 a a/b;\
            rename 18 a/x c;\
            rename 20 a/b/x;\
            close 2 4345a779688b921e02cf580792347a48c0f36731",
    },
    Case {
        does: "a quoted path is copied",
        begin: BEGUN,
        steps: b"modify 0 100755 :1 \"a\\303\\251\";\
            copy 0 \"a\\303\\251\" b;\
            copy 18 c d;\
            close 2 8ae2e6a1437a696508d6e20789e217b3f72c3d06",
    },
    Case {
        does: "all files are deleted",
        begin: BEGUN,
        steps: b"modify 0 100644 :1 a;\
            delete_all;\
            modify 0 120000 :1 b;\
            close 2 7face578196e30c3906c0a95e41f58a761d23793",
    },
    Case {
        does: "stored trees are put below the root and at it",
        begin: BEGUN,
        steps: b"modify 0 100644 :1 a/x;\
            modify 0 100644 :1 b;\
            close 2 671fc0509a2a93f953e1052a3356c3543bfc35dc;\
            begin y\n;\
            modify 0 40000 e31a96220fbfbe7601ecc086a36b96dc27a8867e c/d;\
            modify 0 40000 3a861b5172a436341f89399ed8d03f10b401e0d4 e;\
            close 3 ca5e24b026d96727921534ed1ce9ffaf26ea2617;\
            begin y\n;\
            modify 0 40000 3a861b5172a436341f89399ed8d03f10b401e0d4;\
            delete b;\
            close 4 2fa64f96ae72e85c37de37ada45a34d1f1460dbc",
    },
    Case {
        does: "a gitlink names what is not there, or a commit by its mark",
        begin: BEGUN,
        steps: b"modify 0 160000 0123456789abcdef0123456789abcdef01234567 s;\
            close 2 07b06b2782888871eacdc0b5a7af160a69c5210b;\
            begin x\n;\
            modify 0 100644 :1 f;\
            close 2 28139c25c808723300683a56bda158d153221c0e;\
            begin y\n;\
            modify 15 160000 :1 s;\
            modify 0 160000 :2 s;\
            close 3 c43fdc96345badd82051e043fbabb3ecf6379bf8",
    },
    Case {
        does: "a message with an encoding",
        begin: b"",
        steps: b"blob 1 hello\n;\
            begin caf\xe9\n encoding;\
            modify 0 100644 :1 f;\
            close 2 827a8a12388b9fd33e48be4f9dac1dd88322610a",
    },
    Case {
        does: "an author of its own; without one the committer wrote it",
        begin: b"",
        steps: b"blob 1 hello\n;\
            begin x\n author;\
            modify 0 100644 :1 f;\
            close 2 c3f893b315af3e6aba263bd797d9bfefcfe9862e;\
            begin x\n;\
            modify 0 100644 :1 f;\
            close 3 28139c25c808723300683a56bda158d153221c0e;\
            begin;\
            close 4 fe6eed17e2d2a61efbf96077e419a9fee078226d",
    },
    Case {
        does: "parents as they are given: a first one, one twice, one without files",
        begin: ON_ONE_FILE,
        steps: b"modify 0 100644 :1 g;\
            close 3 c5c1553e24728c2ae274b5f342386f70db9a659d;\
            begin z\n;\
            from 2;\
            from 3;\
            merge 0 2;\
            merge 0 2;\
            delete f;\
            close 4 8080a26fe4529907c1300c8a475468da0b8b93c1;\
            begin w\n;\
            merge 0 3;\
            modify 0 100644 :1 h;\
            close 5 f2da538fe3593a45d95e7f88d78a58e61da2748f",
    },
    Case {
        does: "1,024 parents, and no more",
        begin: ON_ONE_FILE,
        steps: b"merges 1023 2;\
            merge 25 2;\
            close 3 cef631dfa1d6d6ad99631540489c1052c13be23d",
    },
    Case {
        does: "contents that come with their file, and none stored where it is refused",
        begin: b"",
        steps: b"begin x\n;\
            inline 20 100644  z;\
            begin x\n;\
            inline 15 160000 s z;\
            begin x\n;\
            inline 15 40000 s z;\
            stored 0;\
            begin x\n;\
            inline 0 100644 a/f hello\n;\
            inline 0 100755 g;\
            stored 2;\
            close 2 ae6fbea308824555114f0dbe1a395008a9682eb7",
    },
    Case {
        does: "a commit that goes on where the last one ended reads no tree again",
        begin: TWO_DIRECTORIES,
        steps: b"go_on 0 y\n;\
            from 2;\
            modify 0 100644 :1 a/b/z;\
            close 3 65150c2c7cc044e5c22999905220aa0b1ad896b6;\
            go_on 0 z\n;\
            from 3;\
            delete a/b/x;modify 0 100755 :1 c/y;\
            close 4 b6f1003b0aa797a931291bfb4704e1a5403ba704;\
            go_on 0",
    },
    Case {
        does: "a commit reads the trees on its way, each once; another parent is read anew",
        begin: TWO_DIRECTORIES,
        steps: b"begin y\n;\
            from 2;\
            modify 0 100644 :1 a/b/z;\
            close 3 65150c2c7cc044e5c22999905220aa0b1ad896b6;\
            go_on 3 y\n;\
            from 2;\
            modify 0 100644 :1 a/d;\
            close 5 3a2581910f68785f3b1d00f81f7a87d1ca278ee8;\
            go_on 5 z\n;\
            from 3;\
            delete a/b/x;modify 0 100755 :1 c/y;\
            close 4 b6f1003b0aa797a931291bfb4704e1a5403ba704;\
            go_on 9 v\n;\
            from 4;\
            merge 0 5;\
            copy 0 c e;\
            close 7 1f847037b07c792fcbebcb649bc827f77462dd5d;\
            go_on 9",
    },
    Case {
        does: "files that are left stay only where the commit does not begin otherwise",
        begin: TWO_DIRECTORIES,
        steps: b"go_on 0 w\n;\
            shows 100644 ce013625030ba8dba906f756967f9e9ca394464a a/b/x;\
            delete_all;\
            shows_none a;\
            modify 0 100644 :1 f;\
            close 6 f26b2c015f836eba8d375421fee9a482e1476879",
    },
    // `git fast-import` printed the names.
    Case {
        does: "what is shown, whose trees are stored",
        begin: BEGUN,
        steps: b"modify 0 100644 :1 a/b/x;\
            stored 1;\
            shows 40000 e85c8ddedabee0bcf8944d9aaacfbb35e6216b9b a;\
            stored 3;\
            shows 100644 ce013625030ba8dba906f756967f9e9ca394464a a/b/x;\
            shows_none q;\
            stored 3;\
            shows 40000 cfb573506b2824c50daea194ce7cdd6797c54980;\
            stored 4;\
            close 2 4345a779688b921e02cf580792347a48c0f36731;\
            stored 5",
    },
    Case {
        does: "refusals in their order, after which nothing has changed",
        begin: BEGUN,
        steps: b"modify 13 100644 :9;\
            modify 14 100644 4b825dc642cb6eb9a060e54bf8d69288fbee4904;\
            modify 13 40000 :9;\
            modify 15 40000 :1;\
            modify 15 40000 ce013625030ba8dba906f756967f9e9ca394464a;\
            shows 40000 4b825dc642cb6eb9a060e54bf8d69288fbee4904;\
            modify 15 100644 4b825dc642cb6eb9a060e54bf8d69288fbee4904;\
            modify 20 100644 :1;\
            modify 20 160000 ce013625030ba8dba906f756967f9e9ca394464a;\
            modify_long 25 257;\
            shows 40000 4b825dc642cb6eb9a060e54bf8d69288fbee4904;\
            modify_long 0 256",
    },
];

#[test]
fn commits_go_as_git_says(rt: HostRuntime) {
    assert_eq!(rt; first_otherwise(rt.alloc()), None);
}

// What the first case does that fails, and the step that fails.
fn first_otherwise(alloc: Global) -> Option<(&'static str, &'static [u8])> {
    for case in CASES {
        if let Some(step) = first_wrong(alloc, case) {
            return Some((case.does, step));
        }
    }
    None
}
