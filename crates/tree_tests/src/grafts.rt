//! Stored trees that are put at a path, compared with the names that Git gives.

use crate::branch::{Case, first_otherwise, first_otherwise_of, first_wrong};
use tree_build::Files;

const CASES: &[Case] = &[
    // `git mktree` gave the name of the tree with a/b/test.txt alone.
    Case {
        does: "a stored tree stands below the path",
        steps: "put test.txt 83baae61804e65cc73a7201a7252750c76066a30\n\
            store d8329fc1cc938780ffdd9f94e0d364e0ea74f579\n\
            clear\n\
            put a hello\n\
            graft a/b d8329fc1cc938780ffdd9f94e0d364e0ea74f579\n\
            mode a/b/test.txt 100644\n\
            tree a/b d8329fc1cc938780ffdd9f94e0d364e0ea74f579\n\
            tree / b124a545b9b4866d0efa91f96ce0516015f8ccce",
    },
    // `git write-tree` gave the name of the tree with c and, at a/b, the stored one.
    Case {
        does: "two directories of one tree and a mode are kept",
        steps: "put one/x hello\n\
            put two/x hello\n\
            put-line 100755 ce013625030ba8dba906f756967f9e9ca394464a run\n\
            store cf84a6b23e5ecf275e91fa653b8828bfe92ad4e4\n\
            clear\n\
            put c hello\n\
            put a/b/gone hello\n\
            graft a/b cf84a6b23e5ecf275e91fa653b8828bfe92ad4e4\n\
            none a/b/gone\n\
            mode a/b/run 100755\n\
            mode a/b/two/x 100644\n\
            tree / 87577dc82e37d63e3d1e616f1b17e636c6531696",
    },
    Case {
        does: "the empty tree only removes",
        steps: "store empty\n\
            put c hello\n\
            put d/e/x hello\n\
            put f hello\n\
            graft d/e empty\n\
            none d\n\
            graft f/g/h empty\n\
            none f\n\
            tree / 435927d2fe872add393f6b83553075ffeb232cba\n\
            graft / empty\n\
            tree / empty",
    },
    Case {
        does: "a tree at the root takes the place of all",
        steps: "put test.txt 83baae61804e65cc73a7201a7252750c76066a30\n\
            store d8329fc1cc938780ffdd9f94e0d364e0ea74f579\n\
            put a/b hello\n\
            put c hello\n\
            graft / d8329fc1cc938780ffdd9f94e0d364e0ea74f579\n\
            none a\n\
            none c\n\
            tree / d8329fc1cc938780ffdd9f94e0d364e0ea74f579",
    },
    Case {
        does: "a tree that is not there is refused",
        steps: "put a hello\n\
            14 graft a empty\n\
            mode a 100644",
    },
    Case {
        does: "an object that is no tree is refused",
        steps: "add-hello\n\
            15 graft / hello\n\
            14 graft / empty",
    },
    // `git mktree` gave the names of the tree with bb/ccc alone, of that with kept alone, and of
    // both with the grafted one.
    Case {
        does: "paths past the limits by joining are refused",
        steps: "put bb/ccc hello\n\
            store 8af50a44220f11f707b74ab13153b1764c202c92\n\
            clear\n\
            put kept hello\n\
            25 graft-long 255 1 8af50a44220f11f707b74ab13153b1764c202c92\n\
            tree / ceb548dfe0173c61beb9a1a7582f1a9ed557f7e3\n\
            25 graft-long 1 16377 8af50a44220f11f707b74ab13153b1764c202c92\n\
            tree / ceb548dfe0173c61beb9a1a7582f1a9ed557f7e3\n\
            graft-long 254 1 8af50a44220f11f707b74ab13153b1764c202c92\n\
            tree / f741607286f5906f784fa46d2f1777845cae9e49",
    },
    Case {
        does: "a path of the most bytes is put by joining",
        steps: "put bb/ccc hello\n\
            store 8af50a44220f11f707b74ab13153b1764c202c92\n\
            clear\n\
            put kept hello\n\
            graft-long 1 16376 8af50a44220f11f707b74ab13153b1764c202c92\n\
            tree / 06d0f6b10a54beba7df39dac7402a66a9910cd6d",
    },
];

// Only the directories on the way are read, each once. `git write-tree` gave the names of the tree
// of 1,000 files, and of that with d7/x.
const READS: &str = "put-many 100 10\n\
    store a5c954de4d78ff9d9ea3cc357268b2c3b3bc4062\n\
    clear\n\
    graft / a5c954de4d78ff9d9ea3cc357268b2c3b3bc4062\n\
    put d7/x hello\n\
    reads 2\n\
    store 6768caa1294ee73bde98df18ed351a272ed97333\n\
    put d7/y hello\n\
    drop d7/y\n\
    tree / 6768caa1294ee73bde98df18ed351a272ed97333\n\
    graft d8 a5c954de4d78ff9d9ea3cc357268b2c3b3bc4062\n\
    mode d8/d9/f0 100644\n\
    reads 2";

// These cases leave out the plain body, which walks over all files at each edit.
const LARGE: &[Case] = &[
    // `git write-tree` gave the names of the tree of 10,000 files, of that tree at a, and of both
    // that and the same at b/c.
    Case {
        does: "a directory of many files is copied and renamed by its name",
        steps: "put-many 100 100\n\
            store 9ae73073f0b8c09b2fd55b56036a36aaf82050db\n\
            clear\n\
            graft a 9ae73073f0b8c09b2fd55b56036a36aaf82050db\n\
            store 9a3e5731dbedaae80673eda668a9cb3444ea987a\n\
            clear\n\
            graft / 9a3e5731dbedaae80673eda668a9cb3444ea987a\n\
            copy a b/c\n\
            reads 1\n\
            store 939dc3317c018494dc92d2d808b7910d4e2a9f42\n\
            drop a\n\
            rename b/c a\n\
            tree / 9a3e5731dbedaae80673eda668a9cb3444ea987a\n\
            reads 1",
    },
    // The same of the tree of 10,000 files and d7/x, and of that with d7 moved to d7/y.
    Case {
        does: "an edited directory is moved as it is",
        steps: "put-many 100 100\n\
            store 9ae73073f0b8c09b2fd55b56036a36aaf82050db\n\
            clear\n\
            graft a 9ae73073f0b8c09b2fd55b56036a36aaf82050db\n\
            put a/d7/x hello\n\
            rename a b\n\
            rename b c/longer\n\
            none b\n\
            mode c/longer/d7/x 100644\n\
            tree c/longer f2213119d5d8a28630d21c67bdc65d489ba9b041\n\
            rename c/longer /\n\
            store f2213119d5d8a28630d21c67bdc65d489ba9b041\n\
            rename d7 d7/y\n\
            rename d7/y/x x\n\
            rename x d7/y/x\n\
            tree / 22fd5d115f040434250455cc7d465b72a9f3cf0b\n\
            reads 2",
    },
];

#[test]
fn large_directories_are_moved_by_name(rt: HostRuntime) {
    assert_eq!(rt; first_otherwise_of::<Files>(rt.alloc(), LARGE), None);
}

#[test]
fn few_trees_are_read(rt: HostRuntime) {
    assert_eq!(rt; first_wrong(rt.alloc(), READS), None);
}

#[test]
fn stored_trees_are_put_as_git_does(rt: HostRuntime) {
    assert_eq!(rt; first_otherwise(rt.alloc(), CASES), None);
}
