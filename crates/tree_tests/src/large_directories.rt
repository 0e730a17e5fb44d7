//! A directory of 2,000 files, which the nested body keeps in several chunks. Its files are put and
//! dropped in several orders, and `git mktree` gave the names.
//!
//! The plain body, which walks over all files at each edit, is left out.

use crate::branch::{Case, first_otherwise_of};
use tree_build::Files;

const CASES: &[Case] = &[
    Case {
        does: "files in rising order, of which the first 1,100 are dropped in that order",
        steps: "put-round 2000 1 2000\n\
            store b3df1e3bc29c83a2fbb4f4605fb9cd3623914cca\n\
            drop-round 2000 1 1100\n\
            store bf200b302e984fe041c68ef610a4d4c3eddda8bb\n\
            put-round 2000 1 1100\n\
            tree d 4fd8ff8b9af9387ded6c247d4acf94d3a39c5dcf",
    },
    Case {
        does: "files in falling order, of which 1,700 are dropped in that order",
        steps: "put-round 2000 1999 2000\n\
            store b3df1e3bc29c83a2fbb4f4605fb9cd3623914cca\n\
            drop-round 2000 1999 1700\n\
            store 08094f34406bb7162306518bd3a569a0284e73d4\n\
            put-round 2000 1999 1700\n\
            tree d 4fd8ff8b9af9387ded6c247d4acf94d3a39c5dcf",
    },
    Case {
        does: "files in mixed order, of which 900 are dropped in that order",
        steps: "put-round 2000 7 2000\n\
            store b3df1e3bc29c83a2fbb4f4605fb9cd3623914cca\n\
            drop-round 2000 7 900\n\
            store 593653b512ac38967aec9c6e705ba3abeb406362\n\
            put-round 2000 13 2000\n\
            tree d 4fd8ff8b9af9387ded6c247d4acf94d3a39c5dcf",
    },
    Case {
        does: "a copy of a stored directory, which is read, and one of an edited directory",
        steps: "put-round 2000 7 2000\n\
            store b3df1e3bc29c83a2fbb4f4605fb9cd3623914cca\n\
            clear\n\
            graft / b3df1e3bc29c83a2fbb4f4605fb9cd3623914cca\n\
            copy d e\n\
            drop-round 2000 7 900\n\
            tree d d47d1029f49ff9a6c42334993623eac75a025485\n\
            copy d f\n\
            put-round 2000 1999 2000\n\
            rename f g\n\
            tree d 4fd8ff8b9af9387ded6c247d4acf94d3a39c5dcf\n\
            tree e 4fd8ff8b9af9387ded6c247d4acf94d3a39c5dcf\n\
            tree g d47d1029f49ff9a6c42334993623eac75a025485\n\
            drop e\n\
            store 2cf1a3bdfbfc702b777385d9d385bd3919fc4935",
    },
];

#[test]
fn large_directories_go_as_git_says(rt: HostRuntime) {
    assert_eq!(rt; first_otherwise_of::<Files>(rt.alloc(), CASES), None);
}
