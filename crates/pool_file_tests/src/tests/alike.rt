//! Trees that have the entries of an earlier tree, some of them with other object names.

use super::parts::{Named, Object, code_of, tenant_of, with_names};
use git_names::Sha1Naming;
use pool_file_checks::check_file;
use pool_file_format::{Fault, RawFile};
use std::alloc::Global;

// The names in these contents are those that `git hash-object` gave.
const ONE: Object<'static> = (3, b"1\n");

const TWO: Object<'static> = (3, b"2\n");

const EMPTY: Object<'static> = (2, b"");

const OF_ONE: Object<'static> = (
    2,
    b"100644 a\0\xd0\x04\x91\xfd~[\xb6\xfa(\xc5\x17\xa0\xbb2\xb8\xb5\x06S\x9dM",
);

const OF_TWO: Object<'static> = (
    2,
    b"100644 a\0\x0c\xfb\xf0\x88\x86\xfc\xa9\xa9\x1c\xb7S\xec\x874\xc8O\xcb\xe5,\x9f",
);

const IN_ONE: Object<'static> = (
    2,
    b"40000 d\0,\xe1\xee\xf7f1\xe8\"\x82\xe0\xf7\xf0\xcf\x9eo>\x9aJ\x0b\x1e",
);

const IN_TWO: Object<'static> = (
    2,
    b"40000 d\0\x02C\x9f\xb5\x0fD/\x18}m\xb9\xa7\xb4r\x87\xb9\xe3\xf5\xd4\x9c",
);

const OTHER_NAME: Object<'static> = (
    2,
    b"100644 b\0\x0c\xfb\xf0\x88\x86\xfc\xa9\xa9\x1c\xb7S\xec\x874\xc8O\xcb\xe5,\x9f",
);

const OTHER_MODE: Object<'static> = (
    2,
    b"100755 a\0\x0c\xfb\xf0\x88\x86\xfc\xa9\xa9\x1c\xb7S\xec\x874\xc8O\xcb\xe5,\x9f",
);

const TREE_AS_FILE: Object<'static> = (
    2,
    b"100644 a\0,\xe1\xee\xf7f1\xe8\"\x82\xe0\xf7\xf0\xcf\x9eo>\x9aJ\x0b\x1e",
);

const IN_EMPTY: Object<'static> = (
    2,
    b"40000 d\0K\x82]\xc6B\xcbn\xb9\xa0`\xe5K\xf8\xd6\x92\x88\xfb\xeeI\x04",
);

const BLOB_AS_DIRECTORY: Object<'static> = (
    2,
    b"40000 d\0\xd0\x04\x91\xfd~[\xb6\xfa(\xc5\x17\xa0\xbb2\xb8\xb5\x06S\x9dM",
);

const PAIR: Object<'static> = (
    2,
    b"100644 a\0\xd0\x04\x91\xfd~[\xb6\xfa(\xc5\x17\xa0\xbb2\xb8\xb5\x06S\x9dM100644 b\0\x0c\xfb\xf0\x88\x86\xfc\xa9\xa9\x1c\xb7S\xec\x874\xc8O\xcb\xe5,\x9f",
);

const TURNED: Object<'static> = (
    2,
    b"100644 a\0\x0c\xfb\xf0\x88\x86\xfc\xa9\xa9\x1c\xb7S\xec\x874\xc8O\xcb\xe5,\x9f100644 b\0\xd0\x04\x91\xfd~[\xb6\xfa(\xc5\x17\xa0\xbb2\xb8\xb5\x06S\x9dM",
);

const IN_PAIR: Object<'static> = (
    2,
    b"40000 d\0SB\x14\x06\x1d\x10\xf2\x8d\xc9\x0eP\xbaD\x1fpw.+\x98\xe4",
);

const GITLINK: Object<'static> = (
    2,
    b"160000 a\0\xd0\x04\x91\xfd~[\xb6\xfa(\xc5\x17\xa0\xbb2\xb8\xb5\x06S\x9dM",
);

const OTHER_GITLINK: Object<'static> = (
    2,
    b"160000 a\0\x0c\xfb\xf0\x88\x86\xfc\xa9\xa9\x1c\xb7S\xec\x874\xc8O\xcb\xe5,\x9f",
);

const OUT_OF_ORDER: Object<'static> = (
    2,
    b"100644 b\0\xd0\x04\x91\xfd~[\xb6\xfa(\xc5\x17\xa0\xbb2\xb8\xb5\x06S\x9dM100644 a\0\x0c\xfb\xf0\x88\x86\xfc\xa9\xa9\x1c\xb7S\xec\x874\xc8O\xcb\xe5,\x9f",
);

// The objects of a file, the tenant's numbers of them, and the number of the refusal, 0 for none.
type Row<'a> = (&'a [Object<'a>], &'a [u64], u16);

const ROWS: &[Row<'static>] = &[
    // Another file, and another tree of as many files.
    (&[OF_TWO, OF_ONE, ONE, TWO], &[2, 3, 1, 0], 0),
    (
        &[OF_TWO, OF_ONE, IN_TWO, IN_ONE, ONE, TWO],
        &[4, 5, 1, 0, 3, 2],
        0,
    ),
    // Both files.
    (&[TURNED, PAIR, ONE, TWO], &[2, 3, 1, 0], 0),
    // The other file comes later, is missing, or is a tree; the other tree is a file.
    (&[OF_TWO, OF_ONE, ONE, TWO], &[2, 1, 0, 3], 66),
    (&[OF_TWO, OF_ONE, ONE], &[2, 1, 0], 66),
    (&[TREE_AS_FILE, OF_ONE, ONE], &[2, 1, 0], 66),
    (&[OF_ONE, IN_ONE, BLOB_AS_DIRECTORY, ONE], &[3, 0, 1, 2], 66),
    // The other tree has more files, or none.
    (
        &[OF_ONE, PAIR, IN_ONE, IN_PAIR, ONE, TWO],
        &[4, 5, 0, 1, 2, 3],
        0,
    ),
    (
        &[EMPTY, OF_ONE, IN_ONE, IN_EMPTY, ONE],
        &[4, 1, 0, 2, 3],
        65,
    ),
    // Another name, another mode, other commits of another repository, and names out of order.
    (&[OF_ONE, OTHER_NAME, ONE, TWO], &[2, 3, 0, 1], 0),
    (&[OF_ONE, OTHER_MODE, ONE, TWO], &[2, 3, 0, 1], 0),
    (&[OTHER_GITLINK, GITLINK], &[1, 0], 0),
    (&[PAIR, OUT_OF_ORDER, ONE, TWO], &[2, 3, 0, 1], 65),
];

fn code_of_row(alloc: Global, row: &Row<'_>) -> Result<u16, Fault> {
    let Named { objects, names } = with_names(alloc, &Sha1Naming, row.0)?;
    let mut tenants = Vec::new(alloc);
    tenants.push(tenant_of(alloc, b"t", row.1, b"refs/heads/main")?)?;
    let file = RawFile {
        version: 2,
        objects,
        tenants,
    };
    Ok(code_of(check_file(alloc, &names, &file)))
}

#[test]
fn judges_trees_that_are_like_earlier_ones(rt: HostRuntime) {
    for row in ROWS {
        assert!(rt; code_of_row(rt.alloc(), row) == Ok(row.2));
    }
}
