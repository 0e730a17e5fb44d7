//! The objects of a tenant under their names, judged by one check.

use super::parts::{Named, Object, code_of, with_names};
use git_names::{Name, Naming};
use indexmap::IndexMap;
use pool_file_checks::{check_references, check_sums, index_objects};
use pool_file_format::{Fault, RawObject};
use std::alloc::Global;

/// Objects of tenants. The names in these contents are those that `git hash-object` and `git mktree`
/// gave.
pub const OBJECTS: &[Object<'static>] = &[
    (3, b"hello\n"),
    (2, b""),
    // The first as a file, and as a directory.
    (
        2,
        b"100644 a\0\xce\x016%\x03\x0b\xa8\xdb\xa9\x06\xf7V\x96\x7f\x9e\x9c\xa3\x94FJ",
    ),
    (
        2,
        b"40000 a\0\xce\x016%\x03\x0b\xa8\xdb\xa9\x06\xf7V\x96\x7f\x9e\x9c\xa3\x94FJ",
    ),
    // The empty tree as a file, and the first as a commit of another repository.
    (
        2,
        b"100644 a\0K\x82]\xc6B\xcbn\xb9\xa0`\xe5K\xf8\xd6\x92\x88\xfb\xeeI\x04",
    ),
    (
        2,
        b"160000 a\0\xce\x016%\x03\x0b\xa8\xdb\xa9\x06\xf7V\x96\x7f\x9e\x9c\xa3\x94FJ",
    ),
    // A commit of the empty tree, and one after it.
    (
        1,
        b"tree 4b825dc642cb6eb9a060e54bf8d69288fbee4904\nauthor A <a@b> 0 +0000\ncommitter A <a@b> 0 +0000\n\nx\n",
    ),
    (
        1,
        b"tree 4b825dc642cb6eb9a060e54bf8d69288fbee4904\nparent 7b8051db3dcc0fcfd006919cfa7376ddbd7bdc1a\nauthor A <a@b> 0 +0000\ncommitter A <a@b> 0 +0000\n\nx\n",
    ),
    // One whose tree is a blob, and one whose parent is a tree.
    (
        1,
        b"tree ce013625030ba8dba906f756967f9e9ca394464a\nauthor A <a@b> 0 +0000\ncommitter A <a@b> 0 +0000\n\nx\n",
    ),
    (
        1,
        b"tree 4b825dc642cb6eb9a060e54bf8d69288fbee4904\nparent 4b825dc642cb6eb9a060e54bf8d69288fbee4904\nauthor A <a@b> 0 +0000\ncommitter A <a@b> 0 +0000\n\nx\n",
    ),
    // The first commit as the target of a tag, and as a blob that has one.
    (
        4,
        b"object 7b8051db3dcc0fcfd006919cfa7376ddbd7bdc1a\ntype commit\ntag v\n\n",
    ),
    (
        4,
        b"object 7b8051db3dcc0fcfd006919cfa7376ddbd7bdc1a\ntype blob\ntag v\n\n",
    ),
    // The tree of the first as a directory, the empty tree as one, and no tree.
    (
        2,
        b"40000 b\0\tv\x95\x0c\x1f\xdb\xcbRCZC9\x13\x01{\xf0D\xb3\xa5\x8f",
    ),
    (
        2,
        b"40000 a\0K\x82]\xc6B\xcbn\xb9\xa0`\xe5K\xf8\xd6\x92\x88\xfb\xeeI\x04",
    ),
    (2, b"x"),
];

pub const BLOB: u64 = 0;

pub const EMPTY: u64 = 1;

pub const OF_FILE: u64 = 2;

pub const FILE_AS_DIRECTORY: u64 = 3;

pub const TREE_AS_FILE: u64 = 4;

pub const OF_GITLINK: u64 = 5;

pub const COMMIT: u64 = 6;

pub const CHILD: u64 = 7;

pub const COMMIT_OF_BLOB: u64 = 8;

pub const CHILD_OF_TREE: u64 = 9;

pub const TAG: u64 = 10;

pub const TAG_OF_BLOB: u64 = 11;

pub const OF_DIRECTORY: u64 = 12;

pub const OF_EMPTY: u64 = 13;

pub const NO_TREE: u64 = 14;

/// A check of the objects of a tenant.
#[derive(Drop)]
pub enum Check {
    References,
    Sums,
}

/// The numbers of a tenant's objects, and the number of the refusal, 0 for none.
pub type Row<'a> = (&'a [u64], u16);

fn code_of_check(
    alloc: Global,
    check: &Check,
    objects: &[RawObject],
    index: &IndexMap<Name, usize>,
) -> u16 {
    match check {
        Check::References => code_of(check_references(alloc, objects, index)),
        Check::Sums => code_of(check_sums(alloc, objects, index)),
    }
}

fn is_judged_so(alloc: Global, check: &Check, file: &Named, row: &Row<'_>) -> Result<bool, Fault> {
    let index = index_objects(alloc, &file.names, row.0)?;
    Ok(code_of_check(alloc, check, &file.objects, &index) == row.1)
}

fn are_rows_judged_so(
    alloc: Global,
    check: &Check,
    file: &Named,
    rows: &[Row<'_>],
) -> Result<bool, Fault> {
    for row in rows {
        if !is_judged_so(alloc, check, file, row)? {
            return Ok(false);
        }
    }
    Ok(true)
}

/// Whether a check judges tenants with these objects, one for each row, as the rows say.
pub fn are_judged_so<N: Naming>(
    alloc: Global,
    naming: &N,
    check: &Check,
    objects: &[Object<'_>],
    rows: &[Row<'_>],
) -> Result<bool, Fault> {
    let file = with_names(alloc, naming, objects)?;
    are_rows_judged_so(alloc, check, &file, rows)
}
