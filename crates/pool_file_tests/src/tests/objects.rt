//! Objects of pool files, judged in turn.

use super::parts::{Object, code_of, objects_of};
use pool_file_checks::check_objects;
use pool_file_format::Fault;
use std::alloc::Global;

// Objects, and the number of the refusal, 0 for none.
type Row<'a> = (&'a [Object<'a>], u16);

const ROWS: &[Row<'static>] = &[
    (&[], 0),
    (&[(3, b"ab")], 0),
    (&[(2, b""), (3, b""), (3, b"a"), (3, b"ab"), (3, b"b")], 0),
    // Out of order, and twice.
    (&[(3, b"b"), (3, b"a")], 64),
    (&[(3, b"ab"), (3, b"ab")], 64),
    (&[(3, b""), (2, b"")], 64),
    // No kind.
    (&[(0, b"")], 65),
    (&[(5, b"")], 65),
    // Contents of no commit, tree or tag.
    (&[(1, b"")], 65),
    (&[(2, b"x")], 65),
    (&[(4, b"")], 65),
    // An object is read before it is compared.
    (&[(3, b"ab"), (1, b"")], 65),
    // The first refusal counts.
    (&[(3, b"b"), (3, b"a"), (5, b"")], 64),
];

fn is_judged_so(alloc: Global, row: &Row<'_>) -> Result<bool, Fault> {
    let objects = objects_of(alloc, row.0)?;
    Ok(code_of(check_objects(alloc, &objects)) == row.1)
}

#[test]
fn refuses_the_first_object_that_is_wrong(rt: HostRuntime) {
    for row in ROWS {
        assert!(rt; is_judged_so(rt.alloc(), row) == Ok(true));
    }
}
