//! What the objects of tenants refer to.

use super::indexed::{
    BLOB, CHILD, CHILD_OF_TREE, COMMIT, COMMIT_OF_BLOB, Check, EMPTY, FILE_AS_DIRECTORY, OBJECTS,
    OF_FILE, OF_GITLINK, Row, TAG, TAG_OF_BLOB, TREE_AS_FILE, are_judged_so,
};
use super::parts::Object;
use git_names::{Sha1Naming, TailNaming};

const ROWS: &[Row<'static>] = &[
    (&[], 0),
    (&[BLOB], 0),
    // The object that an entry names is missing, comes later, or has another kind. A gitlink names
    // no object.
    (&[BLOB, OF_FILE], 0),
    (&[OF_FILE], 66),
    (&[OF_FILE, BLOB], 66),
    (&[BLOB, FILE_AS_DIRECTORY], 66),
    (&[EMPTY, TREE_AS_FILE], 66),
    (&[OF_GITLINK], 0),
    // The tree of a commit.
    (&[EMPTY, COMMIT], 0),
    (&[COMMIT], 66),
    (&[COMMIT, EMPTY], 66),
    (&[BLOB, COMMIT_OF_BLOB], 66),
    // Its parents.
    (&[EMPTY, COMMIT, CHILD], 0),
    (&[EMPTY, CHILD], 66),
    (&[EMPTY, CHILD, COMMIT], 66),
    (&[EMPTY, CHILD_OF_TREE], 66),
    // The target of a tag.
    (&[EMPTY, COMMIT, TAG], 0),
    (&[TAG], 66),
    (&[EMPTY, TAG, COMMIT], 66),
    (&[EMPTY, COMMIT, TAG_OF_BLOB], 66),
    // The last one decides too.
    (&[EMPTY, BLOB, COMMIT, OF_FILE, CHILD, TAG], 0),
    (&[EMPTY, BLOB, COMMIT, OF_FILE, CHILD, TAG_OF_BLOB], 66),
];

// A tree whose directory `XXX` is the tree itself under `TailNaming`. Counted by hand: 171 is the
// sum modulo 256 of the bytes of `tree 30`, of a NUL and of these.
const OF_ITSELF: &[Object<'static>] = &[(
    2,
    b"40000 XXX\0\xab\xab\xab\xab\xab\xab\xab\xab\xab\xab\xab\xab\xab\xab\xab\xab\xab\xab\xab\xab",
)];

#[test]
fn judges_what_objects_refer_to(rt: HostRuntime) {
    assert!(rt;
        are_judged_so(rt.alloc(), &Sha1Naming, &Check::References, OBJECTS, ROWS) == Ok(true)
    );
}

#[test]
fn refuses_a_tree_that_names_itself(rt: HostRuntime) {
    assert!(rt;
        are_judged_so(
            rt.alloc(),
            &TailNaming,
            &Check::References,
            OF_ITSELF,
            &[(&[0], 66)]
        ) == Ok(true)
    );
}
