//! What no clause says about tables: names from git, that calls succeed, and that callers can meet
//! the conditions.

mod beside;
mod forest;
mod held;
mod plain_table;
mod two;

use beside::first_unlike;
use forest::Forest;
use git_objects::{
    FileMode, Memory, Name, Naming, Sha1Naming, TailNaming, TreeEntry, has_twenty_bytes,
    is_entry_name,
};
use held::{takes_hello, takes_odd_tree};
use std::alloc::Global;
use std::test::Fail;
use tenant_tables::{Fault, Sight, Summary};
use two::{Case, Step, first_wrong};

// `git hash-object` gave the digits.
const HELLO: &[u8; 40] = b"ce013625030ba8dba906f756967f9e9ca394464a";

const EMPTY: &[u8; 40] = b"e69de29bb2d1d6434b8b29ae775ad8c2e48c5391";

const WORLD: &[u8; 40] = b"cc628ccd10742baea8241c5924df992b5c019f71";

// Counted by hand: the name that `TailNaming` gives the blobs `ab` and `ba`. It is nineteen bytes
// 0xab, and the sum modulo 256 of the bytes of `blob 2`, of a NUL, of `a` and of `b`.
const AB: &[u8; 40] = b"abababababababababababababababababababb4";

// `git mktree` gave the digits of both trees.
const FILE_TREE: &[u8; 40] = b"b4d01e9b0c4a9356736dfddf8830ba9a54f5271c";

const DIRECTORY_TREE: &[u8; 40] = b"234ad52a178e424d52fb85e630648fc06505f29a";

// `git hash-object --literally` gave the digits: the tree of one file with the mode `100664`.
const ODD_TREE: &[u8; 40] = b"dafa8a41b92d8bdc7ec6617cffec852aec2f989d";

// Counted by hand, as below: one file, at `hello`.
const ONE_FILE: Summary = Summary {
    files: 1,
    depth: 1,
    longest: 5,
};

// One file, at `dir/hello`.
const ONE_FILE_BELOW: Summary = Summary {
    files: 1,
    depth: 2,
    longest: 9,
};

const CASES: &[Case] = &[
    Case {
        does: "a blob is added under the name that git gives it",
        steps: &[
            Step::AddFirst(b"hello\n", Ok(HELLO)),
            Step::Lengths(1, 0),
            Step::PlaceInFirst(HELLO, Some(0)),
        ],
    },
    Case {
        does: "an object is found by digits of either case",
        steps: &[
            Step::AddFirst(b"hello\n", Ok(HELLO)),
            Step::StartingInFirst(b"Ce01", Sight::All, Some(HELLO)),
            Step::StartingInFirst(b"ce01", Sight::Committed, None),
            Step::CommitFirst,
            Step::CommittedFirst(1),
            Step::StartingInFirst(b"ce0", Sight::Committed, Some(HELLO)),
        ],
    },
    Case {
        does: "one of two tables that hold a content is rolled back",
        steps: &[
            Step::AddFirst(b"hello\n", Ok(HELLO)),
            Step::AddSecond(b"hello\n", Ok(HELLO)),
            Step::Stored(1, 6),
            Step::RollBackFirst,
            Step::Lengths(0, 1),
            Step::Stored(1, 6),
            Step::RollBackSecond,
            Step::Stored(0, 0),
        ],
    },
    Case {
        does: "a table begins as another one does, and each goes its own way",
        steps: &[
            Step::AddFirst(b"hello\n", Ok(HELLO)),
            Step::AddFirst(b"world\n", Ok(WORLD)),
            Step::CommitFirst,
            Step::ShareFirst(1),
            Step::Lengths(2, 1),
            Step::PlaceInSecond(WORLD, None),
            Step::AddSecond(b"world\n", Ok(WORLD)),
            Step::PlaceInSecond(WORLD, Some(1)),
            Step::AddFirst(b"", Ok(EMPTY)),
            Step::Stored(3, 12),
            Step::RollBackSecond,
            Step::RollBackFirst,
            Step::Lengths(2, 1),
            Step::PlaceInSecond(HELLO, Some(0)),
            Step::Stored(2, 12),
        ],
    },
    Case {
        does: "a table holds what it took from one that is rolled back",
        steps: &[
            Step::AddFirst(b"hello\n", Ok(HELLO)),
            Step::ShareFirst(1),
            Step::RollBackFirst,
            Step::Lengths(0, 1),
            Step::PlaceInSecond(HELLO, Some(0)),
            Step::Stored(1, 6),
        ],
    },
];

// These have names by `TailNaming`.
const CASES_BY_TAIL: &[Case] = &[Case {
    does: "another content of a name that only this table has is refused",
    steps: &[
        Step::AddFirst(b"ab", Ok(AB)),
        Step::AddFirst(b"ba", Err(Fault::NameCollision)),
        Step::AddSecond(b"ba", Ok(AB)),
        Step::Stored(2, 4),
    ],
}];

const REFUSED: &[Step<'static>] = &[
    Step::AddFirstAgain(b"ab"),
    Step::AddFirstAgain(b"ba"),
    Step::Lengths(2, 0),
    Step::Stored(2, 4),
];

const BESIDE: &[beside::Step<'static>] = &[
    beside::Step::Add(b"ab"),
    beside::Step::Add(b"ba"),
    beside::Step::Add(b"cd"),
    beside::Step::Commit,
    beside::Step::Add(b"ab"),
    beside::Step::Add(b"ad"),
    beside::Step::Add(b"dc"),
    beside::Step::Add(b"ef"),
    beside::Step::Length(4),
    beside::Step::RollBack,
    beside::Step::Length(2),
    beside::Step::Commit,
    beside::Step::RollBack,
];

// The blob, the tree with it at `hello`, and the tree with that at `dir`.
const FOREST: &[(&[u8; 40], Option<Summary>)] = &[
    (HELLO, None),
    (FILE_TREE, Some(ONE_FILE)),
    (DIRECTORY_TREE, Some(ONE_FILE_BELOW)),
];

// The answer, unless an allocation failed.
fn told(answer: Result<Name, Fault>) -> Result<Result<Name, Fault>, Memory> {
    match answer {
        Err(Fault::Memory) => Err(Memory),
        other => Ok(other),
    }
}

// What the first case does that goes otherwise than it says, and the position of the step.
fn first_otherwise<N: Naming + Copy>(
    alloc: Global,
    naming: N,
    cases: &[Case],
) -> Result<Option<(&'static str, usize)>, Fail> {
    for case in cases {
        if let Some(place) = first_wrong(alloc, naming, case.steps)? {
            return Ok(Some((case.does, place)));
        }
    }
    Ok(None)
}

#[test]
fn two_tables_share_a_pool(rt: HostRuntime) -> Result<(), Fail> {
    assert_eq!(rt; first_otherwise(rt.alloc(), Sha1Naming, CASES)?, None);
    assert_eq!(rt;
        first_otherwise(rt.alloc(), TailNaming, CASES_BY_TAIL)?,
        None
    );
    Ok(())
}

// Run with the first, second, .. allocation refused: table and pool are then as they were, and a
// second try goes through.
#[test]
fn is_unchanged_after_a_refused_growth(rt: HostRuntime) -> Result<(), Fail> {
    assert_eq!(rt; first_wrong(rt.alloc(), Sha1Naming, REFUSED)?, None);
    Ok(())
}

#[test]
fn answers_as_the_plain_table_does(rt: HostRuntime) -> Result<(), Fail> {
    assert_eq!(rt; first_unlike(rt.alloc(), BESIDE)?, None);
    Ok(())
}

#[test]
fn what_lies_in_the_pool_is_taken_by_its_slot(rt: HostRuntime) -> Result<(), Fail> {
    assert!(rt; takes_hello(rt.alloc(), Sha1Naming, HELLO)?);
    Ok(())
}

#[test]
fn a_tree_that_is_not_plain_is_taken_without_a_summary(rt: HostRuntime) -> Result<(), Fail> {
    assert!(rt; takes_odd_tree(rt.alloc(), Sha1Naming, ODD_TREE)?);
    Ok(())
}

// Whether the names are those that git gives, and the table has the summaries.
fn adds_trees_with_the_sizes_of_their_file_maps<N: Naming>(
    forest: &mut Forest<N>,
) -> Result<bool, Fail> {
    let hello = forest.add_blob(b"hello\n")?;
    has_twenty_bytes(&hello);
    if !is_entry_name(b"hello") {
        return Err(Fail::from("`hello` is no entry name"));
    }
    if !is_entry_name(b"dir") {
        return Err(Fail::from("`dir` is no entry name"));
    }
    let file = TreeEntry {
        mode: FileMode::Regular,
        name: b"hello",
        id: hello,
    };
    let tree = forest.add_tree_of(&[file], ONE_FILE)?;
    has_twenty_bytes(&tree);
    let directory = TreeEntry {
        mode: FileMode::Directory,
        name: b"dir",
        id: tree,
    };
    let top = forest.add_tree_of(&[directory], ONE_FILE_BELOW)?;
    let are_named = hello.to_hex() == *HELLO
        && tree.to_hex() == *FILE_TREE
        && top.to_hex() == *DIRECTORY_TREE;
    Ok(are_named && forest.holds(FOREST))
}

// Owns the forest, apart from the function above: each way out of an owner makes its proof longer.
fn adds_trees(alloc: Global) -> Result<bool, Fail> {
    let mut forest = Forest::new(alloc, Sha1Naming);
    let adds = adds_trees_with_the_sizes_of_their_file_maps(&mut forest);
    drop(forest);
    adds
}

#[test]
fn trees_have_the_sizes_of_their_file_maps(rt: HostRuntime) -> Result<(), Fail> {
    assert!(rt; adds_trees(rt.alloc())?);
    Ok(())
}
