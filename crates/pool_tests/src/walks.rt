//! Walks over commits as other programs make them: what they reach, and in which order a log lists
//! them. `git hash-object --literally` gave the names, and `git rev-list --timestamp --parents` the
//! parents and the times.

mod commits;

use commits::Commits;
use git_objects::{Name, Naming, Sha1Naming};
use std::alloc::Global;
use std::test::Fail;

const UNRELATED: &[u8; 40] = b"e0f57546d7eaff95934e96b4f39cd945f58b5a74";

const ROOT: &[u8; 40] = b"5d4fcd065e2c243a09e18ca960c1e8a6b4574e3f";

const SIGNED: &[u8; 40] = b"91a50e9afe3774df183c2cebb8e25601fc88bb5c";

const OTHER_LINE: &[u8; 40] = b"c000ab0a04867f63e6eb5fb8ea2d028cc9a335b8";

const MERGE: &[u8; 40] = b"712f4800f3210cb82940e0341a2f04c838725bfa";

// Commits and their names, the oldest first. Their tree is the empty one, which no walk reads.
//
// The author of `SIGNED` has a `>` before the one that ends the email, and its parent is given by
// uppercase digits. A line that begins with `p` follows the parents of `OTHER_LINE`, so that its
// author's line stands out of place, and Git takes 0 for its time. `MERGE` has no empty line, and
// the line `parent` after its committer is that of no parent.
const COMMITS: &[(&[u8], &[u8; 40])] = &[
    (
        b"tree 4b825dc642cb6eb9a060e54bf8d69288fbee4904\n\
        author A <a@b> 5 +0000\n\
        committer C <c@d> 5 +0000\n\
        \n\
        unrelated\n",
        UNRELATED,
    ),
    (
        b"tree 4b825dc642cb6eb9a060e54bf8d69288fbee4904\n\
        author A <a@b> 10 +0000\n\
        committer C <c@d> 10 +0000\n\
        \n\
        root\n",
        ROOT,
    ),
    (
        b"tree 4b825dc642cb6eb9a060e54bf8d69288fbee4904\n\
        parent 5D4FCD065E2C243A09E18CA960C1E8A6B4574E3F\n\
        author A> B <a@b> 1 +0000\n\
        committer C <c@d> 100 +0000\n\
        gpgsig S\n\x20 T\n\
        \n\
        signed\n",
        SIGNED,
    ),
    (
        b"tree 4b825dc642cb6eb9a060e54bf8d69288fbee4904\n\
        parent 91a50e9afe3774df183c2cebb8e25601fc88bb5c\n\
        parentse0f57546d7eaff95934e96b4f39cd945f58b5a74\n\
        author A <a@b> 70 +0000\n\
        committer C <c@d> 70 +0000\n\
        \n\
        another header\n",
        OTHER_LINE,
    ),
    (
        b"tree 4b825dc642cb6eb9a060e54bf8d69288fbee4904\n\
        parent c000ab0a04867f63e6eb5fb8ea2d028cc9a335b8\n\
        parent 91a50e9afe3774df183c2cebb8e25601fc88bb5c\n\
        author A <a@b> 90 +0000\n\
        committer C <c@d> 50 +0000\n\
        parent e0f57546d7eaff95934e96b4f39cd945f58b5a74\n",
        MERGE,
    ),
];

// Whether the first commit reaches the second.
const REACHED: &[(&[u8; 40], &[u8; 40], bool)] = &[
    (SIGNED, ROOT, true),
    (OTHER_LINE, ROOT, true),
    (OTHER_LINE, UNRELATED, false),
    (MERGE, OTHER_LINE, true),
    (MERGE, ROOT, true),
    (MERGE, UNRELATED, false),
];

// What `UNRELATED..MERGE` lists: the commits of the times 100, 50, 10 and 0.
const LISTED: &[&[u8; 40]] = &[SIGNED, MERGE, ROOT, OTHER_LINE];

fn name_of(digits: &[u8; 40]) -> Result<Name, Fail> {
    let name = Name::from_hex(digits).ok_or("no name")?;
    Ok(name)
}

fn adds_all<N: Naming>(commits: &mut Commits<N>) -> Result<bool, Fail> {
    for (contents, digits) in COMMITS {
        if commits.add(contents)?.to_hex() != **digits {
            return Ok(false);
        }
    }
    Ok(true)
}

fn reaches_so<N: Naming>(commits: &Commits<N>) -> Result<bool, Fail> {
    for (tip, old, wanted) in REACHED {
        if commits.reaches(&name_of(tip)?, &name_of(old)?)? != *wanted {
            return Ok(false);
        }
    }
    Ok(true)
}

fn are_listed(ids: &[Name]) -> bool {
    for (place, id) in ids.iter().enumerate() {
        if place >= LISTED.len() || id.to_hex() != *LISTED[place] {
            return false;
        }
    }
    ids.len() == LISTED.len()
}

fn lists_so<N: Naming>(commits: &Commits<N>) -> Result<bool, Fail> {
    let log = commits.log_between(&name_of(UNRELATED)?, &name_of(MERGE)?)?;
    let holds = are_listed(&log);
    drop(log);
    Ok(holds)
}

fn walks_so<N: Naming>(commits: &mut Commits<N>) -> Result<(bool, bool, bool), Fail> {
    let adds = adds_all(commits)?;
    let reaches = reaches_so(commits)?;
    let lists = lists_so(commits)?;
    Ok((adds, reaches, lists))
}

// Owns the commits, apart from the functions above: each way out of an owner makes its proof longer.
fn walks(alloc: Global) -> Result<(bool, bool, bool), Fail> {
    let mut commits = Commits::new(alloc, Sha1Naming);
    let walks = walks_so(&mut commits);
    drop(commits);
    walks
}

#[test]
fn walks_go_over_commits_of_any_program(rt: HostRuntime) -> Result<(), Fail> {
    assert_eq!(rt; walks(rt.alloc())?, (true, true, true));
    Ok(())
}
