//! Twenty trees of a real repository, built from their files and put back by their names.

use crate::body::Body;
use crate::branch::{Branch, ShaBranch};
use crate::made_by_git::{Asked, first_otherwise};
use crate::step::is_named;
use git_objects::Sha1Naming;
use plain_files::Files as PlainFiles;
use std::alloc::Global;
use tree_build::Files;

/// Puts the files of a list, as `git ls-tree -r` writes it. False where one is refused.
pub fn puts_all<B: Body<Sha1Naming>>(branch: &mut ShaBranch<B>, list: &[u8]) -> bool {
    for line in list.split(|byte| *byte == b'\n') {
        if !branch.puts_line(line) {
            return false;
        }
    }
    true
}

// Whether the root has this name before it is stored, and `store` answers it.
fn names<B: Body<Sha1Naming>>(branch: &mut ShaBranch<B>, list: &[u8], name: &[u8]) -> bool {
    puts_all(branch, list) && is_named(branch.tree_at(b""), name) && is_named(branch.store(), name)
}

// Whether the stored tree is at the path after it is put there. A refused one leaves nothing there.
fn puts_back<B: Body<Sha1Naming>>(branch: &mut ShaBranch<B>, path: &[u8], name: &[u8]) -> bool {
    branch.clear();
    branch.graft(path, name).is_some() && is_named(branch.tree_at(path), name)
}

fn goes_as_git_says<B: Body<Sha1Naming>>(
    branch: &mut ShaBranch<B>,
    list: &[u8],
    name: &[u8],
) -> bool {
    names(branch, list, name)
        && puts_back(branch, b"some/where", name)
        && puts_back(branch, b"", name)
}

fn new_branch_goes_as_git_says<B: Body<Sha1Naming>>(
    alloc: Global,
    list: &[u8],
    name: &[u8],
) -> bool {
    let mut branch: ShaBranch<B> = Branch::new(alloc, Sha1Naming);
    let goes = goes_as_git_says(&mut branch, list, name);
    drop(branch);
    goes
}

/// Whether both bodies build a tree of this list under this name, and put it back.
pub fn both_bodies_go_as_git_says(alloc: Global, list: &[u8], name: &[u8]) -> bool {
    new_branch_goes_as_git_says::<PlainFiles>(alloc, list, name)
        && new_branch_goes_as_git_says::<Files>(alloc, list, name)
}

#[test]
fn trees_get_the_names_that_git_gave_and_are_put_back(rt: HostRuntime) {
    let otherwise = first_otherwise(rt.alloc(), Asked::IsBuiltAndPutBack);
    assert_eq!(rt; otherwise, None);
}
