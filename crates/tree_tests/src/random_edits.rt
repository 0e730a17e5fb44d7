//! Twenty real trees under random edits: both bodies give the same names, which are those of Git
//! where the files are put back.

use crate::body::Body;
use crate::branch::{Branch, ShaBranch};
use crate::made_by_git::{Asked, first_otherwise};
use crate::real_trees::puts_all;
use crate::step::{HELLO, is_named};
use git_objects::Sha1Naming;
use plain_files::Files as PlainFiles;
use std::alloc::Global;
use tree_build::Files;

const EDITS: usize = 12;

// Both bodies of one branch.
#[derive(Drop)]
struct Both {
    plain: ShaBranch<PlainFiles>,
    nested: ShaBranch<Files>,
}

// Pseudorandom numbers: Knuth's linear congruential generator.
#[derive(Drop)]
struct Random {
    state: u64,
}

impl Random {
    fn below(&mut self, count: usize) -> usize {
        self.state = self.state.wrapping_mul(6_364_136_223_846_793_005);
        self.state = self.state.wrapping_add(1_442_695_040_888_963_407);
        match ((self.state >> 33) as usize).checked_rem(count) {
            Some(number) => number,
            None => 0,
        }
    }
}

// The path of a random line of a list, or one of its directories.
fn some_path<'a>(random: &mut Random, list: &'a [u8]) -> &'a [u8] {
    let count = list.split(|byte| *byte == b'\n').count();
    let mut lines = list.split(|byte| *byte == b'\n');
    let line = lines.nth(random.below(count)).unwrap_or(b"");
    let path = line.get(48..).unwrap_or(b"");
    let most = path.split(|byte| *byte == b'/').count();
    front_of(path, random.below(most))
}

// A path without so many of its last components.
fn front_of(path: &[u8], less: usize) -> &[u8] {
    let mut front = path;
    for _ in 0..less {
        match front.iter().rposition(|byte| *byte == b'/') {
            Some(slash) => front = &front[..slash],
            None => {}
        }
    }
    front
}

// One edit of a branch, and its answer.
#[derive(Clone, Copy)]
struct Edit<'a> {
    kind: usize,
    from: &'a [u8],
    to: &'a [u8],
    tree: &'a [u8],
}

fn answer_of<B: Body<Sha1Naming>>(branch: &mut ShaBranch<B>, edit: &Edit<'_>) -> Option<u64> {
    match edit.kind {
        0 => branch.put(edit.to, HELLO),
        1 => branch.graft(edit.to, edit.tree),
        2 => branch.drop_path(edit.from),
        3 => branch.copy(edit.from, edit.to),
        _ => branch.rename(edit.from, edit.to),
    }
}

fn some_edit<'a>(random: &mut Random, list: &'a [u8], tree: &'a [u8]) -> Edit<'a> {
    Edit {
        kind: random.below(5),
        from: some_path(random, list),
        to: some_path(random, list),
        tree,
    }
}

// Whether the trees of both have the same name.
fn have_one_name(both: &Both) -> bool {
    let name = both.plain.tree_at(b"");
    name.is_some() && name == both.nested.tree_at(b"")
}

// Whether both answer an edit alike, and then have the same name.
fn goes_alike(both: &mut Both, one: &Edit<'_>) -> bool {
    let answer = answer_of(&mut both.plain, one);
    answer.is_some() && answer == answer_of(&mut both.nested, one) && have_one_name(both)
}

// Whether the tree of a branch is stored, and the branch begins again from it.
fn begins_again<B: Body<Sha1Naming>>(branch: &mut ShaBranch<B>) -> bool {
    match branch.store() {
        Some(name) => begins_from(branch, name.to_hex().as_slice()),
        None => false,
    }
}

fn begins_from<B: Body<Sha1Naming>>(branch: &mut ShaBranch<B>, digits: &[u8]) -> bool {
    branch.clear();
    branch.graft(b"", digits).is_some()
}

fn begin_again_alike(both: &mut Both) -> bool {
    begins_again(&mut both.plain) && begins_again(&mut both.nested) && have_one_name(both)
}

fn all_go_alike(both: &mut Both, random: &mut Random, list: &[u8], tree: &[u8]) -> bool {
    for round in 0..EDITS {
        let one = some_edit(random, list, tree);
        if !goes_alike(both, &one) {
            return false;
        }
        if round % 4 == 1 && !begin_again_alike(both) {
            return false;
        }
    }
    true
}

// Whether a branch has this name once the files of a list are put into it, and once they are put
// back after edits.
fn gets_name<B: Body<Sha1Naming>>(branch: &mut ShaBranch<B>, list: &[u8], tree: &[u8]) -> bool {
    branch.clear();
    puts_all(branch, list) && is_named(branch.store(), tree) && is_named(branch.tree_at(b""), tree)
}

fn both_get_name(both: &mut Both, list: &[u8], tree: &[u8]) -> bool {
    gets_name(&mut both.plain, list, tree) && gets_name(&mut both.nested, list, tree)
}

fn keep_names(both: &mut Both, random: &mut Random, list: &[u8], tree: &[u8]) -> bool {
    both_get_name(both, list, tree)
        && all_go_alike(both, random, list, tree)
        && both_get_name(both, list, tree)
}

/// Whether both bodies keep the names of a tree of this list through random edits.
pub fn tree_keeps_names(alloc: Global, seed: u64, list: &[u8], tree: &[u8]) -> bool {
    let mut random = Random { state: seed };
    let mut both = Both {
        plain: Branch::new(alloc, Sha1Naming),
        nested: Branch::new(alloc, Sha1Naming),
    };
    let keep = keep_names(&mut both, &mut random, list, tree);
    drop(both);
    keep
}

#[test]
fn both_bodies_keep_names_through_random_edits(rt: HostRuntime) {
    let otherwise = first_otherwise(rt.alloc(), Asked::KeepsItsNameThroughEdits);
    assert_eq!(rt; otherwise, None);
}
