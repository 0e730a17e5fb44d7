//! Which objects some names reach and others do not. Real git gave the names of each case: those of
//! `git rev-list --objects WANT..` without those of `git rev-list --objects HAVE..`, over the same
//! objects in a repository, each by its own run, since one run with `^HAVE` may list more.

use crate::history::History;
use crate::history::fields::{field, is_number, word};
use crate::history::made_by_git::{FOUR_COMMITS, SIX_COMMITS, is_named, name_of};
use git_objects::{Name, Naming, Sha1Naming};
use missing_objects::missing_places;
use std::alloc::Global;
use tenant_tables::{Objects, Sight};

// The wanted names, the had ones, and the names that are missing or the number of the refusal.
// `SECOND_TREE` has two gitlinks, one of which has the name of a commit that is there. The last
// case wants what lies after the committed prefix.
const MISSING: &[u8] = b"\
    MERGE||HELLO VERSION DEEP DIRECTORY FIRST_TREE FIRST THIRD SECOND_TREE SECOND MERGE;\
    MERGE|THIRD|SECOND_TREE SECOND MERGE;\
    MERGE|SECOND|THIRD MERGE;\
    VV|FIRST|THIRD SECOND_TREE SECOND MERGE V1 VV;\
    VV|GONE MERGE|V1 VV;\
    DIRECTORY||VERSION DEEP DIRECTORY;\
    SECOND_TREE|DIRECTORY|HELLO SECOND_TREE;\
    BLOB_TAG THIRD|DEEP|HELLO DIRECTORY FIRST_TREE FIRST THIRD BLOB_TAG;\
    FIRST|GONE|HELLO VERSION DEEP DIRECTORY FIRST_TREE FIRST;\
    HELLO HELLO||HELLO;\
    MERGE|MERGE|;\
    FIRST|VV|;\
    |FIRST|;\
    MERGE GONE|FIRST|16;\
    LATE||16";

// Two roots, and a tree without an entry that all commits have.
const OF_ROOTS: &[u8] = b"\
    COMMIT_M COMMIT_U||NO_FILES COMMIT_A COMMIT_B COMMIT_C COMMIT_D COMMIT_M COMMIT_U;\
    COMMIT_M COMMIT_U|COMMIT_C|COMMIT_D COMMIT_M COMMIT_U;\
    COMMIT_U|COMMIT_A|COMMIT_U;\
    COMMIT_M|COMMIT_B COMMIT_D|COMMIT_C COMMIT_M;\
    COMMIT_A|NO_FILES|COMMIT_A";

// Appends the names that these words stand for. False where a word stands for none.
fn takes_names(words: &[u8], names: &mut Vec<Name>) -> bool {
    if words.is_empty() {
        return true;
    }
    for word in words.split(|byte| *byte == b' ') {
        if !takes_name(word, names) {
            return false;
        }
    }
    true
}

fn takes_name(word: &[u8], names: &mut Vec<Name>) -> bool {
    match name_of(word) {
        Some(id) => names.push(id).is_ok(),
        None => false,
    }
}

fn is_at<N: Naming>(objects: &Objects<'_, N>, place: usize, word: &[u8]) -> bool {
    match objects.at(place) {
        Some((id, _, _)) => is_named(&id, word),
        None => false,
    }
}

// Whether at these places are what the words stand for, in this order.
fn are_named<N: Naming>(objects: &Objects<'_, N>, places: &[usize], words: &[u8]) -> bool {
    for (position, place) in places.iter().enumerate() {
        if !is_at(objects, *place, word(words, position)) {
            return false;
        }
    }
    word(words, places.len()).is_empty()
}

impl<N: Naming> History<N> {
    fn are_missing(&mut self, steps: &[u8], sight: Sight, cases: &[u8]) -> bool {
        self.takes_all(steps) && self.finds_all(sight, cases)
    }

    fn finds_all(&self, sight: Sight, cases: &[u8]) -> bool {
        for case in cases.split(|byte| *byte == b';') {
            if !self.finds_so(sight, case) {
                return false;
            }
        }
        true
    }

    fn finds_so(&self, sight: Sight, case: &[u8]) -> bool {
        let mut wants = Vec::new(self.alloc);
        let mut haves = Vec::new(self.alloc);
        let holds = takes_names(field(case, 0), &mut wants)
            && takes_names(field(case, 1), &mut haves)
            && self.finds(sight, &wants, &haves, field(case, 2));
        drop(haves);
        drop(wants);
        holds
    }

    fn finds(&self, sight: Sight, wants: &[Name], haves: &[Name], wanted: &[u8]) -> bool {
        let objects = Objects::of(&self.pool, &self.table, sight);
        match missing_places(self.alloc, &objects, wants, haves) {
            Ok(places) => {
                let holds = are_named(&objects, &places, wanted);
                drop(places);
                holds
            }
            Err(fault) => is_number(wanted, fault.code()),
        }
    }
}

// Whether each case finds the wanted objects.
fn are_missing(alloc: Global, steps: &[u8], sight: Sight, cases: &[u8]) -> bool {
    let mut history = History::new(alloc, Sha1Naming);
    let holds = history.are_missing(steps, sight, cases);
    drop(history);
    holds
}

#[test]
fn what_the_wants_reach_and_the_haves_do_not_is_missing(rt: HostRuntime) {
    assert!(rt; are_missing(rt.alloc(), FOUR_COMMITS, Sight::Committed, MISSING));
}

#[test]
fn two_roots_are_missing(rt: HostRuntime) {
    assert!(rt; are_missing(rt.alloc(), SIX_COMMITS, Sight::All, OF_ROOTS));
}
