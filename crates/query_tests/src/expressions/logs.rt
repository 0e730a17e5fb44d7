//! What ranges list and what commits reach. The commits of a range are those that `git rev-list`
//! lists. Their order differs, since git looks at a commit only after one of its children.

use crate::history::fields::{field, is, is_number, word};
use crate::history::made_by_git::{SIX_COMMITS, is_named, name_of};
use crate::history::{History, sets_all, sets_head};
use commit_walk::reaches;
use git_objects::{Name, Naming, Sha1Naming};
use revisions::{Fault, range};
use std::alloc::Global;
use tenant_refs::Refs;
use tenant_tables::Sight;

const REFS: &[u8] = b"\
    refs/heads/a=COMMIT_A \
    refs/heads/b=COMMIT_B \
    refs/heads/c=COMMIT_C \
    refs/heads/d=COMMIT_D \
    refs/heads/m=COMMIT_M \
    refs/heads/u=COMMIT_U \
    refs/tags/files=NO_FILES";

// The commits that a range lists, or the number of its refusal, and the range. HEAD names `m`. The
// commits `c` and `d` are of one time, and `m` is older than its parents.
const LISTED: &[u8] = b"\
    COMMIT_B COMMIT_C COMMIT_A|c;\
    COMMIT_C|c^..c;\
    COMMIT_B COMMIT_C COMMIT_D COMMIT_A COMMIT_M|m;\
    COMMIT_U|u;\
    COMMIT_D COMMIT_M|c..m;\
    COMMIT_B COMMIT_C COMMIT_M|d..m;\
    COMMIT_B COMMIT_C COMMIT_D COMMIT_M|a..m;\
    |m..c;\
    |m..m;\
    COMMIT_U|m..u;\
    COMMIT_B COMMIT_C COMMIT_D|c...d;\
    COMMIT_B COMMIT_C COMMIT_D|d...c;\
    COMMIT_B COMMIT_C COMMIT_D COMMIT_M|a...m;\
    COMMIT_B COMMIT_U COMMIT_C COMMIT_D COMMIT_A COMMIT_M|u...m;\
    |c...c;\
    COMMIT_D COMMIT_M|c..;\
    |..c;\
    COMMIT_D COMMIT_M|...c;\
    3|..;\
    3|...;\
    16|a....b;\
    3|;\
    16|nothing;\
    15|files;\
    15|files..nothing;\
    16|nothing..files;\
    3|nothing..c^{;\
    16|a~1..c";

// What the committed prefix lists.
const COMMITTED: &[u8] = b"\
    COMMIT_B COMMIT_C COMMIT_A|c;\
    COMMIT_B COMMIT_C|a..c;\
    16|98a16e0e..4e6fd0e9";

// Whether from the first commit the second is reached.
const REACHED: &[u8] = b"\
    yes|COMMIT_M|COMMIT_M;\
    yes|COMMIT_M|COMMIT_D;\
    yes|COMMIT_M|COMMIT_A;\
    no|COMMIT_A|COMMIT_M;\
    no|COMMIT_C|COMMIT_D;\
    no|COMMIT_D|COMMIT_C;\
    no|COMMIT_M|COMMIT_U;\
    no|COMMIT_U|COMMIT_A;\
    no|COMMIT_M|NO_FILES;\
    no|NO_FILES|NO_FILES;\
    no|COMMIT_M|GONE;\
    no|GONE|COMMIT_A";

// Whether these are the names that the words stand for, in this order.
fn are_named(ids: &[Name], words: &[u8]) -> bool {
    for (place, id) in ids.iter().enumerate() {
        if !is_named(id, word(words, place)) {
            return false;
        }
    }
    word(words, ids.len()).is_empty()
}

// Whether an answer is what these words stand for, or the refusal of this number.
fn is_wanted(answer: Result<Vec<Name>, Fault>, wanted: &[u8]) -> bool {
    match answer {
        Ok(ids) => {
            let holds = are_named(&ids, wanted);
            drop(ids);
            holds
        }
        Err(fault) => is_number(wanted, fault.code()),
    }
}

impl<N: Naming> History<N> {
    fn range(&self, sight: Sight, refs: &Refs, text: &[u8]) -> Result<Vec<Name>, Fault> {
        range(self.alloc, &self.pool, &self.table, sight, refs, text)
    }

    fn takes_commits(&mut self) -> bool {
        self.takes_all(SIX_COMMITS)
    }

    fn are_listed(&mut self, sight: Sight, listed: &[u8]) -> bool {
        self.takes_commits() && self.are_listed_beside_refs(sight, listed)
    }

    fn are_listed_beside_refs(&self, sight: Sight, listed: &[u8]) -> bool {
        let mut refs = Refs::new(self.alloc);
        let holds = self.are_listed_beside(&mut refs, sight, listed);
        drop(refs);
        holds
    }

    fn are_listed_beside(&self, refs: &mut Refs, sight: Sight, listed: &[u8]) -> bool {
        sets_all(refs, self.alloc, REFS)
            && sets_head(refs, self.alloc, b"refs/heads/m")
            && self.lists_all(refs, sight, listed)
    }

    fn lists_all(&self, refs: &Refs, sight: Sight, listed: &[u8]) -> bool {
        for case in listed.split(|byte| *byte == b';') {
            if !is_wanted(self.range(sight, refs, field(case, 1)), field(case, 0)) {
                return false;
            }
        }
        true
    }

    fn are_reached(&mut self, cases: &[u8]) -> bool {
        self.takes_commits() && self.reaches_all(cases)
    }

    fn reaches_all(&self, cases: &[u8]) -> bool {
        for case in cases.split(|byte| *byte == b';') {
            if !self.reaches_so(case) {
                return false;
            }
        }
        true
    }

    fn reaches_so(&self, case: &[u8]) -> bool {
        match (name_of(field(case, 1)), name_of(field(case, 2))) {
            (Some(tip), Some(old)) => self.reaches(&tip, &old, is(case, b"yes")),
            _ => false,
        }
    }

    fn reaches(&self, tip: &Name, old: &Name, wanted: bool) -> bool {
        match reaches(self.alloc, &self.pool, &self.table, tip, old) {
            Ok(is_reached) => is_reached == wanted,
            Err(_) => false,
        }
    }
}

// Whether each range lists the wanted commits.
fn are_listed(alloc: Global, sight: Sight, listed: &[u8]) -> bool {
    let mut history = History::new(alloc, Sha1Naming);
    let holds = history.are_listed(sight, listed);
    drop(history);
    holds
}

// Whether the answer for each pair is right.
fn are_reached(alloc: Global, cases: &[u8]) -> bool {
    let mut history = History::new(alloc, Sha1Naming);
    let holds = history.are_reached(cases);
    drop(history);
    holds
}

#[test]
fn ranges_are_listed_by_time_and_then_by_name(rt: HostRuntime) {
    assert!(rt; are_listed(rt.alloc(), Sight::All, LISTED));
}

#[test]
fn ranges_of_the_committed_prefix_have_its_commits_alone(rt: HostRuntime) {
    assert!(rt; are_listed(rt.alloc(), Sight::Committed, COMMITTED));
}

#[test]
fn commits_are_reached_by_each_parent(rt: HostRuntime) {
    assert!(rt; are_reached(rt.alloc(), REACHED));
}
