//! What expressions name: each form of gitrevisions(7) that is read here, with a text that names an
//! object and one that names none. `git rev-parse --verify` answers the same where its rules are
//! the same.

mod logs;

use crate::history::fields::{field, is_number, side};
use crate::history::made_by_git::is_named;
use crate::history::{History, MAIN, REFS, sets_all, sets_head};
use git_objects::{Name, Naming, Sha1Naming};
use revisions::{Fault, resolve};
use std::alloc::Global;
use tenant_refs::Refs;
use tenant_tables::Sight;

// What texts name over the history with these refs. Each text comes after a word for what it names,
// or after the number of its refusal.
struct Case {
    sight: Sight,
    head: &'static [u8],
    refs: &'static [u8],
    texts: &'static [u8],
}

// Each suffix, with a yes and a no.
const OF_SUFFIXES: Case = Case {
    sight: Sight::All,
    head: MAIN,
    refs: REFS,
    texts: b"\
        MERGE|main;\
        SECOND|main^;\
        SECOND|main^1;\
        THIRD|main^2;\
        16|main^3;\
        MERGE|main^0;\
        MERGE|main^00;\
        SECOND|main^01;\
        THIRD|main^0000000002;\
        3|main^00000000002;\
        16|main^4294967295;\
        3|main^4294967296;\
        FIRST|main^^;\
        16|main^^^;\
        SECOND|main~;\
        MERGE|main~0;\
        FIRST|main~2;\
        16|main~3;\
        3|main~00000000001;\
        16|main~4294967295;\
        FIRST|main^2~1;\
        16|main~1^2;\
        SECOND|v1^;\
        MERGE|v1^0;\
        THIRD|vv^2;\
        15|blob^;\
        15|blob~0;\
        16|main:a.txt^;\
        MERGE|main^{commit};\
        MERGE|v1^{commit};\
        MERGE|vv^{commit};\
        15|blob^{commit};\
        SECOND_TREE|main^{tree};\
        SECOND_TREE|vv^{tree};\
        15|blob^{tree};\
        15|main^{tree}^{commit};\
        HELLO|blob^{blob};\
        15|main^{blob};\
        VV|vv^{tag};\
        V1|v1^{tag};\
        15|main^{tag};\
        MERGE|vv^{};\
        MERGE|v1^{};\
        MERGE|main^{};\
        HELLO|blob^{};\
        VV|vv^{object};\
        MERGE|main^{object};\
        16|nothing^{object};\
        3|main^{treex};\
        3|main^{;\
        3|main^-;\
        3|main^x;\
        3|main~x;\
        3|main^{/x}",
};

// Paths, with a yes and a no.
const OF_PATHS: Case = Case {
    sight: Sight::All,
    head: MAIN,
    refs: REFS,
    texts: b"\
        SECOND_TREE|main:;\
        HELLO|main:a.txt;\
        VERSION|main:a..b;\
        DIRECTORY|main:dir;\
        DEEP|main:dir/sub;\
        VERSION|main:dir/sub/deep.txt;\
        HELLO|main:\"a\";\
        16|main:a;\
        16|main:A.txt;\
        16|main:a.txt/b;\
        16|main:dir/deep.txt;\
        FIRST|main:held;\
        16|main:gone;\
        16|main:held/a.txt;\
        FIRST_TREE|main^2:;\
        16|main^2:held;\
        HELLO|vv:a.txt;\
        HELLO|main^{tree}:a.txt;\
        15|blob:a.txt;\
        15|blob:;\
        16|nothing:a.txt;\
        3|main:/a.txt;\
        3|main:dir/;\
        3|main:dir//sub;\
        3|main:./a.txt;\
        3|main:dir/..;\
        3|:a.txt;\
        16|main:a.txt:b",
};

// HEAD, digits, and texts that are no base.
const OF_BASES: Case = Case {
    sight: Sight::All,
    head: b"refs/heads/side",
    refs: REFS,
    texts: b"\
        THIRD|HEAD;\
        THIRD|@;\
        FIRST|@^;\
        FIRST|@~1;\
        FIRST_TREE|@:;\
        HELLO|@:a.txt;\
        FIRST_TREE|@^{tree};\
        THIRD|HEAD^{};\
        16|@^2;\
        16|@@;\
        HELLO|ce013625030ba8dba906f756967f9e9ca394464a;\
        HELLO|CE013625030BA8DBA906F756967F9E9CA394464A;\
        16|1111111111111111111111111111111111111111;\
        16|ce013625030ba8dba906f756967f9e9ca394464g;\
        16|ce013625030ba8dba906f756967f9e9ca394464a0;\
        VERSION|83ba;\
        VERSION|83BA;\
        VERSION|83baae61804e65cc73a7201a7252750c76066a3;\
        16|83b;\
        16|0000;\
        17|ce01;\
        HELLO|ce013;\
        LATE|ce01d;\
        FIRST_TREE|0d2596^{tree};\
        MERGE|refs/heads/main;\
        MERGE|heads/main;\
        MERGE|main;\
        16|Main;\
        3|;\
        3|^;\
        3|~1;\
        3|^1;\
        3|main@{0};\
        3|@{;\
        3|@{u};\
        16|main @;\
        16|..;\
        16|-",
};

// A HEAD whose ref is not there.
const UNBORN: Case = Case {
    sight: Sight::All,
    head: MAIN,
    refs: b"",
    texts: b"\
        16|HEAD;\
        16|@;\
        16|@^;\
        16|main;\
        3|",
};

// Six refs that one base may mean, in the order in which they are looked for.
const MEANT: &[u8] = b"\
    refs/s=FIRST \
    refs/refs/s=SECOND \
    refs/tags/refs/s=THIRD \
    refs/heads/refs/s=MERGE \
    refs/remotes/refs/s=V1 \
    refs/remotes/refs/s/HEAD=VV";

// A ref comes before an abbreviation, and forty digits before every ref.
const DIGITS: Case = Case {
    sight: Sight::All,
    head: MAIN,
    refs: b"\
        refs/heads/83ba=FIRST \
        refs/heads/ce013625030ba8dba906f756967f9e9ca394464a=SECOND \
        refs/heads/1111111111111111111111111111111111111111=THIRD",
    texts: b"\
        FIRST|83ba;\
        HELLO|ce013625030ba8dba906f756967f9e9ca394464a;\
        16|1111111111111111111111111111111111111111",
};

// What the committed prefix shows: the late blob, whose name begins as that of `HELLO`, is after
// it.
const COMMITTED: Case = Case {
    sight: Sight::Committed,
    head: MAIN,
    refs: REFS,
    texts: b"\
        HELLO|ce01;\
        16|ce01d;\
        16|ce01db81d2effa9a3c6bff69c5c7521bcd554b15;\
        HELLO|main^2:a.txt;\
        MERGE|vv^{}",
};

// The same texts where all is in sight.
const OPEN: Case = Case {
    sight: Sight::All,
    head: MAIN,
    refs: REFS,
    texts: b"\
        17|ce01;\
        LATE|ce01d;\
        LATE|ce01db81d2effa9a3c6bff69c5c7521bcd554b15",
};

// Whether an answer is what this word stands for, or the refusal of this number.
fn is_wanted(answer: Result<Name, Fault>, wanted: &[u8]) -> bool {
    match answer {
        Ok(id) => is_named(&id, wanted),
        Err(fault) => is_number(wanted, fault.code()),
    }
}

// What is asked of a history: whether each text of a case names what the case says; or whether a
// text names what the first of these refs holds, after that ref is removed what the second holds,
// and so on, and nothing at the end.
#[derive(Clone, Copy)]
enum Asked<'a> {
    AreNamed(&'a Case),
    IsOrder(&'a [u8], &'a [u8]),
}

fn holds(alloc: Global, asked: Asked<'_>) -> bool {
    let mut history = History::new(alloc, Sha1Naming);
    let holds = history.holds(asked);
    drop(history);
    holds
}

impl<N: Naming> History<N> {
    fn holds(&mut self, asked: Asked<'_>) -> bool {
        match asked {
            Asked::AreNamed(case) => self.are_named(case),
            Asked::IsOrder(held, text) => self.is_order(held, text),
        }
    }

    fn are_named(&mut self, case: &Case) -> bool {
        self.takes_history() && self.are_named_beside_refs(case)
    }

    fn are_named_beside_refs(&self, case: &Case) -> bool {
        let mut refs = Refs::new(self.alloc);
        let holds = self.are_named_beside(&mut refs, case);
        drop(refs);
        holds
    }

    fn are_named_beside(&self, refs: &mut Refs, case: &Case) -> bool {
        sets_all(refs, self.alloc, case.refs)
            && sets_head(refs, self.alloc, case.head)
            && self.names_all(refs, case)
    }

    fn names_all(&self, refs: &Refs, case: &Case) -> bool {
        for text in case.texts.split(|byte| *byte == b';') {
            if !is_wanted(
                self.resolve(case.sight, refs, field(text, 1)),
                field(text, 0),
            ) {
                return false;
            }
        }
        true
    }

    fn is_order(&mut self, held: &[u8], text: &[u8]) -> bool {
        self.takes_history() && self.is_order_of_refs(held, text)
    }

    fn is_order_of_refs(&self, held: &[u8], text: &[u8]) -> bool {
        let mut refs = Refs::new(self.alloc);
        let holds = self.is_order_of(&mut refs, held, text);
        drop(refs);
        holds
    }

    fn is_order_of(&self, refs: &mut Refs, held: &[u8], text: &[u8]) -> bool {
        sets_all(refs, self.alloc, held)
            && self.names_in_order(refs, held, text)
            && is_wanted(self.resolve(Sight::All, refs, text), b"16")
    }

    // Removes each ref after it was named.
    fn names_in_order(&self, refs: &mut Refs, held: &[u8], text: &[u8]) -> bool {
        for one in held.split(|byte| *byte == b' ') {
            if !is_wanted(self.resolve(Sight::All, refs, text), side(one, 1)) {
                return false;
            }
            refs.remove(side(one, 0));
        }
        true
    }

    fn resolve(&self, sight: Sight, refs: &Refs, text: &[u8]) -> Result<Name, Fault> {
        resolve(self.alloc, &self.pool, &self.table, sight, refs, text)
    }
}

fn are_named(alloc: Global, case: &Case) -> bool {
    holds(alloc, Asked::AreNamed(case))
}

fn is_order(alloc: Global, held: &[u8], text: &[u8]) -> bool {
    holds(alloc, Asked::IsOrder(held, text))
}

#[test]
fn suffixes_are_applied_as_git_does(rt: HostRuntime) {
    assert!(rt; are_named(rt.alloc(), &OF_SUFFIXES));
}

#[test]
fn paths_are_taken_as_they_stand(rt: HostRuntime) {
    assert!(rt; are_named(rt.alloc(), &OF_PATHS));
}

#[test]
fn bases_are_looked_up_as_git_does(rt: HostRuntime) {
    assert!(rt; are_named(rt.alloc(), &OF_BASES));
}

#[test]
fn an_unborn_head_names_nothing(rt: HostRuntime) {
    assert!(rt; are_named(rt.alloc(), &UNBORN));
}

#[test]
fn digits_of_a_ref_come_before_an_abbreviation_and_forty_digits_before_both(rt: HostRuntime) {
    assert!(rt; are_named(rt.alloc(), &DIGITS));
}

#[test]
fn the_committed_prefix_is_all_there_is(rt: HostRuntime) {
    assert!(rt; are_named(rt.alloc(), &COMMITTED));
}

#[test]
fn all_objects_are_there_for_the_open_stream(rt: HostRuntime) {
    assert!(rt; are_named(rt.alloc(), &OPEN));
}

#[test]
fn refs_are_looked_for_in_their_order(rt: HostRuntime) {
    assert!(rt; is_order(rt.alloc(), MEANT, b"refs/s"));
}
