//! What queries print, compared with what Git's commands print over the same objects and refs.

mod exports;
mod other_programs;

use crate::history::fields::{field, is_number};
use crate::history::{History, REFS, sets_all};
use answers::{answer, answer_along};
use git_objects::{Naming, Sha1Naming};
use numerals::read_number;
use revisions::FirstParentCache;
use std::alloc::Global;
use tenant_refs::Refs;

// What queries print over the history with these refs, with or without the object after the
// committed prefix committed too. Each query comes after the number of its refusal, 0 where there
// is none, and before what it prints. A number means a query of so many spaces.
struct Queries {
    refs: &'static [u8],
    is_late_committed: bool,
    printed: &'static [u8],
}

// `git rev-parse`, and `git rev-parse --short=4` where the late blob is not there.
const NAMES: Queries = Queries {
    refs: REFS,
    is_late_committed: false,
    printed: b"\
        0|rev-parse main|d257927dd0b4991858864b12862325a6587d882f\n;\
        0|rev-parse vv^{tag}|cf0e55a85504cc4cb40293de4e194b7f4e584893\n;\
        15|rev-parse main^{tag};\
        0|rev-parse main~1|538eca3bc5adea9abe246f65b99ac61354f6ae52\n;\
        16|rev-parse main~3;\
        0|rev-parse side~1|0d25961d6e542d9a79724e7f0b40fe87fe47fcd2\n;\
        0|rev-parse main~2|0d25961d6e542d9a79724e7f0b40fe87fe47fcd2\n;\
        0|rev-parse main~0|d257927dd0b4991858864b12862325a6587d882f\n;\
        16|rev-parse ce01db81;\
        41|rev-parse main^{/a};\
        16|rev-parse a b;\
        0|abbrev main|d257\n;\
        0|abbrev main:dir|1649\n;\
        0|abbrev main:a.txt|ce01\n;\
        16|abbrev nothing",
};

// `git rev-parse --short=4` where it is.
const LATER_NAMES: Queries = Queries {
    refs: REFS,
    is_late_committed: true,
    printed: b"\
        0|abbrev main:a.txt|ce013\n;\
        0|abbrev ce01db|ce01d\n;\
        17|abbrev ce01",
};

// `git cat-file --batch`, `git ls-tree`.
const OBJECTS: Queries = Queries {
    refs: REFS,
    is_late_committed: false,
    printed: b"\
        0|cat main:a.txt|ce013625030ba8dba906f756967f9e9ca394464a blob 6\n\
            hello\n\n;\
        0|cat vv|cf0e55a85504cc4cb40293de4e194b7f4e584893 tag 121\n\
            object f5994aef0694336b875c77dc2d6db4fe3994f8f3\n\
            type tag\n\
            tag vv\n\
            tagger C O Mitter <committer@example.com> 6000 +0000\n\n\
            vv\n\n;\
        16|cat main^3;\
        0|ls main|100644 blob ce013625030ba8dba906f756967f9e9ca394464a\t\"\\\"a\\\"\"\n\
            100644 blob 83baae61804e65cc73a7201a7252750c76066a30\ta..b\n\
            100644 blob ce013625030ba8dba906f756967f9e9ca394464a\ta.txt\n\
            040000 tree 16492477522e49cd95198a6bef72af38fbf01355\tdir\n\
            160000 commit 1111111111111111111111111111111111111111\tgone\n\
            160000 commit 0d25961d6e542d9a79724e7f0b40fe87fe47fcd2\theld\n;\
        0|ls main:dir|040000 tree e14d1b044bb69a4c4edb016c4eaab03cf068d53a\tsub\n;\
        15|ls main:a.txt",
};

// `git log --format='%H %s'`, `git show-ref`, `git symbolic-ref HEAD`.
const LISTS: Queries = Queries {
    refs: REFS,
    is_late_committed: false,
    printed: b"\
        0|log main|d257927dd0b4991858864b12862325a6587d882f merge\n\
            f2971d6512f934904dc595b0ffad72a1703060d5 third\n\
            538eca3bc5adea9abe246f65b99ac61354f6ae52 second\n\
            0d25961d6e542d9a79724e7f0b40fe87fe47fcd2 first\n;\
        0|log side..|d257927dd0b4991858864b12862325a6587d882f merge\n\
            538eca3bc5adea9abe246f65b99ac61354f6ae52 second\n;\
        0|log side...main|d257927dd0b4991858864b12862325a6587d882f merge\n\
            538eca3bc5adea9abe246f65b99ac61354f6ae52 second\n;\
        0|log main^..main^;\
        15|log blob;\
        41|log ..;\
        41|log;\
        0|refs|d257927dd0b4991858864b12862325a6587d882f refs/heads/main\n\
            f2971d6512f934904dc595b0ffad72a1703060d5 refs/heads/side\n\
            85e6f480b8b0ce362f5d72fb9373b96aa641e18d refs/tags/blob\n\
            f5994aef0694336b875c77dc2d6db4fe3994f8f3 refs/tags/v1\n\
            cf0e55a85504cc4cb40293de4e194b7f4e584893 refs/tags/vv\n;\
        0|head|refs/heads/main\n",
};

// Texts that are no query.
const NO_QUERIES: Queries = Queries {
    refs: REFS,
    is_late_committed: false,
    printed: b"\
        40|;\
        40|refs\n;\
        40|Refs;\
        40| refs;\
        40|exports;\
        41|export main;\
        41|export ;\
        41|refs ;\
        41|head x;\
        41|rev-parse;\
        41|rev-parse ;\
        41|cat :a.txt;\
        40|8192;\
        41|8193",
};

// Without a ref.
const NOTHING: Queries = Queries {
    refs: b"",
    is_late_committed: false,
    printed: b"\
        0|head|refs/heads/main\n;\
        0|refs;\
        0|export|feature force\n\
            reset refs/export/scratch\n\
            checkpoint\n;\
        16|rev-parse HEAD;\
        16|log HEAD",
};

// What stands before an answer.
const ASKED: &[u8] = b"asked: ";

// The number of a refusal, 0 where there is none.
fn code_of(answer: Result<(), answers::Fault>) -> u16 {
    match answer {
        Ok(()) => 0,
        Err(fault) => fault.code(),
    }
}

// Whether this stands after `asked`.
fn is_printed(out: &[u8], printed: &[u8]) -> bool {
    match out.strip_prefix(ASKED) {
        Some(text) => text == printed,
        None => false,
    }
}

impl<N: Naming> History<N> {
    fn are_printed(&mut self, queries: &Queries) -> bool {
        if !self.takes_history() {
            return false;
        }
        if queries.is_late_committed {
            self.table.commit();
        }
        self.are_printed_beside_refs(queries)
    }

    fn are_printed_beside(&self, refs: &mut Refs, queries: &Queries) -> bool {
        sets_all(refs, self.alloc, queries.refs) && self.prints_all(refs, queries.printed)
    }

    fn are_printed_beside_refs(&self, queries: &Queries) -> bool {
        let mut refs = Refs::new(self.alloc);
        let holds = self.are_printed_beside(&mut refs, queries);
        drop(refs);
        holds
    }

    fn prints_all(&self, refs: &Refs, queries: &[u8]) -> bool {
        for case in queries.split(|byte| *byte == b';') {
            if !self.prints_so(refs, case) {
                return false;
            }
        }
        true
    }

    fn prints_so(&self, refs: &Refs, case: &[u8]) -> bool {
        match read_number(field(case, 1)) {
            Some(size) => self.refuses_spaces(refs, size as usize, field(case, 0)),
            None => self.prints(refs, field(case, 1), field(case, 0), field(case, 2)),
        }
    }

    fn refuses_spaces(&self, refs: &Refs, size: usize, code: &[u8]) -> bool {
        match Vec::from_elem(self.alloc, b' ', size) {
            Ok(query) => {
                let holds = self.prints(refs, &query, code, b"");
                drop(query);
                holds
            }
            Err(_) => false,
        }
    }

    /// Whether a query is refused with this number, or not refused where the number is 0, and
    /// prints this text.
    pub fn prints(&self, refs: &Refs, query: &[u8], code: &[u8], printed: &[u8]) -> bool {
        let mut out = Vec::new(self.alloc);
        let answered = self.code_of_answer(refs, query, &mut out);
        let holds = is_number(code, answered) && is_printed(&out, printed);
        drop(out);
        holds
    }

    fn code_of_answer(&self, refs: &Refs, query: &[u8], out: &mut Vec<u8>) -> u16 {
        if out.extend_from_slice(ASKED).is_err() {
            return answers::Fault::Memory.code();
        }
        let (pool, table) = (&self.pool, &self.table);
        code_of(answer(self.alloc, pool, table, refs, query, out))
    }
}

// Whether each query prints the wanted text.
fn are_printed(alloc: Global, queries: &Queries) -> bool {
    let mut history = History::new(alloc, Sha1Naming);
    let holds = history.are_printed(queries);
    drop(history);
    holds
}

// ---- along the first parents that earlier queries met

// A walk begins; goes on past the last commit that was met, and to one before it; begins at another
// commit; is refused at a commit without a parent; and goes on after a refusal.
const WALKS: &[u8] = b"\
    rev-parse main~1;\
    rev-parse main~2;\
    rev-parse main~1;\
    rev-parse side~1;\
    log main~1..main~0;\
    rev-parse main~3;\
    rev-parse main~2;\
    refs;\
    abbrev main~2;\
    cat nothing~1;\
    cat main~1";

impl<N: Naming> History<N> {
    fn answers_walks_alike(&mut self) -> bool {
        if !self.takes_history() {
            return false;
        }
        self.answers_alike_beside_refs()
    }

    fn answers_alike_beside_refs(&self) -> bool {
        let mut refs = Refs::new(self.alloc);
        let holds = sets_all(&mut refs, self.alloc, REFS) && self.answers_alike_along(&refs);
        drop(refs);
        holds
    }

    fn answers_alike_along(&self, refs: &Refs) -> bool {
        let mut chain = FirstParentCache::new(self.alloc);
        let holds = self.answers_all_alike(refs, &mut chain);
        drop(chain);
        holds
    }

    fn answers_all_alike(&self, refs: &Refs, chain: &mut FirstParentCache) -> bool {
        for query in WALKS.split(|byte| *byte == b';') {
            if !self.answers_alike(refs, chain, query) {
                return false;
            }
        }
        true
    }

    // Whether a query has the same answer along the chain and without it.
    fn answers_alike(&self, refs: &Refs, chain: &mut FirstParentCache, query: &[u8]) -> bool {
        let mut along = Vec::new(self.alloc);
        let code = self.code_of_answer_along(refs, chain, query, &mut along);
        let holds = self.answers_so(refs, query, code, &along);
        drop(along);
        holds
    }

    fn code_of_answer_along(
        &self,
        refs: &Refs,
        chain: &mut FirstParentCache,
        query: &[u8],
        out: &mut Vec<u8>,
    ) -> u16 {
        let (pool, table) = (&self.pool, &self.table);
        code_of(answer_along(self.alloc, pool, table, refs, chain, query, out))
    }

    fn answers_so(&self, refs: &Refs, query: &[u8], code: u16, printed: &[u8]) -> bool {
        let mut out = Vec::new(self.alloc);
        let answered = self.code_of_answer(refs, query, &mut out);
        let holds = answered == code && is_printed(&out, printed);
        drop(out);
        holds
    }
}

#[test]
fn names_are_printed_as_git_prints_them(rt: HostRuntime) {
    assert!(rt; are_printed(rt.alloc(), &NAMES));
}

#[test]
fn a_front_grows_with_what_is_committed(rt: HostRuntime) {
    assert!(rt; are_printed(rt.alloc(), &LATER_NAMES));
}

#[test]
fn objects_are_printed_as_git_prints_them(rt: HostRuntime) {
    assert!(rt; are_printed(rt.alloc(), &OBJECTS));
}

#[test]
fn lists_are_printed_as_git_prints_them(rt: HostRuntime) {
    assert!(rt; are_printed(rt.alloc(), &LISTS));
}

#[test]
fn other_texts_are_refused(rt: HostRuntime) {
    assert!(rt; are_printed(rt.alloc(), &NO_QUERIES));
}

#[test]
fn without_refs_there_is_head_alone(rt: HostRuntime) {
    assert!(rt; are_printed(rt.alloc(), &NOTHING));
}

#[test]
fn kept_first_parents_change_no_answer(rt: HostRuntime) {
    let mut history = History::new(rt.alloc(), Sha1Naming);
    let holds = history.answers_walks_alike();
    drop(history);
    assert!(rt; holds);
}
