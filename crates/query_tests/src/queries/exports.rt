//! Exports byte for byte. `git fast-import` takes each text here without an annotated tag, and then
//! has the same refs and objects.

use crate::history::fields::{beside, field, takes_text};
use crate::history::made_by_git::{FOUR_COMMITS, TWO_COMMITS};
use crate::history::{History, sets_all, sets_head};
use git_objects::{Naming, Sha1Naming};
use std::alloc::Global;
use tenant_refs::Refs;

// The parts of texts, each after a word.
const PARTS: &[u8] = b"\
    FORCE|feature force\n;\
    HEAD_M|option gitpool head refs/heads/m\n;\
    HELLO|blob\n\
        mark :1\n\
        data 6\n\
        hello\n\n;\
    VERSION|blob\n\
        mark :2\n\
        data 10\n\
        version 1\n\n;\
    SCRATCH|reset refs/export/scratch\n;\
    CHECKPOINT|checkpoint\n;\
    ONE_FILE|deleteall\n\
        M 100644 :1 f\n\n;\
    TWO_FILES|deleteall\n\
        M 100644 :1 a.txt\n\
        M 100644 :2 dir/sub/deep.txt\n\n;\
    ALL_FILES|deleteall\n\
        M 100644 :1 \"\\\"a\\\"\"\n\
        M 100644 :2 a..b\n\
        M 100644 :1 a.txt\n\
        M 100644 :2 dir/sub/deep.txt\n\
        M 160000 1111111111111111111111111111111111111111 gone\n\
        M 160000 0d25961d6e542d9a79724e7f0b40fe87fe47fcd2 held\n\n;\
    FIRST_OF_F|commit refs/export/scratch\n\
        mark :3\n\
        author A <a@b> 0 +0000\n\
        committer A <a@b> 0 +0000\n\
        data 2\n\
        x\n\n;\
    ENCODED|commit refs/export/scratch\n\
        mark :4\n\
        author A <a@b> 1 +0000\n\
        committer A <a@b> 1 +0000\n\
        encoding ISO-8859-1\n\
        data 2\n\
        \xe9\n\n\
        from :3\n;\
    FIRST|commit refs/export/scratch\n\
        mark :6\n%1700001000%data 6\n\
        first\n\n;\
    THIRD|commit refs/export/scratch\n\
        mark :7\n%1700003000%data 6\n\
        third\n\n\
        from :6\n;\
    SECOND|commit refs/export/scratch\n\
        mark :9\n%1700002000%data 7\n\
        second\n\n\
        from :6\n;\
    MERGE|commit refs/export/scratch\n\
        mark :10\n%1700004000%data 6\n\
        merge\n\n\
        from :9\n\
        merge :7\n";

// What is exported: the ref that HEAD names, the refs, and the text, by the words of its parts and
// then what comes after them. HEAD names `refs/heads/main` at first.
const SMALL: &[u8] = b"\
    refs/heads/main||FORCE SCRATCH CHECKPOINT;\
    refs/heads/main|refs/heads/m=FIRST_OF_F|FORCE HELLO SCRATCH FIRST_OF_F ONE_FILE \
        SCRATCH CHECKPOINT|reset refs/heads/m\n\
        from :3\n\n;\
    refs/heads/m|refs/heads/m=ENCODED|FORCE HEAD_M HELLO SCRATCH FIRST_OF_F ONE_FILE \
        ENCODED ONE_FILE SCRATCH CHECKPOINT|reset refs/heads/m\n\
        from :4\n\n";

// A merge, paths that are quoted and gitlinks; a ref of a tag's name that holds a commit; what a
// branch does not reach; and a tag of a tag whose own ref is not there.
const OF_HISTORY: &[u8] = b"\
    refs/heads/main|refs/heads/main=MERGE refs/tags/v=SECOND|FORCE HELLO VERSION SCRATCH \
        FIRST TWO_FILES THIRD TWO_FILES SECOND ALL_FILES MERGE ALL_FILES \
        SCRATCH CHECKPOINT|reset refs/heads/main\n\
        from :10\n\n\
        reset refs/tags/v\n\
        from :9\n\n;\
    refs/heads/main|refs/heads/side=THIRD|FORCE HELLO VERSION SCRATCH \
        FIRST TWO_FILES THIRD TWO_FILES SCRATCH CHECKPOINT|reset refs/heads/side\n\
        from :7\n\n;\
    refs/heads/main|refs/tags/blob=BLOB_TAG refs/tags/vv=VV|FORCE HELLO VERSION SCRATCH \
        FIRST TWO_FILES THIRD TWO_FILES SECOND ALL_FILES MERGE ALL_FILES|tag v1\n\
        mark :11\n\
        from :10\n\
        tagger C O Mitter <committer@example.com> 5000 +0000\n\
        data 3\n\
        v1\n\n\
        tag vv\n\
        mark :12\n\
        from :11\n\
        tagger C O Mitter <committer@example.com> 6000 +0000\n\
        data 3\n\
        vv\n\n\
        tag blob\n\
        mark :13\n\
        from :1\n\
        tagger C O Mitter <committer@example.com> 7000 +0000\n\
        data 5\n\
        blob\n\n\
        reset refs/export/scratch\n\
        checkpoint\n\
        reset refs/tags/v1\n\
        from 0000000000000000000000000000000000000000\n\n\
        tag blob\n\
        from :1\n\
        tagger C O Mitter <committer@example.com> 7000 +0000\n\
        data 5\n\
        blob\n\n\
        tag vv\n\
        from :11\n\
        tagger C O Mitter <committer@example.com> 6000 +0000\n\
        data 3\n\
        vv\n\n";

fn takes_parts(text: &mut Vec<u8>, words: &[u8]) -> bool {
    for word in words.split(|byte| *byte == b' ') {
        if !takes_text(text, beside(PARTS, word)) {
            return false;
        }
    }
    true
}

// Whether each export is the wanted text.
fn are_exported(alloc: Global, steps: &[u8], exports: &[u8]) -> bool {
    let mut history = History::new(alloc, Sha1Naming);
    let holds = history.are_exported(steps, exports);
    drop(history);
    holds
}

impl<N: Naming> History<N> {
    fn are_exported(&mut self, steps: &[u8], exports: &[u8]) -> bool {
        if !self.takes_all(steps) {
            return false;
        }
        for export in exports.split(|byte| *byte == b';') {
            if !self.exports_so(export) {
                return false;
            }
        }
        true
    }

    fn exports_so(&self, export: &[u8]) -> bool {
        let mut refs = Refs::new(self.alloc);
        let holds = self.exports_beside(&mut refs, export);
        drop(refs);
        holds
    }

    fn exports_beside(&self, refs: &mut Refs, export: &[u8]) -> bool {
        sets_head(refs, self.alloc, field(export, 0))
            && sets_all(refs, self.alloc, field(export, 1))
            && self.prints_parts(refs, export)
    }

    fn prints_parts(&self, refs: &Refs, export: &[u8]) -> bool {
        let mut text = Vec::new(self.alloc);
        let holds = takes_parts(&mut text, field(export, 2))
            && takes_text(&mut text, field(export, 3))
            && self.prints(refs, b"export", b"0", &text);
        drop(text);
        holds
    }
}

#[test]
fn small_repositories_are_exported(rt: HostRuntime) {
    assert!(rt; are_exported(rt.alloc(), TWO_COMMITS, SMALL));
}

#[test]
fn a_history_with_tags_is_exported(rt: HostRuntime) {
    assert!(rt; are_exported(rt.alloc(), FOUR_COMMITS, OF_HISTORY));
}
