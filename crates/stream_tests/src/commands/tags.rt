//! Tags, resets and aliases.

use super::{Case, first_wrong_case};
use std::alloc::Global;

const TAGS: &str = "tag v => tag refs/tags/v;\
    from :1 => target :1;\
    data m => store-tag - m;\
    LF => wait;\
    tag v/1 => tag refs/tags/v/1;\
    mark :2 => wait;\
    from refs/heads/m~1 => target <refs/heads/m~1>;\
    original-oid x => wait;\
    tagger A <a@b> 0 +0000 => tagger A <a@b> 0 +0000;\
    data  => store-tag :2 ;\
    data x => 2;\
    tag refs/tags/v => tag refs/tags/refs/tags/v;\
    from  => target <>;\
    tagger <a@b> 0 +0000 => tagger  <a@b> 0 +0000;\
    data m => store-tag - m;\
    feature done => 9;\
    tag  => 11;\
    tag a b => 11;\
    tag a..b => 11;\
    tag .a => 11;\
    tag a/ => 11;\
    tag a.lock => 11;\
    tag v => tag refs/tags/v;\
    mark :1 => wait;\
    mark :2 => 5";

// What comes before each row of some cases.
const BEGUN: &str = "tag v => tag refs/tags/v";

const AIMED: &str = "tag v => tag refs/tags/v;\
    from :1 => target :1";

const TAGGED: &str = "tag v => tag refs/tags/v;\
    from :1 => target :1;\
    tagger A <a@b> 0 +0000 => tagger A <a@b> 0 +0000";

const AFTER_THE_NAME: &str = "data m => 5;\
    tagger A <a@b> 0 +0000 => 5;\
    original-oid x => 5;\
    END => 5;\
    from :0 => 12";

const AFTER_THE_TARGET: &str = "mark :1 => 5;\
    from :2 => 5;\
    LF => 5;\
    merge :1 => 5;\
    author A <a@b> 0 +0000 => 5;\
    END => 5;\
    tagger A<a@b> 0 +0000 => 21;\
    tagger A <a@b>0 +0000 => 21;\
    tagger A <a@b> x => 22;\
    tagger => 5";

const RESETS: &str = "reset refs/heads/m => reset refs/heads/m;\
    from :1 => reset-to :1;\
    LF => wait;\
    reset HEAD => reset HEAD;\
    from refs/heads/m^0 => reset-to <refs/heads/m^0>;\
    reset refs/tags/v => reset refs/tags/v;\
    from 0000000000 => reset-to <0000000000>;\
    reset refs/x => reset refs/x;\
    from  => reset-to <>;\
    LF => wait;\
    LF => wait;\
    reset refs/heads/m.lockx => reset refs/heads/m.lockx;\
    END => ok;\
    reset refs/heads/m => reset refs/heads/m;\
    LF => wait;\
    from :1 => 2;\
    reset refs/heads/m => reset refs/heads/m;\
    from :1 => reset-to :1;\
    from :2 => 2;\
    reset  => 11;\
    reset main => 11;\
    reset head => 11;\
    reset refs => 11;\
    reset refs/ => 11;\
    reset refs/heads/ => 11;\
    reset refs/heads//m => 11;\
    reset refs/heads/.m => 11;\
    reset refs/heads/m.lock => 11;\
    reset refs/heads/m.lock/x => 11;\
    reset refs/heads/m. => 11;\
    reset refs/heads/a..b => 11;\
    reset refs/heads/a@{b => 11;\
    reset refs/heads/a b => 11;\
    reset refs/heads/a~b => 11;\
    reset refs/heads/a^b => 11;\
    reset refs/heads/a:b => 11;\
    reset refs/heads/a?b => 11;\
    reset refs/heads/a*b => 11;\
    reset refs/heads/a[b => 11;\
    reset refs/heads/a\\b => 11;\
    reset refs/namespaces/x/refs/heads/y => 11";

const RESET: &str = "reset refs/heads/m => reset refs/heads/m";

const AFTER_A_RESET: &str = "mark :1 => 2;\
    merge :1 => 2;\
    data x => 2;\
    feature done => 9;\
    from :0 => 12;\
    from : => 12;\
    from :x => 12";

const ALIASES: &str = "alias => wait;\
    mark :7 => wait;\
    to refs/heads/m => set :7 <refs/heads/m>;\
    LF => wait;\
    alias => wait;\
    mark :7 => wait;\
    to :9 => set :7 :9;\
    alias => wait;\
    mark :1 => wait;\
    to  => set :1 <>;\
    feature done => 9";

const AFTER_AN_ALIAS: &str = "to x => 5;\
    LF => 5;\
    data x => 5;\
    alias => 5;\
    from :1 => 5;\
    END => 5;\
    mark 1 => 3;\
    mark :0 => 12";

const AFTER_ITS_MARK: &str = "LF => 5;\
    mark :2 => 5;\
    data x => 5;\
    to => 5;\
    to :0 => 12;\
    END => 5";

const CASES: &[Case] = &[
    Case {
        does: "reads tags",
        front: "",
        rows: TAGS,
    },
    Case {
        does: "misses the target after the name of a tag",
        front: BEGUN,
        rows: AFTER_THE_NAME,
    },
    Case {
        does: "misses the message after a target",
        front: AIMED,
        rows: AFTER_THE_TARGET,
    },
    Case {
        does: "misses the message after a tagger",
        front: TAGGED,
        rows: "original-oid x => 5;tagger A <a@b> 0 +0000 => 5",
    },
    Case {
        does: "reads resets",
        front: "",
        rows: RESETS,
    },
    Case {
        does: "takes one target after a reset",
        front: RESET,
        rows: AFTER_A_RESET,
    },
    Case {
        does: "reads aliases",
        front: "",
        rows: ALIASES,
    },
    Case {
        does: "misses the mark of an alias",
        front: "alias => wait",
        rows: AFTER_AN_ALIAS,
    },
    Case {
        does: "misses the target of an alias",
        front: "alias => wait;mark :1 => wait",
        rows: AFTER_ITS_MARK,
    },
];

/// The first case that fails: what it does, and the row at which it fails.
pub fn first_wrong(alloc: Global) -> Option<(&'static str, &'static str)> {
    first_wrong_case(alloc, CASES)
}
