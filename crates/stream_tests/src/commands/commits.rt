//! Commits up to their changes, and what ends one.

use super::{Case, first_wrong_case};
use std::alloc::Global;

const HEADERS: &str = "commit refs/heads/m => commit refs/heads/m;\
    committer A <a@b> 0 +0000 => committer A <a@b> 0 +0000;\
    data m => open - m;\
    END => ends commit;\
    commit refs/heads/m => commit refs/heads/m;\
    mark :3 => wait;\
    original-oid x => wait;\
    author B <b@c> 1 -0130 => author B <b@c> 1 -0130;\
    committer A <a@b> 0 +0000 => committer A <a@b> 0 +0000;\
    encoding latin1 => encoding latin1;\
    data message => open :3 message;\
    from :1 => from :1;\
    merge :2 => merge :2;\
    merge refs/heads/x => merge <refs/heads/x>;\
    merge  => merge <>;\
    LF => ends commit, wait;\
    LF => wait;\
    END => ok;\
    commit HEAD => commit HEAD;\
    author A U <> 18446744073709551615 +9999 => author A U <> 18446744073709551615 +9999;\
    committer <a@b> 0 +0000 => committer  <a@b> 0 +0000;\
    encoding   => encoding  ;\
    data  => open - ;\
    from HEAD => from <HEAD>;\
    commit refs/heads/n => ends commit, commit refs/heads/n;\
    original-oid x => wait;\
    committer  <a@b> 007 -0000 => committer  <a@b> 007 -0000;\
    data m => open - m;\
    END => ends commit;\
    commit  => 11;\
    commit main => 11;\
    commit refs/namespaces/x/refs/heads/y => 11";

// What comes before each row of some cases.
const BRANCH: &str = "commit refs/heads/m => commit refs/heads/m";

// Each of these comes in the place of the committer.
const BEFORE_THE_COMMITTER: &str = "data m => 5;\
    encoding x => 5;\
    encoding  => 5;\
    from :1 => 5;\
    from :0 => 5;\
    merge :1 => 5;\
    M 644 :1 a => 5;\
    M 9 => 5;\
    LF => 5;\
    deleteall => 5;\
    cat-blob :1 => 5;\
    ls \"a\" => 5;\
    commit refs/heads/m => 5;\
    blob => 5;\
    done => 5;\
    feature done => 5;\
    option x => 5;\
    option git quiet => 5;\
    progress x => 5;\
    get-mark :1 => 5;\
    alias => 5;\
    tagger A <a@b> 0 +0000 => 5;\
    unknown => 5;\
    author => 5;\
    committer => 5;\
    END => 5";

const MARKED: &str = "commit refs/heads/m => commit refs/heads/m;\
    mark :1 => wait";

const NAMED_BEFORE: &str = "commit refs/heads/m => commit refs/heads/m;\
    original-oid x => wait";

const WRITTEN: &str = "commit refs/heads/m => commit refs/heads/m;\
    author A <a@b> 0 +0000 => author A <a@b> 0 +0000";

const COMMITTED: &str = "commit refs/heads/m => commit refs/heads/m;\
    committer A <a@b> 0 +0000 => committer A <a@b> 0 +0000";

const ENCODED: &str = "commit refs/heads/m => commit refs/heads/m;\
    committer A <a@b> 0 +0000 => committer A <a@b> 0 +0000;\
    encoding x => encoding x";

const AFTER_THE_AUTHOR: &str = "author A <a@b> 0 +0000 => 5;\
    original-oid x => 5;\
    data m => 5";

const AFTER_THE_COMMITTER: &str = "author A <a@b> 0 +0000 => 5;\
    author bad => 5;\
    committer A <a@b> 0 +0000 => 5;\
    LF => 5;\
    from :1 => 5;\
    encoding  => 3";

const IDENTS: &str = "author A => 21;\
    author A <a@b> now => 22;\
    committer  => 21;\
    committer A <a@b> => 21;\
    committer A <a@b>0 +0000 => 21;\
    committer A a@b> 0 +0000 => 21;\
    committer A <a@b 0 +0000 => 21;\
    committer A <a<b> 0 +0000 => 21;\
    committer A<a@b> 0 +0000 => 21;\
    committer A > <a@b> 0 +0000 => 21;\
    committer A <a@b>  => 22;\
    committer A <a@b> 0 => 22;\
    committer A <a@b> 18446744073709551616 +0000 => 22;\
    committer A <a@b> 000000000000000000000 +0000 => 22;\
    committer A <a@b> -1 +0000 => 22;\
    committer A <a@b> 0 0000 => 22;\
    committer A <a@b> 0 +000 => 22;\
    committer A <a@b> 0 +00000 => 22;\
    committer A <a@b> 0  +0000 => 22;\
    committer A <a@b> 0 +0000  => 22";

const ENDS: &str = "COMMIT => open - m;\
    blob => ends commit, wait;\
    data x => blob - x;\
    COMMIT => open - m;\
    tag v => ends commit, tag refs/tags/v;\
    from :1 => target :1;\
    data m => store-tag - m;\
    COMMIT => open - m;\
    reset refs/heads/n => ends commit, reset refs/heads/n;\
    COMMIT => open - m;\
    alias => ends commit, wait;\
    mark :1 => wait;\
    to x => set :1 <x>;\
    COMMIT => open - m;\
    checkpoint => ends commit, checkpoint;\
    COMMIT => open - m;\
    progress x => ends commit, progress progress x;\
    COMMIT => open - m;\
    get-mark :1 => ends commit, name :1;\
    COMMIT => open - m;\
    option x => ends commit, wait;\
    COMMIT => open - m;\
    LF => ends commit, wait;\
    LF => wait;\
    COMMIT => open - m;\
    cat-blob :1 => show :1;\
    ls :1 a => entry :1 [a];\
    done => ends commit, finish;\
    END => ok;\
    COMMIT => open - m;\
    merge :1 => merge :1;\
    from :2 => 2;\
    COMMIT => open - m;\
    from :1 => from :1;\
    from :2 => 2;\
    COMMIT => open - m;\
    D a => delete [a];\
    from :1 => 2;\
    COMMIT => open - m;\
    D a => delete [a];\
    merge :1 => 2;\
    COMMIT => open - m;\
    cat-blob :1 => show :1;\
    from :1 => 2";

const MESSAGE: &str = "COMMIT => open - m";

const AFTER_THE_MESSAGE: &str = "mark :1 => 2;\
    author A <a@b> 0 +0000 => 2;\
    committer A <a@b> 0 +0000 => 2;\
    encoding x => 2;\
    original-oid x => 2;\
    tagger A <a@b> 0 +0000 => 2;\
    to :1 => 2;\
    data x => 2;\
    unknown => 2;\
    from => 2;\
    N :1 :1 => 2;\
    feature done => 9;\
    option git quiet => 9;\
    tag .v => 11;\
    get-mark 5 => 3;\
    from :0 => 12;\
    merge : => 12";

const CASES: &[Case] = &[
    Case {
        does: "reads headers of commits",
        front: "",
        rows: HEADERS,
    },
    Case {
        does: "misses the committer whatever stands in its place",
        front: BRANCH,
        rows: BEFORE_THE_COMMITTER,
    },
    Case {
        does: "misses a part after a mark",
        front: MARKED,
        rows: "mark :2 => 5",
    },
    Case {
        does: "misses a part after an original name",
        front: NAMED_BEFORE,
        rows: "mark :1 => 5;original-oid y => 5",
    },
    Case {
        does: "misses the committer after an author",
        front: WRITTEN,
        rows: AFTER_THE_AUTHOR,
    },
    Case {
        does: "misses the message after a committer",
        front: COMMITTED,
        rows: AFTER_THE_COMMITTER,
    },
    Case {
        does: "misses the message after an encoding",
        front: ENCODED,
        rows: "encoding y => 5;END => 5",
    },
    Case {
        does: "tells a bad identity from a bad date",
        front: BRANCH,
        rows: IDENTS,
    },
    Case {
        does: "ends a commit where nothing of it stands",
        front: "",
        rows: ENDS,
    },
    Case {
        does: "knows what ends no commit",
        front: MESSAGE,
        rows: AFTER_THE_MESSAGE,
    },
];

/// The first case that fails: what it does, and the row at which it fails.
pub fn first_wrong(alloc: Global) -> Option<(&'static str, &'static str)> {
    first_wrong_case(alloc, CASES)
}
