//! Blobs and commands of one line.

use super::{Case, first_wrong_case};
use std::alloc::Global;

const BLOBS: &str = "blob => wait;\
    data hello => blob - hello;\
    blob => wait;\
    mark :1 => wait;\
    original-oid any words => wait;\
    data  => blob :1 ;\
    blob => wait;\
    original-oid  => wait;\
    data x => blob - x;\
    blob => wait;\
    mark :18446744073709551615 => wait;\
    data x => blob :18446744073709551615 x;\
    LF => wait;\
    blob => wait;\
    mark :00000000000000000042 => wait;\
    data x => blob :42 x;\
    data y => 2;\
    blob => wait;\
    mark :1 => wait;\
    END => 5;\
    blob => wait;\
    mark :1 => wait;\
    mark :2 => 5";

const AFTER_A_BLOB: &str = "END => 5;\
    LF => 5;\
    blob => 5;\
    done => 5;\
    feature done => 5;\
    option x => 5;\
    from :1 => 5;\
    mark => 5;\
    original-oid => 5;\
    mark 5 => 3;\
    mark  => 3;\
    mark : => 12;\
    mark :x => 12;\
    mark :0 => 12;\
    mark :1  => 12;\
    mark :18446744073709551616 => 12;\
    mark :000000000000000000001 => 12";

const ONE_LINE: &str = "checkpoint => checkpoint;\
    progress half way => progress progress half way;\
    progress  => progress progress ;\
    get-mark :1 => name :1;\
    get-mark :18446744073709551615 => name :18446744073709551615;\
    cat-blob :7 => show :7;\
    cat-blob CE013625030BA8DBA906F756967F9E9CA394464A => show ce013625;\
    ls :1  => entry :1 [];\
    ls :1 a/b => entry :1 [a/b];\
    ls :1 a b => entry :1 [a b];\
    ls :1 \"a b\" => entry :1 [a b];\
    ls 4b825dc642cb6eb9a060e54bf8d69288fbee4904 x => entry 4b825dc6 [x];\
    LF => wait;\
    done => finish;\
    END => ok;\
    END => ok;\
    ls \"a\" => 3;\
    ls \"a => 3;\
    ls \" => 3;\
    ls :1 => 3;\
    ls a => 3;\
    ls a b => 3;\
    ls  => 3;\
    ls  :1 => 3;\
    ls :0 x => 12;\
    ls : x => 12;\
    ls :x y => 12;\
    ls :1 a//b => 10;\
    ls :1 a/../b => 10;\
    ls :1 \"a => 10;\
    ls :1 \"a\" b => 10;\
    ls :1 /a => 10;\
    ls :1 a/ => 10;\
    ls :1 . => 10;\
    ls ce013625030ba8dba906f756967f9e9ca394464 x => 3;\
    ls ce013625030ba8dba906f756967f9e9ca394464a0 x => 3;\
    get-mark 5 => 3;\
    get-mark  => 3;\
    get-mark  :1 => 3;\
    get-mark : => 12;\
    get-mark :0 => 12;\
    get-mark :x => 12;\
    get-mark :1  => 12;\
    get-mark :+1 => 12;\
    get-mark ::1 => 12;\
    get-mark :18446744073709551616 => 12;\
    cat-blob :0 => 12;\
    cat-blob : => 12;\
    cat-blob :1 x => 12;\
    cat-blob x => 3;\
    cat-blob  => 3;\
    cat-blob ce013625030ba8dba906f756967f9e9ca394464g => 3";

const UNKNOWN: &str = "blob  => 2;\
    done  => 2;\
    checkpoint  => 2;\
    alias  => 2;\
    deleteall  => 2;\
    deleteall => 2;\
    progress => 2;\
    feature => 2;\
    option => 2;\
    get-mark => 2;\
    cat-blob => 2;\
    ls => 2;\
    commit => 2;\
    tag => 2;\
    reset => 2;\
    mark :1 => 2;\
    original-oid x => 2;\
    author A <a@b> 0 +0000 => 2;\
    committer x => 2;\
    encoding x => 2;\
    from :1 => 2;\
    merge :1 => 2;\
    tagger x => 2;\
    to :1 => 2;\
    M 644 :1 a => 2;\
    M 644 inline a => 2;\
    D a => 2;\
    C a b => 2;\
    R a b => 2;\
    N :1 :2 => 2;\
    data x => 2;\
    Blob => 2;\
    \x20blob => 2;\
    blobs => 2;\
    get-marks :1 => 2;\
    gpgsig x => 2";

const FEATURES: &str = "feature done => require done;\
    feature force => require force;\
    feature get-mark => require get-mark;\
    feature cat-blob => require cat-blob;\
    feature ls => require ls;\
    feature date-format=raw => require raw dates;\
    option git quiet => wait;\
    option gitx => wait;\
    option  => wait;\
    option hg quiet => wait;\
    option gitpool => wait;\
    option gitpool head => wait;\
    option gitpool tail x => wait;\
    LF => wait;\
    option gitpool head refs/heads/m => head refs/heads/m;\
    feature done => require done;\
    blob => wait;\
    data x => blob - x;\
    option hg x => wait;\
    feature done => 9;\
    progress x => progress progress x;\
    feature nonsense => 9;\
    progress x => progress progress x;\
    option git quiet => 9;\
    progress x => progress progress x;\
    option git bad => 9;\
    progress x => progress progress x;\
    option git => 9;\
    progress x => progress progress x;\
    option gitpool head refs/heads/m => 9;\
    progress x => progress progress x;\
    option gitpool head x => 9;\
    progress x => progress progress x;\
    option gitx => wait;\
    option gitpool head => wait;\
    END => ok;\
    done => finish;\
    feature done => 9;\
    checkpoint => checkpoint;\
    feature force => 9;\
    LF => wait;\
    option x => wait;\
    LF => wait;\
    feature ls => require ls;\
    END => ok;\
    feature x => 8;\
    feature done  => 8;\
    feature  => 8;\
    feature  done => 8;\
    feature Done => 8;\
    feature date-format=now => 8;\
    feature date-format => 8;\
    feature notes => 8;\
    feature force=1 => 8;\
    option git => 8;\
    option git  => 8;\
    option git quiet  => 8;\
    option git max-pack-size=1 => 8;\
    option gitpool head HEAD => 11;\
    option gitpool head  => 11;\
    option gitpool head main => 11;\
    option gitpool head refs/namespaces/x/refs/heads/y => 11;\
    option gitpool head refs/heads/m  => 11";

const CASES: &[Case] = &[
    Case {
        does: "reads blobs",
        front: "",
        rows: BLOBS,
    },
    Case {
        does: "misses the contents of a blob",
        front: "blob => wait",
        rows: AFTER_A_BLOB,
    },
    Case {
        does: "takes no second name of a blob",
        front: "blob => wait;original-oid x => wait",
        rows: "mark :1 => 5;mark 5 => 5;original-oid y => 5",
    },
    Case {
        does: "reads commands of one line",
        front: "",
        rows: ONE_LINE,
    },
    Case {
        does: "knows no other line where no command is open",
        front: "",
        rows: UNKNOWN,
    },
    Case {
        does: "reads features and options before other commands",
        front: "",
        rows: FEATURES,
    },
];

/// The first case that fails: what it does, and the row at which it fails.
pub fn first_wrong(alloc: Global) -> Option<(&'static str, &'static str)> {
    first_wrong_case(alloc, CASES)
}
