//! The changes of a commit.

use super::{Case, first_wrong_case};
use std::alloc::Global;

const MODIFIED: &str = "COMMIT => open - m;\
    M 644 :1 a => modify 100644 :1 [a];\
    M 100644 :1 a/b => modify 100644 :1 [a/b];\
    M 755 :1 a => modify 100755 :1 [a];\
    M 100755 :1 a => modify 100755 :1 [a];\
    M 120000 :1 a => modify 120000 :1 [a];\
    M 160000 :1 a => modify 160000 :1 [a];\
    M 160000 CE013625030BA8DBA906F756967F9E9CA394464A s => modify 160000 ce013625 [s];\
    M 040000 4b825dc642cb6eb9a060e54bf8d69288fbee4904 d => modify 040000 4b825dc6 [d];\
    M 040000 :1 a => modify 040000 :1 [a];\
    M 644 :1  => modify 100644 :1 [];\
    M 644 :1 \"\" => modify 100644 :1 [];\
    M 644 :1 a b => modify 100644 :1 [a b];\
    M 644 :1 \"a b\" => modify 100644 :1 [a b];\
    M 644 :1 \"a\\303\\251\" => modify 100644 :1 [aé];\
    M 644 :1 \"a\\tb\\\\c\\\"d\" => modify 100644 :1 [a\tb\\c\"d];\
    M 644 :1 a\"b => modify 100644 :1 [a\"b];\
    M 644 :1 inline => modify 100644 :1 [inline];\
    END => ends commit;\
    COMMIT => open - m;\
    M 40000 :1 a => 23;\
    COMMIT => open - m;\
    M 0644 :1 a => 23;\
    COMMIT => open - m;\
    M 100664 :1 a => 23;\
    COMMIT => open - m;\
    M  => 23;\
    COMMIT => open - m;\
    M  644 :1 a => 23;\
    COMMIT => open - m;\
    M 777 inline x => 23;\
    COMMIT => open - m;\
    M 777 : x => 23;\
    COMMIT => open - m;\
    M 644 => 3;\
    COMMIT => open - m;\
    M 644  => 3;\
    COMMIT => open - m;\
    M 644  :1 a => 3;\
    COMMIT => open - m;\
    M 644 :1 => 3;\
    COMMIT => open - m;\
    M 644 x a => 3;\
    COMMIT => open - m;\
    M 644 inline2 a => 3;\
    COMMIT => open - m;\
    M 644 :0 a => 12;\
    COMMIT => open - m;\
    M 644 : a => 12;\
    COMMIT => open - m;\
    M 644 :x a//b => 12;\
    COMMIT => open - m;\
    M 644 :0 => 12;\
    COMMIT => open - m;\
    M 644 :1 a//b => 10;\
    COMMIT => open - m;\
    M 644 :1 /a => 10;\
    COMMIT => open - m;\
    M 644 :1 a/ => 10;\
    COMMIT => open - m;\
    M 644 :1 ./a => 10;\
    COMMIT => open - m;\
    M 644 :1 a/.. => 10;\
    COMMIT => open - m;\
    M 644 :1 \"a => 10;\
    COMMIT => open - m;\
    M 644 :1 \"a\\q\" => 10;\
    COMMIT => open - m;\
    M 644 :1 \"a\\400\" => 10;\
    COMMIT => open - m;\
    M 644 :1 \"\\000\" => 10;\
    COMMIT => open - m;\
    M 644 :1 \"a\" x => 10;\
    COMMIT => open - m;\
    M => 2;\
    COMMIT => open - m;\
    m 644 :1 a => 2";

const INLINE: &str = "COMMIT => open - m;\
    M 644 inline a => inline 100644  [a];\
    data x => contents x;\
    M 755 inline \"a b\" => inline 100755  [a b];\
    data  => contents ;\
    M 120000 inline l => inline 120000  [l];\
    data a/b => contents a/b;\
    D a => delete [a];\
    M 644 inline  => inline 100644  [];\
    data x => contents x;\
    LF => ends commit, wait;\
    COMMIT => open - m;\
    M 644 inline a => inline 100644  [a];\
    data x => contents x;\
    data y => 2;\
    COMMIT => open - m;\
    M 644 inline a => inline 100644  [a];\
    data x => contents x;\
    from :1 => 2;\
    COMMIT => open - m;\
    M 644 inline a => inline 100644  [a];\
    LF => 5;\
    COMMIT => open - m;\
    M 644 inline a => inline 100644  [a];\
    cat-blob :1 => 5;\
    COMMIT => open - m;\
    M 644 inline a => inline 100644  [a];\
    ls \"a\" => 5;\
    COMMIT => open - m;\
    M 644 inline a => inline 100644  [a];\
    M 644 inline b => 5;\
    COMMIT => open - m;\
    M 644 inline a => inline 100644  [a];\
    M 9 => 5;\
    COMMIT => open - m;\
    M 644 inline a => inline 100644  [a];\
    D a => 5;\
    COMMIT => open - m;\
    M 644 inline a => inline 100644  [a];\
    commit refs/heads/m => 5;\
    COMMIT => open - m;\
    M 644 inline a => inline 100644  [a];\
    done => 5;\
    COMMIT => open - m;\
    M 644 inline a => inline 100644  [a];\
    unknown => 5;\
    COMMIT => open - m;\
    M 644 inline a => inline 100644  [a];\
    END => 5;\
    COMMIT => open - m;\
    M 644 inline => 3;\
    COMMIT => open - m;\
    M 160000 inline x => 3;\
    COMMIT => open - m;\
    M 160000 inline a//b => 3;\
    COMMIT => open - m;\
    M 040000 inline x => 3;\
    COMMIT => open - m;\
    M 644 inline a//b => 10";

const OTHER_CHANGES: &str = "COMMIT => open - m;\
    D a => delete [a];\
    D  => delete [];\
    D a b => delete [a b];\
    D \"a b\" => delete [a b];\
    C a b => copy [a] [b];\
    C a  => copy [a] [];\
    C a b c => copy [a] [b c];\
    C \"a b\" c => copy [a b] [c];\
    C \"a\" \"b\" => copy [a] [b];\
    C  b => copy [] [b];\
    C \"\" b => copy [] [b];\
    R a b => rename [a] [b];\
    R a a => rename [a] [a];\
    R \"\" x => rename [] [x];\
    R \"a\\nb\" c/d => rename [a\nb] [c/d];\
    deleteall => deleteall;\
    cat-blob :1 => show :1;\
    ls :1 a => entry :1 [a];\
    ls :1  => entry :1 [];\
    ls \"a\" => branch entry [a];\
    ls \"a/b c\" => branch entry [a/b c];\
    ls \"\" => branch entry [];\
    M 644 :1 a => modify 100644 :1 [a];\
    LF => ends commit, wait;\
    ls \"a\" => 3;\
    COMMIT => open - m;\
    D a//b => 10;\
    COMMIT => open - m;\
    D \"a\"x => 10;\
    COMMIT => open - m;\
    C a => 10;\
    COMMIT => open - m;\
    C  => 10;\
    COMMIT => open - m;\
    C \"a\"b c => 10;\
    COMMIT => open - m;\
    C \"a b => 10;\
    COMMIT => open - m;\
    C a// b => 10;\
    COMMIT => open - m;\
    C a b// => 10;\
    COMMIT => open - m;\
    R a => 10;\
    COMMIT => open - m;\
    R a \"b => 10;\
    COMMIT => open - m;\
    ls a => 3;\
    COMMIT => open - m;\
    ls :1 => 3;\
    COMMIT => open - m;\
    ls :0 => 12;\
    COMMIT => open - m;\
    ls \"a\" x => 10;\
    COMMIT => open - m;\
    ls \"a => 10;\
    COMMIT => open - m;\
    ls \"a//b\" => 10;\
    COMMIT => open - m;\
    cat-blob x => 3;\
    COMMIT => open - m;\
    cat-blob :1 x => 12;\
    COMMIT => open - m;\
    D => 2;\
    COMMIT => open - m;\
    deleteall  => 2;\
    COMMIT => open - m;\
    deleteall x => 2";

const CASES: &[Case] = &[
    Case {
        does: "reads modified files",
        front: "",
        rows: MODIFIED,
    },
    Case {
        does: "reads files whose data follow",
        front: "",
        rows: INLINE,
    },
    Case {
        does: "reads other changes",
        front: "",
        rows: OTHER_CHANGES,
    },
];

/// The first case that fails: what it does, and the row at which it fails.
pub fn first_wrong(alloc: Global) -> Option<(&'static str, &'static str)> {
    first_wrong_case(alloc, CASES)
}
