//! Objects that Git made: `git hash-object -w`, `git mktree --missing`, `git commit-tree` with
//! fixed dates, and `git mktag` gave their names.

use crate::history::fields::beside;
use git_objects::Name;

// The object names that tests speak of: a word for each, the name, and what has it.
const NAMES: &[u8] = b"\
    HELLO|ce013625030ba8dba906f756967f9e9ca394464a|the blob `hello` and a line feed;\
    VERSION|83baae61804e65cc73a7201a7252750c76066a30|the blob `version 1` and a line feed;\
    LATE|ce01db81d2effa9a3c6bff69c5c7521bcd554b15|a blob whose name begins with the same four \
        digits as that of `HELLO`;\
    DEEP|e14d1b044bb69a4c4edb016c4eaab03cf068d53a|the tree with deep.txt alone;\
    DIRECTORY|16492477522e49cd95198a6bef72af38fbf01355|the tree with `DEEP` at sub;\
    FIRST_TREE|69203b20a0adc5adc82ae0598ca70d8bf68ee217|the tree of `FIRST` and `THIRD`: a.txt, \
        and `DIRECTORY` at dir;\
    SECOND_TREE|5fbbfb6dd76043cb343ca68ad9f8db77ed1b1a3b|the tree of `SECOND` and `MERGE`;\
    FIRST|0d25961d6e542d9a79724e7f0b40fe87fe47fcd2|a commit without a parent;\
    SECOND|538eca3bc5adea9abe246f65b99ac61354f6ae52|a commit on `FIRST`;\
    THIRD|f2971d6512f934904dc595b0ffad72a1703060d5|another commit on `FIRST`;\
    MERGE|d257927dd0b4991858864b12862325a6587d882f|the merge of `SECOND` and `THIRD`;\
    V1|f5994aef0694336b875c77dc2d6db4fe3994f8f3|a tag of `MERGE`;\
    VV|cf0e55a85504cc4cb40293de4e194b7f4e584893|a tag of `V1`;\
    BLOB_TAG|85e6f480b8b0ce362f5d72fb9373b96aa641e18d|a tag of `HELLO`;\
    GONE|1111111111111111111111111111111111111111|the name of no object;\
    NO_FILES|4b825dc642cb6eb9a060e54bf8d69288fbee4904|the tree without an entry, of the commits \
        below;\
    COMMIT_A|5132f882c99ccb183b18722e18f894bf45763f1b|a commit of time 5 without a parent;\
    COMMIT_B|1f32a0941bc8a03f868cb9b1aad1c75a100457e4|a commit of time 9 on `COMMIT_A`;\
    COMMIT_C|98a16e0e0ac2052fa038030660da775bff9aeebd|a commit of time 7 on `COMMIT_B`;\
    COMMIT_D|df6a4d2696d09ee82cf11a6eb39b8f99f3ba1688|a commit of time 7 on `COMMIT_A`;\
    COMMIT_M|4e6fd0e939f6a17cd465a9d645a9a67f6b530163|the merge of `COMMIT_C` and `COMMIT_D`, of \
        time 3;\
    COMMIT_U|785a20ed79f9265424d9e2bdc0b9639704f4f545|a commit of time 8 without a parent;\
    ONE_FILE|10731d0b170b98481a00bdca161e874e0ab93377|the tree with the blob `HELLO` at f;\
    FIRST_OF_F|28139c25c808723300683a56bda158d153221c0e|a commit of `ONE_FILE` without a parent;\
    ENCODED|3b1dde46b25639a733b820636856adbe1f406801|a commit on `FIRST_OF_F` whose message is \
        not in UTF-8";

/// The steps of the history: the commits `FIRST`, `THIRD`, `SECOND` and `MERGE`, the tags `V1`,
/// `VV` and `BLOB_TAG`, and after the committed prefix the blob `LATE`.
pub const FOUR_COMMITS: &[u8] = b"\
    blob|hello\n;\
    blob|version 1\n;\
    file|a.txt|HELLO;\
    file|dir/sub/deep.txt|VERSION;\
    tree|FIRST_TREE;\
    commit|tree 69203b20a0adc5adc82ae0598ca70d8bf68ee217\n%1700001000%\nfirst\n;\
    commit|tree 69203b20a0adc5adc82ae0598ca70d8bf68ee217\n\
        parent 0d25961d6e542d9a79724e7f0b40fe87fe47fcd2\n%1700003000%\nthird\n;\
    file|\"a\"|HELLO;\
    file|a..b|VERSION;\
    gitlink|gone|GONE;\
    gitlink|held|FIRST;\
    tree|SECOND_TREE;\
    commit|tree 5fbbfb6dd76043cb343ca68ad9f8db77ed1b1a3b\n\
        parent 0d25961d6e542d9a79724e7f0b40fe87fe47fcd2\n%1700002000%\nsecond\n;\
    commit|tree 5fbbfb6dd76043cb343ca68ad9f8db77ed1b1a3b\n\
        parent 538eca3bc5adea9abe246f65b99ac61354f6ae52\n\
        parent f2971d6512f934904dc595b0ffad72a1703060d5\n%1700004000%\nmerge\n;\
    tag|object d257927dd0b4991858864b12862325a6587d882f\n\
        type commit\n\
        tag v1\n\
        tagger C O Mitter <committer@example.com> 5000 +0000\n\n\
        v1\n;\
    tag|object f5994aef0694336b875c77dc2d6db4fe3994f8f3\n\
        type tag\n\
        tag vv\n\
        tagger C O Mitter <committer@example.com> 6000 +0000\n\n\
        vv\n;\
    tag|object ce013625030ba8dba906f756967f9e9ca394464a\n\
        type blob\n\
        tag blob\n\
        tagger C O Mitter <committer@example.com> 7000 +0000\n\n\
        blob\n;\
    checkpoint;\
    blob|late 47259\n";

/// The steps of commits without files: those from `COMMIT_A` to `COMMIT_C`, and after the committed
/// prefix `COMMIT_D`, `COMMIT_M` and `COMMIT_U`.
pub const SIX_COMMITS: &[u8] = b"\
    tree|NO_FILES;\
    commit|tree 4b825dc642cb6eb9a060e54bf8d69288fbee4904\n%5%\na\n;\
    commit|tree 4b825dc642cb6eb9a060e54bf8d69288fbee4904\n\
        parent 5132f882c99ccb183b18722e18f894bf45763f1b\n%9%\nb\n;\
    commit|tree 4b825dc642cb6eb9a060e54bf8d69288fbee4904\n\
        parent 1f32a0941bc8a03f868cb9b1aad1c75a100457e4\n%7%\nc\n;\
    checkpoint;\
    commit|tree 4b825dc642cb6eb9a060e54bf8d69288fbee4904\n\
        parent 5132f882c99ccb183b18722e18f894bf45763f1b\n%7%\nd\n;\
    commit|tree 4b825dc642cb6eb9a060e54bf8d69288fbee4904\n\
        parent 98a16e0e0ac2052fa038030660da775bff9aeebd\n\
        parent df6a4d2696d09ee82cf11a6eb39b8f99f3ba1688\n%3%\nm\n;\
    commit|tree 4b825dc642cb6eb9a060e54bf8d69288fbee4904\n%8%\nu\n";

/// The steps of one file and two commits of it: `FIRST_OF_F`, and `ENCODED`, which has an encoding.
pub const TWO_COMMITS: &[u8] = b"\
    blob|hello\n;\
    file|f|HELLO;\
    tree|ONE_FILE;\
    commit|tree 10731d0b170b98481a00bdca161e874e0ab93377\n\
        author A <a@b> 0 +0000\n\
        committer A <a@b> 0 +0000\n\n\
        x\n;\
    commit|tree 10731d0b170b98481a00bdca161e874e0ab93377\n\
        parent 28139c25c808723300683a56bda158d153221c0e\n\
        author A <a@b> 1 +0000\n\
        committer A <a@b> 1 +0000\n\
        encoding ISO-8859-1\n\n\
        \xe9\n;\
    checkpoint";

// The digits of the name that a word stands for; none where it stands for none.
fn digits_of(word: &[u8]) -> &'static [u8] {
    beside(NAMES, word)
}

/// The name that a word stands for.
pub fn name_of(word: &[u8]) -> Option<Name> {
    Name::from_hex(digits_of(word))
}

/// Whether a word stands for this name.
pub fn is_named(id: &Name, word: &[u8]) -> bool {
    id.to_hex().as_slice() == digits_of(word)
}
