//! Streams of git-fast-import(1), as items, with what git prints for them.

ghost use Rattle.std.specs.Prelude.{◌≡◌, ℕ, true, IfOk};
ghost use Rattle.content_pool.specs.Pool.{holds};
ghost use Rattle.tenant_tables.specs.{View.{held}, IsBackedBy.{IsBackedBy}};
ghost use Rattle.stream_commands.specs.Held.{FilesStand};

use content_pool::Pool;
use git_objects::{Name, Naming, Sha1Naming, TailNaming};
use import_session::{Fault, Session};
use std::alloc::{AllocError, Global};
use std::test::Fail;
use stream_lex::Item;
use tenant_refs::{RefName, Refs};
use tenant_tables::Table;

// The tables are texts, because a proof reads a text in one step. The cases of a table are
// separated by `#`, the fields of a case by `;`, and the steps, which are the second field, by `|`.
// The first field says in words what the case shows.

// What a test does next with its stream.
#[derive(Clone, Copy)]
enum Step<'a> {
    Take(Item<'a>),
    Finish,
}

// How the steps ended: the number of the last answer (0 if it was no refusal), whether `done` was
// read, what the pool stored then, and what it stored after the stream was given up.
#[derive(Clone, Copy)]
struct Left {
    number: u16,
    is_done: bool,
    stored: (u64, u64),
    given_up: (u64, u64),
}

const FROM_ZEROS: &[u8] = b"from 0000000000000000000000000000000000000000";

const TAGGER: &[u8] = b"tagger A U Thor <author@example.com> 1700000000 +0100";

const COMMITTER: &[u8] = b"committer A U Thor <author@example.com> 1700000000 +0100";

// The fields after the steps: what the stream prints, the number of the last answer, whether `done`
// was read, how many contents of how many bytes the pool stores then, and how many of how many
// after the stream was given up.
const CASES: &str = "\
    passes items over after done;\
    done|blob|=hello\n|no command|.;;0;yes;0;0;0;0#\
    gives up what was not checkpointed;\
    blob|=hello\n;;0;no;1;6;0;0#\
    keeps what was checkpointed at the end;\
    blob|=hello\n|.;;0;no;1;6;1;6#\
    keeps what was checkpointed at done;\
    blob|=hello\n|done;;0;yes;1;6;1;6#\
    keeps what was checkpointed at a checkpoint;\
    blob|=hello\n|checkpoint|blob|=other;;0;no;2;11;1;6#\
    moves the branches whose new tip reaches the old one, and keeps the others, as git does;\
    commit refs/heads/m|mark :1|committer|=one\n|commit refs/heads/m|mark :2|committer|=two\n|\
    commit refs/heads/o|mark :3|committer|=other\n|commit refs/heads/p|mark :4|committer|\
    =side\n|from :2|commit refs/heads/m|mark :5|committer|=three\n|commit refs/heads/m|mark :6|\
    committer|=four\n|reset refs/heads/a|from :5|reset refs/heads/b|from :3|reset refs/heads/c|\
    from :1|reset refs/heads/d|from :4|reset refs/heads/e|from :2|reset refs/heads/f|from :1|\
    reset refs/heads/g|from :6|reset refs/heads/h|from :3|reset refs/heads/i|from :2|\
    reset refs/heads/j|from :4|reset refs/heads/k|from :1|reset refs/heads/l|from :3|checkpoint|\
    reset refs/heads/a|from :6|reset refs/heads/b|from :6|reset refs/heads/c|from :6|\
    reset refs/heads/d|from :6|reset refs/heads/e|from :4|reset refs/heads/f|from :6|\
    reset refs/heads/g|from :4|reset refs/heads/h|from :4|reset refs/heads/i|from :6|\
    reset refs/heads/j|from :5|reset refs/heads/k|from :4|reset refs/heads/l|from :6|.;\
    kept refs/heads/b\nkept refs/heads/d\nkept refs/heads/g\nkept refs/heads/h\n\
    kept refs/heads/j\nkept refs/heads/l\n;0;no;7;1170;7;1170#\
    stores tags of a blob and of a tag under the names that git gives them;\
    blob|mark :1|=hello\n|tag v|mark :2|from :1|tagger|=first\n|get-mark :2|tag w|mark :3|\
    from :2|=first\n|get-mark :3|done;952cdcc8475363092ec0361133bb58070500a563\n\
    4c39ad1f24f4ef86507078029968107ec512d77f\n;0;yes;3;201;3;201#\
    stores a tag of a saved tag under the name that git gives it, which is not peeled;\
    blob|mark :1|=hello\n|tag v|from :1|tagger|=first\n|checkpoint|tag w|mark :2|from v|\
    =first\n|get-mark :2;4c39ad1f24f4ef86507078029968107ec512d77f\n;0;no;3;201;2;131#\
    finds marks that are set in order, again and out of order;\
    blob|mark :1|=one|blob|mark :2|=two|blob|mark :3|=three|blob|mark :2|=again|\
    blob|mark :9|=nine|blob|mark :4|=four|blob|mark :3|=last|\
    get-mark :1|get-mark :2|get-mark :3|get-mark :4|get-mark :9;\
    43dd47ea691c90a5fa7827892c70241913351963\n\
    d3dc34affe77fdb18e4beef9d9b3213d791358e5\n\
    1c1206e8bf4337e96dad9a6d139628852077558d\n\
    ea1f343c8a1248a4cc4eb47bc92953d0efddb510\n\
    211a8281d12d0f8fb0ec1d95b2f0188930b5d22a\n;0;no;7;28;0;0#\
    finds marks where numbers are left out, in a gap, and far from the others;\
    blob|mark :1|=one|blob|mark :4|=two|blob|mark :3|=three|blob|mark :5000|=nine|\
    blob|mark :6|=four|blob|mark :4|=again|\
    get-mark :1|get-mark :3|get-mark :4|get-mark :6|get-mark :5000;\
    43dd47ea691c90a5fa7827892c70241913351963\n\
    1d19714ffbc272ba0da6eb419d66123c20527174\n\
    d3dc34affe77fdb18e4beef9d9b3213d791358e5\n\
    ea1f343c8a1248a4cc4eb47bc92953d0efddb510\n\
    211a8281d12d0f8fb0ec1d95b2f0188930b5d22a\n;0;no;6;24;0;0#\
    stores nothing of an open commit, and gives it up;\
    commit refs/heads/m|committer|=first\n;;0;no;0;0;0;0#\
    stores the trees and the commit at its end;\
    blob|mark :1|=hello\n|commit refs/heads/m|mark :2|committer|=first\n|\
    M 100644 :1 a/x|;;0;no;4;227;0;0#\
    stores the directory that ls shows of an open commit, and gives it up;\
    blob|mark :1|=hello\n|checkpoint|commit refs/heads/m|committer|=first\n|M 100644 :1 a/x|\
    ls \"a\"|no command;\
    040000 tree e31a96220fbfbe7601ecc086a36b96dc27a8867e\ta\n;2;no;2;35;1;6";

// What is refused, and the number of the last answer. The bytes of the messages `first` and `tsrif`
// have the same sum, so that both contents have one name here.
const COMMIT_REFUSALS: &str = "\
    an end without done before that of a commit of which another content has the name;\
    feature done|commit refs/heads/m|committer|=first\n|commit refs/heads/n|committer|\
    =tsrif\n|.;7#\
    a commit whose name is that of another content, at its end;\
    commit refs/heads/m|committer|=first\n|commit refs/heads/n|committer|=tsrif\n|;24#\
    what is no command before that end, for the text is judged first;\
    commit refs/heads/m|committer|=first\n|commit refs/heads/n|committer|=tsrif\n|\
    no command;2#\
    a mark that is not there after that end, for the commit ends first;\
    commit refs/heads/m|committer|=first\n|commit refs/heads/n|committer|=tsrif\n|\
    get-mark :9;24#\
    contents of a file whose name is that of another content;\
    blob|=ab|commit refs/heads/m|committer|=first\n|M 100644 inline a|=ba;24";

// What is refused, and the number of the last answer.
const REFUSALS: &str = "\
    an alias to what is no expression;\
    alias|mark :1|to m^{x};3#\
    a tag in the place of data;\
    blob|tag .v;5#\
    a tag of forty zeros, which in a tag are a name like others;\
    tag v|from zeros|=first\n;16#\
    a tag of what is no expression;\
    tag v|from |=first\n;3#\
    a tag of digits that several names begin with;\
    blob|=hello\n|blob|=other|tag v|from abab|=first\n;17#\
    a tag of a blob peeled to a commit;\
    blob|=hello\n|tag v|from abab^{commit}|=first\n;15#\
    a tag whose name is that of another content;\
    blob|mark :1|=hello\n|tag v|from :1|=first\n|tag v|from :1|=tsrif\n;24#\
    an end in the place of data before one without done;\
    feature done|blob|.;5#\
    a feature after a reset;\
    reset refs/heads/m|feature done;9#\
    a reset of HEAD to the branch that HEAD names;\
    option gitpool head refs/heads/m|reset HEAD|from refs/heads/m;19#\
    a from outside a reset;\
    from refs/heads/n;2#\
    the blob of a mark that is not there;\
    cat-blob :1;13#\
    another content of one name;\
    blob|=ab|blob|=ba;24";

// The ref that HEAD names after the stream, whether `refs/heads/m`, which was there before, is
// still there, and the number of the last answer.
const REF_CASES: &str = "\
    HEAD and refs where nothing is said of them;\
    blob|=hello\n|checkpoint|done;refs/heads/main;yes;0#\
    a HEAD of an option, saved at done;\
    option gitpool head refs/heads/x|done;refs/heads/x;yes;0#\
    a HEAD of an option, saved at the end;\
    option gitpool head refs/heads/x|.;refs/heads/x;yes;0#\
    a HEAD of an option, saved at a checkpoint before a fault;\
    option gitpool head refs/heads/x|checkpoint|no command;refs/heads/x;yes;2#\
    the HEAD before, where a fault loses that of an option;\
    option gitpool head refs/heads/x|no command;refs/heads/main;yes;2#\
    the HEAD of the last option;\
    option gitpool head refs/heads/x|option gitpool head refs/heads/m|done;refs/heads/m;yes;0#\
    the ref of a branch that is unborn;\
    reset refs/heads/m|done;refs/heads/main;yes;0#\
    the ref of a branch with a commit, for what it holds is none;\
    commit refs/heads/m|committer|=first\n|done;refs/heads/main;yes;0#\
    no ref of a branch that is deleted;\
    reset refs/heads/m|from zeros||done;refs/heads/main;no;0#\
    the ref of a branch that was deleted and then reset;\
    reset refs/heads/m|from zeros|reset refs/heads/m|done;refs/heads/main;yes;0#\
    the ref of a branch whose deletion a fault loses;\
    reset refs/heads/m|from zeros|no command;refs/heads/main;yes;2#\
    no ref of the branch that HEAD names for the stream, which is deleted;\
    option gitpool head refs/heads/m|reset HEAD|from zeros|done;refs/heads/m;no;0#\
    no ref of the branch that the saved HEAD names, which is deleted;\
    option gitpool head refs/heads/m|checkpoint|reset HEAD|from zeros|done;refs/heads/m;no;0";

// Whether `refs/tags/v` is there after the stream, and the number of the last answer. If the tag is
// there, it is that of `hello`.
const TAG_CASES: &str = "\
    a tag at done;\
    blob|mark :1|=hello\n|tag v|from :1|tagger|=first\n|done;yes;0#\
    a tag of the blob whose name begins so;\
    blob|=hello\n|tag v|from ce013|tagger|=first\n|done;yes;0#\
    a tag of what another tag is of;\
    blob|mark :1|=hello\n|tag w|from :1|=first\n|checkpoint|tag v|from w^{}|tagger|=first\n|\
    done;yes;0#\
    a tag at the end;\
    blob|mark :1|=hello\n|tag v|from :1|tagger|=first\n|.;yes;0#\
    the last of two tags of one name;\
    blob|mark :1|=hello\n|tag v|from :1|=first\n|tag v|from :1|tagger|=first\n|checkpoint|\
    no command;yes;2#\
    a tag whose branch was deleted after it, for branches are saved before tags;\
    blob|mark :1|=hello\n|tag v|from :1|tagger|=first\n|reset refs/tags/v|from zeros|done;yes;0#\
    no tag where its branch is deleted and the tag was saved before;\
    blob|mark :1|=hello\n|tag v|from :1|tagger|=first\n|checkpoint|reset refs/tags/v|\
    from zeros|done;no;0#\
    no tag where its branch is deleted after the tag was saved, by force or not;\
    feature force|blob|mark :1|=hello\n|tag v|from :1|tagger|=first\n|checkpoint|\
    reset refs/tags/v|from zeros|.;no;0#\
    a tag that was saved, where its branch is unborn;\
    blob|mark :1|=hello\n|tag v|from :1|tagger|=first\n|checkpoint|reset refs/tags/v|done;yes;0#\
    no tag that a fault loses;\
    blob|mark :1|=hello\n|tag v|from :1|tagger|=first\n|no command;no;2";

const TAG_OF_HELLO: &[u8; 40] = b"952cdcc8475363092ec0361133bb58070500a563";

// A commit on each of two branches.
const ON_M: &str = "commit refs/heads/m|committer|=first\n||";

const ON_N: &str = "commit refs/heads/n|committer|=first\n||";

// First parents that are asked for after 100 commits on `m` and after one more. Then `n` begins at
// the second commit of `m`.
const ASKED_OF_M: &str = "\
    checkpoint|alias|mark :1|to refs/heads/m~90|get-mark :1|\
    commit refs/heads/m|committer|=first\n||\
    checkpoint|alias|mark :2|to refs/heads/m~90|get-mark :2|\
    commit refs/heads/n|committer|=other\n|from refs/heads/m~99||";

// What is asked after 80 more commits on `n`: the commit that it began at, its second commit, and a
// commit that `m` alone has.
const ASKED_OF_N: &str = "\
    checkpoint|alias|mark :3|to refs/heads/n~81|get-mark :3|\
    alias|mark :4|to refs/heads/n~79|get-mark :4|\
    alias|mark :5|to refs/heads/m~97|get-mark :5|";

// What is asked after 70 more commits on `m`: the second answer again, and the first commit of `n`.
const ASKED_LAST: &str = "\
    checkpoint|alias|mark :6|to refs/heads/m~160|get-mark :6|\
    alias|mark :7|to refs/heads/n~80|get-mark :7|done";

// The names that git gives these commits.
const ASKED: &str = "\
    5bf3c5e1d8bea5b3c20c5ea4c16b8da46cb93bca\n\
    d63fabf8785a2c91a5fb7c1a77eec6f39076adcf\n\
    6705ad1a869dc686ea1fafd492ca32ec2e2bb1c8\n\
    3618f9ad18807134f38105525cbca79a458f59ef\n\
    a3d4c0d396d2a64d3f3261a160d8872298e8a5d9\n\
    d63fabf8785a2c91a5fb7c1a77eec6f39076adcf\n\
    0e70fe51b4eae4c7dbc085ce309d883cf8805175\n";

// A commit on `m`, and one on `n`. Then tags, each of what was tagged before it, and after each the
// commit that it is peeled to.
const TAGGED_ON_M: &str = "commit refs/heads/m|mark :1|committer|=first\n||";

const TAGGED_ON_N: &str = "commit refs/heads/n|mark :1|committer|=other\n||";

const TAG_OF_LAST: &str = "\
    tag v|mark :1|from :1|tagger|=first\n|alias|mark :2|to :1|get-mark :2|";

// The same of the last tag by its ref, in two ways.
const LAST_BY_REF: &str = "\
    checkpoint|alias|mark :2|to v^0|get-mark :2|alias|mark :2|to v^{}|get-mark :2|done";

// The names that git gives these commits.
const COMMIT_ON_M: &str = "368a99d5f13f00091e71e3386817d88c4c6e4e8d\n";

const COMMIT_ON_N: &str = "24af5e0ff589916ea161bef7274d7684efb2ddb3\n";

const FULL: usize = 65_536;

// Streams over as many refs as there may be, `refs/tags/v` not among them. Each case goes on with
// the refs that the case before it left, and prints nothing. The fields after the steps: the number
// of the last answer, how many refs there are then, and whether `refs/tags/v` and the first branch
// are among them.
const FULL_CASES: &str = "\
    all refs at a checkpoint with one branch too many;\
    commit refs/heads/m|committer|=first\n|checkpoint;25;65536;no;yes#\
    all refs at a checkpoint with one branch too many, and tells none that is kept;\
    commit refs/heads/aaaa|committer|=first\n|commit refs/heads/n|committer|=first\n|\
    checkpoint;25;65536;no;yes#\
    all refs at a checkpoint with one tag too many;\
    blob|mark :1|=hello\n|tag v|from :1|=first\n|checkpoint;25;65536;no;yes#\
    all refs at an end with one tag too many, which deletes none either;\
    blob|mark :1|=hello\n|tag v|from :1|=first\n|tag w|from :1|=first\n|reset refs/heads/aaaa|\
    from zeros|.;25;65536;no;yes#\
    a tag where a deleted branch makes room for it;\
    blob|mark :1|=hello\n|tag v|from :1|=first\n|reset refs/heads/aaaa|from zeros|\
    done;0;65536;yes;no#\
    one ref less where another branch is deleted;\
    reset refs/heads/aaab|from zeros|done;0;65535;yes;no";

// A field of a case, counted from 0; empty if the case has fewer.
fn field(case: &str, position: usize) -> &str {
    match case.split(';').nth(position) {
        Some(field) => field,
        None => "",
    }
}

// The number that decimal digits spell.
fn number_of(digits: &str) -> u64 {
    let mut number = 0u64;
    for digit in digits.as_bytes() {
        let units = u64::from(digit.wrapping_sub(b'0'));
        number = number.wrapping_mul(10).wrapping_add(units);
    }
    number
}

fn is_number(case: &str, position: usize, number: u64) -> bool {
    number_of(field(case, position)) == number
}

fn is_yes(case: &str, position: usize) -> bool {
    field(case, position) == "yes"
}

fn is_said(case: &str, position: usize, fact: bool) -> bool {
    is_yes(case, position) == fact
}

// The line that a step spells. Three lines have a short form.
fn line_of(text: &[u8]) -> &[u8] {
    if text == b"committer".as_slice() {
        COMMITTER
    } else if text == b"tagger".as_slice() {
        TAGGER
    } else if text == b"from zeros".as_slice() {
        FROM_ZEROS
    } else {
        text
    }
}

// A step that begins with `=` is data, an empty step is an empty line, and a full stop is the end
// of the stream.
fn step_of(text: &[u8]) -> Step<'_> {
    match text {
        [] => Step::Take(Item::Blank),
        [b'.'] => Step::Finish,
        [b'=', data @ ..] => Step::Take(Item::Data(data)),
        _ => Step::Take(Item::Line(line_of(text))),
    }
}

// Takes one step of the only stream over this pool. Returns whether more may follow.
fn walk<N: Naming>(
    session: &mut Session,
    pool: &mut Pool<N>,
    table: &mut Table,
    refs: &mut Refs,
    step: Step<'_>,
    out: &mut Vec<u8>,
) -> Result<bool, Fault>
    requires stands { IsBackedBy N.digest_of pool.old table.old.entries }
    requires alone { (s : ℕ) → holds pool.old s ≡ held table.old.entries s }
    requires files { FilesStand N.digest_of session.old.state pool.old table.old }
    ensures stands { IsBackedBy N.digest_of pool.new table.new.entries }
    ensures alone { (s : ℕ) → holds pool.new s ≡ held table.new.entries s }
    ensures files { IfOk result (λ more. more ≡ true
        → FilesStand N.digest_of session.new.state pool.new table.new) }
{
    match step {
        Step::Take(item) => {
            session.take(pool, table, refs, item, out)?;
            Ok(true)
        }
        Step::Finish => {
            session.finish(pool, table, refs, out)?;
            Ok(false)
        }
    }
}

// Takes the steps in turn, up to the first refusal or the end. Returns the number of the refusal,
// or 0 if there is none.
fn take_all<N: Naming>(
    session: &mut Session,
    pool: &mut Pool<N>,
    table: &mut Table,
    refs: &mut Refs,
    steps: &str,
    out: &mut Vec<u8>,
) -> u16
    requires stands { IsBackedBy N.digest_of pool.old table.old.entries }
    requires alone { (s : ℕ) → holds pool.old s ≡ held table.old.entries s }
    requires files { FilesStand N.digest_of session.old.state pool.old table.old }
    ensures stands { IsBackedBy N.digest_of pool.new table.new.entries }
{
    for text in steps.split('|') {
        match walk(session, pool, table, refs, step_of(text.as_bytes()), out) {
            Ok(true) => {}
            Ok(false) => break,
            Err(fault) => return fault.code(),
        }
    }
    0
}

// Takes the steps of a new stream, the only one over this pool, and then gives up the stream.
fn run_in<N: Naming>(
    alloc: Global,
    pool: &mut Pool<N>,
    table: &mut Table,
    refs: &mut Refs,
    steps: &str,
    out: &mut Vec<u8>,
) -> Left
    requires stands { IsBackedBy N.digest_of pool.old table.old.entries }
    requires alone { (s : ℕ) → holds pool.old s ≡ held table.old.entries s }
{
    let mut session = Session::new(alloc);
    let number = take_all(&mut session, pool, table, refs, steps, out);
    let is_done = session.is_done();
    let stored = pool.stored();
    session.abandon(pool, table, refs);
    Left {
        number,
        is_done,
        stored,
        given_up: pool.stored(),
    }
}

// The same over an empty pool.
fn run<N: Naming>(
    alloc: Global,
    naming: N,
    refs: &mut Refs,
    steps: &str,
    out: &mut Vec<u8>,
) -> Left {
    let mut pool = Pool::new(alloc, naming);
    let mut table = Table::new(alloc);
    run_in(alloc, &mut pool, &mut table, refs, steps, out)
}

// Whether the stream ended as the last six fields of the case say.
fn ends_so(case: &str, left: &Left) -> bool {
    is_number(case, 3, u64::from(left.number))
        && is_said(case, 4, left.is_done)
        && is_number(case, 5, left.stored.0)
        && is_number(case, 6, left.stored.1)
        && is_number(case, 7, left.given_up.0)
        && is_number(case, 8, left.given_up.1)
}

fn does_so(alloc: Global, case: &str) -> bool {
    let mut out = Vec::new(alloc);
    let mut refs = Refs::new(alloc);
    let left = run(alloc, Sha1Naming, &mut refs, field(case, 1), &mut out);
    ends_so(case, &left) && out.as_slice() == field(case, 2).as_bytes()
}

// Whether the last answer has the number of the case, and nothing is printed or kept.
fn is_refused(alloc: Global, case: &str) -> bool {
    let mut out = Vec::new(alloc);
    let mut refs = Refs::new(alloc);
    let left = run(alloc, TailNaming, &mut refs, field(case, 1), &mut out);
    is_number(case, 2, u64::from(left.number)) && left.given_up == (0, 0) && out.is_empty()
}

// Refs with the ref `refs/heads/m`, unless memory ran out.
fn refs_with_m(alloc: Global) -> Refs {
    let mut refs = Refs::new(alloc);
    if let Ok(name) = RefName::read(alloc, b"refs/heads/m") {
        let _set = refs.set(&name, Name::from_bytes([7; 20]));
    }
    refs
}

fn leaves_so(alloc: Global, case: &str) -> bool {
    let mut out = Vec::new(alloc);
    let mut refs = refs_with_m(alloc);
    let left = run(alloc, Sha1Naming, &mut refs, field(case, 1), &mut out);
    refs.head() == field(case, 2).as_bytes()
        && is_said(case, 3, refs.get(b"refs/heads/m").is_some())
        && is_number(case, 4, u64::from(left.number))
}

// One of sixteen letters.
fn letter(number: usize) -> u8 {
    b'a' + (number % 16) as u8
}

// One of 65,536 branches, in ascending order.
fn branch_text(number: usize) -> [u8; 15] {
    let mut text = *b"refs/heads/aaaa";
    text[11] = letter(number / 4096);
    text[12] = letter(number / 256);
    text[13] = letter(number / 16);
    text[14] = letter(number);
    text
}

// Sets one of these branches, unless memory ran out.
fn set_branch(alloc: Global, refs: &mut Refs, number: usize) {
    if let Ok(name) = RefName::read(alloc, &branch_text(number)) {
        let _set = refs.set(&name, Name::from_bytes([7; 20]));
    }
}

// As many refs as there may be, unless memory ran out.
fn full_refs(alloc: Global) -> Refs {
    let mut refs = Refs::new(alloc);
    for number in 0..FULL {
        set_branch(alloc, &mut refs, number);
    }
    refs
}

fn leaves_full(alloc: Global, refs: &mut Refs, case: &str) -> bool {
    let mut out = Vec::new(alloc);
    let left = run(alloc, Sha1Naming, refs, field(case, 1), &mut out);
    is_number(case, 2, u64::from(left.number)) && out.is_empty() && has_so(refs, case)
}

fn has_so(refs: &Refs, case: &str) -> bool {
    is_number(case, 3, refs.len() as u64)
        && is_said(case, 4, refs.get(b"refs/tags/v").is_some())
        && is_said(case, 5, refs.get(b"refs/heads/aaaa").is_some())
}

// Whether `refs/tags/v` is the tag of `hello`, or is not there.
fn has_tag(refs: &Refs, wanted: bool) -> bool {
    match refs.get(b"refs/tags/v") {
        Some(id) => wanted && id.to_hex() == *TAG_OF_HELLO,
        None => !wanted,
    }
}

fn leaves_tag(alloc: Global, case: &str) -> bool {
    let mut out = Vec::new(alloc);
    let mut refs = Refs::new(alloc);
    let left = run(alloc, Sha1Naming, &mut refs, field(case, 1), &mut out);
    is_number(case, 3, u64::from(left.number)) && has_tag(&refs, is_yes(case, 2))
}

// The steps of a stream that asks for first parents between the commits of two branches.
fn asking_steps(alloc: Global) -> Result<String, AllocError> {
    let mut steps = ON_M.repeat(alloc, 100)?;
    steps.push_str(ASKED_OF_M)?;
    steps.push_str(&ON_N.repeat(alloc, 80)?)?;
    steps.push_str(ASKED_OF_N)?;
    steps.push_str(&ON_M.repeat(alloc, 70)?)?;
    steps.push_str(ASKED_LAST)?;
    Ok(steps)
}

// Whether these first parents are those that git finds.
fn asks_so(alloc: Global) -> Result<bool, AllocError> {
    let steps = asking_steps(alloc)?;
    let mut out = Vec::new(alloc);
    let mut refs = Refs::new(alloc);
    let left = run(alloc, Sha1Naming, &mut refs, &steps, &mut out);
    Ok(left.number == 0 && out.as_slice() == ASKED.as_bytes())
}

// The steps of a stream with a long chain of tags on each of two commits, each tag used.
fn tagging_steps(alloc: Global) -> Result<String, AllocError> {
    let tags = TAG_OF_LAST.repeat(alloc, 40)?;
    let mut steps = TAGGED_ON_M.repeat(alloc, 1)?;
    steps.push_str(&tags)?;
    steps.push_str(TAGGED_ON_N)?;
    steps.push_str(&tags)?;
    steps.push_str(LAST_BY_REF)?;
    Ok(steps)
}

// Whether each tag is peeled to the commit of its chain.
fn peels_so(alloc: Global) -> Result<bool, AllocError> {
    let steps = tagging_steps(alloc)?;
    let mut commits = COMMIT_ON_M.repeat(alloc, 40)?;
    commits.push_str(&COMMIT_ON_N.repeat(alloc, 42)?)?;
    let mut out = Vec::new(alloc);
    let mut refs = Refs::new(alloc);
    let left = run(alloc, Sha1Naming, &mut refs, &steps, &mut out);
    Ok(left.number == 0 && out.as_slice() == commits.as_bytes())
}

fn first_wrong_case(alloc: Global) -> Option<&'static str> {
    for case in CASES.split('#') {
        if !does_so(alloc, case) {
            return Some(field(case, 0));
        }
    }
    None
}

fn first_wrong_refusal(alloc: Global, refusals: &'static str) -> Option<&'static str> {
    for case in refusals.split('#') {
        if !is_refused(alloc, case) {
            return Some(field(case, 0));
        }
    }
    None
}

fn first_wrong_refs(alloc: Global) -> Option<&'static str> {
    for case in REF_CASES.split('#') {
        if !leaves_so(alloc, case) {
            return Some(field(case, 0));
        }
    }
    None
}

fn first_wrong_full(alloc: Global) -> Option<&'static str> {
    let mut refs = full_refs(alloc);
    for case in FULL_CASES.split('#') {
        if !leaves_full(alloc, &mut refs, case) {
            return Some(field(case, 0));
        }
    }
    None
}

fn first_wrong_tag(alloc: Global) -> Option<&'static str> {
    for case in TAG_CASES.split('#') {
        if !leaves_tag(alloc, case) {
            return Some(field(case, 0));
        }
    }
    None
}

#[test]
fn prints_and_keeps_what_git_does(rt: HostRuntime) -> Result<(), Fail> {
    assert_eq!(rt; first_wrong_case(rt.alloc()), None);
    Ok(())
}

#[test]
fn refuses_commits_by_number_and_prints_nothing(rt: HostRuntime) -> Result<(), Fail> {
    assert_eq!(rt; first_wrong_refusal(rt.alloc(), COMMIT_REFUSALS), None);
    Ok(())
}

#[test]
fn refuses_by_number_and_prints_nothing(rt: HostRuntime) -> Result<(), Fail> {
    assert_eq!(rt; first_wrong_refusal(rt.alloc(), REFUSALS), None);
    Ok(())
}

#[test]
fn leaves_head_and_refs(rt: HostRuntime) -> Result<(), Fail> {
    assert_eq!(rt; first_wrong_refs(rt.alloc()), None);
    Ok(())
}

#[test]
fn leaves_tags(rt: HostRuntime) -> Result<(), Fail> {
    assert_eq!(rt; first_wrong_tag(rt.alloc()), None);
    Ok(())
}

#[test]
fn finds_first_parents_between_commits(rt: HostRuntime) -> Result<(), Fail> {
    assert!(rt; asks_so(rt.alloc())?);
    Ok(())
}

#[test]
fn peels_each_tag_of_long_chains(rt: HostRuntime) -> Result<(), Fail> {
    assert!(rt; peels_so(rt.alloc())?);
    Ok(())
}

#[test]
fn counts_refs_after_a_checkpoint(rt: HostRuntime) -> Result<(), Fail> {
    assert_eq!(rt; first_wrong_full(rt.alloc()), None);
    Ok(())
}
