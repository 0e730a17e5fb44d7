//! The answer to a query.

ghost use Rattle.std.specs.Prelude.{◌≡◌, Ok, length, take, OnErr};
ghost use Rattle.git_model.specs.{GoodRepository.{AreObjects}, HeldObjects.{AreHeld}};
ghost use Rattle.git_model.specs.{Repository.{object_named}, Results.{and_then}};
ghost use Rattle.tenant_tables.specs.{Objects.{objects}, IsBackedBy.{IsBackedBy}, View.{in_sight}};
ghost use Rattle.tenant_tables.specs.declared.sight.Sight.TheVariants.{Committed};
ghost use Rattle.revisions.specs.FirstParents.{IsFirstParentChain};
ghost use Rattle.answers.specs.Answers.{answer_to, export_asked, log_asked, object_asked, told};
ghost use Rattle.answers.specs.Answers.{told_of_object, told_of_repository, AreGoodForExport};
ghost use Rattle.answers.specs.{Faults.{Prints}, Queries.{query_of}};
ghost use Rattle.answers.specs.Printed.{line, log_lines, object_text, shortest_prefix};
ghost use Rattle.answers.specs.declared.query.ObjectQuery.TheVariants.{Ls};
ghost use Rattle.answers.specs.declared.query.Query.TheVariants as queries;

use crate::abbreviating::shortest_prefix;
use crate::fault::Fault;
use crate::log_printing::append_log;
use crate::object_printing::{append_object, append_tree};
use crate::printing::{append_line, append_name};
use crate::query::{ObjectQuery, Query, RepositoryQuery};
use crate::query_reading::read_query;
use crate::ref_printing::append_refs;
use content_pool::Pool;
use export_text::append_export;
use git_objects::{Kind, Name, Naming};
use revisions::{Expression, FirstParentCache, Range, peel, resolve_expression, resolve_range};
use std::alloc::Global;
use tenant_refs::Refs;
use tenant_tables::{Objects, Sight, Table};

fn tell_prefix<N: Naming>(
    objects: &Objects<'_, N>,
    id: Name,
    out: &mut Vec<u8>,
) -> Result<(), Fault>
    ensures told { AreHeld N.digest_of objects.now → Prints
        (Ok (line (shortest_prefix objects.now id))) out.old.items out.new.items result }
    ensures kept { take (length out.old.items) out.new.items ≡ out.old.items }
{
    let digits = shortest_prefix(objects, &id);
    append_line(&id.to_hex()[..digits], out)?;
    Ok(())
}

fn tell_contents<N: Naming>(
    objects: &Objects<'_, N>,
    id: Name,
    out: &mut Vec<u8>,
) -> Result<(), Fault>
    ensures told { Prints (object_text id (object_named id objects.now))
        out.old.items out.new.items result }
    ensures kept { take (length out.old.items) out.new.items ≡ out.old.items }
{
    match objects.get(&id) {
        Some((kind, contents)) => Ok(append_object(id, kind, contents, out)?),
        None => Err(Fault::UnknownRevision),
    }
}

fn tell_tree<N: Naming>(
    alloc: Global,
    objects: &Objects<'_, N>,
    id: Name,
    out: &mut Vec<u8>,
) -> Result<(), Fault>
    ensures told { AreHeld N.digest_of objects.now → Prints
        (told_of_object objects.now id Ls) out.old.items out.new.items result }
    ensures kept { take (length out.old.items) out.new.items ≡ out.old.items }
{
    let tree = peel(alloc, objects, Kind::Tree, id)?;
    append_tree(alloc, objects, &tree, out)?;
    Ok(())
}

// Appends what is asked about the object of this name.
fn tell_of_object<N: Naming>(
    alloc: Global,
    objects: &Objects<'_, N>,
    id: Name,
    asked: ObjectQuery,
    out: &mut Vec<u8>,
) -> Result<(), Fault>
    ensures told { AreHeld N.digest_of objects.now → Prints
        (told_of_object objects.now id asked) out.old.items out.new.items result }
    ensures kept { take (length out.old.items) out.new.items ≡ out.old.items }
{
    match asked {
        ObjectQuery::RevParse => Ok(append_name(id, out)?),
        ObjectQuery::Abbrev => tell_prefix(objects, id, out),
        ObjectQuery::Cat => tell_contents(objects, id, out),
        ObjectQuery::Ls => tell_tree(alloc, objects, id, out),
    }
}

// Appends what is asked about the object that an expression names.
fn tell_object<N: Naming>(
    alloc: Global,
    objects: &Objects<'_, N>,
    refs: &Refs,
    chain: &mut FirstParentCache,
    asked: ObjectQuery,
    of: &Expression<'_>,
    out: &mut Vec<u8>,
) -> Result<(), Fault>
    ensures told { AreHeld N.digest_of objects.now → IsFirstParentChain objects.now chain.old
        → Prints
        (and_then (object_asked (record { objects = objects.now; refs = refs.now }) of.now)
        (λ id. told_of_object objects.now id asked)) out.old.items out.new.items result }
    ensures kept { take (length out.old.items) out.new.items ≡ out.old.items }
    ensures chain { AreHeld N.digest_of objects.now → IsFirstParentChain objects.now chain.old
        → IsFirstParentChain objects.now chain.new }
{
    let id = resolve_expression(alloc, objects, refs, chain, of)?;
    tell_of_object(alloc, objects, id, asked, out)
}

fn tell_log<N: Naming>(
    alloc: Global,
    objects: &Objects<'_, N>,
    refs: &Refs,
    chain: &mut FirstParentCache,
    range: &Range<Expression<'_>>,
    out: &mut Vec<u8>,
) -> Result<(), Fault>
    ensures told { AreHeld N.digest_of objects.now → IsFirstParentChain objects.now chain.old
        → Prints
        (and_then (log_asked (record { objects = objects.now; refs = refs.now }) range.now)
        (λ ids. Ok (log_lines objects.now ids))) out.old.items out.new.items result }
    ensures kept { take (length out.old.items) out.new.items ≡ out.old.items }
    ensures chain { AreHeld N.digest_of objects.now → IsFirstParentChain objects.now chain.old
        → IsFirstParentChain objects.now chain.new }
{
    let ids = resolve_range(alloc, objects, refs, chain, range)?;
    append_log(objects, &ids, out)?;
    Ok(())
}

fn tell_export<N: Naming>(
    alloc: Global,
    objects: &Objects<'_, N>,
    refs: &Refs,
    out: &mut Vec<u8>,
) -> Result<(), Fault>
    ensures told { AreObjects N.digest_of objects.now → Prints
        (export_asked (record { objects = objects.now; refs = refs.now }))
        out.old.items out.new.items result }
    ensures kept { take (length out.old.items) out.new.items ≡ out.old.items }
{
    match append_export(alloc, objects, refs, out) {
        Ok(()) => Ok(()),
        Err(refusal) => Err(refusal.into()),
    }
}

// Appends what is asked about the whole repository.
fn tell_of_repository<N: Naming>(
    alloc: Global,
    objects: &Objects<'_, N>,
    refs: &Refs,
    asked: RepositoryQuery,
    out: &mut Vec<u8>,
) -> Result<(), Fault>
    ensures told { AreGoodForExport N.digest_of objects.now (Ok (queries.Repository asked)) → Prints
        (told_of_repository (record { objects = objects.now; refs = refs.now }) asked)
        out.old.items out.new.items result }
    ensures kept { take (length out.old.items) out.new.items ≡ out.old.items }
{
    match asked {
        RepositoryQuery::Refs => Ok(append_refs(refs, out)?),
        RepositoryQuery::Head => Ok(append_line(refs.head(), out)?),
        RepositoryQuery::Export => tell_export(alloc, objects, refs, out),
    }
}

// Appends the answer, or a piece of it where memory runs out.
fn tell<N: Naming>(
    alloc: Global,
    objects: &Objects<'_, N>,
    refs: &Refs,
    chain: &mut FirstParentCache,
    query: &Query<'_>,
    out: &mut Vec<u8>,
) -> Result<(), Fault>
    ensures told { AreHeld N.digest_of objects.now
        → AreGoodForExport N.digest_of objects.now (Ok query.now)
        → IsFirstParentChain objects.now chain.old → Prints
        (told (record { objects = objects.now; refs = refs.now }) query.now)
        out.old.items out.new.items result }
    ensures kept { take (length out.old.items) out.new.items ≡ out.old.items }
    ensures chain { AreHeld N.digest_of objects.now → IsFirstParentChain objects.now chain.old
        → IsFirstParentChain objects.now chain.new }
{
    match query {
        Query::Object(asked, of) => tell_object(alloc, objects, refs, chain, *asked, of, out),
        Query::Log(range) => tell_log(alloc, objects, refs, chain, range, out),
        Query::Repository(asked) => tell_of_repository(alloc, objects, refs, *asked, out),
    }
}

// Appends the answer, or nothing where it is refused.
fn tell_or_nothing<N: Naming>(
    alloc: Global,
    objects: &Objects<'_, N>,
    refs: &Refs,
    chain: &mut FirstParentCache,
    query: &Query<'_>,
    out: &mut Vec<u8>,
) -> Result<(), Fault>
    ensures told { AreHeld N.digest_of objects.now
        → AreGoodForExport N.digest_of objects.now (Ok query.now)
        → IsFirstParentChain objects.now chain.old → Prints
        (told (record { objects = objects.now; refs = refs.now }) query.now)
        out.old.items out.new.items result }
    ensures same { OnErr result (out.new.items ≡ out.old.items) }
    ensures chain { AreHeld N.digest_of objects.now → IsFirstParentChain objects.now chain.old
        → IsFirstParentChain objects.now chain.new }
{
    let start = out.len();
    let told = tell(alloc, objects, refs, chain, query, out);
    if told.is_err() {
        out.truncate(start);
    }
    told
}

// Answers a query on the committed objects. Separate from the function that owns the query.
fn tell_committed<N: Naming>(
    alloc: Global,
    pool: &Pool<N>,
    table: &Table,
    refs: &Refs,
    chain: &mut FirstParentCache,
    query: &Query<'_>,
    out: &mut Vec<u8>,
) -> Result<(), Fault>
    requires { IsBackedBy N.digest_of pool.now table.now.entries }
    ensures told { let os = objects pool.now (in_sight Committed table.now) in
        AreHeld N.digest_of os → AreGoodForExport N.digest_of os (Ok query.now)
        → IsFirstParentChain os chain.old → Prints
        (told (record { objects = os; refs = refs.now }) query.now)
        out.old.items out.new.items result }
    ensures same { OnErr result (out.new.items ≡ out.old.items) }
    ensures chain { let os = objects pool.now (in_sight Committed table.now) in
        AreHeld N.digest_of os → IsFirstParentChain os chain.old
        → IsFirstParentChain os chain.new }
{
    let objects = Objects::of(pool, table, Sight::Committed);
    tell_or_nothing(alloc, &objects, refs, chain, query, out)
}

/// Answers a query on the committed objects of a table and the refs, after what `out` holds.
///
/// | query | prints, each line with its line end |
/// |---|---|
/// | `rev-parse <expr>` | the object's name |
/// | `abbrev <expr>` | the shortest prefix of it, of at least 4 digits, that begins no other |
/// | `cat <expr>` | `<name> <kind> <size>`, and the contents with a line end |
/// | `ls <expr>` | each direct entry of the tree: `<mode> <kind> <name>`, a tab, its own name |
/// | `log <range>` | `<name> <first line of the message>` of each commit, from new to old |
/// | `refs` | `<name> <ref>`, in the order of the refs' bytes |
/// | `head` | the ref that HEAD names |
/// | `export` | what the refs reach, and the refs, as a stream of git-fast-import(1) |
///
/// `Fault::MalformedQuery` (41) above 8,192 bytes, else `Fault::UnknownQuery` (40), else
/// `Fault::MalformedQuery` (41); then `Fault::WrongKind` (15), `Fault::UnknownRevision` (16) and
/// `Fault::Ambiguous` (17) in the order in which the parts of an expression are decided;
/// `Fault::Limit` (25) where there are too many refs to be exported (export_text). Takes memory for
/// the answer, to read the objects on the way, and for the commits that `~<n>` passes;
/// `Fault::Memory` (90) where there is none. After a refusal `out` is unchanged.
///
/// The pool is the one that the table stands in. The answer is the defined one where the committed
/// objects are held (AreHeld of git_model) and, for an export, good (AreObjects).
pub fn answer<N: Naming>(
    alloc: Global,
    pool: &Pool<N>,
    table: &Table,
    refs: &Refs,
    query: &[u8],
    out: &mut Vec<u8>,
) -> Result<(), Fault>
    requires { IsBackedBy N.digest_of pool.now table.now.entries }
    ensures told { let os = objects pool.now (in_sight Committed table.now) in
        AreHeld N.digest_of os → AreGoodForExport N.digest_of os (query_of query.now) → Prints
        (answer_to (record { objects = os; refs = refs.now }) query.now)
        out.old.items out.new.items result }
    ensures same { OnErr result (out.new.items ≡ out.old.items) }
{
    let mut chain = FirstParentCache::new(alloc);
    let answered = answer_along(alloc, pool, table, refs, &mut chain, query, out);
    drop(chain);
    answered
}

/// `answer` for a caller that asks often: the caller keeps a chain of first parents, and `~<n>`
/// goes along it without reading again the commits of the query before.
///
/// The answer and the refusals are those of `answer` where the chain is one of the committed
/// objects, as the empty chain is. The chain stays one of theirs, and then has the commits that
/// this query passed. Clear it when the objects change.
pub fn answer_along<N: Naming>(
    alloc: Global,
    pool: &Pool<N>,
    table: &Table,
    refs: &Refs,
    chain: &mut FirstParentCache,
    query: &[u8],
    out: &mut Vec<u8>,
) -> Result<(), Fault>
    requires { IsBackedBy N.digest_of pool.now table.now.entries }
    ensures told { let os = objects pool.now (in_sight Committed table.now) in
        AreHeld N.digest_of os → AreGoodForExport N.digest_of os (query_of query.now)
        → IsFirstParentChain os chain.old → Prints
        (answer_to (record { objects = os; refs = refs.now }) query.now)
        out.old.items out.new.items result }
    ensures same { OnErr result (out.new.items ≡ out.old.items) }
    ensures chain { let os = objects pool.now (in_sight Committed table.now) in
        AreHeld N.digest_of os → IsFirstParentChain os chain.old
        → IsFirstParentChain os chain.new }
{
    let query = read_query(alloc, query)?;
    tell_committed(alloc, pool, table, refs, chain, &query, out)
}
