//! What an expression names: gitrevisions(7), "Specifying Revisions".

ghost use Rattle.git_model.specs.HeldObjects.{AreHeld};
ghost use Rattle.tenant_tables.specs.{Objects.{objects}, IsBackedBy.{IsBackedBy}, View.{in_sight}};
ghost use Rattle.revisions.specs.{Faults.{Gives}, FirstParents.{IsFirstParentChain}};
ghost use Rattle.revisions.specs.{Ranges.{commit_named}, Resolution.{named_by}};
ghost use Rattle.revisions.specs.Resolution.{resolved, at_path, after_suffix, after_suffixes};
ghost use Rattle.revisions.specs.TagEnds.{AreChains, AreTagEnds};

use crate::base::{base_named, if_there};
use crate::expression::Expression;
use crate::fault::Fault;
use crate::first_parents::FirstParentCache;
use crate::parents::nth_parent;
use crate::peeling::peel;
use crate::stored_path::entry_below;
use crate::suffix::Suffix;
use crate::tag_ends::{ChainCache, TagCache, peel_along, peel_tags_along};
use content_pool::Pool;
use git_objects::{FileMode, Kind, Name, Naming, TreeEntry};
use git_paths::Path;
use std::alloc::Global;
use tenant_refs::Refs;
use tenant_tables::{Objects, Sight, Table};

// The object at a path of a tree. A path past the limits has none.
#[tactic(auto, unfolding(crate::specs::Resolution::at_path))]
fn at_path<N: Naming>(
    alloc: Global,
    objects: &Objects<'_, N>,
    path: &Path,
    tree: Name,
) -> Result<Name, Fault>
    ensures { AreHeld N.digest_of objects.now
        → Gives result (at_path objects.now path.now tree) }
{
    if !path.is_within_limits() {
        return Err(Fault::UnknownRevision);
    }
    let root = TreeEntry {
        mode: FileMode::Directory,
        name: b"",
        id: tree,
    };
    match entry_below(alloc, objects, path, &root) {
        Ok(Some(entry)) => if_there(objects, entry.id),
        Ok(None) => Err(Fault::UnknownRevision),
        Err(_) => Err(Fault::Memory),
    }
}

// The object that a suffix leads to from this one.
fn after_suffix<N: Naming>(
    alloc: Global,
    objects: &Objects<'_, N>,
    chain: &mut FirstParentCache,
    tags: &mut TagCache,
    suffix: &Suffix,
    id: Name,
) -> Result<Name, Fault>
    ensures found { AreHeld N.digest_of objects.now → IsFirstParentChain objects.now chain.old
        → AreTagEnds objects.now tags.old
        → Gives result (after_suffix objects.now suffix.now id) }
    ensures chain { AreHeld N.digest_of objects.now → IsFirstParentChain objects.now chain.old
        → IsFirstParentChain objects.now chain.new }
    ensures tags { AreHeld N.digest_of objects.now → AreTagEnds objects.now tags.old
        → AreTagEnds objects.now tags.new }
{
    match suffix {
        Suffix::Parent(n) => {
            let commit = peel_along(alloc, objects, tags, Kind::Commit, id)?;
            nth_parent(alloc, objects, *n, commit)
        }
        Suffix::Ancestor(n) => {
            let commit = peel_along(alloc, objects, tags, Kind::Commit, id)?;
            chain.ancestor(alloc, objects, *n, commit)
        }
        Suffix::PeelTo(kind) => peel_along(alloc, objects, tags, *kind, id),
        Suffix::PeelTags => peel_tags_along(alloc, objects, tags, id),
        Suffix::Itself => Ok(id),
        Suffix::AtPath(path) => {
            let tree = peel_along(alloc, objects, tags, Kind::Tree, id)?;
            at_path(alloc, objects, path, tree)
        }
    }
}

// Suffixes are applied from left to right; the first one that is refused decides.
fn after_suffixes<N: Naming>(
    alloc: Global,
    objects: &Objects<'_, N>,
    chain: &mut FirstParentCache,
    tags: &mut TagCache,
    suffixes: &[Suffix],
    id: Name,
) -> Result<Name, Fault>
    ensures found { AreHeld N.digest_of objects.now → IsFirstParentChain objects.now chain.old
        → AreTagEnds objects.now tags.old
        → Gives result (after_suffixes objects.now suffixes.now id) }
    ensures chain { AreHeld N.digest_of objects.now → IsFirstParentChain objects.now chain.old
        → IsFirstParentChain objects.now chain.new }
    ensures tags { AreHeld N.digest_of objects.now → AreTagEnds objects.now tags.old
        → AreTagEnds objects.now tags.new }
{
    let mut at = id;
    for suffix in suffixes {
        at = after_suffix(alloc, objects, chain, tags, suffix, at)?;
    }
    Ok(at)
}

/// The object that an expression names, among the objects in sight and with these refs.
///
/// The base is looked up first: HEAD and `@` mean the ref that HEAD names; forty hexadecimal digits
/// name that object, and nothing else is tried; else the first of six refs that is there; else the
/// one object whose name begins with these 4 to 39 digits. Then the suffixes are applied from left
/// to right, and the first refusal decides.
///
/// `Fault::WrongKind` (15) where an object cannot be peeled to the kind that is asked for,
/// `Fault::UnknownRevision` (16) where there is no such object, ref, parent or entry, or the path
/// is past the limits, `Fault::Ambiguous` (17) where several names begin with the digits. Takes
/// memory for ref names, to read the objects on the way, and to keep the commits of `~<n>` in the
/// chain; `Fault::Memory` (90) where there is none.
///
/// The answer is that of gitrevisions(7) where the objects are held (AreHeld of git_model) and the
/// chain is one of theirs; among others it is not specified. The next call over the same objects
/// can use the chain that this one leaves.
#[tactic(auto, unfolding(crate::specs::Resolution::named_by))]
pub fn resolve_expression<N: Naming>(
    alloc: Global,
    objects: &Objects<'_, N>,
    refs: &Refs,
    chain: &mut FirstParentCache,
    expression: &Expression<'_>,
) -> Result<Name, Fault>
    ensures found { AreHeld N.digest_of objects.now → IsFirstParentChain objects.now chain.old
        → Gives result (named_by objects.now refs.now expression.now) }
    ensures chain { AreHeld N.digest_of objects.now → IsFirstParentChain objects.now chain.old
        → IsFirstParentChain objects.now chain.new }
{
    let mut tags = TagCache::new(alloc);
    let id = base_named(alloc, objects, refs, expression.base())?;
    after_suffixes(alloc, objects, chain, &mut tags, expression.suffixes(), id)
}

/// `resolve_expression`, with what earlier calls kept of their ways along tags too. The answer is
/// the same; no refusal comes of what is kept.
#[tactic(auto, unfolding(crate::specs::Resolution::named_by))]
pub fn resolve_with_tags<N: Naming>(
    alloc: Global,
    objects: &Objects<'_, N>,
    refs: &Refs,
    chains: &mut ChainCache,
    expression: &Expression<'_>,
) -> Result<Name, Fault>
    ensures found { AreHeld N.digest_of objects.now → AreChains objects.now chains.old
        → Gives result (named_by objects.now refs.now expression.now) }
    ensures chains { AreHeld N.digest_of objects.now → AreChains objects.now chains.old
        → AreChains objects.now chains.new }
{
    let id = base_named(alloc, objects, refs, expression.base())?;
    after_suffixes(
        alloc,
        objects,
        &mut chains.first_parents,
        &mut chains.tags,
        expression.suffixes(),
        id,
    )
}

/// The commit that one side of a range names: `resolve_expression`, peeled to a commit.
///
/// The refusals are those of both; `Fault::WrongKind` (15) where the object is no commit and no tag
/// of one.
pub fn resolve_commit<N: Naming>(
    alloc: Global,
    objects: &Objects<'_, N>,
    refs: &Refs,
    chain: &mut FirstParentCache,
    expression: &Expression<'_>,
) -> Result<Name, Fault>
    ensures found { AreHeld N.digest_of objects.now → IsFirstParentChain objects.now chain.old
        → Gives result (commit_named objects.now refs.now expression.now) }
    ensures chain { AreHeld N.digest_of objects.now → IsFirstParentChain objects.now chain.old
        → IsFirstParentChain objects.now chain.new }
{
    let id = resolve_expression(alloc, objects, refs, chain, expression)?;
    peel(alloc, objects, Kind::Commit, id)
}

/// The object that the text of an expression names, among the objects of a table that are in sight:
/// `Expression::read`, and then `resolve_expression`.
///
/// `Fault::Malformed` (3) comes before anything is looked up; the other refusals are those of
/// `resolve_expression`. Where the sight is the committed prefix, an object after it does not exist
/// here, and an abbreviation counts the committed names alone. The pool is the one that the table
/// stands in. Nothing changes.
pub fn resolve<N: Naming>(
    alloc: Global,
    pool: &Pool<N>,
    table: &Table,
    sight: Sight,
    refs: &Refs,
    text: &[u8],
) -> Result<Name, Fault>
    requires { IsBackedBy N.digest_of pool.now table.now.entries }
    ensures { let os = objects pool.now (in_sight sight table.now) in
        AreHeld N.digest_of os → Gives result (resolved os refs.now text.now) }
{
    let expression = Expression::read(alloc, text)?;
    let objects = Objects::of(pool, table, sight);
    let mut chain = FirstParentCache::new(alloc);
    resolve_expression(alloc, &objects, refs, &mut chain, &expression)
}
