//! The commits of a range: gitrevisions(7), "Specifying Ranges".

ghost use Rattle.std.specs.Prelude.{◌≡◌, true, All, IfOk};
ghost use Rattle.git_model.specs.{HeldObjects.{AreHeld}, Peeling.{is_of}, Reach.{reaches}};
ghost use Rattle.commit_walk.specs.Logs.{log_of};
ghost use Rattle.tenant_tables.specs.{Objects.{objects}, IsBackedBy.{IsBackedBy}, View.{in_sight}};
ghost use Rattle.revisions.specs.{Faults.{Gives, GivesBy}, FirstParents.{IsFirstParentChain}};
ghost use Rattle.revisions.specs.Ranges.{both_named, range_named, is_in_range};
ghost use Rattle.revisions.specs.Logs.{named_log, range_log};

use crate::commit_range::Range;
use crate::expression::Expression;
use crate::fault::Fault;
use crate::first_parents::FirstParentCache;
use crate::range_reading::read_range;
use crate::resolving::resolve_commit;
use commit_walk::{log_between, log_of, log_of_either, reached_from};
use content_pool::Pool;
use git_objects::{Kind, Memory, Name, Naming};
use std::alloc::Global;
use tenant_refs::Refs;
use tenant_tables::{Objects, Sight, Table};

/// The commits of the range that a text is, among the objects of a table that are in sight:
/// `read_range`, and then `resolve_range`.
///
/// `Fault::Malformed` (3), of either side, comes before anything is looked up; the other refusals
/// are those of `resolve_range`. The pool is the one that the table stands in. Nothing changes.
pub fn range<N: Naming>(
    alloc: Global,
    pool: &Pool<N>,
    table: &Table,
    sight: Sight,
    refs: &Refs,
    text: &[u8],
) -> Result<Vec<Name>, Fault>
    requires { IsBackedBy N.digest_of pool.now table.now.entries }
    ensures { let os = objects pool.now (in_sight sight table.now) in AreHeld N.digest_of os
        → GivesBy (λ ids. ids.items) result (range_log os refs.now text.now) }
{
    let range = read_range(alloc, text)?;
    let objects = Objects::of(pool, table, sight);
    let mut chain = FirstParentCache::new(alloc);
    resolve_range(alloc, &objects, refs, &mut chain, &range)
}

/// The commits of a range, among the objects in sight and with these refs: by committer time,
/// newest first, and by ascending name where the times are equal.
///
/// The left side is decided wholly before the right, with the refusals of `resolve_commit`. Takes
/// memory for the walks, their chain and the list; `Fault::Memory` (90) where there is none. The
/// answer is that of gitrevisions(7) where the objects in sight are held (AreHeld of git_model)
/// and the chain is one of theirs.
pub fn resolve_range<N: Naming>(
    alloc: Global,
    objects: &Objects<'_, N>,
    refs: &Refs,
    chain: &mut FirstParentCache,
    range: &Range<Expression<'_>>,
) -> Result<Vec<Name>, Fault>
    ensures log { AreHeld N.digest_of objects.now → IsFirstParentChain objects.now chain.old
        → GivesBy (λ ids. ids.items) result (named_log objects.now refs.now range.now) }
    ensures commits { AreHeld N.digest_of objects.now
        → IfOk result (λ ids. All (λ id. is_of objects.now Kind.Commit id ≡ true) ids.items) }
    ensures chain { AreHeld N.digest_of objects.now → IsFirstParentChain objects.now chain.old
        → IsFirstParentChain objects.now chain.new }
{
    let range = range_named(alloc, objects, refs, chain, range)?;
    let ids = log_of_range(alloc, objects, &range)?;
    Ok(ids)
}

// The range by the names of its commits.
fn range_named<N: Naming>(
    alloc: Global,
    objects: &Objects<'_, N>,
    refs: &Refs,
    chain: &mut FirstParentCache,
    range: &Range<Expression<'_>>,
) -> Result<Range<Name>, Fault>
    ensures named { AreHeld N.digest_of objects.now → IsFirstParentChain objects.now chain.old
        → Gives result (range_named objects.now refs.now range.now) }
    ensures chain { AreHeld N.digest_of objects.now → IsFirstParentChain objects.now chain.old
        → IsFirstParentChain objects.now chain.new }
{
    match range {
        Range::From(tip) => {
            let tip = resolve_commit(alloc, objects, refs, chain, tip)?;
            Ok(Range::From(tip))
        }
        Range::Between(old, tip) => {
            let (old, tip) = both_named(alloc, objects, refs, chain, old, tip)?;
            Ok(Range::Between(old, tip))
        }
        Range::Either(left, right) => {
            let (left, right) = both_named(alloc, objects, refs, chain, left, right)?;
            Ok(Range::Either(left, right))
        }
    }
}

// The left side is decided wholly before the right.
fn both_named<N: Naming>(
    alloc: Global,
    objects: &Objects<'_, N>,
    refs: &Refs,
    chain: &mut FirstParentCache,
    left: &Expression<'_>,
    right: &Expression<'_>,
) -> Result<(Name, Name), Fault>
    ensures named { AreHeld N.digest_of objects.now → IsFirstParentChain objects.now chain.old
        → Gives result (both_named objects.now refs.now left.now right.now) }
    ensures chain { AreHeld N.digest_of objects.now → IsFirstParentChain objects.now chain.old
        → IsFirstParentChain objects.now chain.new }
{
    let left = resolve_commit(alloc, objects, refs, chain, left)?;
    let right = resolve_commit(alloc, objects, refs, chain, right)?;
    Ok((left, right))
}

// The log of a range by the names of its commits.
fn log_of_range<N: Naming>(
    alloc: Global,
    objects: &Objects<'_, N>,
    range: &Range<Name>,
) -> Result<Vec<Name>, Memory>
    ensures { AreHeld N.digest_of objects.now → IfOk result (λ ids.
        ids.items ≡ log_of objects.now (is_in_range objects.now range.now)) }
{
    match range {
        Range::From(tip) => log_from(alloc, objects, tip),
        Range::Between(old, tip) => log_between(alloc, objects, old, tip),
        Range::Either(left, right) => log_of_either(alloc, objects, left, right),
    }
}

// The log of what a commit reaches.
fn log_from<N: Naming>(
    alloc: Global,
    objects: &Objects<'_, N>,
    tip: &Name,
) -> Result<Vec<Name>, Memory>
    ensures { AreHeld N.digest_of objects.now → IfOk result (λ ids.
        ids.items ≡ log_of objects.now (reaches objects.now tip.now)) }
{
    let flags = reached_from(alloc, objects, tip)?;
    let ids = log_of(alloc, objects, &flags)?;
    Ok(ids)
}
