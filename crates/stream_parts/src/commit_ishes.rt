//! What an expression names, and what it is peeled to: git-fast-import(1), "from".

ghost use Rattle.std.specs.Prelude.{◌≡◌};
ghost use Rattle.git_model.specs.{HeldObjects.{AreHeld}, Results.{or_fault}};
ghost use Rattle.revisions.specs.{Resolution.{peeled, resolved}, TagEnds.{AreChains}};
ghost use Rattle.revisions.specs.Faults.{Gives as Names};
ghost use Rattle.stream_parts.specs.Faults.{resolved_or, resolving_fault, Gives};
ghost use Rattle.stream_parts.specs.Branches.{commit_at};
ghost use Rattle.stream_parts.specs.declared.fault.Fault.TheVariants as fault;

use crate::branches::Tip;
use crate::fault::Fault;
use git_objects::{Kind, Name, Naming};
use revisions::{ChainCache, Expression, peel, peel_along, resolve_with_tags};
use std::alloc::Global;
use tenant_refs::Refs;
use tenant_tables::Objects;

fn fault_of(fault: revisions::Fault) -> Fault
    ensures { result ≡ resolving_fault fault }
{
    match fault {
        revisions::Fault::Malformed => Fault::Malformed,
        revisions::Fault::WrongKind => Fault::WrongKind,
        revisions::Fault::UnknownRevision => Fault::UnknownRevision,
        revisions::Fault::Ambiguous => Fault::Ambiguous,
        revisions::Fault::Memory => Fault::Memory,
    }
}

fn passed_on(given: Result<Name, revisions::Fault>) -> Result<Name, Fault>
    ensures { result ≡ resolved_or given }
{
    match given {
        Ok(id) => Ok(id),
        Err(fault) => Err(fault_of(fault)),
    }
}

/// Peels an object to one of this kind, among these objects: gitrevisions(7),
/// "<rev>^{<type>}".
///
/// `Fault::WrongKind` (15) if it is peeled to none; `Fault::Memory` (90) if there is no memory to
/// read a commit or a tag.
pub fn peel_to<N: Naming>(
    alloc: Global,
    objects: &Objects<'_, N>,
    wanted: Kind,
    id: Name,
) -> Result<Name, Fault>
    ensures { AreHeld N.digest_of objects.now
        → Gives result (resolved_or (peeled objects.now wanted id)) }
{
    passed_on(peel(alloc, objects, wanted, id))
}

/// The same, with what earlier calls kept of their ways along tags. The next call can use the chain
/// that this one leaves, also if objects were added in between.
pub fn peel_with_chain<N: Naming>(
    alloc: Global,
    objects: &Objects<'_, N>,
    chain: &mut ChainCache,
    wanted: Kind,
    id: Name,
) -> Result<Name, Fault>
    ensures found { AreHeld N.digest_of objects.now → AreChains objects.now chain.old
        → Gives result (resolved_or (peeled objects.now wanted id)) }
    ensures chain { AreHeld N.digest_of objects.now → AreChains objects.now chain.old
        → AreChains objects.now chain.new }
{
    passed_on(peel_along(alloc, objects, &mut chain.tags, wanted, id))
}

// What an expression names. The chain keeps what the way passed.
fn resolve<N: Naming>(
    alloc: Global,
    objects: &Objects<'_, N>,
    refs: &Refs,
    chain: &mut ChainCache,
    words: &[u8],
) -> Result<Name, revisions::Fault>
    ensures found { AreHeld N.digest_of objects.now → AreChains objects.now chain.old
        → Names result (resolved objects.now refs.now words.now) }
    ensures chain { AreHeld N.digest_of objects.now → AreChains objects.now chain.old
        → AreChains objects.now chain.new }
{
    let expression = Expression::read(alloc, words)?;
    resolve_with_tags(alloc, objects, refs, chain, &expression)
}

/// What an expression names among these objects and the refs as last saved:
/// gitrevisions(7). Each fault of `revisions` is passed on under the stream's number. The next call
/// can use the chain that this one leaves, also if objects were added in between.
pub fn resolve_words<N: Naming>(
    alloc: Global,
    objects: &Objects<'_, N>,
    refs: &Refs,
    chain: &mut ChainCache,
    words: &[u8],
) -> Result<Name, Fault>
    ensures found { AreHeld N.digest_of objects.now → AreChains objects.now chain.old
        → Gives result (resolved_or (resolved objects.now refs.now words.now)) }
    ensures chain { AreHeld N.digest_of objects.now → AreChains objects.now chain.old
        → AreChains objects.now chain.new }
{
    passed_on(resolve(alloc, objects, refs, chain, words))
}

/// The commit that a branch is at.
pub fn commit_at(tip: Tip) -> Result<Name, Fault>
    ensures { result ≡ or_fault fault.UnknownRevision (commit_at tip) }
{
    match tip {
        Tip::At(id) => Ok(id),
        Tip::Unborn | Tip::Deleted => Err(Fault::UnknownRevision),
    }
}
