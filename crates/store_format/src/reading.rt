//! Reading states.

ghost use Rattle.pool_file_format.specs.Lengths.{many_at, counted_at};
ghost use Rattle.store_format.specs.Lengths.{contents_file_at, listing_at, magic_at, version_at};
ghost use Rattle.store_format.specs.Lengths.{body_at, state_at, state_of_bytes};
ghost use Rattle.store_format.specs.Shown.{Gives, contents_file_of, contents_files_of, listing_of};
ghost use Rattle.store_format.specs.Shown.{state_of};

use crate::parts::{is_same, next_bytes, next_digest, next_end, next_u32, next_u64};
use crate::printing::{MAGIC, body_digest};
use crate::state::{ContentsFile, Listing, State};
use git_names::Naming;
use pool_file_format::{Fault, Refusal};
use std::alloc::Global;

#[tactic(auto, unfolding(crate::specs::Lengths::contents_file_at))]
fn read_contents_file(bytes: &[u8]) -> Result<(ContentsFile, &[u8]), Fault>
    ensures { Gives (λ x. (contents_file_of x.0, x.1.now)) result (contents_file_at bytes.now) }
{
    let (number, rest) = next_u32(bytes)?;
    let (size, rest) = next_u32(rest)?;
    Ok((ContentsFile { number, size }, rest))
}

// `count` files of contents.
fn read_many(alloc: Global, count: u64, bytes: &[u8]) -> Result<(Vec<ContentsFile>, &[u8]), Fault>
    ensures { Gives (λ x. (contents_files_of x.0.items, x.1.now)) result
        (many_at contents_file_at count bytes.now) }
{
    let mut files = Vec::new(alloc);
    let mut rest = bytes;
    for _ in 0..count {
        let (file, after) = read_contents_file(rest)?;
        files.push(file)?;
        rest = after;
    }
    Ok((files, rest))
}

// All files of contents, after their count.
#[tactic(auto, unfolding(pool_file_format::specs::Lengths::counted_at))]
fn read_contents(alloc: Global, bytes: &[u8]) -> Result<(Vec<ContentsFile>, &[u8]), Fault>
    ensures { Gives (λ x. (contents_files_of x.0.items, x.1.now)) result
        (counted_at contents_file_at bytes.now) }
{
    let (count, rest) = next_u64(bytes)?;
    read_many(alloc, count, rest)
}

// A file of rows or records.
#[tactic(auto, unfolding(crate::specs::Lengths::listing_at))]
fn read_listing(bytes: &[u8]) -> Result<(Listing, &[u8]), Fault>
    ensures { Gives (λ x. (listing_of x.0, x.1.now)) result (listing_at bytes.now) }
{
    let (number, rest) = next_u32(bytes)?;
    let (count, rest) = next_u32(rest)?;
    let (size, rest) = next_u64(rest)?;
    let (chain, rest) = next_digest(rest)?;
    let listing = Listing {
        number,
        count,
        size,
        chain,
    };
    Ok((listing, rest))
}

// The bytes after the first eight.
#[tactic(auto, unfolding(crate::specs::Lengths::magic_at))]
fn read_magic(bytes: &[u8]) -> Result<((), &[u8]), Fault>
    ensures { Gives (λ x. (x.0, x.1.now)) result (magic_at bytes.now) }
{
    let (front, rest) = next_bytes(bytes, 8)?;
    if front != MAGIC {
        return Err(Fault::Refused(Refusal::NoPoolFile));
    }
    Ok(((), rest))
}

// The bytes after the version.
#[tactic(auto, unfolding(crate::specs::Lengths::version_at))]
fn read_version(bytes: &[u8]) -> Result<((), &[u8]), Fault>
    ensures { Gives (λ x. (x.0, x.1.now)) result (version_at bytes.now) }
{
    let (version, rest) = next_u32(bytes)?;
    if version != 1 {
        return Err(Fault::Refused(Refusal::UnknownVersion));
    }
    Ok(((), rest))
}

// Everything before the digest.
#[tactic(auto, unfolding(crate::specs::Lengths::body_at))]
fn read_body(alloc: Global, bytes: &[u8]) -> Result<(State, &[u8]), Fault>
    ensures { Gives (λ x. (state_of x.0, x.1.now)) result (body_at bytes.now) }
{
    let (_front, rest) = read_magic(bytes)?;
    let (_version, rest) = read_version(rest)?;
    let (generation, rest) = next_u64(rest)?;
    let (next, rest) = next_u32(rest)?;
    let (contents, rest) = read_contents(alloc, rest)?;
    let (rows, rest) = read_listing(rest)?;
    let (tenants, rest) = read_listing(rest)?;
    let state = State {
        generation,
        next,
        contents,
        rows,
        tenants,
    };
    Ok((state, rest))
}

// A state, if its digest is that of the bytes before it.
#[tactic(auto, unfolding(crate::specs::Lengths::state_at))]
fn read_sealed<'a, N: Naming>(
    alloc: Global,
    naming: &N,
    bytes: &'a [u8],
) -> Result<(State, &'a [u8]), Fault>
    ensures { Gives (λ x. (state_of x.0, x.1.now)) result (state_at N.digest_of bytes.now) }
{
    let (state, rest) = read_body(alloc, bytes)?;
    let (found, rest) = next_digest(rest)?;
    let (_end, rest) = next_end(rest)?;
    let own = body_digest(alloc, naming, &state)?;
    if !is_same(&found, &own) {
        return Err(Fault::Refused(Refusal::WrongDigest));
    }
    Ok((state, rest))
}

/// Reads a state, which is all of the bytes, and checks its digest under this naming. What the state
/// says is judged by `check_state`.
///
/// `Refused` with the first fault from left to right: `CutOff` (62) if there are fewer than eight
/// bytes, `NoPoolFile` (60) if these are others, `UnknownVersion` (61) if the version is not 1,
/// `CutOff` if the bytes end early, `TrailingBytes` (69) if they go on after the digest; after all of
/// these, `WrongDigest` (63). `Memory` (90) if there is no memory for the state and its text.
#[tactic(auto, unfolding(crate::specs::Lengths::state_of_bytes))]
pub fn read_state<N: Naming>(alloc: Global, naming: &N, bytes: &[u8]) -> Result<State, Fault>
    ensures { Gives state_of result (state_of_bytes N.digest_of bytes.now) }
{
    let (state, _rest) = read_sealed(alloc, naming, bytes)?;
    Ok(state)
}
