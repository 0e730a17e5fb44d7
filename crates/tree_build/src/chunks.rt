//! The entries of an opened directory in chunks, so that a new one moves few others.
//!
//! A place counts the entries before an entry. Which chunk it is in only this module knows: each
//! chunk keeps how many entries stand before it, and a search goes by these numbers.

ghost use Rattle.std.specs.Prelude.{◌≡◌, ◌≤◌, ◌<◌, ◌+◌, ◌++◌, [], ◌∷◌, length, take};
ghost use Rattle.std.specs.{Prelude.{slice_index_or, false, IfOk, OnOk, OnErr}, Borrow.{sem}};
ghost use Rattle.std.specs.List.{insert, remove};
ghost use Rattle.tree_build.specs.Chunks.{all, before, CountsTo, AreStarts, IsSpot};
ghost use Rattle.tree_build.specs.Lending.{LendsNode};

use crate::component::Component;
use crate::dir::{Chunk, Entries, Node};
use git_objects::Memory;
use std::alloc::Global;

// A chunk of so many entries is split before it gets one more.
const CHUNK_LIMIT: usize = 512;

#[derive(Clone, Copy)]
struct Spot {
    chunk: usize,
    offset: usize,
}

// The chunk of a place, by binary search.
fn chunk_of(chunks: &[Chunk], place: usize) -> usize
    requires starts { AreStarts chunks.now }
    requires place { place < length (all chunks.now) }
    ensures chunk { result < length chunks.now }
    ensures from { before chunks.now result ≤ place }
    ensures to { place < before chunks.now (result + 1) }
{
    let mut low = 0;
    let mut high = chunks.len();
    while high - low > 1 {
        let middle = low + (high - low) / 2;
        if chunks[middle].start <= place {
            low = middle;
        } else {
            high = middle;
        }
    }
    low
}

// Where the entry of a place stands.
fn spot_of(chunks: &[Chunk], place: usize) -> Spot
    requires starts { AreStarts chunks.now }
    requires place { place < length (all chunks.now) }
    ensures spot { IsSpot chunks.now place result.chunk result.offset }
    ensures chunk { result.chunk < length chunks.now }
{
    let chunk = chunk_of(chunks, place);
    let offset = place - chunks[chunk].start;
    Spot { chunk, offset }
}

// How many entries stand before a chunk, by what is known of the chunk before it.
fn start_of(chunks: &[Chunk], len: usize, chunk: usize) -> usize
    requires len { len ≡ length (all chunks.now) }
    requires chunk { chunk ≤ length chunks.now }
    requires counts { CountsTo chunk chunks.now }
    ensures { result ≡ before chunks.now chunk }
{
    if chunk == 0 {
        return 0;
    }
    let last = &chunks[chunk - 1];
    last.start + last.entries.len()
}

// Counts again how many entries stand before each chunk, from the chunk `from` on.
fn recount(chunks: &mut Vec<Chunk>, len: usize, from: usize)
    requires len { len ≡ length (all chunks.old.items) }
    requires from { from ≤ length chunks.old.items }
    requires counts { CountsTo from chunks.old.items }
    ensures same { all chunks.new.items ≡ all chunks.old.items }
    ensures starts { AreStarts chunks.new.items }
{
    let mut start = start_of(chunks, len, from);
    for place in from..chunks.len() {
        let chunk = &mut chunks[place];
        chunk.start = start;
        start += chunk.entries.len();
    }
}

// A chunk without entries.
fn empty(alloc: Global, start: usize) -> Chunk
    ensures start { result.start ≡ start }
    ensures entries { result.entries.items ≡ [] }
{
    Chunk {
        start,
        entries: Vec::new(alloc),
    }
}

// Whether there is no chunk, or the last one has as many entries as a chunk may have.
fn is_last_full(chunks: &[Chunk]) -> bool
    ensures { result ≡ false → 0 < length chunks.now }
{
    let many = chunks.len();
    many == 0 || chunks[many - 1].entries.len() >= CHUNK_LIMIT
}

// Adds a chunk, if there is none or the last one has as many entries as a chunk may have.
fn open_last(alloc: Global, chunks: &mut Vec<Chunk>, len: usize) -> Result<(), Memory>
    requires len { len ≡ length (all chunks.old.items) }
    requires starts { AreStarts chunks.old.items }
    ensures same { all chunks.new.items ≡ all chunks.old.items }
    ensures starts { AreStarts chunks.new.items }
    ensures some { OnOk result (0 < length chunks.new.items) }
{
    if !is_last_full(chunks) {
        return Ok(());
    }
    chunks.push(empty(alloc, len))?;
    Ok(())
}

// Puts an entry after all others.
fn push(
    alloc: Global,
    chunks: &mut Vec<Chunk>,
    len: usize,
    entry: (Component, Node),
) -> Result<(), Memory>
    requires len { len ≡ length (all chunks.old.items) }
    requires starts { AreStarts chunks.old.items }
    ensures ok { OnOk result (all chunks.new.items ≡ all chunks.old.items ++ entry ∷ []) }
    ensures err { OnErr result (all chunks.new.items ≡ all chunks.old.items) }
    ensures starts { AreStarts chunks.new.items }
{
    open_last(alloc, chunks, len)?;
    let last = chunks.len() - 1;
    chunks[last].entries.push(entry)?;
    Ok(())
}

// Makes two chunks of one.
fn split(alloc: Global, chunks: &mut Vec<Chunk>, chunk: usize) -> Result<(), Memory>
    requires { chunk < length chunks.old.items }
    ensures same { all chunks.new.items ≡ all chunks.old.items }
    ensures front { take chunk chunks.new.items ≡ take chunk chunks.old.items }
    ensures many { length chunks.old.items ≤ length chunks.new.items }
{
    chunks.insert(chunk + 1, empty(alloc, 0))?;
    let half = chunks[chunk].entries.len() / 2;
    let back = chunks[chunk].entries.split_off(half)?;
    chunks[chunk + 1].entries = back;
    Ok(())
}

// Splits the chunk of a place, if it has as many entries as a chunk may have.
fn make_room(alloc: Global, chunks: &mut Vec<Chunk>, len: usize, place: usize) -> Result<(), Memory>
    requires len { len ≡ length (all chunks.old.items) }
    requires place { place < len }
    requires starts { AreStarts chunks.old.items }
    ensures same { all chunks.new.items ≡ all chunks.old.items }
    ensures starts { AreStarts chunks.new.items }
{
    let chunk = spot_of(chunks, place).chunk;
    if chunks[chunk].entries.len() < CHUNK_LIMIT {
        return Ok(());
    }
    let done = split(alloc, chunks, chunk);
    recount(chunks, len, chunk);
    done
}

// Puts an entry before the one at a place. `len` counts it.
fn insert_before(
    alloc: Global,
    chunks: &mut Vec<Chunk>,
    len: usize,
    place: usize,
    entry: (Component, Node),
) -> Result<(), Memory>
    requires len { len ≡ length (all chunks.old.items) + 1 }
    requires place { place + 1 < len }
    requires starts { AreStarts chunks.old.items }
    ensures ok { OnOk result (all chunks.new.items ≡ insert (all chunks.old.items) place entry) }
    ensures err { OnErr result (all chunks.new.items ≡ all chunks.old.items) }
    ensures starts { AreStarts chunks.new.items }
{
    make_room(alloc, chunks, len - 1, place)?;
    let spot = spot_of(chunks, place);
    chunks[spot.chunk].entries.insert(spot.offset, entry)?;
    recount(chunks, len, spot.chunk);
    Ok(())
}

// Takes out a chunk, if it has no entries.
fn remove_empty(chunks: &mut Vec<Chunk>, chunk: usize)
    requires { chunk < length chunks.old.items }
    ensures same { all chunks.new.items ≡ all chunks.old.items }
    ensures front { take chunk chunks.new.items ≡ take chunk chunks.old.items }
    ensures many { chunk ≤ length chunks.new.items }
{
    if chunks[chunk].entries.is_empty() {
        chunks.remove(chunk);
    }
}

// Takes out the entry at a place. A chunk without entries goes too. `len` counts those that stay.
fn take_out(chunks: &mut Vec<Chunk>, len: usize, place: usize) -> (Component, Node)
    requires len { len + 1 ≡ length (all chunks.old.items) }
    requires place { place ≤ len }
    requires starts { AreStarts chunks.old.items }
    ensures value { result ≡ slice_index_or (all chunks.old.items) place result }
    ensures items { all chunks.new.items ≡ remove (all chunks.old.items) place }
    ensures starts { AreStarts chunks.new.items }
{
    let spot = spot_of(chunks, place);
    let entry = chunks[spot.chunk].entries.remove(spot.offset);
    remove_empty(chunks, spot.chunk);
    recount(chunks, len, spot.chunk);
    entry
}

impl Entries {
    /// No entries.
    pub(crate) fn new(alloc: Global) -> Entries
        ensures { result.items ≡ [] }
    {
        Entries {
            len: 0,
            chunks: Vec::new(alloc),
        }
    }

    /// No entries, and room for so many of them as a chunk may have. Takes memory for them and for a
    /// list of chunks.
    pub(crate) fn with_capacity(alloc: Global, count: usize) -> Result<Entries, Memory>
        ensures { IfOk result (λ es. es.items ≡ []) }
    {
        let entries = Vec::with_capacity(alloc, count.min(CHUNK_LIMIT))?;
        let mut chunks = Vec::new(alloc);
        chunks.push(Chunk { start: 0, entries })?;
        Ok(Entries { len: 0, chunks })
    }

    /// The chunks, in their order.
    pub(crate) fn chunks(&self) -> &[Chunk]
        ensures { all result.now ≡ self.now.items }
    {
        &self.chunks
    }

    /// How many there are.
    pub(crate) fn len(&self) -> usize
        ensures { result ≡ length self.now.items }
    {
        self.len
    }

    /// The entry at a place.
    pub(crate) fn at(&self, place: usize) -> &(Component, Node)
        requires { place < length self.now.items }
        ensures { result.now ≡ slice_index_or self.now.items place result.now }
    {
        let spot = spot_of(&self.chunks, place);
        &self.chunks[spot.chunk].entries[spot.offset]
    }

    /// The node of the entry at a place.
    pub(crate) fn node_mut(&mut self, place: usize) -> &mut Node
        requires { place < length self.old.items }
        ensures* writes { sem 𝓛 (LendsNode self.entry place result) }
        ensures value { result.now ≡ (slice_index_or self.old.items place ([], result.now)).1 }
    {
        let spot = spot_of(&self.chunks, place);
        let chunk = &mut self.chunks[spot.chunk];
        &mut chunk.entries[spot.offset].1
    }

    /// Puts an entry after all others. Takes memory for it, and for a chunk more if the last one is
    /// full.
    pub(crate) fn push(&mut self, alloc: Global, entry: (Component, Node)) -> Result<(), Memory>
        ensures { OnOk result (self.new.items ≡ self.old.items ++ entry ∷ []) }
    {
        let Some(len) = self.len.checked_add(1) else {
            return Err(Memory);
        };
        push(alloc, &mut self.chunks, self.len, entry)?;
        self.len = len;
        Ok(())
    }

    /// Puts an entry at a place. Takes memory for it, and for a chunk more if one is full.
    pub(crate) fn insert(
        &mut self,
        alloc: Global,
        place: usize,
        entry: (Component, Node),
    ) -> Result<(), Memory>
        requires { place ≤ length self.old.items }
        ensures { OnOk result (self.new.items ≡ insert self.old.items place entry) }
    {
        if place == self.len {
            return self.push(alloc, entry);
        }
        let Some(len) = self.len.checked_add(1) else {
            return Err(Memory);
        };
        insert_before(alloc, &mut self.chunks, len, place, entry)?;
        self.len = len;
        Ok(())
    }

    /// Takes out the entry at a place.
    pub(crate) fn remove(&mut self, place: usize) -> (Component, Node)
        requires { place < length self.old.items }
        ensures value { result ≡ slice_index_or self.old.items place result }
        ensures items { self.new.items ≡ remove self.old.items place }
    {
        self.len -= 1;
        take_out(&mut self.chunks, self.len, place)
    }
}
