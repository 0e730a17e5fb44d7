//! A pool as a plain list, to compare `Pool` with. The list never drops a content.
//!
//! It has the calls of `Pool` under the same clauses, but no `release`, and finds a content by
//! going through all of them. It answers positions in the list in place of slots.

ghost use Rattle.std.specs.Prelude.{◌≡◌, ℕ, ◌+◌, ◌-◌, ◌<◌, ◌^◌, ◌↔◌, List, length, min, map};
ghost use Rattle.std.specs.Prelude.{sum_by, Some, IsTrue, MatchOption, IfOk, OnErr};
ghost use Rattle.git_model.specs.{ObjectName.{object_name}, Content.{content_from}};
ghost use Rattle.content_pool.specs.Pool.{IsAbsent, content, content_of, IsLive, CanHold};
ghost use Rattle.content_pool.specs.Pool.{HasHoldsLeft, HoldsEachOnce, IsVacant, Puts};
ghost use Rattle.content_pool.specs.Index.{Stores, prefix_of};
ghost use Rattle.content_pool.specs.LiveContents.{live_contents, stored_sizes, ListsLive};

use git_model::Kind;
use git_objects::{Memory, Name, Naming, name_of};
use std::alloc::Global;
use std::marker::Model;

// A content, its object name, and how often it is held.
#[derive(Drop)]
struct Cell {
    id: Name,
    kind: Kind,
    bytes: Vec<u8>,
    holds: u64,
}

impl Model for Cell {
    ghost use Rattle.content_pool.specs.{Index.{prefix_of}, declared.stored.Stored.{Stored}};

    ghost Value = { Stored };

    ghost view = { λ cell. record {
      prefix = prefix_of cell.id;
      kind = cell.kind;
      bytes = cell.bytes.items;
      holds = cell.holds;
    } };
}

impl Cell {
    fn new(id: Name, kind: Kind, bytes: Vec<u8>) -> Cell
        ensures { result
            ≡ record { prefix = prefix_of id; kind = kind; bytes = bytes.items; holds = 1 } }
    {
        Cell {
            id,
            kind,
            bytes,
            holds: 1,
        }
    }

    fn is(&self, kind: Kind, bytes: &[u8]) -> bool
        ensures { IsTrue result ↔ (content_of self.now ≡ content_from kind bytes.now) }
    {
        self.kind == kind && self.bytes.as_slice() == bytes
    }

    fn content(&self) -> (Kind, &[u8])
        ensures { content_from result.0 result.1.now ≡ content_of self.now }
    {
        (self.kind, self.bytes.as_slice())
    }

    fn size(&self) -> u64
        ensures { result ≡ length self.now.bytes }
    {
        self.bytes.len() as u64
    }

    fn hold(&mut self)
        requires { self.old.holds < 2 ^ 64 - 1 }
        ensures { self.new ≡ record self.old { holds = self.old.holds + 1 } }
    {
        self.holds += 1;
    }
}

/// All contents that were put, in the order of their first `put`, each once. Contracts see the same
/// as of a `Pool`.
#[derive(Drop)]
pub struct PlainPool<N: Naming> {
    alloc: Global,
    naming: N,
    cells: Vec<Cell>,
}

impl<N: Naming> Model for PlainPool<N> {
    ghost use Rattle.std.specs.Prelude.{map, Some};
    ghost use Rattle.content_pool.specs.{Pool.{Cells}, Index.{IsPool}};

    ghost Value = { Cells };

    ghost view = { λ pool. map Some pool.cells.items };

    ghost invariant = { λ pool. IsPool N.digest_of (map Some pool.cells.items) };
}

impl<N: Naming> PlainPool<N> {
    /// A pool that holds nothing. Takes no memory.
    #[tactic(auto, unfolding(content_pool::specs::Pool::holds, content_pool::specs::Pool::content))]
    pub fn new(alloc: Global, naming: N) -> PlainPool<N>
        ensures { IsVacant result }
    {
        PlainPool {
            alloc,
            naming,
            cells: Vec::new(alloc),
        }
    }

    /// Holds the content of this kind with these bytes once more, and answers its position and its
    /// object name. `Memory` (90) if there is no room; nothing has changed then.
    pub fn put(&mut self, kind: Kind, bytes: &[u8]) -> Result<(usize, Name), Memory>
        requires { HasHoldsLeft self.old }
        ensures name { IfOk result (λ r. r.1 ≡ object_name N.digest_of kind bytes.now) }
        ensures puts { IfOk result (λ r. Puts self.old self.new r.0 (content_from kind bytes.now)) }
        ensures once { HoldsEachOnce self.new }
        ensures err { OnErr result (self.new ≡ self.old) }
    {
        let id = name_of(self.alloc, &self.naming, kind, bytes)?;
        let position = self.put_named(id, kind, bytes)?;
        Ok((position, id))
    }

    // `put` under the object name of the content.
    fn put_named(&mut self, id: Name, kind: Kind, bytes: &[u8]) -> Result<usize, Memory>
        requires named { id ≡ object_name N.digest_of kind bytes.now }
        requires room { HasHoldsLeft self.old }
        ensures puts { IfOk result
            (λ position. Puts self.old self.new position (content_from kind bytes.now)) }
        ensures once { HoldsEachOnce self.new }
        ensures err { OnErr result (self.new ≡ self.old) }
    {
        if let Some(position) = self.find(kind, bytes) {
            self.hold(position);
            return Ok(position);
        }
        let bytes = Vec::from_slice(self.alloc, bytes)?;
        self.store(id, kind, bytes)
    }

    /// Holds the content at a position once more. Takes no memory.
    #[tactic(auto, unfolding(content_pool::specs::Pool::holds, content_pool::specs::Pool::content))]
    pub fn hold(&mut self, position: usize)
        requires live { IsLive self.old position }
        requires room { CanHold self.old position }
        ensures { Puts self.old self.new position (content self.old position) }
    {
        self.cells[position].hold();
    }

    /// The kind and the bytes at a position. Takes no memory.
    #[tactic(auto, unfolding(content_pool::specs::Pool::holds, content_pool::specs::Pool::content))]
    pub fn get(&self, position: usize) -> (Kind, &[u8])
        requires { IsLive self.now position }
        ensures { content_from result.0 result.1.now ≡ content self.now position }
    {
        self.cells[position].content()
    }

    /// How many distinct contents are held, and the sum of their sizes in bytes, 2^64 - 1 if the
    /// sum is more. Takes no memory.
    pub fn stored(&self) -> (u64, u64)
        ensures live { result ≡ stored_sizes (live_contents self.now) }
        ensures any_list { (cs : List _) → ListsLive self.now cs → result ≡ stored_sizes cs }
    {
        let cells = self.cells.as_slice();
        (cells.len() as u64, total_size(cells))
    }

    // The position of this content, if it is held.
    fn find(&self, kind: Kind, bytes: &[u8]) -> Option<usize>
        ensures once { HoldsEachOnce self.now }
        ensures found { let c = content_from kind bytes.now in
            MatchOption result (IsAbsent self.now c)
            (λ position. IsLive self.now position × (content self.now position ≡ c)) }
    {
        position_of(self.cells.as_slice(), kind, bytes)
    }

    // Stores a content that is not held yet, and holds it once.
    fn store(&mut self, id: Name, kind: Kind, bytes: Vec<u8>) -> Result<usize, Memory>
        requires named { id ≡ object_name N.digest_of kind bytes.items }
        requires absent { IsAbsent self.old (content_from kind bytes.items) }
        ensures puts { IfOk result
            (λ position. Puts self.old self.new position (content_from kind bytes.items)) }
        ensures once { HoldsEachOnce self.new }
        ensures err { OnErr result (self.new ≡ self.old) }
    {
        let position = self.cells.as_slice().len();
        self.cells.push(Cell::new(id, kind, bytes))?;
        Ok(position)
    }
}

// The position of this content in the list.
fn position_of(cells: &[Cell], kind: Kind, bytes: &[u8]) -> Option<usize>
    ensures { MatchOption result
        ((s : ℕ) → Stores (map Some cells.now) s (content_from kind bytes.now) → ⊥)
        (λ s. Stores (map Some cells.now) s (content_from kind bytes.now)) }
{
    for (position, cell) in cells.iter().enumerate() {
        if cell.is(kind, bytes) {
            return Some(position);
        }
    }
    None
}

// The sum of the sizes, 2^64 - 1 if it is more.
fn total_size(cells: &[Cell]) -> u64
    ensures { result ≡ min (sum_by (λ e. length e.bytes) cells.now) (2 ^ 64 - 1) }
{
    let mut total: u64 = 0;
    for cell in cells {
        total = total.saturating_add(cell.size());
    }
    total
}
