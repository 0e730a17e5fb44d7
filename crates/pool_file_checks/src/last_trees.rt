//! Where the trees of one shape stood last among a tenant's objects.

ghost use Rattle.std.specs.Prelude.{◌≡◌, ◌≢◌, ◌+◌, ◌<◌, ◌≤◌, [], drop, length, take, IfOk};
ghost use Rattle.std.specs.Int.{from_be_bytes, w64};
ghost use Rattle.pool_file_checks.specs.Alike.{Replaces};

use git_objects::Memory;
use std::alloc::Global;

// How many objects there are for each shape that is told apart.
const OBJECTS_A_SHAPE: usize = 16;

// The most shapes that are told apart.
const SHAPES_LIMIT: usize = 65_521;

/// For each shape of a tree, the place of the last tree of that shape, and 0 before there is one.
/// The versions of a directory mostly have one shape. Trees of different directories can have one,
/// too: what is found is a guess.
#[derive(Drop)]
pub struct LastTrees {
    places: Vec<usize>,
}

// Eight bytes of a text as a number; 0 if it has fewer after its first `start` bytes.
fn word_at(bytes: &[u8], start: usize) -> u64
    ensures { start + 8 ≤ length bytes.now
        → result ≡ from_be_bytes w64 (take 8 (drop start bytes.now)) }
{
    let start = start.min(bytes.len());
    match bytes.split_at(start).1.split_first_chunk::<8>() {
        Some((word, _)) => u64::from_be_bytes(*word),
        None => 0,
    }
}

// A number below `count` for the shape of a tree: its length, and where its first and its last name
// mostly stand.
fn shape_of(bytes: &[u8], count: usize) -> usize
    requires { 0 < count }
    ensures { result < count }
{
    let first = word_at(bytes, 7);
    let last = word_at(bytes, bytes.len().saturating_sub(29));
    let number = first.wrapping_add(last).wrapping_add(bytes.len() as u64);
    (number % count as u64) as usize
}

impl LastTrees {
    /// No tree has stood anywhere yet. `objects` is how many objects the tenant has.
    ///
    /// `Memory` (90) if there is no memory for a place for every sixteen objects.
    pub fn new(alloc: Global, objects: usize) -> Result<LastTrees, Memory>
        ensures some { IfOk result (λ last. last.places.items ≢ []) }
        ensures few { IfOk result (λ last. length last.places.items ≤ 65522) }
    {
        let shapes = (objects / OBJECTS_A_SHAPE).min(SHAPES_LIMIT) + 1;
        let mut places = Vec::new(alloc);
        places.resize(shapes, 0)?;
        Ok(LastTrees { places })
    }

    /// The place of the last tree that had the shape of this one, which stands at `place`. That is
    /// then the last one. Takes no memory.
    pub fn replace(&mut self, bytes: &[u8], place: usize) -> usize
        ensures { Replaces self.old.places.items result place self.new.places.items }
    {
        let count = self.places.len();
        if count == 0 {
            return 0;
        }
        let shape = shape_of(bytes, count);
        let earlier = self.places[shape];
        self.places[shape] = place;
        earlier
    }
}
