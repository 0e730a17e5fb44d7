//! A flag for each object, by its place. A flag takes one bit.

ghost use Rattle.std.specs.Prelude.{◌≡◌, ◌<◌, true, false, get_or, length, replicate, set, IfOk};

use git_objects::Memory;
use std::alloc::Global;
use std::marker::Model;

// How many flags a word has.
const BITS: usize = 64;

/// Flags by places. A flag stays once it is set.
#[derive(Drop)]
pub struct Flags {
    words: Vec<u64>,
    len: usize,
}

impl Model for Flags {
    ghost use Rattle.std.specs.Prelude.{Bool, List, ◌+◌, ◌*◌, ◌≤◌, length};
    ghost use Rattle.missing_objects.specs.Flags.{flags_in};

    ghost Value = { List Bool };

    ghost view = { λ f. flags_in f.words.items f.len };

    ghost invariant = { λ f. f.len ≤ 64 * length f.words.items };
}

impl Flags {
    /// Flags of this many objects, none of them set.
    pub fn none(alloc: Global, len: usize) -> Result<Flags, Memory>
        ensures { IfOk result (λ flags. flags ≡ replicate len false) }
    {
        let words = vec![in alloc; 0; len / BITS + 1]?;
        Ok(Flags { words, len })
    }

    /// Whether the flag at a place is set.
    #[tactic(auto, using(crate::proofs::Words::length_flags))]
    pub fn get(&self, place: usize) -> bool
        requires { place < length self.now }
        ensures { result ≡ get_or self.now place false }
    {
        (self.words[place / BITS] >> (place % BITS)) & 1 == 1
    }

    /// Sets the flag at a place.
    #[tactic(auto, using(crate::proofs::Words::length_flags))]
    pub fn set(&mut self, place: usize)
        requires { place < length self.old }
        ensures { self.new ≡ set self.old place true }
    {
        self.words[place / BITS] |= 1 << (place % BITS);
    }
}
