//! Which of the tenants that were built has a table that another one had best share.
//!
//! A tenant shares the first of its objects with one that shares none, and has the others beside
//! them. A bad choice costs memory and time, and changes nothing else.

ghost use Rattle.std.specs.Prelude.{◌<◌, length, All, IfSome};
ghost use Rattle.pool_file.specs.Building.{SharesFront};

use crate::tables::common_front;
use crate::tenant::Tenant;
use content_pool::Slot;
use git_names::Memory;
use indexmap::IndexMap;
use std::alloc::Global;

// A table has at most 2^22 objects.
const DOUBLINGS: u32 = 22;

/// How many first objects of a tenant another one shares.
#[derive(Clone, Copy)]
pub struct Shared {
    pub place: usize,
    pub count: usize,
}

/// What a choice needs to know of the tenants that were built.
#[derive(Drop)]
pub struct Relatives {
    // Under the number of an object, the place of the last tenant that shares none and has it as
    // its first, second, fourth, eighth object and so on.
    places: IndexMap<u64, usize>,
    // For each tenant, how many objects others have beside those that they share with it.
    beside: Vec<usize>,
}

impl Relatives {
    /// What there is to know of no tenants. Takes no memory.
    pub fn new(alloc: Global) -> Relatives {
        Relatives {
            places: IndexMap::new(alloc),
            beside: Vec::new(alloc),
        }
    }

    // The place of a tenant that probably begins with many of these objects.
    fn find(&self, numbers: &[u64]) -> Option<usize> {
        let mut found = None;
        let mut position = 0;
        for _ in 0..DOUBLINGS {
            let Some(number) = numbers.get(position) else {
                return found;
            };
            let Some(place) = self.places.get(number) else {
                return found;
            };
            found = Some(*place);
            position = 2 * position + 1;
        }
        found
    }

    // Whether a tenant had best share so many objects with the one at this place, and have so many of
    // its own. If others have more beside those that they share than this, one that shares none is
    // better for those to come.
    fn is_worth_sharing(&self, place: usize, shared: usize, own: usize) -> bool {
        match self.beside.get(place) {
            Some(beside) => own < shared && *beside <= shared,
            None => false,
        }
    }

    /// The tenant with which one that has these objects shares the first of them; `None` if it had
    /// best share none. Takes no memory.
    pub fn choose(&self, slots: &[Slot], tenants: &[Tenant], numbers: &[u64]) -> Option<Shared>
        requires { All (λ n. n < length slots.now) numbers.now }
        ensures { IfSome result (SharesFront slots.now numbers.now tenants.now) }
    {
        let place = self.find(numbers)?;
        let tenant = tenants.get(place)?;
        let count = common_front(&tenant.table, slots, numbers);
        if self.is_worth_sharing(place, count, numbers.len() - count) {
            Some(Shared { place, count })
        } else {
            None
        }
    }

    // Notes the place of a tenant that shares none of its objects, which have these numbers.
    fn note_place(&mut self, numbers: &[u64], place: usize) -> Result<(), Memory> {
        let mut position = 0;
        for _ in 0..DOUBLINGS {
            let Some(number) = numbers.get(position) else {
                return Ok(());
            };
            self.places.insert(*number, place)?;
            position = 2 * position + 1;
        }
        Ok(())
    }

    // Notes how many objects a tenant has beside those that it shares.
    fn note_beside(&mut self, place: usize, own: usize) {
        if let Some(beside) = self.beside.get_mut(place) {
            *beside = beside.saturating_add(own);
        }
    }

    /// Notes the next tenant that was built: the numbers of its objects, and what it shares.
    ///
    /// `Memory` (90) if there is no memory for it.
    pub fn note(&mut self, numbers: &[u64], shared: Option<Shared>) -> Result<(), Memory> {
        let place = self.beside.len();
        match shared {
            Some(shared) => {
                self.note_beside(shared.place, numbers.len().saturating_sub(shared.count))
            }
            None => self.note_place(numbers, place)?,
        }
        self.beside.push(0)?;
        Ok(())
    }
}
