//! The objects of a table that are in sight: "object database" of gitglossary(7).
//!
//! What is not in sight does not exist here: neither objects of another tenant nor, if the sight is
//! the committed prefix, those of the open stream. Contracts see the list of the objects, oldest
//! first, and neither the pool nor the table.

ghost use Rattle.std.specs.{Prelude.{◌≡◌, length, map, is_some, IfOk}, Option.{option_map}};
ghost use Rattle.git_model.specs.{ObjectName.{object_name}, Content.{content_from}};
ghost use Rattle.git_model.specs.Repository.{object_named};
ghost use Rattle.name_index.specs.Index.{most_shared};
ghost use Rattle.tenant_tables.specs.{Abbreviation.{found_among}, Objects.{objects}};
ghost use Rattle.tenant_tables.specs.{IsBackedBy.{IsBackedBy, AreBacked}, SumIn.{sum_in}};
ghost use Rattle.tenant_tables.specs.View.{in_sight, slot_of};

use crate::{Found, Sight, Summary, Table};
use content_pool::{Pool, Slot};
use git_model::Kind;
use git_names::{Memory, Name, Naming};
use std::marker::Model;

fn slot_in_sight(table: &Table, sight: Sight, id: &Name) -> Option<Slot>
    ensures { result ≡ slot_of id.now (in_sight sight table.now) }
{
    match sight {
        Sight::All => table.find(id),
        Sight::Committed => table.find_committed(id),
    }
}

/// The objects of a table that are in sight.
#[derive(Drop)]
pub struct Objects<'a, N: Naming> {
    pub(crate) pool: &'a Pool<N>,
    pub(crate) table: &'a Table,
    pub(crate) sight: Sight,
}

impl<'a, N: Naming> Model for Objects<'a, N> {
    ghost use Rattle.std.specs.Prelude.{List};
    ghost use Rattle.git_model.specs.Repository.{Object};
    ghost use Rattle.tenant_tables.specs.{Objects.{objects}, IsBackedBy.{IsBackedBy}};
    ghost use Rattle.tenant_tables.specs.View.{in_sight};

    ghost Value = { List Object };

    ghost view = { λ o. objects o.pool.now (in_sight o.sight o.table.now) };

    ghost invariant = { λ o. IsBackedBy N.digest_of o.pool.now o.table.now.entries };
}

impl<'a, N: Naming> Objects<'a, N> {
    /// The objects of this table that are in sight. The pool must be the one that holds the
    /// contents of the table. Takes no memory.
    pub fn of(pool: &'a Pool<N>, table: &'a Table, sight: Sight) -> Objects<'a, N>
        requires { IsBackedBy N.digest_of pool.now table.now.entries }
        ensures { result ≡ objects pool.now (in_sight sight table.now) }
    {
        Objects { pool, table, sight }
    }

    /// The kind and the contents of the object of this name; `None` if there is no such object.
    /// Takes no memory.
    pub fn get(&self, id: &Name) -> Option<(Kind, &'a [u8])>
        ensures { option_map (λ r. content_from r.0 r.1.now) result ≡ object_named id.now self.now }
    {
        match slot_in_sight(self.table, self.sight, id) {
            Some(slot) => Some(self.pool.get(slot)),
            None => None,
        }
    }

    /// Whether there is an object of this name. Takes no memory.
    pub fn has(&self, id: &Name) -> bool
        ensures { result ≡ is_some (object_named id.now self.now) }
    {
        self.get(id).is_some()
    }

    /// The summary of the tree of this name; `None` if there is no such tree. Takes no memory.
    pub fn summary(&self, id: &Name) -> Option<Summary>
        ensures { result ≡ sum_in self.now id.now }
    {
        let (place, entry) = self.table.look_up(id)?;
        if place < self.len() {
            entry.summary
        } else {
            None
        }
    }

    /// The object name of the content of this kind with these bytes, which need not be that of an
    /// object here. `Memory` (90) if the naming finds no room for its work.
    pub fn name_of(&self, kind: Kind, bytes: &[u8]) -> Result<Name, Memory>
        ensures { IfOk result (λ id. id ≡ object_name N.digest_of kind bytes.now) }
    {
        self.pool.name_of(kind, bytes)
    }

    /// States for proofs that these are the objects of a table that the pool backs. A call does
    /// nothing.
    pub fn are_backed(&self)
        ensures { AreBacked N.digest_of self.now }
    {
        let _sight = self.sight;
    }

    /// How many objects there are. Takes no memory.
    pub fn len(&self) -> usize
        ensures { result ≡ length self.now }
    {
        self.table.len_in_sight(self.sight)
    }

    /// Looks up an abbreviated object name: `Found::One` if exactly one name begins with these
    /// hexadecimal digits of either case. Takes no memory.
    pub fn starting_with(&self, digits: &[u8]) -> Found
        ensures { result ≡ found_among digits.now (map (λ o. o.id) self.now) }
    {
        self.table.starting_with(digits, self.sight)
    }

    /// The most leading hexadecimal digits that a name other than `id` shares with it; 0 if there is
    /// no other. Takes no memory.
    pub fn most_shared(&self, id: &Name) -> usize
        ensures { result ≡ most_shared id.now (map (λ o. o.id) self.now) }
    {
        self.table.most_shared(id, self.sight)
    }
}
