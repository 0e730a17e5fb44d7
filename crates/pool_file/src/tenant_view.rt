//! A tenant that is lent to be saved.

ghost use Rattle.std.specs.Prelude.{◌≡◌, length};
ghost use Rattle.content_pool.specs.Pool.{Cells};
ghost use Rattle.git_model.specs.References.{place_of};
ghost use Rattle.pool_file.specs.Worth.{named_in, is_worth_saving};

use git_names::Name;
use tenant_refs::{FIRST_HEAD, Refs, TenantName};
use tenant_tables::Table;

/// A tenant's name, table and refs, lent. The first `objects` of the table are saved: all of them,
/// if it has fewer. For a tenant at its last checkpoint these are the committed ones.
#[derive(Clone, Copy)]
pub struct TenantView<'a> {
    pub name: &'a TenantName,
    pub table: &'a Table,
    pub objects: usize,
    pub refs: &'a Refs,
}

impl<'a> TenantView<'a> {
    /// How many objects are saved. Takes no memory.
    pub fn object_count(&self) -> usize
        ensures { (pool : Cells)
            → result ≡ length (named_in pool self.now).repository.objects }
    {
        self.objects.min(self.table.len())
    }

    // The position of the object of this name among those that are saved, counted from 0; their
    // number if it is not one of them.
    pub(crate) fn place(&self, id: &Name) -> usize
        ensures { (pool : Cells)
            → result ≡ place_of id.now (named_in pool self.now).repository.objects }
    {
        let count = self.object_count();
        self.table.place(id).unwrap_or(count).min(count)
    }

    // Whether an object of it is saved, or it has another HEAD than the first.
    pub(crate) fn is_worth_saving(&self) -> bool
        ensures { (pool : Cells) → result ≡ is_worth_saving (named_in pool self.now) }
    {
        self.object_count() > 0 || self.refs.head() != FIRST_HEAD
    }
}
