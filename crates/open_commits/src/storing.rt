//! Storing one object: git-hash-object(1), -w.

ghost use Rattle.std.specs.Prelude.{◌≡◌, ◌≢◌, OnErr, IfOk};
ghost use Rattle.git_model.specs.Content.{content_from, name_by};
ghost use Rattle.tenant_tables.specs.{Lent.{Keeps, IsUnchanged}, Objects.{objects}};
ghost use Rattle.tenant_tables.specs.{Room.{HasHoldsLeftBeside}, IsBackedBy.{IsBackedBy}};
ghost use Rattle.open_commits.specs.{Storing.{stored}, Calls.{AddsOnly, Gives}};

use crate::fault::Fault;
use content_pool::Pool;
use git_objects::{Kind, Name, Naming};
use tenant_tables::Table;

// Adds an object other than a tree after the table's objects, unless it is there, and returns its
// name.
pub fn store<N: Naming>(
    pool: &mut Pool<N>,
    table: &mut Table,
    kind: Kind,
    bytes: &[u8],
) -> Result<Name, Fault>
    requires stands { IsBackedBy N.digest_of pool.old table.old.entries }
    requires room { HasHoldsLeftBeside pool.old table.old.entries }
    requires no_tree { kind ≢ Kind.Tree }
    ensures keeps { Keeps N.digest_of pool.old table.old pool.new table.new }
    ensures room { HasHoldsLeftBeside pool.new table.new.entries }
    ensures adds { AddsOnly pool.old table.old pool.new table.new }
    ensures name { IfOk result (λ id. id ≡ name_by N.digest_of (content_from kind bytes.now)) }
    ensures done { Gives (stored N.digest_of (content_from kind bytes.now)
        (objects pool.old table.old.entries)) (λ _. objects pool.new table.new.entries) result }
    ensures same { OnErr result (IsUnchanged pool.old table.old pool.new table.new) }
{
    Ok(table.add(pool, kind, bytes)?)
}
