//! What a stream does with objects: git-fast-import(1), "blob" and "cat-blob".

ghost use Rattle.std.specs.{Option.{option_map}, Prelude.{◌≡◌, ◌≢◌, Ok}};
ghost use Rattle.git_model.specs.{Content.{content_from}, Repository.{object_named}};
ghost use Rattle.git_model.specs.Results.{and_then};
ghost use Rattle.content_pool.specs.Pool.{HasHoldsLeft};
ghost use Rattle.tenant_tables.specs.{IsBackedBy.{IsBackedBy}, Lent.{Keeps}};
ghost use Rattle.stream_parts.specs.{Printing.{Shows, shown_object}, Storing.{storing_fault}};
ghost use Rattle.stream_parts.specs.{Stored.{Stores}, Marks.{marked_name, referred_name}};
ghost use Rattle.hex.specs.Hex.{encode_lower};

use crate::fault::Fault;
use crate::marks;
use crate::print::{print_blob, print_missing, print_name};
use content_pool::Pool;
use git_objects::{Kind, Name, Naming};
use stream_grammar::{DataRef, Mark};
use stream_marks::Marks;
use tenant_tables::{Objects, Table};

fn fault_of(fault: tenant_tables::Fault) -> Fault
    ensures { result ≡ storing_fault fault }
{
    match fault {
        tenant_tables::Fault::Limit => Fault::Limit,
        tenant_tables::Fault::NameCollision => Fault::NameCollision,
        tenant_tables::Fault::Memory => Fault::Memory,
    }
}

/// Adds an object after the table's objects, unless it is there.
pub fn store<N: Naming>(
    pool: &mut Pool<N>,
    table: &mut Table,
    kind: Kind,
    bytes: &[u8],
) -> Result<Name, Fault>
    requires stands { IsBackedBy N.digest_of pool.old table.old.entries }
    requires room { HasHoldsLeft pool.old }
    requires no_tree { kind ≢ Kind.Tree }
    ensures keeps { Keeps N.digest_of pool.old table.old pool.new table.new }
    ensures stores { Stores N.digest_of (content_from kind bytes.now) pool.old table.old
        pool.new table.new result }
{
    match table.add(pool, kind, bytes) {
        Ok(id) => Ok(id),
        Err(fault) => Err(fault_of(fault)),
    }
}

// Prints an object, which must be a blob, or that there is none of this name.
fn print_content(id: Name, content: Option<(Kind, &[u8])>, out: &mut Vec<u8>) -> Result<(), Fault>
    ensures { Shows (shown_object id (option_map (λ r. content_from r.0 r.1.now) content.entry))
        out.old.items out.new.items result }
{
    match content {
        None => Ok(print_missing(id, out)?),
        Some((Kind::Blob, bytes)) => Ok(print_blob(id, bytes, out)?),
        Some(_) => Err(Fault::WrongKind),
    }
}

/// Prints the blob of this name, or that there is no object of this name.
pub fn print_object<N: Naming>(
    objects: &Objects<'_, N>,
    id: Name,
    out: &mut Vec<u8>,
) -> Result<(), Fault>
    ensures { Shows (shown_object id (object_named id objects.now))
        out.old.items out.new.items result }
{
    print_content(id, objects.get(&id), out)
}

/// Prints the blob that a dataref stands for, or that there is no such object:
/// git-fast-import(1), "cat-blob".
///
/// `Fault::MarkUnknown` (13) if the mark is not set, `Fault::WrongKind` (15) if the object is no
/// blob, `Fault::Memory` (90) if an allocation fails. After a refusal `out` is unchanged.
pub fn print_referred<N: Naming>(
    objects: &Objects<'_, N>,
    marks: &Marks,
    object: DataRef,
    out: &mut Vec<u8>,
) -> Result<(), Fault>
    ensures { Shows (and_then (referred_name marks.now.entries object)
        (λ id. shown_object id (object_named id objects.now)))
        out.old.items out.new.items result }
{
    let id = marks::referred(marks, object)?;
    print_object(objects, id, out)
}

/// Prints the name of the object that a mark stands for: git-fast-import(1), "get-mark".
///
/// `Fault::MarkUnknown` (13) if the mark is not set, `Fault::Memory` (90) if an allocation
/// fails. After a refusal `out` is unchanged.
pub fn print_marked(marks: &Marks, mark: Mark, out: &mut Vec<u8>) -> Result<(), Fault>
    ensures { Shows (and_then (marked_name marks.now.entries mark) (λ id. Ok (encode_lower id)))
        out.old.items out.new.items result }
{
    let id = marks::find(marks, mark)?;
    print_name(id, out)?;
    Ok(())
}
