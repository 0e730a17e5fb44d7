//! How a tag is stored: git-fast-import(1), "tag".

ghost use Rattle.std.specs.{Prelude.{◌≡◌, ◌<◌, length, List, ℕ, OnOk, OnErr}, Vec.{vec_capacity}};
ghost use Rattle.git_model.specs.HeldObjects.{AreHeld};
ghost use Rattle.content_pool.specs.Pool.{HasHoldsLeft};
ghost use Rattle.tenant_tables.specs.{Objects.{objects}, IsBackedBy.{IsBackedBy}};
ghost use Rattle.stream_grammar.specs.Acts.{Tag};
ghost use Rattle.stream_parts.specs.Faults.{Gives};
ghost use Rattle.stream_commands.specs.{Objects.{object_stored}, Tags.{tagged}, State.{CarriesOut}};
ghost use Rattle.stream_commands.specs.{Lent.{IsUnchanged, Keeps}, Held.{ChainStands, FilesStand}};
ghost use Rattle.stream_commands.specs.State.{state_shown, workspace_in, workspace_over};

use crate::commit_ishes::named;
use crate::open_command::{OpenCommand, not_open};
use crate::state::StreamState;
use content_pool::Pool;
use git_objects::{Kind, Name, Naming};
use stream_grammar::Mark;
use stream_parts::fault::Fault;
use stream_parts::headers::TagHeader;
use stream_parts::marks;
use stream_parts::tags::{make_room, store_written, tagged_kind};
use tenant_refs::Refs;
use tenant_tables::{Objects, Sight, Table};

// The tagged object and its kind. Makes room for the tag's mark and for one more tag.
fn tagged<N: Naming>(
    objects: &Objects<'_, N>,
    refs: &Refs,
    state: &mut StreamState,
    header: &TagHeader,
    mark: &Option<Mark>,
) -> Result<(Name, Kind), Fault>
    requires chain { ChainStands N.digest_of objects.now state.old.chain }
    ensures tagged { (committed : ℕ) → AreHeld N.digest_of objects.now → Gives result
        (tagged mark.now header.now
        (workspace_over (state_shown state.old) objects.now committed refs.now)) }
    ensures mark { OnOk result (0 < state.new.marks.spare) }
    ensures tag { OnOk result (length state.new.tags.items < vec_capacity state.new.tags) }
    ensures same { state_shown state.new
        ≡ record (state_shown state.old) { chain = state.new.chain } }
    ensures chain { ChainStands N.digest_of objects.now state.new.chain }
{
    let Some(said) = &header.target else {
        return Err(not_open());
    };
    let target = named(objects, refs, state, &said.lent())?;
    let kind = tagged_kind(objects, target)?;
    marks::make_room(&mut state.marks, mark)?;
    make_room(&mut state.tags)?;
    Ok((target, kind))
}

// Stores the open tag, sets its mark, and adds the tag to those that wait for the next checkpoint.
#[tactic(auto, unfolding(crate::specs::Objects::object_stored))]
pub fn store_tag<N: Naming>(
    pool: &mut Pool<N>,
    table: &mut Table,
    refs: &Refs,
    state: &mut StreamState,
    mark: Option<Mark>,
    message: &[u8],
) -> Result<(), Fault>
    requires stands { IsBackedBy N.digest_of pool.old table.old.entries }
    requires room { HasHoldsLeft pool.old }
    requires held { FilesStand N.digest_of (state_shown state.old) pool.old table.old }
    ensures keeps { Keeps N.digest_of pool.old table.old pool.new table.new }
    ensures done { (out : List ℕ) → AreHeld N.digest_of (objects pool.old table.old.entries)
        → CarriesOut (object_stored N.digest_of (Tag mark message.now)
        (workspace_in (state_shown state.old) pool.old table.old refs.now))
        (workspace_in (state_shown state.new) pool.new table.new refs.now) out out result }
    ensures same { OnErr result (IsUnchanged pool.old table.old pool.new table.new) }
    ensures held { OnOk result (FilesStand N.digest_of (state_shown state.new) pool.new table.new) }
{
    let header = match state.command.take() {
        OpenCommand::Tag(header) => header,
        other => return Err(other.refusal()),
    };
    let objects = Objects::of(pool, table, Sight::All);
    let (target, kind) = match tagged(&objects, refs, state, &header, &mark) {
        Ok(tagged) => tagged,
        Err(fault) => {
            drop(header);
            return Err(fault);
        }
    };
    let stored = store_written(pool, table, state.alloc, &header, target, kind, message);
    let id = match stored {
        Ok(id) => id,
        Err(fault) => {
            drop(header);
            return Err(fault);
        }
    };
    marks::set(&mut state.marks, mark, Kind::Tag, id);
    state.tags.push((header.ref_name, id)).unwrap();
    Ok(())
}
