//! Blobs and tags: git-fast-import(1), "blob" and "tag".

ghost use Rattle.std.specs.Prelude.{OnErr, OnOk, List, ℕ};
ghost use Rattle.git_model.specs.{HeldObjects.{AreHeld}, RefStore.{RefStore}};
ghost use Rattle.content_pool.specs.Pool.{Cells, HasHoldsLeft};
ghost use Rattle.tenant_tables.specs.{Objects.{objects}, View.{View}, IsBackedBy.{IsBackedBy}};
ghost use Rattle.stream_grammar.specs.Acts.{Blob, BeginTag, TagTarget, Tagger};
ghost use Rattle.stream_grammar.specs.Shown.{commit_shown, object_shown};
ghost use Rattle.stream_commands.specs.{Objects.{object_stored}, Lent.{IsUnchanged, Keeps}};
ghost use Rattle.stream_commands.specs.Held.{FilesStand, KeepsBranchFiles};
ghost use Rattle.stream_commands.specs.State.{marked, state_shown, workspace_in, CarriesOut};
ghost use Rattle.stream_commands.specs.State.{StreamState as StreamStateShown};

use crate::open_command::{OpenCommand, not_open};
use crate::state::StreamState;
use crate::tags::store_tag;
use content_pool::Pool;
use git_objects::{Kind, Naming};
use stream_grammar::{CommitIsh, Ident, Mark, ObjectCommand};
use stream_marks::Marks;
use stream_parts::fault::Fault;
use stream_parts::headers::{TagHeader, set_ident, set_target};
use stream_parts::marks;
use stream_parts::objects::store;
use tenant_refs::{RefName, Refs};
use tenant_tables::Table;

// 'blob', at its data.
#[tactic(auto, unfolding(crate::specs::Objects::object_stored))]
fn store_marked<N: Naming>(
    pool: &mut Pool<N>,
    table: &mut Table,
    marks: &mut Marks,
    mark: Option<Mark>,
    contents: &[u8],
) -> Result<(), Fault>
    requires stands { IsBackedBy N.digest_of pool.old table.old.entries }
    requires room { HasHoldsLeft pool.old }
    ensures keeps { Keeps N.digest_of pool.old table.old pool.new table.new }
    ensures done { (state : StreamStateShown) (refs : RefStore) (out : List ℕ)
        → FilesStand N.digest_of state pool.old table.old → CarriesOut
        (object_stored N.digest_of (Blob mark contents.now)
        (workspace_in (marked state marks.old.entries) pool.old table.old refs))
        (workspace_in (marked state marks.new.entries) pool.new table.new refs)
        out out result }
    ensures held { (state : StreamStateShown) → FilesStand N.digest_of state pool.old table.old
        → FilesStand N.digest_of state pool.new table.new }
    ensures same { OnErr result (IsUnchanged pool.old table.old pool.new table.new) }
{
    marks::make_room(marks, &mark)?;
    let id = store(pool, table, Kind::Blob, contents)?;
    marks::set(marks, mark, Kind::Blob, id);
    Ok(())
}

// 'tag'.
#[tactic(auto, unfolding(crate::specs::Objects::object_stored))]
fn begin_tag(state: &mut StreamState, refs: &Refs, ref_name: &RefName) -> Result<(), Fault>
    ensures done { (digest : List ℕ → List ℕ) (pool : Cells) (table : View)
        (out : List ℕ) → CarriesOut
        (object_stored digest (BeginTag ref_name.now)
        (workspace_in (state_shown state.old) pool table refs.now))
        (workspace_in (state_shown state.new) pool table refs.now) out out result }
    ensures files { KeepsBranchFiles (state_shown state.old) (state_shown state.new) }
{
    let ref_name = ref_name.try_clone(state.alloc)?;
    state
        .command
        .open(OpenCommand::Tag(TagHeader::new(ref_name)));
    Ok(())
}

// 'from' in a tag.
#[tactic(auto, unfolding(crate::specs::Objects::object_stored))]
fn say_target(state: &mut StreamState, refs: &Refs, target: &CommitIsh<'_>) -> Result<(), Fault>
    ensures done { (digest : List ℕ → List ℕ) (pool : Cells) (table : View)
        (out : List ℕ) → CarriesOut
        (object_stored digest (TagTarget (commit_shown target.now))
        (workspace_in (state_shown state.old) pool table refs.now))
        (workspace_in (state_shown state.new) pool table refs.now) out out result }
    ensures files { KeepsBranchFiles (state_shown state.old) (state_shown state.new) }
{
    match &mut state.command {
        OpenCommand::Tag(header) => set_target(state.alloc, target, &mut header.target),
        _ => Err(not_open()),
    }
}

// 'tagger'.
#[tactic(auto, unfolding(crate::specs::Objects::object_stored))]
fn say_tagger(state: &mut StreamState, refs: &Refs, ident: &Ident) -> Result<(), Fault>
    ensures done { (digest : List ℕ → List ℕ) (pool : Cells) (table : View)
        (out : List ℕ) → CarriesOut
        (object_stored digest (Tagger ident.now)
        (workspace_in (state_shown state.old) pool table refs.now))
        (workspace_in (state_shown state.new) pool table refs.now) out out result }
    ensures files { KeepsBranchFiles (state_shown state.old) (state_shown state.new) }
{
    match &mut state.command {
        OpenCommand::Tag(header) => set_ident(state.alloc, ident, &mut header.tagger),
        _ => Err(not_open()),
    }
}

/// Carries out a line of a blob or of a tag: git-fast-import(1), "blob" and "tag".
///
/// The first fault that applies is answered:
///
/// - of a blob: `Fault::Limit` (25) if there would be more than 4,194,304 marks;
/// - of a tag, at its data: what `named` refuses of its `from`, `Fault::WrongKind` (15) if that is
///   a tree, `Fault::UnknownRevision` (16) if there is no such object, `Fault::Limit` (25) if there
///   would be too many marks, or more than 65,536 tags that wait;
/// - of both, when they are stored: `Fault::Limit` (25) if the contents are too long or the table
///   is full, `Fault::NameCollision` (24) if the tenant has another content of the name.
///
/// `Fault::Memory` (90) if an allocation fails. `Fault::Text` (2) if the tag is not open; the
/// parser lets no such line through. A refusal changes no object.
pub fn carry_out_object<N: Naming>(
    pool: &mut Pool<N>,
    table: &mut Table,
    refs: &Refs,
    state: &mut StreamState,
    command: &ObjectCommand<'_>,
) -> Result<(), Fault>
    requires stands { IsBackedBy N.digest_of pool.old table.old.entries }
    requires room { HasHoldsLeft pool.old }
    requires held { FilesStand N.digest_of (state_shown state.old) pool.old table.old }
    ensures keeps { Keeps N.digest_of pool.old table.old pool.new table.new }
    ensures done { (out : List ℕ) → AreHeld N.digest_of (objects pool.old table.old.entries)
        → CarriesOut (object_stored N.digest_of (object_shown command.now)
        (workspace_in (state_shown state.old) pool.old table.old refs.now))
        (workspace_in (state_shown state.new) pool.new table.new refs.now) out out result }
    ensures same { OnErr result (IsUnchanged pool.old table.old pool.new table.new) }
    ensures held { OnOk result (FilesStand N.digest_of (state_shown state.new) pool.new table.new) }
{
    match command {
        ObjectCommand::Blob { mark, contents } => {
            store_marked(pool, table, &mut state.marks, *mark, contents)
        }
        ObjectCommand::BeginTag(ref_name) => begin_tag(state, refs, ref_name),
        ObjectCommand::TagTarget(target) => say_target(state, refs, target),
        ObjectCommand::Tagger(ident) => say_tagger(state, refs, ident),
        ObjectCommand::Tag { mark, message } => {
            store_tag(pool, table, refs, state, *mark, message)
        }
    }
}
