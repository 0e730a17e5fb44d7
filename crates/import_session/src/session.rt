//! A session: what a stream keeps between its items.
//!
//! Each call borrows the pool, the table and the refs. Until a checkpoint, the objects after the
//! table's committed prefix are the stream's own.

ghost use Rattle.std.specs.Prelude.{◌≡◌, Err, OnErr, OnOk, Result};
ghost use Rattle.tenant_tables.specs.{Room.{HasHoldsLeftBeside}, IsBackedBy.{IsBackedBy}};
ghost use Rattle.stream_grammar.specs.declared.fault.Fault.{Fault as TextFault};
ghost use Rattle.stream_grammar.specs.{Commands.{Done as DoneBy}, Shown.{act_shown, Answers}};
ghost use Rattle.stream_lex.specs.Looking.{item_of};
ghost use Rattle.git_model.specs.Results.{and_then};
ghost use Rattle.stream_commands.specs.{Lent.{Keeps}, Checkpoints.{checkpoint}, Held.{FilesStand}};
ghost use Rattle.stream_commands.specs.State.{state_shown, workspace_in, CarriesOut};
ghost use Rattle.import_session.specs.{Commits.{closed_where}, Meaning.{after_act}};
ghost use Rattle.import_session.specs.{Stream.{step, is_finish, session_end}, Sound.{IsSound}};
ghost use Rattle.import_session.specs.Session.{running_in, repository_in, last_in, new_session};
ghost use Rattle.import_session.specs.Session.{ReadsItem, Takes};

use crate::acts::carry_out;
use crate::closing::close_where;
use content_pool::Pool;
use git_objects::Naming;
use std::alloc::Global;
use std::marker::Model;
use stream_commands::checkpoint::save;
use stream_commands::state::{StreamState, new_state};
use stream_grammar::{Act, ControlCommand, Done, Parser};
use stream_lex::Item;
use stream_parts::fault::Fault;
use tenant_refs::Refs;
use tenant_tables::Table;

/// One stream of a tenant: the command that is not complete, what the stream has of its own, and
/// whether `done` was read.
///
/// Each call borrows the pool, the tenant's table and its refs. They must be the same from the
/// first call to the last.
pub struct Session {
    parser: Parser,
    state: StreamState,
    is_done: bool,
}

// Not derived, so that crates above need not prove again how its parts are dropped.
impl Drop for Session {
    fn drop(self) {
        let Session {
            parser,
            state,
            is_done: _,
        } = self;
        drop(parser);
        drop(state);
    }
}

impl Model for Session {
    ghost use Rattle.std.specs.Coded.{codes};
    ghost use Rattle.tree_build.specs.ShapeCode.{branch_code};
    ghost use Rattle.stream_commands.specs.State.{state_shown};
    ghost use Rattle.import_session.specs.Session.{SessionView};

    ghost Value = { SessionView };

    ghost coded = { Prim.hlevel (codes, branch_code) };

    ghost view = { λ s.
        record { parsing = s.parser; state = state_shown s.state; is_done = s.is_done } };
}

fn is_finish(act: &Act<'_>) -> bool
    ensures { result ≡ is_finish (act_shown act.now) }
{
    matches!(act, Act::Control(ControlCommand::Done))
}

// Whether `done` was carried out.
fn is_finished(carried: &Result<(), Fault>, act: &Act<'_>) -> bool
    ensures { OnOk carried.now (result ≡ is_finish (act_shown act.now)) }
{
    carried.is_ok() && is_finish(act)
}

// Passes on the parser's answer. Its `Memory` is that of the session.
fn judged<'a>(given: Result<Done<'a>, stream_grammar::Fault>) -> Result<Done<'a>, Fault>
    ensures { (by : Result DoneBy TextFault) → Answers given.entry by → ReadsItem result by }
{
    match given {
        Ok(done) => Ok(done),
        Err(stream_grammar::Fault::Memory) => Err(Fault::Memory),
        Err(text) => Err(Fault::Text(text)),
    }
}

// Ends the open commit if the item ends it, and then carries out its act.
fn carry_out_done<N: Naming>(
    pool: &mut Pool<N>,
    table: &mut Table,
    refs: &mut Refs,
    state: &mut StreamState,
    done: &Done<'_>,
    out: &mut Vec<u8>,
) -> Result<(), Fault>
    requires stands { IsBackedBy N.digest_of pool.old table.old.entries }
    requires room { HasHoldsLeftBeside pool.old table.old.entries }
    requires held { FilesStand N.digest_of (state_shown state.old) pool.old table.old }
    ensures keeps { Keeps N.digest_of pool.old table.old pool.new table.new }
    ensures held { OnOk result (FilesStand N.digest_of (state_shown state.new) pool.new table.new) }
    ensures carried { let now = workspace_in (state_shown state.old) pool.old table.old refs.old in
        IsSound N.digest_of now → CarriesOut
        (and_then (closed_where N.digest_of done.now.ends_commit now)
        (after_act N.digest_of (act_shown done.now.act)))
        (workspace_in (state_shown state.new) pool.new table.new refs.new)
        out.old.items out.new.items result }
    ensures last { OnErr result (last_in pool.new table.new refs.new
        ≡ last_in pool.old table.old refs.old) }
    ensures printed { OnErr result (out.new.items ≡ out.old.items) }
{
    close_where(done.ends_commit, pool, table, state)?;
    carry_out(pool, table, refs, state, &done.act, out)
}

// Ends the open commit if the end of the stream ends it, and then makes a checkpoint.
fn save_at_end<N: Naming>(
    ends: bool,
    pool: &mut Pool<N>,
    table: &mut Table,
    refs: &mut Refs,
    state: &mut StreamState,
    out: &mut Vec<u8>,
) -> Result<(), Fault>
    requires stands { IsBackedBy N.digest_of pool.old table.old.entries }
    requires room { HasHoldsLeftBeside pool.old table.old.entries }
    requires held { FilesStand N.digest_of (state_shown state.old) pool.old table.old }
    ensures keeps { Keeps N.digest_of pool.old table.old pool.new table.new }
    ensures saved { let now = workspace_in (state_shown state.old) pool.old table.old refs.old in
        IsSound N.digest_of now → CarriesOut
        (and_then (closed_where N.digest_of ends now) checkpoint)
        (workspace_in (state_shown state.new) pool.new table.new refs.new)
        out.old.items out.new.items result }
    ensures last { OnErr result (last_in pool.new table.new refs.new
        ≡ last_in pool.old table.old refs.old) }
    ensures printed { OnErr result (out.new.items ≡ out.old.items) }
{
    close_where(ends, pool, table, state)?;
    save(pool, table, refs, state, out)
}

impl Session {
    /// A stream before its first item. Allocates nothing; later calls allocate from `alloc`.
    pub fn new(alloc: Global) -> Session
        ensures { result ≡ new_session }
    {
        Session {
            parser: Parser::new(alloc),
            state: new_state(alloc),
            is_done: false,
        }
    }

    /// Whether `done` was read, so that what follows it is ignored. Allocates nothing.
    pub fn is_done(&self) -> bool
        ensures { result ≡ self.now.is_done }
    {
        self.is_done
    }

    /// Takes the next item, and appends what it prints to `out`: git-fast-import(1), "Commands".
    ///
    /// The first fault that applies is answered, in this order:
    ///
    /// - of the item's text, or because the item may not come here: `Text` (2, 3, 5, 8 to 12, 21,
    ///   22, 23, 25);
    /// - of the open commit, if the item ends it: `Limit` (25) if there would be too many marks, an
    ///   object is too long or the table is full, `NameCollision` (24) if the tenant has another
    ///   content of an object's name;
    /// - of the item's act: `BranchFromItself` (19) if a branch would start from itself,
    ///   `MarkUnknown` (13) and `ObjectUnknown` (14) if the item names what is not there,
    ///   `WrongKind` (15) if the object is of another kind, `Malformed` (3), `UnknownRevision` (16)
    ///   and `Ambiguous` (17) if an expression is none, names nothing or names several objects,
    ///   `SourceMissing` (18) and `RootNotDirectory` (20) by the change of a file, `Limit` (25) and
    ///   `NameCollision` (24) as above.
    ///
    /// `Memory` (90) if an allocation fails; it may take the place of any other answer.
    ///
    /// After a refusal `out` is unchanged, the committed objects and the refs are those of the last
    /// checkpoint, and only `abandon` may follow. After `done` an item is ignored.
    #[tactic(auto, unfolding(crate::specs::Stream::step))]
    pub fn take<N: Naming>(
        &mut self,
        pool: &mut Pool<N>,
        table: &mut Table,
        refs: &mut Refs,
        item: Item<'_>,
        out: &mut Vec<u8>,
    ) -> Result<(), Fault>
        requires stands { IsBackedBy N.digest_of pool.old table.old.entries }
        requires room { HasHoldsLeftBeside pool.old table.old.entries }
        requires held { FilesStand N.digest_of self.old.state pool.old table.old }
        ensures keeps { Keeps N.digest_of pool.old table.old pool.new table.new }
        ensures held { OnOk result (FilesStand N.digest_of self.new.state pool.new table.new) }
        ensures taken { IsSound N.digest_of
            (workspace_in self.old.state pool.old table.old refs.old) → Takes
            (step N.digest_of (running_in self.old pool.old table.old refs.old)
            (item_of item.entry))
            (running_in self.new pool.new table.new refs.new) out.old.items out.new.items result }
        ensures checkpoint { OnErr result (last_in pool.new table.new refs.new
            ≡ last_in pool.old table.old refs.old) }
        ensures printed { OnErr result (out.new.items ≡ out.old.items) }
    {
        if self.is_done() {
            return Ok(());
        }
        let done = match judged(self.parser.take(item)) {
            Ok(done) => done,
            Err(fault) => return Err(fault),
        };
        let carried = carry_out_done(pool, table, refs, &mut self.state, &done, out);
        self.is_done = is_finished(&carried, &done.act);
        drop(done);
        carried
    }

    /// Ends the stream, which is a checkpoint, unless `done` was read before: git-fast-import(1),
    /// "done" and "checkpoint". Appends a line to `out` for each ref that is kept.
    ///
    /// The first of these faults that applies is answered: `Fault::Text` (5) if a part of a command
    /// is missing; `Fault::DoneMissing` (7) if the stream asked for `done`; `Limit` (25) and
    /// `NameCollision` (24) of the open commit, which ends here; `Limit` (25) if there would be
    /// more than 65,536 refs. `Memory` (90) if an allocation fails, which may take the place of any
    /// answer. After a refusal `out`, the committed objects and the refs are as before, and only
    /// `abandon` may follow.
    #[tactic(auto, unfolding(crate::specs::Stream::session_end))]
    pub fn finish<N: Naming>(
        &mut self,
        pool: &mut Pool<N>,
        table: &mut Table,
        refs: &mut Refs,
        out: &mut Vec<u8>,
    ) -> Result<(), Fault>
        requires stands { IsBackedBy N.digest_of pool.old table.old.entries }
        requires room { HasHoldsLeftBeside pool.old table.old.entries }
        requires held { FilesStand N.digest_of self.old.state pool.old table.old }
        ensures keeps { Keeps N.digest_of pool.old table.old pool.new table.new }
        ensures ended { IsSound N.digest_of
            (workspace_in self.old.state pool.old table.old refs.old) → CarriesOut
            (session_end N.digest_of (running_in self.old pool.old table.old refs.old))
            (running_in self.new pool.new table.new refs.new).workspace out.old.items out.new.items
            result }
        ensures checkpoint { OnErr result (last_in pool.new table.new refs.new
            ≡ last_in pool.old table.old refs.old) }
        ensures printed { OnErr result (out.new.items ≡ out.old.items) }
    {
        if self.is_done {
            return Ok(());
        }
        let ends = match self.parser.end() {
            Ok(ends) => ends,
            Err(text) => return Err(Fault::Text(text)),
        };
        if self.state.needs_done {
            return Err(Fault::DoneMissing);
        }
        save_at_end(ends, pool, table, refs, &mut self.state, out)
    }

    /// Gives up the stream: rolls its table back to the last checkpoint, and leaves the refs.
    /// Allocates nothing.
    pub fn abandon<N: Naming>(self, pool: &mut Pool<N>, table: &mut Table, refs: &mut Refs)
        requires { IsBackedBy N.digest_of pool.old table.old.entries }
        ensures keeps { Keeps N.digest_of pool.old table.old pool.new table.new }
        ensures left { repository_in pool.new table.new refs.new
            ≡ last_in pool.old table.old refs.old }
        ensures committed { table.new.committed ≡ table.old.committed }
        ensures refs { refs.new ≡ refs.old }
    {
        table.roll_back(pool);
        drop(self);
    }
}
