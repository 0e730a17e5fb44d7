//! A stream of git-fast-import(1), piece by piece, over the objects and refs of one tenant.
//!
//! The table, the refs and the pool are lent to each call, the same ones from the first to the
//! last. Bytes may be cut anywhere. Between two pieces a stream keeps its session and the bytes of
//! the item that is not complete, but neither the repository nor the bytes before that.

ghost use Rattle.std.specs.Prelude.{◌≡◌, false, OnErr, OnOk};
ghost use Rattle.tenant_tables.specs.IsBackedBy.{IsBackedBy};
ghost use Rattle.stream_commands.specs.{Lent.{Keeps}, Held.{FilesStand}};
ghost use Rattle.import_session.specs.Session.{repository_in, last_in};
ghost use Rattle.import_session.specs.Sound.{IsSound, IsSoundRepository};
ghost use Rattle.tenant_stream.specs.{Stopping.{unfed}, Soundness.{LeavesSound}};
ghost use Rattle.tenant_stream.specs.Carrying.{new_stream, stream_in, held_with, Carries, Feeds};
ghost use Rattle.tenant_stream.specs.Carrying.{EndsAs, HasAmpleHoldsLeft, IsCommitted};

use crate::stream_error::{StreamError, stop_of};
use content_pool::Pool;
use git_objects::Naming;
use import_session::Session;
use std::alloc::Global;
use std::marker::Model;
use stream_lex::{Fault, Lexer};
use tenant_refs::Refs;
use tenant_tables::Table;

// Carries out all complete items, up to `done`.
fn carry<N: Naming>(
    lexer: &mut Lexer,
    session: &mut Session,
    pool: &mut Pool<N>,
    table: &mut Table,
    refs: &mut Refs,
    out: &mut Vec<u8>,
) -> Result<(), StreamError>
    requires stands { IsBackedBy N.digest_of pool.old table.old.entries }
    requires room { HasAmpleHoldsLeft pool.old }
    requires held { FilesStand N.digest_of session.old.state pool.old table.old }
    requires running { session.old.is_done ≡ false }
    ensures keeps { Keeps N.digest_of pool.old table.old pool.new table.new }
    ensures held { OnOk result (FilesStand N.digest_of session.new.state pool.new table.new) }
    ensures carries { let before = held_with (record { session = session.old; tail = lexer.old.tail })
        pool.old table.old refs.old out.old.items in
        IsSound N.digest_of before.running.workspace → Carries N.digest_of before result
        (held_with (record { session = session.new; tail = lexer.new.tail })
        pool.new table.new refs.new out.new.items) }
{
    let _most = lexer.held();
    let mut count = 0;
    'items: loop {
        if session.is_done() {
            return Ok(());
        }
        match lexer.next() {
            Ok(Some(item)) => {
                if let Err(fault) = session.take(pool, table, refs, item, out) {
                    return Err(stop_of(fault, count));
                }
                count += 1;
            }
            Ok(None) => return Ok(()),
            Err(fault) => return Err(StreamError::Fault(fault.code())),
        }
    }
}

// Why a stream stops whose lexer takes no further piece.
fn unfed(fault: Fault) -> StreamError
    ensures { result ≡ unfed fault }
{
    match fault {
        Fault::Memory => StreamError::Memory(0),
        _ => StreamError::Fault(fault.code()),
    }
}

// Ends the bytes, and then the commands.
fn end<N: Naming>(
    lexer: &Lexer,
    session: &mut Session,
    pool: &mut Pool<N>,
    table: &mut Table,
    refs: &mut Refs,
    out: &mut Vec<u8>,
) -> Result<(), StreamError>
    requires stands { IsBackedBy N.digest_of pool.old table.old.entries }
    requires room { HasAmpleHoldsLeft pool.old }
    requires held { FilesStand N.digest_of session.old.state pool.old table.old }
    ensures keeps { Keeps N.digest_of pool.old table.old pool.new table.new }
    ensures ended { let before = held_with (record { session = session.old; tail = lexer.now.tail })
        pool.old table.old refs.old out.old.items in
        IsSound N.digest_of before.running.workspace → EndsAs N.digest_of before result
        (last_in pool.new table.new refs.new) out.new.items }
    ensures printed { OnErr result (out.new.items ≡ out.old.items) }
{
    if session.is_done() {
        return Ok(());
    }
    if let Err(fault) = lexer.end() {
        return Err(StreamError::Fault(fault.code()));
    }
    if let Err(fault) = session.finish(pool, table, refs, out) {
        return Err(stop_of(fault, 0));
    }
    Ok(())
}

/// A running stream of one tenant.
#[derive(Drop)]
pub struct Stream {
    lexer: Lexer,
    session: Session,
}

impl Model for Stream {
    ghost use Rattle.tenant_stream.specs.Carrying.{StreamView, branch_code};
    ghost use Rattle.std.specs.Coded.{codes};

    ghost Value = { StreamView };

    ghost coded = { Prim.hlevel (codes, branch_code) };

    ghost view = { λ stream. record { session = stream.session; tail = stream.lexer.tail } };
}

impl Stream {
    /// A stream before its first byte. Takes no memory; what it keeps later comes from `alloc`.
    pub fn new(alloc: Global) -> Stream
        ensures { result ≡ new_stream }
    {
        Stream {
            lexer: Lexer::new(alloc),
            session: Session::new(alloc),
        }
    }

    /// Whether `done` was read; then no byte after it is looked at. Takes no memory.
    pub fn is_done(&self) -> bool
        ensures { result ≡ self.now.session.is_done }
    {
        self.session.is_done()
    }

    /// Takes the next piece, carries out the items that it completes, and appends what they print
    /// to `out`: git-fast-import(1), "Input Format".
    ///
    /// `StreamError::Fault`: the bytes, the text of an item, or its meaning are refused under this
    /// number. `StreamError::Memory(k)` (90): memory ran out after k whole items of this call,
    /// which took effect. In both cases `out` has the replies of the items before the stop, the
    /// objects and refs of the last checkpoint are unchanged, and only `abandon` may follow. After
    /// `done` nothing is read, and no memory is taken.
    pub fn feed<N: Naming>(
        &mut self,
        pool: &mut Pool<N>,
        table: &mut Table,
        refs: &mut Refs,
        piece: &[u8],
        out: &mut Vec<u8>,
    ) -> Result<(), StreamError>
        requires stands { IsBackedBy N.digest_of pool.old table.old.entries }
        requires room { HasAmpleHoldsLeft pool.old }
        requires held { FilesStand N.digest_of self.old.session.state pool.old table.old }
        ensures keeps { Keeps N.digest_of pool.old table.old pool.new table.new }
        ensures held { OnOk result (FilesStand N.digest_of self.new.session.state pool.new table.new) }
        ensures feeds { let before = held_with self.old pool.old table.old refs.old out.old.items in
            IsSound N.digest_of before.running.workspace → Feeds N.digest_of before piece.now result
            (held_with self.new pool.new table.new refs.new out.new.items) }
        ensures sound { let now = stream_in self.old pool.old table.old refs.old in
            IsSound N.digest_of now.workspace → LeavesSound N.digest_of result
            (stream_in self.new pool.new table.new refs.new).workspace }
    {
        if self.is_done() {
            return Ok(());
        }
        if let Err(fault) = self.lexer.feed(piece) {
            return Err(unfed(fault));
        }
        carry(&mut self.lexer, &mut self.session, pool, table, refs, out)
    }

    /// Ends the stream, which is a checkpoint unless `done` was read before. What it prints is
    /// appended to `out`.
    ///
    /// `StreamError::Fault`: a line or a data is cut off (6), a part of a command (5) or `done` (7)
    /// is missing, the open commit cannot be stored (24, 25), or there would be too many refs (25).
    /// `StreamError::Memory(0)` (90): memory ran out. In both cases `out` is unchanged. In every
    /// case the table has the objects of the last checkpoint, and all of them are committed.
    pub fn finish<N: Naming>(
        self,
        pool: &mut Pool<N>,
        table: &mut Table,
        refs: &mut Refs,
        out: &mut Vec<u8>,
    ) -> Result<(), StreamError>
        requires stands { IsBackedBy N.digest_of pool.old table.old.entries }
        requires room { HasAmpleHoldsLeft pool.old }
        requires held { FilesStand N.digest_of self.session.state pool.old table.old }
        ensures keeps { Keeps N.digest_of pool.old table.old pool.new table.new }
        ensures ended { let before = held_with self pool.old table.old refs.old out.old.items in
            IsSound N.digest_of before.running.workspace → EndsAs N.digest_of before result
            (repository_in pool.new table.new refs.new) out.new.items }
        ensures sound { let now = stream_in self pool.old table.old refs.old in
            IsSound N.digest_of now.workspace
            → IsSoundRepository N.digest_of (repository_in pool.new table.new refs.new) }
        ensures printed { OnErr result (out.new.items ≡ out.old.items) }
        ensures committed { IsCommitted table.new }
    {
        let mut stream = self;
        let ended = end(&stream.lexer, &mut stream.session, pool, table, refs, out);
        stream.abandon(pool, table, refs);
        ended
    }

    /// Gives the stream up: rolls its table back to the last checkpoint. The refs stay as they are.
    /// Takes no memory.
    pub fn abandon<N: Naming>(self, pool: &mut Pool<N>, table: &mut Table, refs: &mut Refs)
        requires stands { IsBackedBy N.digest_of pool.old table.old.entries }
        ensures keeps { Keeps N.digest_of pool.old table.old pool.new table.new }
        ensures refs { refs.new ≡ refs.old }
        ensures left { repository_in pool.new table.new refs.new
            ≡ last_in pool.old table.old refs.old }
        ensures committed { IsCommitted table.new }
    {
        let Stream { session, .. } = self;
        let _within = table.committed_len();
        session.abandon(pool, table, refs);
    }
}
