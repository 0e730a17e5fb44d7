//! What a service keeps of one tenant, and what each call does to it.
//!
//! The pool is lent, and holds other tenants' contents too. A call uses only the tenant's own
//! table, and leaves the holds of all other tenants as they are.

ghost use Rattle.std.specs.Prelude.{◌≡◌, ℕ, List, length, [], is_some};
ghost use Rattle.tenant_tables.specs.IsBackedBy.{IsBackedBy, PreservesOthers};
ghost use Rattle.content_pool.specs.Pool.{Cells};
ghost use Rattle.import_session.specs.Session.{repository_in};
ghost use Rattle.tenant_service.specs.{Alone.{Open, Feed, End, Ask}, Headline.{stop_told}};
ghost use Rattle.tenant_service.specs.{TenantState.{Idle, empty_repository}, HeldSteps.{step_held}};
ghost use Rattle.tenant_service.specs.{Soundness.{IsSoundTenantState}, Opening.{dead_under}};
ghost use Rattle.tenant_service.specs.HeldObjects.{has_read_done, last_held};
ghost use Rattle.tenant_service.specs.Tenants.{holding_in, Stands, IsSettled};
ghost use Rattle.tenant_service.specs.OneStep.{Takes, refusal_told};
ghost use Rattle.tenant_service.specs.Removing.{answer_unless, with_stream, without_stream};
ghost use Rattle.tenant_stream.specs.Carrying.{HasAmpleHoldsLeft};

use crate::opened::{Opened, opened_on};
use answers::{Fault, answer_along};
use content_pool::Pool;
use git_objects::Naming;
use revisions::FirstParentCache;
use service_steps::{Answer, ServiceFault};
use std::alloc::Global;
use std::mem;
use tenant_refs::Refs;
use tenant_stream::{Stream, StreamError};
use tenant_tables::Table;

// The number of a stream that is dead because memory ran out.
const OUT_OF_MEMORY: u16 = 90;

/// The phase of a tenant's stream.
#[derive(Drop)]
pub enum OpenStream {
    /// There is no stream.
    Closed,
    /// The stream runs. It was opened on this.
    Running(Opened, Stream),
    /// The stream is dead: it was refused under this number, or memory ran out (90).
    Dead(Opened, u16),
}

/// A tenant: its objects, its refs, its stream, and the first parents that the last query met.
#[derive(Drop)]
pub struct Tenant {
    pub table: Table,
    pub refs: Refs,
    pub phase: OpenStream,
    pub chain: FirstParentCache,
}

/// A tenant without objects, refs and a stream. Takes no memory.
pub fn new_tenant(alloc: Global) -> Tenant
    ensures entries { result.table.entries ≡ [] }
    ensures held { (pool : Cells) → holding_in pool result ≡ Idle empty_repository }
    ensures stands { (digest : List ℕ → List ℕ) (pool : Cells) → Stands digest pool result }
{
    Tenant {
        table: Table::new(alloc),
        refs: Refs::new(alloc),
        phase: OpenStream::Closed,
        chain: FirstParentCache::new(alloc),
    }
}

// Sets the phase of a stream, and drops the old one. This is a function of its own so that the drop
// has a proof of its own.
fn set_phase(kept: &mut OpenStream, phase: OpenStream)
    ensures { kept.new ≡ phase }
{
    drop(mem::replace(kept, phase));
}

// The phase after the stream died under this number. Drops a stream that ran.
fn dead_under(phase: OpenStream, code: u16) -> OpenStream
    ensures { result ≡ dead_under code phase }
{
    match phase {
        OpenStream::Closed => OpenStream::Closed,
        OpenStream::Running(opened, stream) => {
            drop(stream);
            OpenStream::Dead(opened, code)
        }
        OpenStream::Dead(opened, before) => OpenStream::Dead(opened, before),
    }
}

// Lets the stream be dead under this number. What it was opened on stays.
fn kill(kept: &mut OpenStream, code: u16)
    ensures { kept.new ≡ dead_under code kept.old }
{
    let before = mem::replace(kept, OpenStream::Closed);
    set_phase(kept, dead_under(before, code));
}

/// Opens a stream, and keeps what the tenant has, for a save as it was at this Open. 31 if there is
/// a stream, and `Memory(0)` if there is no room for a copy of the refs; then nothing has changed.
pub fn open<N: Naming>(alloc: Global, pool: &Pool<N>, tenant: &mut Tenant) -> Answer
    requires stands { Stands N.digest_of pool.now tenant.old }
    ensures stands { Stands N.digest_of pool.now tenant.new }
    ensures table { tenant.new.table ≡ tenant.old.table }
    ensures own { Takes
        (step_held N.digest_of Open (stop_told result) (holding_in pool.now tenant.old)) result
        [] [] (holding_in pool.now tenant.new) }
{
    match &tenant.phase {
        OpenStream::Closed => match opened_on(&tenant.table, &tenant.refs) {
            Ok(opened) => {
                let stream = Stream::new(alloc);
                set_phase(&mut tenant.phase, OpenStream::Running(opened, stream));
                Answer::Ok
            }
            Err(_) => Answer::Memory(0),
        },
        _ => ServiceFault::StreamIsOpen.answer(),
    }
}

// Rolls the tenant back to its last checkpoint. Its phase stays. Takes no memory.
fn go_back<N: Naming>(pool: &mut Pool<N>, tenant: &mut Tenant)
    requires stands { IsBackedBy N.digest_of pool.old tenant.old.table.entries }
    requires settled { IsSettled tenant.old.phase tenant.old.table }
    ensures phase { tenant.new.phase ≡ tenant.old.phase }
    ensures chain { tenant.new.chain ≡ [] }
    ensures stands { IsBackedBy N.digest_of pool.new tenant.new.table.entries }
    ensures others { PreservesOthers pool.old tenant.old.table.entries
        pool.new tenant.new.table.entries }
    ensures settled { tenant.new.table.committed ≡ length tenant.new.table.entries }
    ensures left { repository_in pool.new tenant.new.table tenant.new.refs
        ≡ last_held (holding_in pool.old tenant.old) }
{
    let _within = tenant.table.committed_len();
    tenant.table.roll_back(pool);
    tenant.chain.clear();
}

/// Feeds the next bytes to the stream, and appends what they print to `out`.
///
/// 30 if there is no stream. A dead stream answers its number again. A fault of the bytes, or
/// `Memory`, leaves the last checkpoint and a dead stream.
pub fn feed<N: Naming>(
    pool: &mut Pool<N>,
    tenant: &mut Tenant,
    piece: &[u8],
    out: &mut Vec<u8>,
) -> Answer
    requires stands { Stands N.digest_of pool.old tenant.old }
    requires room { HasAmpleHoldsLeft pool.old }
    requires sound { IsSoundTenantState N.digest_of (holding_in pool.old tenant.old) }
    ensures stands { Stands N.digest_of pool.new tenant.new }
    ensures others { PreservesOthers pool.old tenant.old.table.entries
        pool.new tenant.new.table.entries }
    ensures own { Takes
        (step_held N.digest_of (Feed piece.now) (stop_told result) (holding_in pool.old tenant.old))
        result out.old.items out.new.items (holding_in pool.new tenant.new) }
{
    let fed = match &mut tenant.phase {
        OpenStream::Closed => return ServiceFault::NoStream.answer(),
        OpenStream::Dead(_, code) => return Answer::Fault(*code),
        OpenStream::Running(_, stream) => {
            let _within = tenant.table.committed_len();
            tenant.chain.clear();
            stream.feed(pool, &mut tenant.table, &mut tenant.refs, piece, out)
        }
    };
    match fed {
        Ok(()) => Answer::Ok,
        Err(StreamError::Fault(code)) => {
            go_back(pool, tenant);
            kill(&mut tenant.phase, code);
            Answer::Fault(code)
        }
        Err(StreamError::Memory(items)) => {
            go_back(pool, tenant);
            kill(&mut tenant.phase, OUT_OF_MEMORY);
            Answer::Memory(items)
        }
    }
}

/// Whether the tenant has a running stream that has read `done`. Takes no memory.
pub fn has_read_done(tenant: &Tenant) -> bool
    ensures { (pool : Cells) → result ≡ has_read_done (holding_in pool tenant.now) }
{
    match &tenant.phase {
        OpenStream::Running(_, stream) => stream.is_done(),
        _ => false,
    }
}

/// Ends the stream, and appends the reply of its end to `out`. 30 if there is no stream.
///
/// A fault of the end, and `Memory(0)` if memory ran out, leave the last checkpoint and no stream.
pub fn end<N: Naming>(pool: &mut Pool<N>, tenant: &mut Tenant, out: &mut Vec<u8>) -> Answer
    requires stands { Stands N.digest_of pool.old tenant.old }
    requires room { HasAmpleHoldsLeft pool.old }
    requires sound { IsSoundTenantState N.digest_of (holding_in pool.old tenant.old) }
    ensures stands { Stands N.digest_of pool.new tenant.new }
    ensures others { PreservesOthers pool.old tenant.old.table.entries
        pool.new tenant.new.table.entries }
    ensures own { Takes
        (step_held N.digest_of End (stop_told result) (holding_in pool.old tenant.old)) result
        out.old.items out.new.items (holding_in pool.new tenant.new) }
{
    match mem::replace(&mut tenant.phase, OpenStream::Closed) {
        OpenStream::Closed => ServiceFault::NoStream.answer(),
        OpenStream::Dead(opened, code) => {
            drop(opened);
            Answer::Fault(code)
        }
        OpenStream::Running(opened, stream) => {
            drop(opened);
            tenant.chain.clear();
            match stream.finish(pool, &mut tenant.table, &mut tenant.refs, out) {
                Ok(()) => Answer::Ok,
                Err(StreamError::Fault(code)) => Answer::Fault(code),
                Err(StreamError::Memory(items)) => Answer::Memory(items),
            }
        }
    }
}

// The answer to a query that is refused.
fn refusal_told(refusal: Fault) -> Answer
    ensures { result ≡ refusal_told refusal }
{
    match refusal {
        Fault::Memory => Answer::Memory(0),
        _ => Answer::Fault(refusal.code()),
    }
}

/// Answers a query on the repository at the last checkpoint, and appends the answer to `out`. Crate
/// answers has the queries, and the numbers under which they are refused. What a running stream has
/// not saved is not seen.
///
/// `Memory(0)` if memory ran out. If the query is refused, `out` is unchanged. Nothing of the
/// tenant changes except the first parents, which the next query need not read again.
pub fn ask<N: Naming>(
    alloc: Global,
    pool: &Pool<N>,
    tenant: &mut Tenant,
    query: &[u8],
    out: &mut Vec<u8>,
) -> Answer
    requires stands { Stands N.digest_of pool.now tenant.old }
    requires sound { IsSoundTenantState N.digest_of (holding_in pool.now tenant.old) }
    ensures stands { Stands N.digest_of pool.now tenant.new }
    ensures table { tenant.new.table ≡ tenant.old.table }
    ensures held { holding_in pool.now tenant.new ≡ holding_in pool.now tenant.old }
    ensures own { let held = holding_in pool.now tenant.old in
        Takes (step_held N.digest_of (Ask query.now) (stop_told result) held) result
        out.old.items out.new.items held }
{
    let Tenant {
        table,
        refs,
        chain,
        ..
    } = tenant;
    match answer_along(alloc, pool, table, refs, chain, query, out) {
        Ok(()) => Answer::Ok,
        Err(refusal) => refusal_told(refusal),
    }
}

/// Answers a query of a tenant that was never seen, as `ask` does: its repository is empty.
pub fn ask_nobody<N: Naming>(
    alloc: Global,
    pool: &Pool<N>,
    query: &[u8],
    out: &mut Vec<u8>,
) -> Answer
    ensures { Takes
        (step_held N.digest_of (Ask query.now) (stop_told result) (Idle empty_repository)) result
        out.old.items out.new.items (Idle empty_repository) }
{
    let mut nobody = new_tenant(alloc);
    let answer = ask(alloc, pool, &mut nobody, query, out);
    drop(nobody);
    answer
}

/// Closes the stream, if there is one, and goes back to the last checkpoint. Takes no memory.
pub fn restart<N: Naming>(pool: &mut Pool<N>, tenant: &mut Tenant)
    requires stands { Stands N.digest_of pool.old tenant.old }
    ensures stands { Stands N.digest_of pool.new tenant.new }
    ensures others { PreservesOthers pool.old tenant.old.table.entries
        pool.new tenant.new.table.entries }
    ensures own { holding_in pool.new tenant.new
        ≡ Idle (last_held (holding_in pool.old tenant.old)) }
{
    go_back(pool, tenant);
    set_phase(&mut tenant.phase, OpenStream::Closed);
}

/// Gives up the stream, running or dead: what is left is the last checkpoint, and no stream. 30 if
/// there is none; then nothing has changed. Takes no memory.
pub fn abandon<N: Naming>(pool: &mut Pool<N>, tenant: &mut Tenant) -> Answer
    requires stands { Stands N.digest_of pool.old tenant.old }
    ensures stands { Stands N.digest_of pool.new tenant.new }
    ensures others { PreservesOthers pool.old tenant.old.table.entries
        pool.new tenant.new.table.entries }
    ensures answer { result ≡ answer_unless (without_stream (holding_in pool.old tenant.old)) }
    ensures own { holding_in pool.new tenant.new
        ≡ Idle (last_held (holding_in pool.old tenant.old)) }
{
    match &tenant.phase {
        OpenStream::Closed => ServiceFault::NoStream.answer(),
        _ => {
            restart(pool, tenant);
            Answer::Ok
        }
    }
}

/// Whether there is a stream, running or dead.
pub fn has_stream(tenant: &Tenant) -> bool
    ensures { (pool : Cells) → result ≡ is_some (with_stream (holding_in pool tenant.now)) }
{
    !matches!(&tenant.phase, OpenStream::Closed)
}

/// Releases the contents of a tenant that is removed, and drops it. Takes no memory.
pub fn release<N: Naming>(pool: &mut Pool<N>, tenant: Tenant)
    requires { IsBackedBy N.digest_of pool.old tenant.table.entries }
    ensures { PreservesOthers pool.old tenant.table.entries pool.new [] }
{
    tenant.table.release(pool);
}
