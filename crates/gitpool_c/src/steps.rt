//! The steps of a tenant.

ghost use Rattle.std.specs.Prelude.{◌≡◌, IsSome};
ghost use Rattle.sha1.specs.Sha1.{sha1};
ghost use Rattle.tenant_service.specs.Headline.{told_by_reply};
ghost use Rattle.gitpool_c.specs.Steps.{HasStepped, Steps};
ghost use Rattle.service_steps.specs.declared.step.Step.TheVariants as variant;

use crate::handle::{Handle, put, taken};
use crate::kept::Kept;
use crate::numbers::number_of;
use std::alloc::Global;
use tenant_service::{Answer, Step};

// Takes a step, whose reply replaces the one that was told.
fn step(kept: &mut Kept, step: Step<'_>, told: &mut Kept) -> Answer
    ensures taken { HasStepped sha1 step.entry kept.old.service (told_by_reply told.new.reply)
        kept.new.service }
    ensures answer { result ≡ told.new.reply.answer }
{
    told.reply.bytes.clear();
    let answer = kept.service.step(step, &mut told.reply.bytes);
    told.reply.answer = answer;
    answer
}

// Takes a step of the service in a handle, whose reply goes to another one.
fn stepped(alloc: Global, service: &mut Handle, one: Step<'_>, reply: &mut Handle) -> u32
    requires service { IsSome service.old.kept }
    requires reply { IsSome reply.old.kept }
    ensures { Steps sha1 one.entry service.old.kept result reply.new.kept service.new.kept }
{
    let mut kept = taken(alloc, service);
    let mut told = taken(alloc, reply);
    let answer = step(&mut kept, one, &mut told);
    put(service, kept);
    put(reply, told);
    number_of(answer)
}

/// Opens a stream.
#[unsafe(no_mangle)]
pub extern "C" fn gitpool_open(
    alloc: Global,
    service: &mut Handle,
    tenant: &[u8],
    reply: &mut Handle,
) -> u32
    requires service { IsSome service.old.kept }
    requires reply { IsSome reply.old.kept }
    ensures { Steps sha1 (variant.Open tenant.entry) service.old.kept result reply.new.kept
        service.new.kept }
{
    stepped(alloc, service, Step::Open { tenant }, reply)
}

/// Feeds the next bytes of a stream.
#[unsafe(no_mangle)]
pub extern "C" fn gitpool_feed(
    alloc: Global,
    service: &mut Handle,
    tenant: &[u8],
    bytes: &[u8],
    reply: &mut Handle,
) -> u32
    requires service { IsSome service.old.kept }
    requires reply { IsSome reply.old.kept }
    ensures { Steps sha1 (variant.Feed tenant.entry bytes.entry) service.old.kept result
        reply.new.kept service.new.kept }
{
    stepped(alloc, service, Step::Feed { tenant, bytes }, reply)
}

/// Ends a stream.
#[unsafe(no_mangle)]
pub extern "C" fn gitpool_end(
    alloc: Global,
    service: &mut Handle,
    tenant: &[u8],
    reply: &mut Handle,
) -> u32
    requires service { IsSome service.old.kept }
    requires reply { IsSome reply.old.kept }
    ensures { Steps sha1 (variant.End tenant.entry) service.old.kept result reply.new.kept
        service.new.kept }
{
    stepped(alloc, service, Step::End { tenant }, reply)
}

/// Answers a query.
#[unsafe(no_mangle)]
pub extern "C" fn gitpool_ask(
    alloc: Global,
    service: &mut Handle,
    tenant: &[u8],
    query: &[u8],
    reply: &mut Handle,
) -> u32
    requires service { IsSome service.old.kept }
    requires reply { IsSome reply.old.kept }
    ensures { Steps sha1 (variant.Ask tenant.entry query.entry) service.old.kept result
        reply.new.kept service.new.kept }
{
    stepped(alloc, service, Step::Ask { tenant, query }, reply)
}

/// Closes all streams, and goes back to the last checkpoints.
#[unsafe(no_mangle)]
pub extern "C" fn gitpool_restart(alloc: Global, service: &mut Handle, reply: &mut Handle) -> u32
    requires service { IsSome service.old.kept }
    requires reply { IsSome reply.old.kept }
    ensures { Steps sha1 variant.Restart service.old.kept result reply.new.kept service.new.kept }
{
    stepped(alloc, service, Step::Restart, reply)
}
