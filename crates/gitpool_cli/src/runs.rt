//! What each subcommand does: it loads a service, uses it, and saves it if it may have changed.
//!
//! One function owns the service of a run, and lends it to the functions of the subcommand.

use crate::hosting::run_hosted;
use crate::moves::{extract, merge};
use crate::pools::{Missing, is_current, load, save};
use crate::run_fault::RunFault;
use gitpool::{Answer, Counted, Line, Service, Sha1Naming};
use lock_files::LockFile;
use std::io::BufReader;
use std::mem::forget;

/// Carries out one stream from standard input over an empty repository, which is not kept.
pub fn run_alone(rt: &HostRuntime) -> Result<(), RunFault> {
    let mut reader = Counted::new(rt.stdin());
    let mut writer = Counted::new(rt.stdout());
    let (service, outcome) = gitpool::import_new(rt.alloc(), Sha1Naming, &mut reader, &mut writer);
    leave(service);
    Ok(outcome?)
}

/// Carries out a command line. If several calls are refused, the first fault is answered;
/// `RunFault` has the numbers.
pub fn run(rt: &HostRuntime, line: Line<'_>) -> Result<(), RunFault> {
    match line {
        Line::Serve { pool } => run_to_save(rt, line, pool, Missing::Empty),
        Line::Import { pool, .. } => run_to_save(rt, line, pool, Missing::Empty),
        Line::Ask { pool, .. } => run_to_read(rt, line, pool),
        Line::Check { pool } => run_to_read(rt, line, pool),
        Line::Copy { pool, .. } => run_to_save(rt, line, pool, Missing::Refused),
        Line::Remove { pool, .. } => run_to_save(rt, line, pool, Missing::Refused),
        Line::Compact { pool, .. } => run_to_save(rt, line, pool, Missing::Refused),
        Line::Merge { pool, .. } => run_to_save(rt, line, pool, Missing::Refused),
        Line::Sizes { pool } => run_to_read(rt, line, pool),
        Line::Extract { pool, .. } => run_to_read(rt, line, pool),
        Line::Host { pool } => run_hosted(rt, pool),
        Line::Pack { pool, .. } => run_to_read(rt, line, pool),
    }
}

// A run that leaves the pool file as it is.
fn run_to_read(rt: &HostRuntime, line: Line<'_>, pool: &str) -> Result<(), RunFault> {
    let mut service = load(rt, pool, Missing::Refused)?;
    let outcome = carry_out_call(rt, &mut service, line);
    leave(service);
    outcome
}

// The run ends here. What the service holds goes with the process, which is faster than a drop.
fn leave(service: Service<Sha1Naming>) {
    forget(service);
}

// A run that saves. If another one works on the pool file, this one is refused (68). If the pool
// file is refused, the new file is removed.
fn run_to_save(
    rt: &HostRuntime,
    line: Line<'_>,
    pool: &str,
    missing: Missing,
) -> Result<(), RunFault> {
    let new = LockFile::take(rt, pool)?;
    match load(rt, new.locked_path(), missing) {
        Ok(service) => carry_out_and_save(rt, service, line, &new),
        Err(fault) => {
            new.remove(rt);
            Err(fault)
        }
    }
}

// The service is saved even after frames, a stream or a call for a tenant were refused. Where frames
// of Asks alone came, the pool file has what a save would write, unless it is of an older version.
fn carry_out_and_save(
    rt: &HostRuntime,
    mut service: Service<Sha1Naming>,
    line: Line<'_>,
    new: &LockFile,
) -> Result<(), RunFault> {
    let mut is_changed = !is_current(rt, new.locked_path());
    let outcome = carry_out(rt, &mut service, line, &mut is_changed);
    let saved = save_if(rt, &service, new, is_changed);
    leave(service);
    outcome.and(saved)
}

fn save_if(
    rt: &HostRuntime,
    service: &Service<Sha1Naming>,
    new: &LockFile,
    is_changed: bool,
) -> Result<(), RunFault> {
    if is_changed {
        return save(rt, service, new);
    }
    new.remove(rt);
    Ok(())
}

// `is_changed` is set unless only Asks came as frames.
fn carry_out(
    rt: &HostRuntime,
    service: &mut Service<Sha1Naming>,
    line: Line<'_>,
    is_changed: &mut bool,
) -> Result<(), RunFault> {
    if let Line::Serve { .. } = line {
        return serve(rt, service, is_changed);
    }
    *is_changed = true;
    carry_out_call(rt, service, line)
}

fn carry_out_call(
    rt: &HostRuntime,
    service: &mut Service<Sha1Naming>,
    line: Line<'_>,
) -> Result<(), RunFault> {
    match line {
        Line::Import { tenant, .. } => import(rt, service, tenant.as_bytes()),
        Line::Ask { tenant, query, .. } => ask(rt, service, tenant.as_bytes(), query.as_bytes()),
        Line::Check { .. } => check(rt, service),
        Line::Copy { from, to, .. } => {
            answered(service.copy_tenant(from.as_bytes(), to.as_bytes()))
        }
        Line::Remove { tenant, .. } => answered(service.remove_tenant(tenant.as_bytes())),
        Line::Compact { tenant, .. } => answered(service.compact_tenant(tenant.as_bytes())),
        Line::Sizes { .. } => sizes(rt, service),
        Line::Extract { tenant, file, pool } => extract(rt, service, tenant, file, pool),
        Line::Merge { file, .. } => answered(merge(rt, service, file)?),
        Line::Pack { tenant, all, .. } => pack(rt, service, tenant.as_bytes(), all),
        // `carry_out` and `run_hosted` carry these out.
        Line::Serve { .. } | Line::Host { .. } => Ok(()),
    }
}

// Answers frames of steps, up to the end of the input.
fn serve(
    rt: &HostRuntime,
    service: &mut Service<Sha1Naming>,
    is_changed: &mut bool,
) -> Result<(), RunFault> {
    let mut reader = Counted::new(BufReader::new(rt.alloc(), rt.stdin())?);
    let mut writer = Counted::new(rt.stdout());
    Ok(gitpool::serve_noting(rt.alloc(), service, &mut reader, &mut writer, is_changed)?)
}

// Imports one stream.
fn import(
    rt: &HostRuntime,
    service: &mut Service<Sha1Naming>,
    tenant: &[u8],
) -> Result<(), RunFault> {
    let mut reader = Counted::new(rt.stdin());
    let mut writer = Counted::new(rt.stdout());
    Ok(gitpool::import(rt.alloc(), service, tenant, &mut reader, &mut writer)?)
}

// Asks one query.
fn ask(
    rt: &HostRuntime,
    service: &mut Service<Sha1Naming>,
    tenant: &[u8],
    query: &[u8],
) -> Result<(), RunFault> {
    let mut writer = Counted::new(rt.stdout());
    Ok(gitpool::ask(rt.alloc(), service, tenant, query, &mut writer)?)
}

// Prints how much is stored.
fn check(rt: &HostRuntime, service: &Service<Sha1Naming>) -> Result<(), RunFault> {
    let mut writer = Counted::new(rt.stdout());
    Ok(gitpool::check(rt.alloc(), service, &mut writer)?)
}

// Prints what each tenant has.
fn sizes(rt: &HostRuntime, service: &Service<Sha1Naming>) -> Result<(), RunFault> {
    let mut writer = Counted::new(rt.stdout());
    Ok(gitpool::sizes(rt.alloc(), service, &mut writer)?)
}

// Writes the pack that standard input asks for.
fn pack(
    rt: &HostRuntime,
    service: &Service<Sha1Naming>,
    tenant: &[u8],
    all: bool,
) -> Result<(), RunFault> {
    let mut reader = Counted::new(rt.stdin());
    let mut writer = Counted::new(rt.stdout());
    Ok(gitpool::pack(rt.alloc(), service, tenant, all, &mut reader, &mut writer)?)
}

// What the answer to a call for one tenant makes of the run.
fn answered(answer: Answer) -> Result<(), RunFault> {
    match answer {
        Answer::Ok => Ok(()),
        Answer::Fault(code) => Err(RunFault::Step(code)),
        Answer::Memory(_) => Err(RunFault::Memory),
    }
}
