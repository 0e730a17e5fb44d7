//! Steps of tenants and calls of the operator in turn, each with its answer and what is held after
//! it.

use super::told::code_of;
use gitpool::{Answer, Naming, Service, Step};
use std::alloc::Global;

type Bytes = &'static [u8];

/// A step of a tenant, or a call of the operator. Beside the tenant stands a piece, a query, or the
/// tenant that receives a copy.
#[derive(Clone, Copy)]
pub enum Do {
    Open(Bytes),
    Feed(Bytes, Bytes),
    End(Bytes),
    Ask(Bytes, Bytes),
    Restart,
    Copy(Bytes, Bytes),
    Abandon(Bytes),
    Remove(Bytes),
    Compact(Bytes),
}

/// What is told: nothing, these bytes, or the number of a fault.
#[derive(Clone, Copy)]
pub enum Told {
    Done,
    Prints(Bytes),
    Refused(u16),
}

/// What a row does, and what is told. The number of contents held afterwards, the sum of their sizes
/// in bytes, and the number of tenants that have an object at their last checkpoint.
pub type Row = (Do, Told, (u64, u64, u64));

fn answer_of<N: Naming>(service: &mut Service<N>, what: Do, out: &mut Vec<u8>) -> Answer {
    match what {
        Do::Open(tenant) => service.step(Step::Open { tenant }, out),
        Do::Feed(tenant, bytes) => service.step(Step::Feed { tenant, bytes }, out),
        Do::End(tenant) => service.step(Step::End { tenant }, out),
        Do::Ask(tenant, query) => service.step(Step::Ask { tenant, query }, out),
        Do::Restart => service.step(Step::Restart, out),
        Do::Copy(tenant, other) => service.copy_tenant(tenant, other),
        Do::Abandon(tenant) => service.abandon(tenant),
        Do::Remove(tenant) => service.remove_tenant(tenant),
        Do::Compact(tenant) => service.compact_tenant(tenant),
    }
}

fn is_told(told: Told, code: u16, printed: &[u8]) -> bool {
    match told {
        Told::Done => code == 0 && printed.is_empty(),
        Told::Prints(text) => code == 0 && printed == text,
        Told::Refused(number) => code == number && printed.is_empty(),
    }
}

fn held_by<N: Naming>(service: &Service<N>) -> (u64, u64, u64) {
    let (number, size) = service.stored();
    (number, size, service.tenants())
}

/// Whether the row gets its answer, and what it says is held afterwards.
pub fn goes<N: Naming>(alloc: Global, service: &mut Service<N>, row: &Row) -> bool {
    let mut out = Vec::new(alloc);
    let answer = answer_of(service, row.0, &mut out);
    is_told(row.1, code_of(answer), &out) && held_by(service) == row.2
}

// The place of the first row that goes differently.
fn first_of<N: Naming>(alloc: Global, service: &mut Service<N>, rows: &[Row]) -> Option<usize> {
    for (place, row) in rows.iter().enumerate() {
        if !goes(alloc, service, row) {
            return Some(place);
        }
    }
    None
}

/// The place of the first row that goes differently, over a new service.
pub fn first_otherwise<N: Naming>(alloc: Global, naming: N, rows: &[Row]) -> Option<usize> {
    let mut service = Service::new(alloc, naming);
    let place = first_of(alloc, &mut service, rows);
    drop(service);
    place
}
