//! What a step is told, for tests. A lack of memory gets the number 90, which no test expects.

use gitpool::{Answer, Naming, Service, Step};
use std::alloc::Global;

/// The number that refuses a step, or 0 if none does.
pub fn code_of(answer: Answer) -> u16 {
    match answer {
        Answer::Ok => 0,
        Answer::Fault(code) => code,
        Answer::Memory(_) => 90,
    }
}

/// Whether a step is answered under this number, with these bytes as its reply.
pub fn tells<N: Naming>(
    alloc: Global,
    service: &mut Service<N>,
    step: Step<'_>,
    code: u16,
    printed: &[u8],
) -> bool {
    let mut out = Vec::new(alloc);
    let answer = service.step(step, &mut out);
    code_of(answer) == code && out.as_slice() == printed
}

/// The same for a Feed of this tenant.
pub fn feeds<N: Naming>(
    alloc: Global,
    service: &mut Service<N>,
    tenant: &[u8],
    bytes: &[u8],
    code: u16,
    printed: &[u8],
) -> bool {
    tells(alloc, service, Step::Feed { tenant, bytes }, code, printed)
}

/// The same for a query of this tenant that is not refused.
pub fn asks<N: Naming>(
    alloc: Global,
    service: &mut Service<N>,
    tenant: &[u8],
    query: &[u8],
    printed: &[u8],
) -> bool {
    tells(alloc, service, Step::Ask { tenant, query }, 0, printed)
}

/// Whether a whole stream of a tenant is accepted, and prints nothing.
pub fn takes<N: Naming>(
    alloc: Global,
    service: &mut Service<N>,
    tenant: &[u8],
    bytes: &[u8],
) -> bool {
    tells(alloc, service, Step::Open { tenant }, 0, b"")
        && feeds(alloc, service, tenant, bytes, 0, b"")
        && tells(alloc, service, Step::End { tenant }, 0, b"")
}
