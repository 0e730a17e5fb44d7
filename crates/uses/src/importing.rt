//! A stream of git-fast-import(1), imported for one tenant of a service.

ghost use Rattle.std.specs.{Prelude.{◌≡◌, ℕ, List, false}, Str.{bytes_eq}};
ghost use Rattle.tenant_service.specs.TenantState.{held_of};

use gitpool::{Answer, Naming, Service, Step};

/// Opens a stream of `tenant`, feeds it `bytes`, and ends it. What the stream prints is appended to
/// `out`. The answer is the first of the three that is not Ok, else Ok. Every other tenant has what
/// it had.
pub fn import<N: Naming>(
    service: &mut Service<N>,
    tenant: &[u8],
    bytes: &[u8],
    out: &mut Vec<u8>,
) -> Answer
    ensures others { (other : List ℕ) → bytes_eq other tenant.now ≡ false
        → held_of other service.new ≡ held_of other service.old }
{
    let opened = service.step(Step::Open { tenant }, out);
    if opened != Answer::Ok {
        return opened;
    }
    let fed = service.step(Step::Feed { tenant, bytes }, out);
    let ended = service.step(Step::End { tenant }, out);
    if fed == Answer::Ok { ended } else { fed }
}
