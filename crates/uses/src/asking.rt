//! Several queries of one tenant, asked in one run.

ghost use Rattle.std.specs.Prelude.{◌≡◌, length, IfOk};

use git_names::{Memory, Naming};
use std::alloc::Global;
use tenant_service::{Reply, Service, Step};

/// The replies to the queries of `tenant`, in their order. Each is answered of the repository at
/// its last checkpoint. `Memory` (90) where there is no room for the steps or for a reply.
pub fn ask_all<N: Naming>(
    alloc: Global,
    service: &mut Service<N>,
    tenant: &[u8],
    queries: &[&[u8]],
) -> Result<Vec<Reply>, Memory>
    ensures { IfOk result (λ replies. length replies.items ≡ length queries.now) }
{
    let mut steps = Vec::new(alloc);
    for query in queries {
        steps.push(Step::Ask { tenant, query })?;
    }
    let mut replies = Vec::new(alloc);
    service.run(&steps, &mut replies)?;
    Ok(replies)
}
