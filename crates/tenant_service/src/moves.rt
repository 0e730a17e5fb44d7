//! Moves of a tenant from one service to another, by its file: what they leave, which follows from
//! the contracts of `extract`, `load` and `merge`.

ghost use Rattle.std.specs.Prelude.{◌≡◌, ℕ, List};
ghost use Rattle.pool_file_checks.specs.Repositories.{file_text};
ghost use Rattle.tenant_service.specs.{Extracting.{only}, Merging.{HasMoved, merged}};
ghost use Rattle.tenant_service.specs.Saved.{IsLoadedFrom, saved_of};
ghost use Rattle.tenant_service.specs.TenantState.{Idle, TenantStates, empty_repository, held_of};

use crate::service::Service;
use pool_file_format::StreamingDigest;

impl<N: StreamingDigest> Service<N> {
    /// A tenant is moved: it is extracted from this service, a service is loaded from its file, and
    /// that one is merged into another, which had nothing of the tenant. In the other service,
    /// `after`, the tenant then has what its last checkpoint has here, and every other tenant has
    /// what it had. Extracted there, it gives the same bytes. This is a fact for proofs: a call
    /// does nothing.
    pub fn moves_to(&self, tenant: &[u8], after: &Service<N>)
        ensures { (loaded before : TenantStates)
            → IsLoadedFrom N.digest_of (file_text N.digest_of (saved_of (only tenant.now self.now)))
            loaded → held_of tenant.now before ≡ Idle empty_repository
            → ((other : List ℕ) → held_of other after.now ≡ merged other loaded before)
            → HasMoved N.digest_of tenant.now self.now before after.now }
    {
        self.extracted_comes_back(tenant);
        self.has_distinct_names();
        after.has_distinct_names();
    }
}
