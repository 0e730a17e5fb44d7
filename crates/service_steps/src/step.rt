//! The steps of a service.

/// A request to a service: a step of one tenant, or a restart.
#[derive(Clone, Copy, Debug, PartialEq, Eq)]
pub enum Step<'a> {
    /// Open a stream of this tenant.
    Open {
        /// The tenant's name.
        tenant: &'a [u8],
    },
    /// Feed the next bytes of the tenant's stream, which may be cut anywhere.
    Feed {
        /// The tenant's name.
        tenant: &'a [u8],
        /// The bytes.
        bytes: &'a [u8],
    },
    /// End the tenant's stream.
    End {
        /// The tenant's name.
        tenant: &'a [u8],
    },
    /// Ask a query over the tenant's repository at its last checkpoint.
    Ask {
        /// The tenant's name.
        tenant: &'a [u8],
        /// The query.
        query: &'a [u8],
    },
    /// Close every open stream, of all tenants, and go back to their last checkpoints.
    Restart,
}
