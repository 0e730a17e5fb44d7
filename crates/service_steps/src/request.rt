//! What a host is sent: a step, a request of the operator, or a question for a pack.

use crate::step::Step;

/// Which repository of a tenant with a stream a pool file gets.
#[derive(Clone, Copy, Debug, PartialEq, Eq)]
pub enum SavedAs {
    /// What it has at its last checkpoint, which its stream may have made.
    LastCheckpoint,
    /// What it had when its stream was opened.
    Opened,
}

/// A step, a request of the operator, or a question for a pack.
#[derive(Clone, Copy, Debug, PartialEq, Eq)]
pub enum Request<'a> {
    /// Take this step.
    Step(Step<'a>),
    /// Save all repositories to the pool file.
    Save(SavedAs),
    /// Give up the tenant's stream.
    Abandon {
        /// The tenant's name.
        tenant: &'a [u8],
    },
    /// Remove the tenant.
    Remove {
        /// The tenant's name.
        tenant: &'a [u8],
    },
    /// Leave the tenant what its refs and HEAD reach.
    Compact {
        /// The tenant's name.
        tenant: &'a [u8],
    },
    /// Copy a repository to an empty tenant.
    Copy {
        /// The name of the tenant whose repository is copied.
        from: &'a [u8],
        /// The name of the empty tenant.
        to: &'a [u8],
    },
    /// Say what each tenant has.
    Sizes,
    /// Say which objects the wanted names reach and the had names do not.
    Missing {
        /// The tenant's name.
        tenant: &'a [u8],
        /// The wanted names, 20 bytes for each.
        wants: &'a [u8],
        /// The names of what is there already, 20 bytes for each.
        haves: &'a [u8],
    },
    /// Give objects as entries of a pack.
    Entries {
        /// The tenant's name.
        tenant: &'a [u8],
        /// The most bytes that all the entries may have together.
        limit: u64,
        /// The names of the objects, 20 bytes for each.
        names: &'a [u8],
    },
}
