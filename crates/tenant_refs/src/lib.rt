//! The refs of a tenant, with the object name that each ref holds, and the names of tenants.
//!
//! Nothing here knows a pool or a table: a ref holds an object name, and the caller makes sure that
//! there is such an object. `reaches` comes from commit_walk; it tells whether a ref may move to a
//! commit without force.
#![tactic(auto)]

mod changed_entries;
mod changes;
mod namespace;
mod place;
mod refs;
mod tenant_name;
mod tenant_name_fault;

pub use changes::{ChangesFault, RefChange};
pub use commit_walk::reaches;
pub use git_names::{Memory, Name, REF_NAME_LIMIT, RefName, RefNameFault};
pub use namespace::{full_name, namespaces};
pub use refs::{FIRST_HEAD, Refs};
pub use tenant_name::{TENANT_NAME_LIMIT, TenantName, is_tenant_name};
pub use tenant_name_fault::TenantNameFault;
