//! The pool file: all repositories of a service in one file, loaded and saved.
//!
//! A load makes one pool of all contents, and a table and refs for each tenant. A save copies no
//! content. It first plans the file, that is the order of the contents and the numbers of each
//! tenant, and then writes it.
#![tactic(auto)]

mod building;
mod content;
mod contents;
mod listing;
mod loading;
mod numbers;
mod plan;
mod raw_refs;
mod refs;
mod relatives;
mod saving;
mod seen_slots;
mod summing;
mod tables;
mod tenant;
mod tenant_view;
mod tenants;

pub use loading::{load, load_by};
pub use saving::{save, save_views};
pub use tenant::Tenant;
pub use tenant_view::TenantView;
pub use tenants::tenants_to_save;
