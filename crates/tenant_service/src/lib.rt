//! The service: many tenants' repositories over one pool of contents.
//!
//! A tenant is told what it would be told if nobody else were there: `Service::run` says so, for
//! every list of steps of any tenants, however interleaved. This crate does not know how steps are
//! encoded as bytes.
#![tactic(auto)]

mod across;
mod by_places;
mod compacting;
mod copying;
mod extract_fault;
mod extracting;
pub mod laws;
mod loading;
mod merging;
mod moves;
mod opened;
mod packing;
mod removing;
mod saving;
mod service;
mod sizes;
mod tenant;
mod tenants;

pub use extract_fault::ExtractFault;
pub use pack_objects::{MissingObject, PackFault};
pub use pool_file_format::{Fault, Refusal, StreamingDigest};
pub use service::Service;
pub use service_steps::{Answer, Reply, ServiceFault, Step};
pub use sizes::TenantSizes;
