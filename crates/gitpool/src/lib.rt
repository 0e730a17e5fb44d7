//! The service: many tenants' repositories over one pool of contents.
//!
//! A tenant is told what it would be told if nobody else were there: `Service::run` says so, for
//! every list of steps of any tenants, however interleaved. `Service::save` writes all repositories
//! to a pool file, and `Service::load` reads them. `import` carries one stream of a tenant from a
//! reader to a writer, and `import_one` does so over an empty repository. `serve` answers frames of
//! steps, `ask` one query, and `check` says how much is stored. `Line` is a command line of the
//! program, and `VERSION` is the number of this version. `laws` has what is true of exports.
//!
//! A program that uses these calls needs no other crate of this repository: this one re-exports
//! every type that their signatures name.
#![tactic(auto)]

mod asking;
mod checking;
mod hosting;
mod hosting_laws;
mod importing;
pub mod laws;
mod pack_lines;
mod pack_writing;
mod packing;
mod pool_place;
mod serving;
mod single_import;
mod sizing;
mod step_fault;

pub use asking::ask;
pub use byte_devices::{Lends, WriteFault};
pub use checking::check;
pub use command_lines::{Line, VERSION};
pub use content_pool::{Pool, Slot};
pub use git_objects::{
    Counted, DeviceFault, Kind, Memory, Name, Naming, Sha1Naming, TailNaming, write_all,
};
pub use hosting::host;
pub use importing::import;
pub use pack_writing::pack;
pub use pool_file_format::{DigestState, Fault as PoolFault, Refusal, StreamingDigest};
pub use pool_place::PoolPlace;
pub use service_steps::{Answer, FrameFault, Reply, Request, SavedAs, ServiceFault, Step};
pub use serving::{serve, serve_noting};
pub use single_import::{import_new, import_one};
pub use sizing::sizes;
pub use step_fault::StepFault;
pub use tenant_refs::Refs;
pub use tenant_service::{ExtractFault, MissingObject, PackFault, Service, TenantSizes};
pub use tenant_tables::{Found, Sight, Summary, Table};
