//! The laws of exports: the import of an export leaves a copy of the repository.
//!
//! These functions are over the definitions alone and run nothing. The commands of an export's text
//! are its acts (`exports_ask_for_their_acts`). The acts up to the last object leave each object
//! that the refs reach, under its name and its mark (`objects_are_told`, by `blobs_are_told`,
//! `tags_are_told`, `commits_are_told` and `files_are_put`). The other acts leave the refs and HEAD
//! (`refs_are_left`). So the import of the text into an empty repository leaves a copy
//! (`exports_are_imported`), and so do Open, one Feed and End of a tenant that has nothing
//! (`exports_are_taken`). The contracts of `import_one` and `Service::copy_tenant` say the same of
//! those calls. A repository of one commit meets the premises of all these laws
//! (`one_commit_is_imported`).
//!
//! `hosting_of_steps_is_serving` says of `host` and `serve` that they do the same with steps, and
//! `stretches_are_isolated` that tenants are kept apart between any two requests of the operator.

pub use crate::hosting_laws::{hosting_of_steps_is_serving, stretches_are_isolated};
pub use export_laws::examples::one_commit_is_imported;
pub use export_laws::laws::{
    blobs_are_told, commits_are_told, exports_are_imported, files_are_put, objects_are_told,
    refs_are_left, tags_are_told,
};
pub use export_text::laws::{exports_are_read_back, exports_ask_for_their_acts};
pub use tenant_service::laws::exports_are_taken;
