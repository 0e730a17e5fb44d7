//! The files of a store as texts: its state, rows of objects, records of tenants.
//!
//! A store is a folder of files that are only appended to, and a state that says how many of their
//! bytes count. The crate opens no file, and knows no pool or table.
#![tactic(auto)]

mod append_fault;
mod chains;
mod contents;
pub mod laws;
mod listings;
mod naming;
mod parts;
mod printing;
mod reading;
mod record_reading;
mod row;
mod row_reading;
mod standing;
mod state;
mod state_checks;
mod targets;
mod telling;
mod tenant_record;
mod tiling;
mod told;

pub use append_fault::AppendFault;
pub use chains::NO_CHAIN;
pub use contents::{LentFile, content_of};
pub use listings::{append_records, append_rows, read_records, read_rows};
pub use naming::check_names;
pub use printing::{append_record, append_row, append_state};
pub use reading::read_state;
pub use record_reading::read_record;
pub use row::{Row, Summary};
pub use row_reading::read_row;
pub use standing::count_objects;
pub use state::{ContentsFile, Listing, State};
pub use state_checks::{CONTENTS_FILE_LIMIT, check_state};
pub use targets::Targets;
pub use telling::tell;
pub use tenant_record::{RefChange, TenantRecord};
pub use tiling::check_places;
pub use told::Told;
