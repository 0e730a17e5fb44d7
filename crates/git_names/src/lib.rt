//! Git's names: object names under any digest, ref names, and idents, which say who made something
//! and when.
//!
//! The crate does not know what an object holds or which refs exist. It assumes of the digest only
//! that it is a function of the bytes.
#![tactic(auto)]

mod ident;
mod ident_fault;
mod ident_text;
mod name;
mod naming;
mod object_name;
mod ref_name;
mod ref_name_fault;
mod ref_text;
mod sha1_naming;
mod tail_naming;
mod text;

pub use git_model::{Kind, Memory};
pub use ident::{Ident, is_written_ident};
pub use ident_fault::IdentFault;
pub use name::{Name, has_twenty_bytes};
pub use naming::Naming;
pub use object_name::{kind_word, name_of};
pub use ref_name::{REF_NAME_LIMIT, RefName};
pub use ref_name_fault::RefNameFault;
pub use ref_text::is_ref_name;
pub use sha1_naming::Sha1Naming;
pub use tail_naming::TailNaming;
