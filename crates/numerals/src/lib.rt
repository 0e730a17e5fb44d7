//! Reads decimal numbers: 1 to 20 digits with a value below 2^64. Leading zeros are allowed; signs
//! and spaces are not.
//!
//! A git-fast-import(1) stream writes counts, marks and the seconds of a date in this form.
//!
//! ```rust
//! // read_number(b"007") is Some(7); read_number(b"+7") and read_number(b"") are None.
//! ```
#![tactic(auto)]

pub mod laws;
mod reader;

pub use reader::read_number;
