//! Counts the calls of readers and writers, so that the counts show whether the device caused an
//! error.
//!
//! `write_all` writes a whole text, or a prefix of it if a call fails. `fill` reads until a buffer
//! is full, or answers why it could not. A reader that `Lends` may give its next bytes without a
//! copy. Nothing here knows what the bytes mean.
#![tactic(auto)]

mod counted;
mod device_fault;
mod failing_reader;
mod failing_writer;
mod fill_fault;
mod filling;
mod lends;
mod whole_text;
mod write_fault;

pub use counted::Counted;
pub use device_fault::DeviceFault;
pub use failing_reader::FailingReader;
pub use failing_writer::FailingWriter;
pub use fill_fault::FillFault;
pub use filling::fill;
pub use lends::{Copied, Lending, Lends, Lent};
pub use whole_text::write_all;
pub use write_fault::WriteFault;
