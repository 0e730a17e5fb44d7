//! The steps of a service, its answers and its own faults, and the frames in which steps and
//! answers are sent.
//!
//! The frame of a step has a kind, the name of a tenant and a body. The frame of an answer has a
//! status, a number and the bytes of the reply. What a step does is defined in tenant_service.
#![tactic(auto)]

mod answer;
mod fault;
mod frame_fault;
mod frames;
mod kind;
pub mod laws;
mod reply;
mod request;
mod request_frames;
mod request_kind;
mod sized;
mod step;
mod written;

pub use answer::Answer;
pub use fault::ServiceFault;
pub use frame_fault::FrameFault;
pub use frames::Frames;
pub use reply::Reply;
pub use request::{Request, SavedAs};
pub use request_frames::RequestFrames;
pub use step::Step;
pub use written::write_answer;
