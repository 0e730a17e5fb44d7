//! Replies of a run.

use crate::answer::Answer;

/// The answer to one step of a run, and the bytes of its reply.
#[derive(Debug, Drop)]
pub struct Reply {
    /// The answer.
    pub answer: Answer,
    /// The bytes of the reply.
    pub bytes: Vec<u8>,
}
