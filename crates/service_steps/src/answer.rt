//! The answer to a step.

/// The answer to a step.
#[derive(Clone, Copy, Debug, PartialEq, Eq)]
pub enum Answer {
    /// The step took effect.
    Ok,
    /// The step was refused with the fault of this number.
    Fault(u16),
    /// Memory ran out. After a Feed, the number counts the whole items of this call that took
    /// effect; their replies have been written. After any other step the number is 0: the step had
    /// no effect, or it closed its stream.
    Memory(u64),
}
