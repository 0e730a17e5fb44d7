//! The numbers that C is answered.

ghost use Rattle.std.specs.Prelude.{◌≡◌};
ghost use Rattle.gitpool_c.specs.Numbers.{items_of, number_of};

use tenant_service::Answer;

/// The number of a call for which there was no memory.
pub const OUT_OF_MEMORY: u32 = 90;

/// The number of an answer: 0 if all is well, and 90 if memory ran out.
pub fn number_of(answer: Answer) -> u32
    ensures { result ≡ number_of answer }
{
    match answer {
        Answer::Ok => 0,
        Answer::Fault(code) => code as u32,
        Answer::Memory(_) => OUT_OF_MEMORY,
    }
}

/// How many items took effect before memory ran out; 0 if it did not.
pub fn items_of(answer: Answer) -> u64
    ensures { result ≡ items_of answer }
{
    match answer {
        Answer::Memory(items) => items,
        _ => 0,
    }
}
