//! Why a stream stops.

ghost use Rattle.std.specs.Prelude.{◌≡◌};
ghost use Rattle.tenant_stream.specs.Stopping.{stop_of, stopping_code};

use import_session::Fault;

/// Why a stream stops.
#[derive(Clone, Copy, PartialEq, Eq)]
pub enum StreamError {
    /// The stream was refused, under this number.
    Fault(u16),
    /// Memory ran out (90) after so many whole items of this call, which took effect.
    Memory(u64),
}

impl StreamError {
    /// The number of the fault: that of the refusal, or 90 if memory ran out.
    pub fn code(self) -> u16
        ensures { result ≡ stopping_code self }
    {
        match self {
            StreamError::Fault(code) => code,
            StreamError::Memory(_) => 90,
        }
    }
}

// Why a stream stops whose next item is refused, after `count` items of the call.
pub fn stop_of(fault: Fault, count: u64) -> StreamError
    ensures { result ≡ stop_of fault count }
{
    match fault {
        Fault::Memory => StreamError::Memory(count),
        _ => StreamError::Fault(fault.code()),
    }
}
