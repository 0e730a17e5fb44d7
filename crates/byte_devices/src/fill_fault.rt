//! Why a buffer was not filled.

ghost use Rattle.std.specs.Prelude.{◌≡◌};
ghost use Rattle.byte_devices.specs.Reading.{fill_code};

use thiserror::Error;

/// Why a buffer was not filled.
#[derive(Clone, Copy, Debug, PartialEq, Eq, Error)]
pub enum FillFault {
    /// The input ended before the buffer was full: 51. A caller may decide that this is no fault,
    /// or that it has another number: a pool file that is cut off is 62.
    #[error("input ended")]
    Ended = 51,
    /// A call of the reader failed: 68.
    #[error("a reader failed")]
    Failed = 68,
}

impl FillFault {
    /// The number of the fault: 51 input ended, 68 device.
    pub fn code(self) -> u16
        ensures { result ≡ fill_code self }
    {
        self as u16
    }
}
