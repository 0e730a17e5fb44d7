//! The error of calls that fail only if their device fails.

ghost use Rattle.std.specs.Prelude.{◌≡◌};

use thiserror::Error;

/// A reader or a writer answered an error, or a writer took none of the bytes that it was given:
/// 68.
#[derive(Clone, Copy, Debug, PartialEq, Eq, Error)]
#[error("a reader or a writer failed")]
pub struct DeviceFault;

const DEVICE: u16 = 68;

impl DeviceFault {
    /// The number of this fault, 68.
    pub fn code(self) -> u16
        ensures { result ≡ 68 }
    {
        DEVICE
    }
}
