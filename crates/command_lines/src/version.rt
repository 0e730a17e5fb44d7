//! The number of this version. Scripts, packages and man pages read it here.

/// The version of `gitpool`, as MAJOR.MINOR.PATCH.
pub const VERSION: &str = "0.4.0";
