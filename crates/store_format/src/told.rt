//! What a record tells, as a value.

use crate::targets::Targets;

/// What a tenant has after the save that wrote a record of it. Names are lent by the records.
#[derive(Drop)]
pub struct Told<'a> {
    /// The tenant's name.
    pub name: &'a [u8],
    /// The rows of its objects, by their numbers from 0.
    pub numbers: Vec<u32>,
    /// Its refs.
    pub refs: Targets<'a>,
    /// The ref that HEAD names.
    pub head: &'a [u8],
}
