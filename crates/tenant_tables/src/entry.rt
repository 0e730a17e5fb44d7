//! What a table keeps under an object name.

use crate::summary::Summary;
use content_pool::Slot;

/// Where the contents of an object lie in the pool and, for a tree, the size of its file map.
#[derive(Clone, Copy)]
pub(crate) struct Entry {
    pub slot: Slot,
    pub summary: Option<Summary>,
}
