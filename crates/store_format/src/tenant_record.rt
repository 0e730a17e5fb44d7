//! Records of a store: what a tenant has.

/// A change of a ref.
#[derive(Drop)]
pub struct RefChange {
    /// The ref, without the namespaces of the tenant.
    pub name: Vec<u8>,
    /// The position of its target among the tenant's objects, from 0; `None` if the ref is deleted.
    pub target: Option<u32>,
}

/// A record: what a tenant has after a save, told by what an earlier record had.
///
/// The last record of a name counts. A tenant without objects whose HEAD names `refs/heads/main` is
/// none, so that a record can say that a tenant is gone.
#[derive(Drop)]
pub struct TenantRecord {
    /// The tenant's name.
    pub name: Vec<u8>,
    /// The number of the earlier record that this one stands on, from 0, if it stands on one.
    pub base: Option<u32>,
    /// How many objects of that record come first.
    pub shared: u32,
    /// The rows of the objects after them, by their numbers from 0.
    pub numbers: Vec<u32>,
    /// How the refs differ from those of that record.
    pub changes: Vec<RefChange>,
    /// The ref that HEAD names.
    pub head: Vec<u8>,
}
