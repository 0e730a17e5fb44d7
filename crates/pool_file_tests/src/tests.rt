//! The tests, by what they judge, and what they share.

mod alike;
mod deltas;
mod files;
mod indexed;
mod judged;
mod lending;
mod lent;
mod lines;
mod objects;
mod own;
mod packs;
mod parts;
mod references;
mod sums;
mod tenants;
mod whole;
mod whole_packs;
