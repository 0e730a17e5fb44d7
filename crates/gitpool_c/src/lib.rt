//! The service for C: a static library, whose functions `include/gitpool.h` declares.
//!
//! An export passes on a call of `Service`, and its clauses are those of that call. C keeps a handle
//! of each service, reply and list, and hands over the handle's address.
#![tactic(auto)]

mod handle;
mod kept;
mod lent;
mod loose;
mod numbers;
mod operator;
mod reply;
mod service;
mod sizes;
mod steps;
