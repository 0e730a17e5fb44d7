//! Revision expressions and ranges of gitrevisions(7), over a list of objects and refs.
#![tactic(auto)]

mod base;
mod commit_range;
mod contents;
mod cutting;
mod expression;
mod expression_reading;
mod fault;
mod first_parents;
pub mod laws;
mod parents;
mod peeling;
mod range_log;
mod range_reading;
mod resolving;
mod stored_path;
mod suffix;
mod suffix_reading;
mod tag_ends;

pub use commit_range::Range;
pub use expression::Expression;
pub use fault::Fault;
pub use first_parents::FirstParentCache;
pub use peeling::{peel, peel_tags};
pub use range_log::{range, resolve_range};
pub use range_reading::read_range;
pub use resolving::{resolve, resolve_commit, resolve_expression, resolve_with_tags};
pub use stored_path::entry_below;
pub use suffix::Suffix;
pub use tag_ends::{ChainCache, TagCache, peel_along, peel_tags_along};
pub use tenant_tables::Objects;
