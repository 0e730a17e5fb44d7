//! The tests, and the store that they share.

mod checked;
mod judged;
mod stored;
mod telling;
mod whole;
