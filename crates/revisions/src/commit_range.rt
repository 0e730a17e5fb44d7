//! The forms of a range of commits: gitrevisions(7), "Specifying Ranges".

/// A range of commits, by expressions or by object names.
#[derive(Drop)]
pub enum Range<A> {
    /// `<rev>`: what is reachable from it.
    From(A),
    /// `<rev1>..<rev2>`: what is reachable from the second and not from the first.
    Between(A, A),
    /// `<rev1>...<rev2>`: what is reachable from one of them and not from both.
    Either(A, A),
}
