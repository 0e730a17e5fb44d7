//! The suffixes of a revision: gitrevisions(7), "Specifying Revisions".

use git_model::Kind;
use git_paths::Path;

/// One step from an object to another, as it is written after a revision.
#[derive(Drop)]
pub enum Suffix {
    /// `<rev>^<n>`: the nth parent of a commit, counted from 1; 0 is the commit itself.
    Parent(u32),
    /// `<rev>~<n>`: the first parent, n times.
    Ancestor(u32),
    /// `<rev>^{<type>}`: the object of this kind that it is peeled to.
    PeelTo(Kind),
    /// `<rev>^{}`: the first object that is not a tag, following tags.
    PeelTags,
    /// `<rev>^{object}`: the object itself.
    Itself,
    /// `<rev>:<path>`: what is at a path of its tree.
    AtPath(Path),
}
