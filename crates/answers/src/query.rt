//! What may be asked of a repository.

use revisions::{Expression, Range};

/// A query, as its text is read. Nothing is looked up yet.
#[derive(Drop)]
pub enum Query<'a> {
    /// What is asked about the object that an expression names.
    Object(ObjectQuery, Expression<'a>),
    /// The commits of a range: git-log(1), --format='%H %s'.
    Log(Range<Expression<'a>>),
    /// What is asked about the whole repository.
    Repository(RepositoryQuery),
}

/// What is asked about an object.
#[derive(Clone, Copy)]
pub enum ObjectQuery {
    /// Its name: git-rev-parse(1).
    RevParse,
    /// The shortest prefix of its name that begins no other: git-rev-parse(1), --short=4.
    Abbrev,
    /// The object itself: git-cat-file(1), --batch.
    Cat,
    /// The direct entries of its tree: git-ls-tree(1).
    Ls,
}

/// What is asked about a whole repository.
#[derive(Clone, Copy)]
pub enum RepositoryQuery {
    /// All refs with the names that they hold: git-show-ref(1).
    Refs,
    /// The ref that HEAD names: git-symbolic-ref(1).
    Head,
    /// All that the refs reach, and the refs, as one stream: git-fast-export(1), --all.
    Export,
}

/// The word that a query begins with.
#[derive(Clone, Copy)]
pub enum Word {
    Object(ObjectQuery),
    Log,
    Repository(RepositoryQuery),
}
