//! The files of the last commits that ended, for commits that start from them.

ghost use Rattle.std.specs.Prelude.{◌≡◌, ◌≢◌, ◌≤◌, ◌<◌, ◌+◌, ◌-◌, ◌^◌, ℕ, List, [], length, drop};
ghost use Rattle.std.specs.Prelude.{min, slice_index_or, All, IfNone, IfSome, true};
ghost use Rattle.git_model.specs.{Limits.{files_limit}, Repository.{Object}};
ghost use Rattle.tree_build.specs.Branch.{IsBranch};
ghost use Rattle.kept_files.specs.declared.kept_files.KeptCommit.{KeptCommit as KeptCommitShown};
ghost use Rattle.kept_files.specs.KeptCommits.{AddsCommit, AreBranches, TakesOut, commits_limit};
ghost use Rattle.kept_files.specs.KeptCommits.{files_of};

use file_maps::FILES_LIMIT;
use git_objects::Name;
use std::alloc::Global;
use std::marker::Model;
use tree_build::Files;

// How many commits are kept.
const COMMITS_LIMIT: usize = 5;

/// A commit that ended, and its files.
#[derive(Drop)]
pub struct KeptCommit {
    /// The object name of the commit.
    pub commit: Name,
    /// Its files. The directories that were read for it are open.
    pub files: Files,
}

/// The files of the last commits that ended, oldest first.
///
/// There are at most five commits, and together they have at most 1,048,576 files, unless there is
/// only one.
pub struct KeptFiles {
    kept: Vec<KeptCommit>,
}

// Not derived, so that crates above need not prove again how its parts are dropped.
impl Drop for KeptFiles {
    fn drop(self) {
        let KeptFiles { kept } = self;
        drop(kept);
    }
}

impl Model for KeptFiles {
    ghost use Rattle.std.specs.{Prelude.{List}, Coded.{codes}};
    ghost use Rattle.tree_build.specs.ShapeCode.{branch_code};
    ghost use Rattle.kept_files.specs.declared.kept_files.KeptCommit.{KeptCommit};

    ghost Value = { List KeptCommit };

    ghost coded = { Prim.hlevel (codes, branch_code) };

    ghost view = { λ files. files.kept.items };
}

// How many files the commits have together, or the largest `usize` if there are more.
fn file_count(kept: &[KeptCommit]) -> usize
    ensures { result ≡ min (files_of kept.now) (2 ^ 64 - 1) }
{
    let mut sum: usize = 0;
    for commit in kept {
        sum = sum.saturating_add(commit.files.file_count());
    }
    sum
}

// Whether one more commit with so many files may be kept.
fn has_room(kept: &[KeptCommit], files: usize) -> bool
    ensures room { result ≡ true → 0 < length kept.now → (length kept.now < commits_limit)
        × (files_of kept.now + files ≤ files_limit) }
    ensures empty { kept.now ≡ [] → result ≡ true }
{
    kept.is_empty()
        || kept.len() < COMMITS_LIMIT && file_count(kept).saturating_add(files) <= FILES_LIMIT
}

// Drops the oldest commits until there is room for one more with so many files.
fn make_room(kept: &mut Vec<KeptCommit>, files: usize)
    ensures stay { (gone : ℕ) × (kept.new.items ≡ drop gone kept.old.items) }
    ensures room { 0 < length kept.new.items → (length kept.new.items < commits_limit)
        × (files_of kept.new.items + files ≤ files_limit) }
{
    while !has_room(kept, files) {
        let _ = kept.remove(0);
    }
}

// Where the files of a commit are, if they are there.
fn place_of(kept: &[KeptCommit], commit: &Name) -> Option<usize>
    ensures found { IfSome result (λ place. (place < length kept.now)
        × ((other : KeptCommitShown) → (slice_index_or kept.now place other).commit ≡ commit.now)) }
    ensures none { IfNone result (All (λ kept. kept.commit ≢ commit.now) kept.now) }
{
    kept.iter().position(|kept| kept.commit == *commit)
}

// Takes out the files of a commit, if they are there.
fn take_from(kept: &mut Vec<KeptCommit>, commit: &Name) -> Option<Files>
    ensures taken { IfSome result (λ files.
        TakesOut (record { commit = commit.now; files = files }) kept.old.items kept.new.items) }
    ensures none { IfNone result (All (λ kept. kept.commit ≢ commit.now) kept.old.items) }
    ensures same { IfNone result (kept.new.items ≡ kept.old.items) }
{
    match place_of(kept, commit) {
        Some(place) => Some(kept.remove(place).files),
        None => None,
    }
}

impl KeptFiles {
    /// No files. Allocates nothing; `keep` allocates from `alloc`.
    pub fn new(alloc: Global) -> KeptFiles
        ensures { result ≡ [] }
    {
        KeptFiles {
            kept: Vec::new(alloc),
        }
    }

    /// Takes out the files of the commit of this name, or `None` if they are not kept. The others
    /// stay.
    pub fn take(&mut self, commit: &Name) -> Option<Files>
        ensures taken { IfSome result (λ files.
            TakesOut (record { commit = commit.now; files = files }) self.old self.new) }
        ensures none { IfNone result (All (λ kept. kept.commit ≢ commit.now) self.old) }
        ensures same { IfNone result (self.new ≡ self.old) }
        ensures branches { (os : List Object) → AreBranches os self.old
            → AreBranches os self.new × IfSome result (λ files. IsBranch os files) }
    {
        take_from(&mut self.kept, commit)
    }

    /// Keeps the files of a commit that ended. The oldest commits are dropped while there are more
    /// than five, or while all together have more than 1,048,576 files and there is more than one.
    ///
    /// Cannot fail: if an allocation fails, the files of the new commit are dropped.
    pub fn keep(&mut self, commit: Name, files: Files)
        ensures adds { AddsCommit (record { commit = commit; files = files }) self.old self.new }
        ensures few { length self.new ≤ commits_limit }
        ensures bounded { 1 < length self.new → files_of self.new ≤ files_limit }
        ensures branches { (os : List Object) → AreBranches os self.old → IsBranch os files
            → AreBranches os self.new }
    {
        make_room(&mut self.kept, files.file_count());
        let _ = self.kept.push(KeptCommit { commit, files });
    }
}
