//! A branch over a pool and a table, for tests.

ghost use Rattle.std.specs.Prelude.{◌≢◌};
ghost use Rattle.git_model.specs.declared.file_mode.FileMode.TheVariants as mode;

use crate::body::{Body, Edit, Edited};
use crate::step::{
    HELLO, Step, is, is_named, long_path, mode_in, name_in, number_in, path_in, step_of,
};
use content_pool::Pool;
use file_maps::{Entry, Fault};
use git_objects::{FileMode, Kind, Name, Naming, Sha1Naming};
use git_paths::{Path, Place};
use plain_files::Files as PlainFiles;
use std::alloc::Global;
use std::marker::Model;
use tenant_tables::Table;
use tree_build::Files;

/// A case: what a branch does, in words, and the lines of its steps, which begin with an empty
/// branch.
pub struct Case {
    pub does: &'static str,
    pub steps: &'static str,
}

/// The position of the first of these steps that goes otherwise than it says, on a new branch of
/// either body.
pub fn first_wrong(alloc: Global, steps: &str) -> Option<usize> {
    let plain = first_wrong_of::<PlainFiles>(alloc, steps);
    plain.or(first_wrong_of::<Files>(alloc, steps))
}

/// The same for this body alone.
pub fn first_wrong_of<B: Body<Sha1Naming>>(alloc: Global, steps: &str) -> Option<usize> {
    let mut branch: ShaBranch<B> = Branch::new(alloc, Sha1Naming);
    let wrong = branch.first_wrong(steps.as_bytes());
    drop(branch);
    wrong
}

/// The first of these cases that goes otherwise than it says: what it does, and the position of the
/// step.
pub fn first_otherwise(alloc: Global, cases: &[Case]) -> Option<(&'static str, usize)> {
    for case in cases {
        if let Some(position) = first_wrong(alloc, case.steps) {
            return Some((case.does, position));
        }
    }
    None
}

/// The same for this body alone, without the position.
pub fn first_otherwise_of<B: Body<Sha1Naming>>(
    alloc: Global,
    cases: &[Case],
) -> Option<&'static str> {
    for case in cases {
        if first_wrong_of::<B>(alloc, case.steps).is_some() {
            return Some(case.does);
        }
    }
    None
}

/// The files of a branch, with the pool and the table that their trees are stored in.
#[derive(Drop)]
pub struct Branch<B: Body<N>, N: Naming> {
    alloc: Global,
    files: B,
    pool: Pool<N>,
    table: Table,
}

/// A branch whose objects have Git's names.
pub type ShaBranch<B> = Branch<B, Sha1Naming>;

// The number of a refusal, 0 where there is none; `None` where memory ran out, which no case
// expects.
fn code_of(answer: Edited) -> Option<u64> {
    match answer {
        Ok(()) => Some(0),
        Err(Fault::Memory) => None,
        Err(fault) => Some(u64::from(fault.code())),
    }
}

// The number at which the step of a round is next.
fn next_number(step: &Step<'_>, number: u64) -> u64 {
    let count = number_in(step.first).unwrap_or(0);
    let further = number_in(step.second).unwrap_or(0);
    number
        .saturating_add(further)
        .checked_rem(count)
        .unwrap_or(0)
}

// The mode of a line of `git ls-tree -r`.
fn mode_of(line: &[u8]) -> FileMode
    ensures { result ≢ mode.Directory }
{
    if line.starts_with(b"100755") {
        FileMode::Executable
    } else {
        FileMode::Regular
    }
}

// The name of the blob of such a line.
fn blob_of(line: &[u8]) -> Option<Name> {
    Name::from_hex(line.get(7..47)?)
}

// The path of a text, if it is one.
fn path_of(alloc: Global, text: &[u8]) -> Option<Path> {
    match Path::read(alloc, text, Place::Last) {
        Ok((path, _)) => Some(path),
        Err(_) => None,
    }
}

fn two_paths(alloc: Global, from: &[u8], to: &[u8]) -> Option<(Path, Path)> {
    let from = path_of(alloc, from)?;
    Some((from, path_of(alloc, to)?))
}

impl<B: Body<N>, N: Naming> Model for Branch<B, N> {
    ghost use Rattle.std.specs.Prelude.{ℕ};
    ghost use Rattle.tenant_tables.specs.{IsBackedBy.{IsBackedBy}, Room.{HasHoldsLeftBeside}};
    ghost use Rattle.tenant_tables.specs.Objects.{objects};

    ghost Value = { ℕ };

    ghost view = { λ branch. 0 };

    ghost invariant = { λ branch. IsBackedBy N.digest_of branch.pool branch.table.entries
        × HasHoldsLeftBeside branch.pool branch.table.entries
        × B.is_sound (objects branch.pool branch.table.entries) branch.files };
}

impl<B: Body<N>, N: Naming> Branch<B, N> {
    /// An empty branch over a new pool and a new table. Takes no memory.
    pub fn new(alloc: Global, naming: N) -> Branch<B, N> {
        Branch {
            alloc,
            files: B::new(alloc),
            pool: Pool::new(alloc, naming),
            table: Table::new(alloc),
        }
    }

    // Separate from the function that owns the branch, since each exit of an owner makes its proof
    // longer.
    fn first_wrong(&mut self, steps: &[u8]) -> Option<usize> {
        for (position, line) in steps.split(|byte| *byte == b'\n').enumerate() {
            let step = step_of(line);
            if !self.takes(&step) {
                return Some(position);
            }
        }
        None
    }

    // Whether a step goes as it says. Each function knows some of the steps, to keep its proof
    // short.
    fn takes(&mut self, step: &Step<'_>) -> bool {
        if is(step, b"mode") {
            self.has_mode(step)
        } else if is(step, b"none") {
            self.has_none(step)
        } else if is(step, b"tree") {
            is_named(self.tree_at(path_in(step.first)), name_in(step.second))
        } else {
            self.keeps(step)
        }
    }

    fn keeps(&mut self, step: &Step<'_>) -> bool {
        if is(step, b"store") {
            is_named(self.store(), name_in(step.first))
        } else if is(step, b"stored") {
            Some(self.table.len() as u64) == number_in(step.first)
        } else if is(step, b"reads") {
            self.has_read(step)
        } else {
            self.edit(step) == Some(step.code)
        }
    }

    // The number of the refusal of an edit, 0 where there is none; none where it is no edit.
    fn edit(&mut self, step: &Step<'_>) -> Option<u64> {
        if is(step, b"put") {
            self.put(path_in(step.first), name_in(step.second))
        } else if is(step, b"graft") {
            self.graft(path_in(step.first), name_in(step.second))
        } else if is(step, b"drop") {
            self.drop_path(path_in(step.first))
        } else {
            self.copy_or_rename(step)
        }
    }

    fn copy_or_rename(&mut self, step: &Step<'_>) -> Option<u64> {
        if is(step, b"copy") {
            self.copy(path_in(step.first), path_in(step.second))
        } else if is(step, b"rename") {
            self.rename(path_in(step.first), path_in(step.second))
        } else {
            self.edit_long(step)
        }
    }

    fn edit_long(&mut self, step: &Step<'_>) -> Option<u64> {
        if is(step, b"put-long") {
            self.put_long(step)
        } else if is(step, b"graft-long") {
            self.graft_long(step)
        } else {
            self.fills(step).then_some(0)
        }
    }

    // Does a step that has no number for an answer, and answers whether it was done.
    fn fills(&mut self, step: &Step<'_>) -> bool {
        if is(step, b"put-line") {
            self.puts_line(step.with)
        } else if is(step, b"put-many") {
            self.puts_many(step)
        } else if is(step, b"add-hello") {
            self.adds_blob(b"hello\n")
        } else if is(step, b"clear") {
            self.clear();
            true
        } else {
            self.goes_round(step)
        }
    }

    // Puts or drops numbered files of one directory.
    fn goes_round(&mut self, step: &Step<'_>) -> bool {
        match number_in(step.third) {
            Some(files) => self.edits_round(step, files),
            None => false,
        }
    }

    fn edits_round(&mut self, step: &Step<'_>, files: u64) -> bool {
        let mut number: u64 = 0;
        for _ in 0..files {
            if !self.edits_numbered(step, number) {
                return false;
            }
            number = next_number(step, number);
        }
        true
    }

    fn edits_numbered(&mut self, step: &Step<'_>, number: u64) -> bool {
        let digits = number.saturating_add(1_000);
        match format!(in self.alloc; "d/f{digits}") {
            Ok(path) => self.puts_or_drops(step, path.as_bytes()),
            Err(_) => false,
        }
    }

    fn puts_or_drops(&mut self, step: &Step<'_>, path: &[u8]) -> bool {
        if is(step, b"put-round") {
            self.put(path, HELLO) == Some(0)
        } else {
            is(step, b"drop-round") && self.drop_path(path) == Some(0)
        }
    }

    fn has_mode(&self, step: &Step<'_>) -> bool {
        let mode = mode_in(step.second);
        mode.is_some() && self.mode_at(path_in(step.first)) == mode
    }

    fn has_none(&self, step: &Step<'_>) -> bool {
        match path_of(self.alloc, path_in(step.first)) {
            Some(path) => self.files.entry(&self.pool, &self.table, &path) == Ok(None),
            None => false,
        }
    }

    fn has_read(&self, step: &Step<'_>) -> bool {
        match number_in(step.first) {
            Some(texts) => self.files.reads().unwrap_or(texts) == texts,
            None => false,
        }
    }

    /// Puts a regular file with this name at a path. This and the other edits answer the number of
    /// the refusal, 0 where there is none; `None` where an argument cannot be read or memory ran
    /// out.
    pub fn put(&mut self, path: &[u8], digits: &[u8]) -> Option<u64> {
        let path = path_of(self.alloc, path)?;
        self.put_at(&path, digits)
    }

    fn put_long(&mut self, step: &Step<'_>) -> Option<u64> {
        let path = long_path(self.alloc, step)?;
        self.put_at(&path, HELLO)
    }

    fn put_at(&mut self, path: &Path, digits: &[u8]) -> Option<u64> {
        let name = Name::from_hex(digits)?;
        let mode = FileMode::Regular;
        self.put_file(path, Entry { mode, name })
    }

    fn put_file(&mut self, path: &Path, entry: Entry) -> Option<u64>
        requires { entry.mode ≢ mode.Directory }
    {
        code_of(self.files.put(&self.pool, &self.table, path, entry))
    }

    fn puts_many(&mut self, step: &Step<'_>) -> bool {
        match (number_in(step.first), number_in(step.second)) {
            (Some(directories), Some(files)) => self.puts_directories(directories, files),
            _ => false,
        }
    }

    fn puts_directories(&mut self, directories: u64, files: u64) -> bool {
        for directory in 0..directories {
            if !self.puts_directory(directory, files) {
                return false;
            }
        }
        true
    }

    fn puts_directory(&mut self, directory: u64, files: u64) -> bool {
        for file in 0..files {
            if !self.puts_numbered(directory, file) {
                return false;
            }
        }
        true
    }

    fn puts_numbered(&mut self, directory: u64, file: u64) -> bool {
        match format!(in self.alloc; "d{directory}/f{file}") {
            Ok(path) => self.put(path.as_bytes(), HELLO) == Some(0),
            Err(_) => false,
        }
    }

    /// Whether the file of a line of `git ls-tree -r` is put.
    pub fn puts_line(&mut self, line: &[u8]) -> bool {
        self.put_line(line) == Some(0)
    }

    fn put_line(&mut self, line: &[u8]) -> Option<u64> {
        let name = blob_of(line)?;
        let path = path_of(self.alloc, line.get(48..)?)?;
        let mode = mode_of(line);
        self.put_file(&path, Entry { mode, name })
    }

    /// Removes the files at or below a path.
    pub fn drop_path(&mut self, path: &[u8]) -> Option<u64> {
        let path = path_of(self.alloc, path)?;
        self.change(&Edit::Drop(&path))
    }

    /// Copies the files at or below one path to another.
    pub fn copy(&mut self, from: &[u8], to: &[u8]) -> Option<u64> {
        let (from, to) = two_paths(self.alloc, from, to)?;
        self.change(&Edit::Copy(&from, &to))
    }

    /// Moves the files at or below one path to another.
    pub fn rename(&mut self, from: &[u8], to: &[u8]) -> Option<u64> {
        let (from, to) = two_paths(self.alloc, from, to)?;
        self.change(&Edit::Rename(&from, &to))
    }

    /// Puts the stored tree of this name at a path.
    pub fn graft(&mut self, path: &[u8], digits: &[u8]) -> Option<u64> {
        let path = path_of(self.alloc, path)?;
        self.graft_at(&path, digits)
    }

    fn graft_long(&mut self, step: &Step<'_>) -> Option<u64> {
        let path = long_path(self.alloc, step)?;
        self.graft_at(&path, name_in(step.third))
    }

    fn graft_at(&mut self, path: &Path, digits: &[u8]) -> Option<u64> {
        let name = Name::from_hex(digits)?;
        self.change(&Edit::Graft(path, &name))
    }

    fn change(&mut self, edit: &Edit<'_>) -> Option<u64> {
        code_of(self.files.edit(&self.pool, &self.table, edit))
    }

    fn adds_blob(&mut self, bytes: &[u8]) -> bool {
        self.table.add(&mut self.pool, Kind::Blob, bytes).is_ok()
    }

    /// Removes all files. The stored trees stay.
    pub fn clear(&mut self) {
        self.files.clear();
    }

    // What stands at a path, if something does.
    fn entry_at(&self, path: &[u8]) -> Option<Entry> {
        let path = path_of(self.alloc, path)?;
        self.files
            .entry(&self.pool, &self.table, &path)
            .unwrap_or(None)
    }

    fn mode_at(&self, path: &[u8]) -> Option<FileMode> {
        Some(self.entry_at(path)?.mode)
    }

    /// The name of the tree or the blob at a path.
    pub fn tree_at(&self, path: &[u8]) -> Option<Name> {
        Some(self.entry_at(path)?.name)
    }

    /// The name under which the root is stored.
    pub fn store(&mut self) -> Option<Name> {
        let root = Path::root(self.alloc);
        self.files
            .store(&mut self.pool, &mut self.table, &root)
            .ok()
    }
}
