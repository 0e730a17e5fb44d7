//! A test repository with marks and an open commit, on which steps are carried out.

use crate::taking::{answers, begin_on, code_of, files_left, put_back, taken};
use crate::words::{
    Verb, header_with, long_path, mark_of, mode, number, object, path_of, verb_of, word,
};
use content_pool::Pool;
use file_maps::Entry;
use git_objects::{FileMode, Kind, Name, Naming, Sha1Naming};
use git_paths::Path;
use open_commits::{Header, OpenCommit};
use std::alloc::Global;
use std::marker::Model;
use stream_grammar::{DataRef, Mark, MarkedObject};
use stream_marks::Marks;
use tenant_tables::{Fault, Table};
use tree_build::Files;

/// What a case does, in words and as steps over an empty repository: those with which it begins,
/// if there are such, and then its own.
pub struct Case {
    pub does: &'static str,
    pub begin: &'static [u8],
    pub steps: &'static [u8],
}

/// The first step that does not go as it says.
pub fn first_wrong(alloc: Global, case: &Case) -> Option<&'static [u8]> {
    let mut repository = Repository::new(alloc, Sha1Naming);
    let wrong = repository.first_wrong_of(case);
    drop(repository);
    wrong
}

#[derive(Drop)]
struct Repository<N: Naming> {
    alloc: Global,
    pool: Pool<N>,
    table: Table,
    commit: Option<OpenCommit>,
    marks: Marks,
}

impl<N: Naming> Model for Repository<N> {
    ghost use Rattle.std.specs.Prelude.{ℕ, IfSome};
    ghost use Rattle.tenant_tables.specs.{IsBackedBy.{IsBackedBy}, Room.{HasHoldsLeftBeside}};
    ghost use Rattle.tenant_tables.specs.Objects.{objects};
    ghost use Rattle.open_commits.specs.OpenCommit.{IsCommitHeld};

    ghost Value = { ℕ };

    ghost view = { λ repository. 0 };

    ghost invariant = { λ r. IsBackedBy N.digest_of r.pool r.table.entries
        × HasHoldsLeftBeside r.pool r.table.entries
        × IfSome r.commit (IsCommitHeld (objects r.pool r.table.entries)) };
}

impl<N: Naming> Repository<N> {
    fn new(alloc: Global, naming: N) -> Repository<N> {
        Repository {
            alloc,
            pool: Pool::new(alloc, naming),
            table: Table::new(alloc),
            commit: None,
            marks: Marks::new(alloc),
        }
    }

    fn first_wrong_of(&mut self, case: &Case) -> Option<&'static [u8]> {
        if case.begin.is_empty() {
            return self.first_wrong(case.steps);
        }
        match self.first_wrong(case.begin) {
            Some(step) => Some(step),
            None => self.first_wrong(case.steps),
        }
    }

    fn first_wrong<'a>(&mut self, steps: &'a [u8]) -> Option<&'a [u8]> {
        for step in steps.split(|byte| *byte == b';') {
            if self.takes(step) != Some(true) {
                return Some(step);
            }
        }
        None
    }

    // Whether a step goes as it says; `None` if its words are no step, or memory ran out. Each
    // function knows a few of the steps, so that its proof is short.
    fn takes(&mut self, step: &[u8]) -> Option<bool> {
        match verb_of(step)? {
            Verb::Blob => self.add_blob(step),
            Verb::Begin => self.begin(step),
            Verb::GoOn => self.go_on(step),
            Verb::From => self.start_from(step),
            other => self.changes(other, step),
        }
    }

    fn changes(&mut self, verb: Verb, step: &[u8]) -> Option<bool> {
        match verb {
            Verb::Modify => self.modify(step),
            Verb::Inline => self.put_contents(step),
            Verb::Delete => self.delete(step),
            Verb::DeleteAll => self.delete_all(),
            other => self.moves(other, step),
        }
    }

    fn moves(&mut self, verb: Verb, step: &[u8]) -> Option<bool> {
        match verb {
            Verb::Merge => self.merge(step),
            Verb::Copy => self.copy_or_rename(step, true),
            Verb::Rename => self.copy_or_rename(step, false),
            Verb::Close => self.close(step),
            other => self.shows(other, step),
        }
    }

    fn shows(&mut self, verb: Verb, step: &[u8]) -> Option<bool> {
        match verb {
            Verb::Shows => self.has_entry(step),
            Verb::ShowsNone => self.has_none(step),
            Verb::Stored => self.has_stored(step),
            Verb::Merges => self.merge_often(step),
            Verb::ModifyLong => self.modify_long(step),
            _ => Some(false),
        }
    }

    fn path(&self, step: &[u8], place: usize) -> Option<Path> {
        path_of(self.alloc, word(step, place))
    }

    fn marked(&self, step: &[u8], place: usize) -> Option<Name> {
        let mark = mark_of(word(step, place))?;
        Some(self.marks.get(mark)?.name)
    }

    // Whether the mark is set, which fails if memory ran out.
    fn set_mark(&mut self, mark: Mark, kind: Kind, name: Name) -> bool {
        let has_room = self.marks.reserve().is_ok();
        if has_room {
            self.marks.set(mark, MarkedObject { name, kind });
        }
        has_room
    }

    fn add_blob(&mut self, step: &[u8]) -> Option<bool> {
        let mark = mark_of(word(step, 1))?;
        let id = self.added(word(step, 2)).ok()?;
        Some(self.set_mark(mark, Kind::Blob, id))
    }

    // Adds a blob, and drops the open commit.
    fn added(&mut self, bytes: &[u8]) -> Result<Name, Fault> {
        drop(self.commit.take());
        self.table.add(&mut self.pool, Kind::Blob, bytes)
    }

    fn begin(&mut self, step: &[u8]) -> Option<bool> {
        let header = header_with(self.alloc, word(step, 2))?;
        Some(self.begin_by(header, word(step, 1)))
    }

    fn begin_by(&mut self, header: Header, message: &[u8]) -> bool {
        drop(self.commit.take());
        let files = Files::new(self.alloc);
        begin_on(&mut self.commit, header, message, files, self.alloc)
    }

    fn go_on(&mut self, step: &[u8]) -> Option<bool> {
        let reads = number(step, 1)?;
        let header = header_with(self.alloc, b"")?;
        Some(self.go_on_by(header, word(step, 2))? == reads)
    }

    // Begins a commit on the files of the open one, and returns how many trees were read for them.
    fn go_on_by(&mut self, header: Header, message: &[u8]) -> Option<u64> {
        let files = files_left(&mut self.commit)?;
        let reads = files.reads();
        begin_on(&mut self.commit, header, message, files, self.alloc).then_some(reads)
    }

    fn start_from(&mut self, step: &[u8]) -> Option<bool> {
        let id = self.marked(step, 1)?;
        let mut commit = taken(&mut self.commit)?;
        let answer = commit.start_from(&self.pool, &self.table, id);
        Some(answers(&mut self.commit, commit, answer, 0))
    }

    fn merge(&mut self, step: &[u8]) -> Option<bool> {
        let code = number(step, 1)?;
        let id = self.marked(step, 2)?;
        self.merge_with(id, code)
    }

    fn merge_often(&mut self, step: &[u8]) -> Option<bool> {
        let times = number(step, 1)?;
        let id = self.marked(step, 2)?;
        for _ in 0..times {
            if self.merge_with(id, 0) != Some(true) {
                return Some(false);
            }
        }
        Some(true)
    }

    fn merge_with(&mut self, id: Name, code: u64) -> Option<bool> {
        let mut commit = taken(&mut self.commit)?;
        let answer = commit.merge(id);
        Some(answers(&mut self.commit, commit, answer, code))
    }

    fn modify(&mut self, step: &[u8]) -> Option<bool> {
        let code = number(step, 1)?;
        let (mode, object) = (mode(step, 2)?, object(step, 3)?);
        let path = self.path(step, 4)?;
        self.modify_at(mode, object, &path, code)
    }

    fn modify_long(&mut self, step: &[u8]) -> Option<bool> {
        let code = number(step, 1)?;
        let object = DataRef::Mark(mark_of(b"1")?);
        let path = long_path(self.alloc, number(step, 2)?)?;
        self.modify_at(FileMode::Regular, object, &path, code)
    }

    fn modify_at(
        &mut self,
        mode: FileMode,
        object: DataRef,
        path: &Path,
        code: u64,
    ) -> Option<bool> {
        let mut commit = taken(&mut self.commit)?;
        let answer = commit.modify(&self.pool, &self.table, &self.marks, mode, object, path);
        Some(answers(&mut self.commit, commit, answer, code))
    }

    fn put_contents(&mut self, step: &[u8]) -> Option<bool> {
        let code = number(step, 1)?;
        let mode = mode(step, 2)?;
        let path = self.path(step, 3)?;
        self.put_contents_at(mode, &path, word(step, 4), code)
    }

    // A refusal drops the open commit.
    fn put_contents_at(
        &mut self,
        mode: FileMode,
        path: &Path,
        contents: &[u8],
        code: u64,
    ) -> Option<bool> {
        let mut commit = taken(&mut self.commit)?;
        let answer = commit.put_contents(&mut self.pool, &mut self.table, mode, path, contents);
        put_back(&mut self.commit, commit, answer.is_ok());
        Some(code_of(answer) == code)
    }

    fn delete(&mut self, step: &[u8]) -> Option<bool> {
        let path = self.path(step, 1)?;
        self.delete_at(&path)
    }

    fn delete_at(&mut self, path: &Path) -> Option<bool> {
        let mut commit = taken(&mut self.commit)?;
        let answer = commit.delete(&self.pool, &self.table, path);
        Some(answers(&mut self.commit, commit, answer, 0))
    }

    fn delete_all(&mut self) -> Option<bool> {
        let mut commit = taken(&mut self.commit)?;
        commit.delete_all();
        put_back(&mut self.commit, commit, true);
        Some(true)
    }

    fn copy_or_rename(&mut self, step: &[u8], is_copied: bool) -> Option<bool> {
        let code = number(step, 1)?;
        let source = self.path(step, 2)?;
        self.copy_or_rename_from(&source, step, code, is_copied)
    }

    fn copy_or_rename_from(
        &mut self,
        source: &Path,
        step: &[u8],
        code: u64,
        is_copied: bool,
    ) -> Option<bool> {
        let path = self.path(step, 3)?;
        if is_copied {
            self.copy_to(source, &path, code)
        } else {
            self.rename_to(source, &path, code)
        }
    }

    fn copy_to(&mut self, source: &Path, path: &Path, code: u64) -> Option<bool> {
        let mut commit = taken(&mut self.commit)?;
        let answer = commit.copy(&self.pool, &self.table, source, path);
        Some(answers(&mut self.commit, commit, answer, code))
    }

    fn rename_to(&mut self, source: &Path, path: &Path, code: u64) -> Option<bool> {
        let mut commit = taken(&mut self.commit)?;
        let answer = commit.rename(&self.pool, &self.table, source, path);
        Some(answers(&mut self.commit, commit, answer, code))
    }

    fn entry(&mut self, path: &Path) -> Option<Option<Entry>> {
        let mut commit = taken(&mut self.commit)?;
        let entry = commit.show_entry(&mut self.pool, &mut self.table, path);
        put_back(&mut self.commit, commit, true);
        entry.ok()
    }

    fn has_entry(&mut self, step: &[u8]) -> Option<bool> {
        let mode = mode(step, 1)?;
        let name = Name::from_hex(word(step, 2))?;
        let path = self.path(step, 3)?;
        let entry = self.entry(&path)?;
        Some(entry == Some(Entry { mode, name }))
    }

    fn has_none(&mut self, step: &[u8]) -> Option<bool> {
        let path = self.path(step, 1)?;
        let entry = self.entry(&path)?;
        Some(entry.is_none())
    }

    fn has_stored(&self, step: &[u8]) -> Option<bool> {
        Some(self.table.len() as u64 == number(step, 1)?)
    }

    fn close(&mut self, step: &[u8]) -> Option<bool> {
        let mark = mark_of(word(step, 1))?;
        let id = self.closed()?;
        let is_marked = self.set_mark(mark, Kind::Commit, id);
        Some(is_marked && id.to_hex().as_slice() == word(step, 2))
    }

    fn closed(&mut self) -> Option<Name> {
        let mut commit = taken(&mut self.commit)?;
        let answer = commit.close(&mut self.pool, &mut self.table);
        put_back(&mut self.commit, commit, answer.is_ok());
        answer.ok()
    }
}
