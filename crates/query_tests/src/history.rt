//! A small history in a table, for tests: four commits, of which one is a merge, with tags.
//!
//! It is put there by steps, which are one text:
//!
//! ```text
//! blob|CONTENTS     commit|CONTENTS     tag|CONTENTS
//! file|PATH|NAME    gitlink|PATH|NAME
//! tree|NAME         checkpoint
//! ```
//!
//! A step adds an object that is no tree; puts a file or a gitlink; stores the tree of all that was
//! put so far, which must get that name; or commits what is there. A name is a word of made_by_git.
//! In contents, a time between two `%` stands for who wrote a commit then and who committed it.

pub mod fields;
pub mod made_by_git;

ghost use Rattle.std.specs.Prelude.{◌≢◌};

use content_pool::Pool;
use fields::{field, is, side, takes_text};
use file_maps::Entry;
use git_objects::{FileMode, Kind, Name, Naming};
use git_paths::Path;
use made_by_git::{FOUR_COMMITS, is_named, name_of};
use plain_files::Files;
use std::alloc::Global;
use std::marker::Model;
use tenant_refs::{RefName, Refs};
use tenant_tables::Table;

/// The ref that HEAD names at first.
pub const MAIN: &[u8] = b"refs/heads/main";

/// The refs of the history: each the ref, and a word for what it holds.
pub const REFS: &[u8] = b"\
    refs/heads/main=MERGE \
    refs/heads/side=THIRD \
    refs/tags/blob=BLOB_TAG \
    refs/tags/v1=V1 \
    refs/tags/vv=VV";

/// Sets these refs. False where one of them cannot be set.
pub fn sets_all(refs: &mut Refs, alloc: Global, held: &[u8]) -> bool {
    for one in held.split(|byte| *byte == b' ') {
        if !sets(refs, alloc, one) {
            return false;
        }
    }
    true
}

// No ref where there is no word.
fn sets(refs: &mut Refs, alloc: Global, held: &[u8]) -> bool {
    if held.is_empty() {
        return true;
    }
    match name_of(side(held, 1)) {
        Some(target) => sets_ref(refs, alloc, side(held, 0), target),
        None => false,
    }
}

fn sets_ref(refs: &mut Refs, alloc: Global, ref_name: &[u8], target: Name) -> bool {
    match RefName::read(alloc, ref_name) {
        Ok(ref_name) => {
            let answer = refs.set(&ref_name, target);
            drop(ref_name);
            answer.is_ok()
        }
        Err(_) => false,
    }
}

/// Lets HEAD name a ref. False where it cannot, for example where the ref is HEAD itself.
pub fn sets_head(refs: &mut Refs, alloc: Global, ref_name: &[u8]) -> bool {
    match RefName::read(alloc, ref_name) {
        Ok(ref_name) => sets_head_to(refs, ref_name),
        Err(_) => false,
    }
}

fn sets_head_to(refs: &mut Refs, ref_name: RefName) -> bool {
    if ref_name.is_head() {
        drop(ref_name);
        return false;
    }
    refs.set_head(ref_name);
    true
}

fn path_of(alloc: Global, text: &[u8]) -> Option<Path> {
    match Path::from_canonical(alloc, text) {
        Ok(path) => path,
        Err(_) => None,
    }
}

/// A table over a pool of its own, and the files of the next tree.
///
/// A function that owns a value lends it to one other function and has one exit, since each exit of
/// an owner makes its proof longer. Where memory runs out, the answer is one more that is not the
/// wanted one.
#[derive(Drop)]
pub struct History<N: Naming> {
    pub alloc: Global,
    files: Files,
    pub pool: Pool<N>,
    pub table: Table,
}

impl<N: Naming> Model for History<N> {
    ghost use Rattle.std.specs.Prelude.{ℕ};
    ghost use Rattle.tenant_tables.specs.{IsBackedBy.{IsBackedBy}, Room.{HasHoldsLeftBeside}};

    ghost Value = { ℕ };

    ghost view = { λ history. 0 };

    ghost invariant = { λ history. IsBackedBy N.digest_of history.pool history.table.entries
        × HasHoldsLeftBeside history.pool history.table.entries };
}

impl<N: Naming> History<N> {
    /// A history without an object.
    pub fn new(alloc: Global, naming: N) -> History<N> {
        History {
            alloc,
            files: Files::new(alloc),
            pool: Pool::new(alloc, naming),
            table: Table::new(alloc),
        }
    }

    /// Takes the steps of the history. Separate from the functions that go on from there, since
    /// each of their proofs would read the whole text.
    pub fn takes_history(&mut self) -> bool {
        self.takes_all(FOUR_COMMITS)
    }

    /// Takes these steps. False where one does not go.
    pub fn takes_all(&mut self, steps: &[u8]) -> bool {
        for step in steps.split(|byte| *byte == b';') {
            if !self.takes(step) {
                return false;
            }
        }
        true
    }

    // Whether a step goes. Each function knows some of the steps, to keep its proof short.
    fn takes(&mut self, step: &[u8]) -> bool {
        if is(step, b"file") {
            self.puts(step, FileMode::Regular)
        } else if is(step, b"gitlink") {
            self.puts(step, FileMode::Gitlink)
        } else if is(step, b"tree") {
            self.stores(field(step, 1))
        } else {
            self.takes_other(step)
        }
    }

    fn takes_other(&mut self, step: &[u8]) -> bool {
        if is(step, b"blob") {
            self.adds(Kind::Blob, field(step, 1))
        } else if is(step, b"commit") {
            self.adds(Kind::Commit, field(step, 1))
        } else if is(step, b"tag") {
            self.adds(Kind::Tag, field(step, 1))
        } else if is(step, b"checkpoint") {
            self.table.commit();
            true
        } else {
            false
        }
    }

    fn adds(&mut self, kind: Kind, contents: &[u8]) -> bool
        requires { kind ≢ Kind.Tree }
    {
        let mut text = Vec::new(self.alloc);
        let holds = takes_text(&mut text, contents) && self.adds_text(kind, &text);
        drop(text);
        holds
    }

    fn adds_text(&mut self, kind: Kind, contents: &[u8]) -> bool
        requires { kind ≢ Kind.Tree }
    {
        self.table.add(&mut self.pool, kind, contents).is_ok()
    }

    fn puts(&mut self, step: &[u8], mode: FileMode) -> bool
        requires { mode ≢ FileMode.Directory }
    {
        match name_of(field(step, 2)) {
            Some(name) => self.puts_at(field(step, 1), Entry { mode, name }),
            None => false,
        }
    }

    fn puts_at(&mut self, path: &[u8], entry: Entry) -> bool
        requires { entry.mode ≢ FileMode.Directory }
    {
        match path_of(self.alloc, path) {
            Some(path) => {
                let answer = self.files.put(&self.pool, &self.table, &path, entry);
                drop(path);
                answer.is_ok()
            }
            None => false,
        }
    }

    fn stores(&mut self, word: &[u8]) -> bool {
        let root = Path::root(self.alloc);
        let answer = self.files.store(&mut self.pool, &mut self.table, &root);
        drop(root);
        match answer {
            Ok(id) => is_named(&id, word),
            Err(_) => false,
        }
    }
}
