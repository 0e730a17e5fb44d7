//! Streams of git-fast-import(1), item by item, with what each item asks for.
//!
//! A row is an item, ` => `, and what it asks for, both derived by hand from the manual. The rows
//! of a case are one text, with `;` between them. `LF` is a blank line, `data x` are data, `END` is
//! the end of the stream, and `COMMIT` stands for the three items of the shortest commit. A number
//! is that of a fault; after it, and after `END`, the next row begins a new stream. In an act `-`
//! is no mark, `[a/b]` a path, `<x>` an expression, and an object name is given by its first 8
//! digits.

mod changes;
mod commits;
mod lines;
mod tags;
mod texts;

use std::alloc::Global;
use std::mem;
use stream_grammar::{
    Act, CommitCommand, CommitIsh, ControlCommand, DataRef, Done, Fault, Feature, FileChange,
    FileMode, Mark, ObjectCommand, Parser, Path, RefCommand, ReplyCommand,
};
use stream_lex::Item;

/// What a parser does, in words and as rows. If a case has a front, each of its rows comes after
/// the rows of the front, in a stream of its own.
pub struct Case {
    pub does: &'static str,
    pub front: &'static str,
    pub rows: &'static str,
}

// The answer of a parser to the last item, written as in a row. Each call answers whether there was
// room for it.
#[derive(Drop)]
struct Shown {
    alloc: Global,
    bytes: Vec<u8>,
}

impl Shown {
    fn is(&self, wanted: &[u8]) -> bool {
        self.bytes.as_slice() == wanted
    }

    fn put(&mut self, part: &[u8]) -> bool {
        self.bytes.extend_from_slice(part).is_ok()
    }

    fn put_mark(&mut self, mark: Mark) -> bool {
        self.put(b":") && self.put_number(mark.number())
    }

    fn put_number(&mut self, number: u64) -> bool {
        match format!(in self.alloc; "{number}") {
            Ok(digits) => self.put(digits.as_bytes()),
            Err(_) => false,
        }
    }

    fn put_both(&mut self, word: &[u8], text: &[u8]) -> bool {
        self.put(word) && self.put(text)
    }

    fn put_contents(&mut self, word: &[u8], mark: Option<Mark>, contents: &[u8]) -> bool {
        let is_put = match mark {
            Some(mark) => self.put(word) && self.put_mark(mark),
            None => self.put_both(word, b"-"),
        };
        is_put && self.put_both(b" ", contents)
    }

    fn put_object(&mut self, word: &[u8], object: DataRef) -> bool {
        match object {
            DataRef::Mark(mark) => self.put(word) && self.put_mark(mark),
            DataRef::Name(id) => self.put_both(word, id.to_hex().as_slice().split_at(8).0),
        }
    }

    fn put_commit(&mut self, word: &[u8], commit: &CommitIsh<'_>) -> bool {
        match commit {
            CommitIsh::Mark(mark) => self.put(word) && self.put_mark(*mark),
            CommitIsh::Expression(words) => {
                self.put_both(word, b"<") && self.put_both(words, b">")
            }
        }
    }

    fn put_path(&mut self, word: &[u8], path: &Path) -> bool {
        self.put_both(word, b" [") && self.put_both(path.as_bytes(), b"]")
    }

    fn put_paths(&mut self, word: &[u8], source: &Path, path: &Path) -> bool {
        self.put_path(word, source) && self.put_path(b"", path)
    }

    fn put_entry(&mut self, root: DataRef, path: &Path) -> bool {
        self.put_object(b"entry ", root) && self.put_path(b"", path)
    }

    fn put_set(&mut self, mark: Mark, commit: &CommitIsh<'_>) -> bool {
        self.put(b"set ") && self.put_mark(mark) && self.put_commit(b" ", commit)
    }

    fn put_file(&mut self, mode: FileMode, object: DataRef, path: &Path) -> bool {
        self.put_both(b"modify ", mode_text(mode))
            && self.put_object(b"", object)
            && self.put_path(b"", path)
    }

    fn put_inline(&mut self, mode: FileMode, path: &Path) -> bool {
        self.put_both(b"inline ", mode_text(mode)) && self.put_path(b"", path)
    }

    fn put_object_command(&mut self, command: &ObjectCommand<'_>) -> bool {
        match command {
            ObjectCommand::Blob { mark, contents } => self.put_contents(b"blob ", *mark, contents),
            ObjectCommand::BeginTag(name) => self.put_both(b"tag ", name.as_bytes()),
            ObjectCommand::TagTarget(commit) => self.put_commit(b"target ", commit),
            ObjectCommand::Tagger(ident) => self.put_both(b"tagger ", ident.as_bytes()),
            ObjectCommand::Tag { mark, message } => {
                self.put_contents(b"store-tag ", *mark, message)
            }
        }
    }

    fn put_commit_command(&mut self, command: &CommitCommand<'_>) -> bool {
        match command {
            CommitCommand::Begin(name) => self.put_both(b"commit ", name.as_bytes()),
            CommitCommand::Author(ident) => self.put_both(b"author ", ident.as_bytes()),
            CommitCommand::Committer(ident) => self.put_both(b"committer ", ident.as_bytes()),
            CommitCommand::Encoding(encoding) => self.put_both(b"encoding ", encoding),
            CommitCommand::Message { mark, message } => {
                self.put_contents(b"open ", *mark, message)
            }
            CommitCommand::From(commit) => self.put_commit(b"from ", commit),
            CommitCommand::Merge(commit) => self.put_commit(b"merge ", commit),
        }
    }

    fn put_change(&mut self, change: &FileChange<'_>) -> bool {
        match change {
            FileChange::Modify { mode, object, path } => self.put_file(*mode, *object, path),
            FileChange::ModifyInline { mode, path } => self.put_inline(*mode, path),
            FileChange::InlineData(contents) => self.put_both(b"contents ", contents),
            FileChange::Delete(path) => self.put_path(b"delete", path),
            FileChange::Copy { source, path } => self.put_paths(b"copy", source, path),
            FileChange::Rename { source, path } => self.put_paths(b"rename", source, path),
            FileChange::DeleteAll => self.put(b"deleteall"),
        }
    }

    fn put_ref_command(&mut self, command: &RefCommand<'_>) -> bool {
        match command {
            RefCommand::Reset(name) => self.put_both(b"reset ", name.as_bytes()),
            RefCommand::ResetFrom(commit) => self.put_commit(b"reset-to ", commit),
            RefCommand::Alias { mark, commit } => self.put_set(*mark, commit),
        }
    }

    fn put_reply(&mut self, command: &ReplyCommand<'_>) -> bool {
        match command {
            ReplyCommand::GetMark(mark) => self.put(b"name ") && self.put_mark(*mark),
            ReplyCommand::CatBlob(object) => self.put_object(b"show ", *object),
            ReplyCommand::Ls { root, path } => self.put_entry(*root, path),
            ReplyCommand::LsInCommit(path) => self.put_path(b"branch entry", path),
            ReplyCommand::Progress(line) => self.put_both(b"progress ", line),
        }
    }

    fn put_control(&mut self, command: &ControlCommand) -> bool {
        match command {
            ControlCommand::Checkpoint => self.put(b"checkpoint"),
            ControlCommand::Done => self.put(b"finish"),
            ControlCommand::Feature(feature) => self.put(feature_text(*feature)),
            ControlCommand::Head(name) => self.put_both(b"head ", name.as_bytes()),
        }
    }

    fn put_act(&mut self, act: &Act<'_>) -> bool {
        match act {
            Act::Wait => self.put(b"wait"),
            Act::Object(command) => self.put_object_command(command),
            Act::Commit(command) => self.put_commit_command(command),
            Act::Change(change) => self.put_change(change),
            Act::Ref(command) => self.put_ref_command(command),
            Act::Reply(command) => self.put_reply(command),
            Act::Control(command) => self.put_control(command),
        }
    }

    fn put_fault(&mut self, fault: Fault) -> bool {
        self.put_number(u64::from(fault.code()))
    }

    fn put_done(&mut self, done: &Done<'_>) -> bool {
        (!done.ends_commit || self.put(b"ends commit, ")) && self.put_act(&done.act)
    }

    // Writes the answer to the end of a stream.
    fn put_end(&mut self, answer: Result<bool, Fault>) -> bool {
        match answer {
            Ok(true) => self.put(b"ends commit"),
            Ok(false) => self.put(b"ok"),
            Err(fault) => self.put_fault(fault),
        }
    }
}

// Writes what an item asks for, or the number of its fault.
fn put_answer(shown: &mut Shown, answer: Result<Done<'_>, Fault>) -> bool {
    match answer {
        Ok(done) => shown.put_done(&done),
        Err(fault) => shown.put_fault(fault),
    }
}

// A parser, and what it answered to the last item.
#[derive(Drop)]
struct Reading {
    alloc: Global,
    parser: Parser,
    shown: Shown,
}

fn begin(alloc: Global) -> Reading {
    Reading {
        alloc,
        parser: Parser::new(alloc),
        shown: Shown {
            alloc,
            bytes: Vec::new(alloc),
        },
    }
}

impl Reading {
    // Takes an item, and writes what it asks for, or the number of its fault.
    fn take(&mut self, item: Item<'_>) -> bool {
        self.shown.bytes.clear();
        put_answer(&mut self.shown, self.parser.take(item))
    }

    // Ends the stream, and writes the answer.
    fn end(&mut self) -> bool {
        self.shown.bytes.clear();
        self.shown.put_end(self.parser.end())
    }

    // Whether the answer to a line is the wanted one, written as in a row.
    fn answers(&mut self, line: &[u8], wanted: &[u8]) -> bool {
        self.take(Item::Line(line)) && self.shown.is(wanted)
    }

    // The three items of the shortest commit.
    fn take_commit(&mut self) -> bool {
        self.take(Item::Line(b"commit refs/heads/m"))
            && self.take(Item::Line(b"committer A <a@b> 0 +0000"))
            && self.take(Item::Data(b"m"))
    }

    fn take_text(&mut self, item: &str) -> bool {
        match item.strip_prefix("data ") {
            Some(contents) => self.take(Item::Data(contents.as_bytes())),
            None => self.take(Item::Line(item.as_bytes())),
        }
    }

    // Takes the item of a row.
    fn take_row(&mut self, item: &str) -> bool {
        if item == "END" {
            self.end()
        } else if item == "LF" {
            self.take(Item::Blank)
        } else if item == "COMMIT" {
            self.take_commit()
        } else {
            self.take_text(item)
        }
    }

    fn begin_anew(&mut self) {
        drop(mem::replace(&mut self.parser, Parser::new(self.alloc)));
    }

    // Whether the answer to an item is the wanted one. After `END` or a fault a new stream begins.
    fn is_answered(&mut self, item: &str, wanted: &str) -> bool {
        let is_answered = self.take_row(item) && self.shown.is(wanted.as_bytes());
        if item == "END" || is_number(wanted.as_bytes()) {
            self.begin_anew();
        }
        is_answered
    }

    fn goes(&mut self, row: &str) -> bool {
        match row.split_once(" => ") {
            Some((item, wanted)) => self.is_answered(item, wanted),
            None => false,
        }
    }

    // Goes through the rows, and gives the first one with another answer.
    fn first_wrong<'a>(&mut self, rows: &'a str) -> Option<&'a str> {
        for row in rows.split(';') {
            if !self.goes(row) {
                return Some(row);
            }
        }
        None
    }

    // The same for rows that each come after this front.
    fn first_wrong_after<'a>(&mut self, front: &str, rows: &'a str) -> Option<&'a str> {
        for row in rows.split(';') {
            if self.first_wrong(front).is_some() || !self.goes(row) {
                return Some(row);
            }
        }
        None
    }

    fn first_wrong_of(&mut self, case: &Case) -> Option<&'static str> {
        if case.front.is_empty() {
            self.first_wrong(case.rows)
        } else {
            self.first_wrong_after(case.front, case.rows)
        }
    }
}

fn mode_text(mode: FileMode) -> &'static [u8] {
    match mode {
        FileMode::Regular => b"100644 ",
        FileMode::Executable => b"100755 ",
        FileMode::Symlink => b"120000 ",
        FileMode::Gitlink => b"160000 ",
        FileMode::Directory => b"040000 ",
    }
}

fn feature_text(feature: Feature) -> &'static [u8] {
    match feature {
        Feature::Done => b"require done",
        Feature::Force => b"require force",
        Feature::GetMark => b"require get-mark",
        Feature::CatBlob => b"require cat-blob",
        Feature::Ls => b"require ls",
        Feature::RawDates => b"require raw dates",
    }
}

// Whether an answer is the number of a fault, which ends the stream.
fn is_number(text: &[u8]) -> bool {
    text.iter().all(|byte| byte.is_ascii_digit())
}

// The first row of a case that has another answer.
fn first_wrong(alloc: Global, case: &Case) -> Option<&'static str> {
    let mut reading = begin(alloc);
    let wrong = reading.first_wrong_of(case);
    drop(reading);
    wrong
}

/// The first case that fails: what it does, and the row at which it fails.
pub fn first_wrong_case(alloc: Global, cases: &[Case]) -> Option<(&'static str, &'static str)> {
    for case in cases {
        if let Some(row) = first_wrong(alloc, case) {
            return Some((case.does, row));
        }
    }
    None
}

#[test]
fn asks_for_what_the_rows_say(rt: HostRuntime) {
    assert_eq!(rt; lines::first_wrong(rt.alloc()), None);
    assert_eq!(rt; commits::first_wrong(rt.alloc()), None);
    assert_eq!(rt; changes::first_wrong(rt.alloc()), None);
    assert_eq!(rt; tags::first_wrong(rt.alloc()), None);
}
