//! The contents of trees: "tree object" in gitglossary(7).

ghost use Rattle.std.specs.Prelude.{◌≡◌, ◌≢◌, ◌↔◌, List, [], ◌∷◌, ◌++◌, length, take, IfSome, IfOk};
ghost use Rattle.std.specs.Prelude.{IsNone, IsSomeAnd, MatchOption, position, OnOk, OnErr, IsTrue, ⊤};
ghost use Rattle.std.specs.Option.{option_map};
ghost use Rattle.git_model.specs.Tree.{TreeEntry as Entry, IsEntryName, CanWriteEntry};
ghost use Rattle.git_model.specs.Tree.{CanWriteTree, entry_text, tree_contents};
ghost use Rattle.git_model.specs.TreeReading.{tree_read};
ghost use Rattle.git_objects.specs.{Parts.{entry_of, entries_of}, Fronts.{IsFront}};
ghost use Rattle.git_objects.specs.TreeParts.{mode_text, name_text, ends_name, IsReserved};
ghost use Rattle.git_objects.specs.TreeParts.{AreInOrder, HasTwin, CanFollow};
ghost use Rattle.git_objects.specs.RawEntries.{digits_text, raw_entry_of, IsRawName};
ghost use Rattle.git_model.specs.Readable.{AreModeDigits, IsRawEntry, raw_entry_text};
ghost use Rattle.git_model.specs.Readable.{IsReadable, entry_from};
ghost use Rattle.git_model.specs.declared.kind.Kind.TheVariants as kind;

use crate::front::split_at_byte;
use crate::mode::{are_mode_digits, mode_digits, mode_named_by};
use crate::tree_entry::TreeEntry;
use git_model::FileMode;
use git_names::{Memory, Name};
use std::alloc::Global;

// No entry that can be written has fewer bytes: a mode of five digits, a space, a name, a NUL, and
// an object's name. The list grows where another program wrote shorter ones.
const LEAST_TEXT: usize = 28;

fn append_entry(entry: &TreeEntry<'_>, contents: &mut Vec<u8>) -> Result<(), Memory>
    ensures written { OnOk result (contents.new.items ≡ contents.old.items
        ++ entry_text (entry_of entry.now)) }
    ensures kept { take (length contents.old.items) contents.new.items ≡ contents.old.items }
{
    contents.extend_from_slice(mode_digits(entry.mode))?;
    contents.extend_from_slice(b" ")?;
    contents.extend_from_slice(entry.name)?;
    contents.push(0)?;
    contents.extend_from_slice(entry.id.as_bytes())?;
    Ok(())
}

fn append_entries(entries: &[TreeEntry<'_>], contents: &mut Vec<u8>) -> Result<(), Memory>
    ensures written { OnOk result (contents.new.items
        ≡ contents.old.items ++ tree_contents (entries_of entries.now)) }
    ensures kept { take (length contents.old.items) contents.new.items ≡ contents.old.items }
{
    for entry in entries {
        append_entry(entry, contents)?;
    }
    Ok(())
}

/// Appends the contents of the tree with these entries, in this order: "tree object" in
/// gitglossary(7).
///
/// Any entries can be written. `read_tree` reads the contents back if `is_entry_name` accepts each
/// name, no two names are the same, and the entries are in the order of `TreeEntry::order`.
/// `Memory` (90) if there is no memory for all of it; `contents` is then unchanged.
pub fn write_tree(entries: &[TreeEntry<'_>], contents: &mut Vec<u8>) -> Result<(), Memory>
    ensures written { OnOk result (contents.new.items
        ≡ contents.old.items ++ tree_contents (entries_of entries.now)) }
    ensures same { OnErr result (contents.new.items ≡ contents.old.items) }
{
    let start = contents.len();
    let written = append_entries(entries, contents);
    if written.is_err() {
        contents.truncate(start);
    }
    written
}

fn take_mode(contents: &[u8]) -> Option<(FileMode, &[u8])>
    ensures { IsFront (λ _. ⊤) mode_text contents.now (option_map (λ x. (x.0, x.1.now)) result) }
{
    if let Some(rest) = contents.strip_prefix(b"100644 ") {
        return Some((FileMode::Regular, rest));
    }
    if let Some(rest) = contents.strip_prefix(b"40000 ") {
        return Some((FileMode::Directory, rest));
    }
    if let Some(rest) = contents.strip_prefix(b"100755 ") {
        return Some((FileMode::Executable, rest));
    }
    if let Some(rest) = contents.strip_prefix(b"120000 ") {
        return Some((FileMode::Symlink, rest));
    }
    let rest = contents.strip_prefix(b"160000 ")?;
    Some((FileMode::Gitlink, rest))
}

// The place of the first NUL or slash, where a name ends.
fn end_of_name(contents: &[u8]) -> Option<usize>
    ensures { result ≡ position ends_name contents.now }
{
    contents.iter().position(|byte| *byte == 0 || *byte == b'/')
}

// Whether a name is empty, `.` or `..`, which no entry is named.
fn is_reserved(name: &[u8]) -> bool
    ensures { IsTrue result ↔ IsReserved name.now }
{
    match name {
        b"" | b"." | b".." => true,
        _ => false,
    }
}

fn take_name(contents: &[u8]) -> Option<(&[u8], &[u8])>
    ensures { IsFront IsEntryName name_text contents.now
        (option_map (λ x. (x.0.now, x.1.now)) result) }
{
    let end = end_of_name(contents)?;
    if contents[end] != 0 {
        return None;
    }
    let name = contents.split_at(end).0;
    if is_reserved(name) {
        return None;
    }
    Some((name, contents.split_at(end + 1).1))
}

fn take_entry(contents: &[u8]) -> Option<(TreeEntry<'_>, &[u8])>
    ensures { IsFront CanWriteEntry entry_text contents.now
        (option_map (λ x. (entry_of x.0, x.1.now)) result) }
{
    let Some((mode, rest)) = take_mode(contents) else {
        return None;
    };
    let Some((name, rest)) = take_name(rest) else {
        return None;
    };
    let Some((id, rest)) = rest.split_first_chunk::<20>() else {
        return None;
    };
    let id = Name::from_bytes(*id);
    Some((TreeEntry { mode, name, id }, rest))
}

// Whether an entry comes after all of these, which are in order.
fn comes_after(entries: &[TreeEntry<'_>], entry: &TreeEntry<'_>) -> bool
    ensures { AreInOrder (entries_of entries.now)
        → (IsTrue result ↔ AreInOrder (entries_of entries.now ++ entry_of entry.now ∷ [])) }
{
    match entries.last() {
        Some(last) => last.order(entry).is_lt(),
        None => true,
    }
}

// A file with the directory's name comes before the directory, but other entries can stand between
// the two, since only a directory's name is compared with a slash after it. Mostly the last entry
// comes before such a file, so there is none. Else a binary search finds it: a walk back to it
// could be long for each of many directories.
fn has_twin(entries: &[TreeEntry<'_>], entry: &TreeEntry<'_>) -> bool
    ensures { AreInOrder (entries_of entries.now)
        → (IsTrue result ↔ HasTwin (entries_of entries.now) (entry_of entry.now)) }
{
    let TreeEntry { mode, name, id } = *entry;
    let file = TreeEntry {
        mode: FileMode::Regular,
        name,
        id,
    };
    match mode {
        FileMode::Directory if !comes_after(entries, &file) => {
            entries.binary_search_by(|other| other.order(&file)).is_ok()
        }
        _ => false,
    }
}

// Whether an entry can stand after all of these, which make a tree.
fn can_follow(entries: &[TreeEntry<'_>], entry: &TreeEntry<'_>) -> bool
    ensures { AreInOrder (entries_of entries.now)
        → (IsTrue result ↔ CanFollow (entries_of entries.now) (entry_of entry.now)) }
{
    comes_after(entries, entry) && !has_twin(entries, entry)
}

/// Reads the contents of a tree: "tree object" in gitglossary(7). The entries are in order, and
/// their names are borrowed from the contents.
///
/// `None` if no tree that can be written has these contents: a mode is not one of the five or has a
/// leading zero; `is_entry_name` refuses a name; two entries have the same name, whatever their
/// kinds; or the entries are not in the order of `TreeEntry::order`. `Memory` (90) if there is no
/// memory for the entries.
pub fn read_tree(alloc: Global, contents: &[u8]) -> Result<Option<Vec<TreeEntry<'_>>>, Memory>
    ensures found { IfOk result (λ r. IfSome r
        (λ es. CanWriteTree (entries_of es.items)
        × (contents.now ≡ tree_contents (entries_of es.items)))) }
    ensures only { (es : List Entry) → CanWriteTree es → contents.now ≡ tree_contents es
        → IfOk result (λ r. IsSomeAnd r (λ v. entries_of v.items ≡ es)) }
    ensures read { IfOk result (λ r. IfSome r (λ es. entries_of es.items
        ≡ tree_read contents.now)) }
    ensures exact { IfOk result (λ r. IsNone r → (es : List Entry) → CanWriteTree es
        → contents.now ≢ tree_contents es) }
{
    let Ok(mut entries) = Vec::with_capacity(alloc, contents.len() / LEAST_TEXT) else {
        return Err(Memory);
    };
    let mut rest = contents;
    while !rest.is_empty() {
        let Some((entry, after)) = take_entry(rest) else {
            return Ok(None);
        };
        if !can_follow(&entries, &entry) {
            return Ok(None);
        }
        if entries.push(entry).is_err() {
            return Err(Memory);
        }
        rest = after;
    }
    Ok(Some(entries))
}

// An entry of any tree that Git can walk, with the digits of its mode.
#[derive(Clone, Copy)]
struct RawEntry<'a> {
    mode: &'a [u8],
    name: &'a [u8],
    id: Name,
}

fn take_mode_digits(contents: &[u8]) -> Option<(&[u8], &[u8])>
    ensures { IsFront AreModeDigits digits_text contents.now
        (option_map (λ x. (x.0.now, x.1.now)) result) }
{
    let (digits, rest) = split_at_byte(contents, b' ')?;
    if are_mode_digits(digits) {
        Some((digits, rest))
    } else {
        None
    }
}

fn take_raw_name(contents: &[u8]) -> Option<(&[u8], &[u8])>
    ensures { IsFront IsRawName name_text contents.now
        (option_map (λ x. (x.0.now, x.1.now)) result) }
{
    match split_at_byte(contents, 0)? {
        (b"", _) => None,
        found => Some(found),
    }
}

fn take_raw_entry(contents: &[u8]) -> Option<(RawEntry<'_>, &[u8])>
    ensures { IsFront IsRawEntry raw_entry_text contents.now
        (option_map (λ x. (raw_entry_of x.0, x.1.now)) result) }
{
    let Some((mode, rest)) = take_mode_digits(contents) else {
        return None;
    };
    let Some((name, rest)) = take_raw_name(rest) else {
        return None;
    };
    let Some((id, rest)) = rest.split_first_chunk::<20>() else {
        return None;
    };
    let id = Name::from_bytes(*id);
    Some((RawEntry { mode, name, id }, rest))
}

fn entry_from<'a>(raw: &RawEntry<'a>) -> TreeEntry<'a>
    requires { AreModeDigits raw.now.mode.now }
    ensures { entry_of result ≡ entry_from (raw_entry_of raw.now) }
{
    TreeEntry {
        mode: mode_named_by(raw.mode),
        name: raw.name,
        id: raw.id,
    }
}

/// Reads the contents of any tree that Git can walk, whoever wrote it: git-ls-tree(1). The names of
/// the entries are borrowed from the contents.
///
/// An entry is a mode of 1 to 7 octal digits, a space, a name of at least one byte, a NUL, and 20
/// bytes. Entries may come in any order and have any names, such as `..` or `a/b`. The mode is what
/// Git makes of it by its format bits: `100664` is a regular file, and `040000` a directory. A tree
/// that `read_tree` reads has the same entries here.
///
/// `None` if the contents do not consist of such entries. `Memory` (90) if there is no memory for
/// the entries.
pub fn look_tree(alloc: Global, contents: &[u8]) -> Result<Option<Vec<TreeEntry<'_>>>, Memory>
    ensures { IfOk result (λ r. MatchOption r (¬ IsReadable kind.Tree contents.now)
        (λ es. IsReadable kind.Tree contents.now
        × (entries_of es.items ≡ tree_read contents.now))) }
{
    let Ok(mut entries) = Vec::with_capacity(alloc, contents.len() / LEAST_TEXT) else {
        return Err(Memory);
    };
    let mut rest = contents;
    while !rest.is_empty() {
        let Some((raw, after)) = take_raw_entry(rest) else {
            return Ok(None);
        };
        if entries.push(entry_from(&raw)).is_err() {
            return Err(Memory);
        }
        rest = after;
    }
    Ok(Some(entries))
}
