//! Directories that are stored trees again, as after `clear` and the same files.

ghost use Rattle.std.specs.{Prelude.{◌≡◌, ◌++◌, true, codes, Some, IfSome}, List.{AllByRecursion}};
ghost use Rattle.git_model.specs.Tree.{mode_digits, entry_text, tree_contents};
ghost use Rattle.git_model.specs.{ObjectName.{IsObjectName}, Repository.{object_named}};
ghost use Rattle.git_objects.specs.Parts.{entry_of};
ghost use Rattle.file_maps.specs.Trees.{tree_content};
ghost use Rattle.tree_build.specs.{Nodes.{shape_of}, Stores.{AreNamed, entries_of_shape}};

use crate::component::Component;
use crate::dir::{Dir, Entries, Node};
use crate::names::node_like;
use crate::storing::row_of;
use git_objects::{FileMode, Kind, Name, Naming, TreeEntry, has_twenty_bytes, mode_digits};
use tenant_tables::Objects;

// What comes after a text's front, if the text begins with it.
fn after<'a>(text: &'a [u8], front: &[u8]) -> Option<&'a [u8]>
    ensures { IfSome result (λ rest. text.now ≡ front.now ++ rest.now) }
{
    text.strip_prefix(front)
}

// What comes after the mode of a regular file and a space.
fn after_regular(contents: &[u8]) -> Option<&[u8]>
    ensures { IfSome result (λ rest. contents.now ≡ codes "100644 " ++ rest.now) }
{
    match contents {
        [b'1', b'0', b'0', b'6', b'4', b'4', b' ', rest @ ..] => Some(rest),
        _ => None,
    }
}

// What comes after a mode and a space. Most entries are regular files, so these are read as one
// pattern.
fn after_mode(contents: &[u8], mode: FileMode) -> Option<&[u8]>
    ensures { IfSome result (λ rest. contents.now ≡ mode_digits mode ++ codes " " ++ rest.now) }
{
    match mode {
        FileMode::Regular => after_regular(contents),
        _ => after(after(contents, mode_digits(mode))?, b" "),
    }
}

// What comes after an entry, if the contents of a tree begin with it.
fn after_entry<'a>(contents: &'a [u8], entry: &TreeEntry<'_>) -> Option<&'a [u8]>
    ensures { IfSome result (λ rest. contents.now ≡ entry_text (entry_of entry.now) ++ rest.now) }
{
    let rest = after_mode(contents, entry.mode)?;
    let rest = after(rest, entry.name)?;
    let [0, rest @ ..] = rest else {
        return None;
    };
    after(rest, entry.id.as_bytes())
}

// Whether the contents of a tree list these entries and no others.
fn lists(contents: &[u8], entries: &Entries) -> bool
    requires { AreNamed (shape_of entries.now.items) }
    ensures contents { result ≡ true
        → contents.now ≡ tree_contents (entries_of_shape (shape_of entries.now.items)) }
    ensures ids { result ≡ true
        → AllByRecursion (λ e. IsObjectName e.id) (entries_of_shape (shape_of entries.now.items)) }
{
    let mut rest = contents;
    for place in 0..entries.len() {
        let entry = entries.at(place);
        let row = row_of(entry);
        has_twenty_bytes(&row.id);
        match after_entry(rest, &row) {
            Some(more) => rest = more,
            None => return false,
        }
    }
    rest.is_empty()
}

// Whether there is the tree of these entries under a name.
fn is_tree_of<N: Naming>(objects: &Objects<'_, N>, id: &Name, entries: &Entries) -> bool
    requires { AreNamed (shape_of entries.now.items) }
    ensures there { result ≡ true → object_named id.now objects.now
        ≡ Some (tree_content (entries_of_shape (shape_of entries.now.items))) }
    ensures ids { result ≡ true
        → AllByRecursion (λ e. IsObjectName e.id) (entries_of_shape (shape_of entries.now.items)) }
{
    match objects.get(id) {
        Some((Kind::Tree, contents)) => lists(contents, entries),
        _ => false,
    }
}

/// The name of the tree of an earlier directory, if it has these entries.
pub(crate) fn tree_again<N: Naming>(
    objects: &Objects<'_, N>,
    entries: &Entries,
    earlier: Option<&Dir>,
) -> Option<Name>
    requires { AreNamed (shape_of entries.now.items) }
    ensures there { IfSome result (λ id. object_named id objects.now
        ≡ Some (tree_content (entries_of_shape (shape_of entries.now.items)))) }
    ensures ids { IfSome result
        (λ id. AllByRecursion (λ e. IsObjectName e.id)
        (entries_of_shape (shape_of entries.now.items))) }
{
    let id = earlier?.tree?;
    if is_tree_of(objects, &id, entries) {
        Some(id)
    } else {
        None
    }
}

/// What an entry that is an opened directory was earlier, as a guess.
pub(crate) fn earlier_of<'a>(
    earlier: Option<&'a Dir>,
    entry: &(Component, Node),
) -> Option<&'a Dir> {
    match &entry.1 {
        Node::Opened(_) => below(earlier?, entry.0.as_bytes()),
        _ => None,
    }
}

fn below<'a>(earlier: &'a Dir, name: &[u8]) -> Option<&'a Dir> {
    match node_like(&earlier.entries, name)? {
        Node::Opened(dir) => Some(dir),
        _ => None,
    }
}
