//! What no clause says about refs: that calls succeed while there is memory, and the order of names
//! that begin alike; and many changes beside git.

mod tenant_names;

use git_objects::Name;
use std::alloc::Global;
use std::test::Fail;
use tenant_refs::{ChangesFault, RefChange, RefName, Refs};

// A test on refs of which there are none yet.
#[derive(Clone, Copy)]
enum Turn {
    Lists,
    Copies,
    Merges,
}

// Refs in the order in which they are set, each with the byte that fills its target.
const SET: &[(&[u8], u8)] = &[
    (b"refs/heads/a0", 1),
    (b"refs/heads/a/b", 2),
    (b"refs/heads/a-b", 3),
    (b"refs/heads/a", 4),
    (b"refs/heads/a0", 5),
];

// The same refs in the order in which they are listed.
const LISTED: &[(&[u8], u8)] = &[
    (b"refs/heads/a", 4),
    (b"refs/heads/a-b", 3),
    (b"refs/heads/a/b", 2),
    (b"refs/heads/a0", 5),
];

const MAIN_AND_TAG: &[(&[u8], u8)] = &[(b"refs/heads/m", 1), (b"refs/tags/v", 2)];

// Refs before several changes.
const BEFORE: &[(&[u8], u8)] = &[
    (b"refs/heads/a", 1),
    (b"refs/heads/k", 2),
    (b"refs/heads/z", 3),
    (b"refs/tags/v", 4),
];

// So many changes that they are merged: most of them in falling order, and some to one ref.
const CHANGES: &[(&[u8], Option<u8>)] = &[
    (b"refs/heads/z", Some(5)),
    (b"refs/heads/y", Some(6)),
    (b"refs/heads/x", Some(7)),
    (b"refs/heads/w", Some(8)),
    (b"refs/heads/v", Some(9)),
    (b"refs/heads/u", Some(10)),
    (b"refs/heads/a0", Some(11)),
    (b"refs/heads/a.b", Some(12)),
    (b"refs/heads/a-b", Some(13)),
    (b"refs/heads/a", Some(14)),
    (b"refs/heads/B", Some(15)),
    (b"refs/heads/b", Some(16)),
    (b"refs/heads/c", Some(17)),
    (b"refs/heads/d", Some(18)),
    (b"refs/heads/e", Some(19)),
    (b"refs/heads/y", None),
    (b"refs/heads/k", None),
    (b"refs/heads/none", None),
    (b"refs/heads/a", Some(21)),
    (b"refs/heads/y", Some(22)),
    (b"refs/heads/w", Some(23)),
    (b"refs/heads/w", None),
];

// What `git for-each-ref` lists after a `git update-ref` for each of them in turn.
const AFTER: &[(&[u8], u8)] = &[
    (b"refs/heads/B", 15),
    (b"refs/heads/a", 21),
    (b"refs/heads/a-b", 13),
    (b"refs/heads/a.b", 12),
    (b"refs/heads/a0", 11),
    (b"refs/heads/b", 16),
    (b"refs/heads/c", 17),
    (b"refs/heads/d", 18),
    (b"refs/heads/e", 19),
    (b"refs/heads/u", 10),
    (b"refs/heads/v", 9),
    (b"refs/heads/x", 7),
    (b"refs/heads/y", 22),
    (b"refs/heads/z", 5),
    (b"refs/tags/v", 4),
];

fn set_all(alloc: Global, refs: &mut Refs, rows: &[(&[u8], u8)]) -> Result<(), Fail> {
    for (text, byte) in rows {
        let ref_name = RefName::read(alloc, text)?;
        refs.set(&ref_name, Name::from_bytes([*byte; 20]))?;
    }
    Ok(())
}

// Whether the ref at this position has this name and this target.
fn lists(refs: &Refs, position: usize, text: &[u8], byte: u8) -> bool {
    let target = Name::from_bytes([byte; 20]);
    refs.at(position) == Some((text, target)) && refs.get(text) == Some(target)
}

// Whether exactly these refs are listed, in this order.
fn lists_all(refs: &Refs, rows: &[(&[u8], u8)]) -> bool {
    for (position, (text, byte)) in rows.iter().enumerate() {
        if !lists(refs, position, text, *byte) {
            return false;
        }
    }
    refs.len() == rows.len() && refs.at(rows.len()) == None
}

// Whether there are no refs, and HEAD is the first one.
fn is_new(refs: &Refs) -> bool {
    refs.is_empty() && refs.head() == b"refs/heads/main".as_slice()
}

fn goes_in_order(alloc: Global, refs: &mut Refs) -> Result<bool, Fail> {
    let was_new = is_new(refs);
    set_all(alloc, refs, SET)?;
    Ok(was_new && lists_all(refs, LISTED) && refs.get(b"refs/heads/b") == None)
}

// Removes the branch `m`, makes HEAD name it, and answers whether a copy has the same HEAD.
fn is_changed(alloc: Global, copy: &mut Refs) -> Result<bool, Fail> {
    copy.remove(b"refs/heads/m");
    copy.remove(b"refs/heads/none");
    copy.set_head(RefName::read(alloc, b"refs/heads/m")?);
    let copied = copy.copy()?;
    let is_copied = is_copy(&copied);
    drop(copied);
    Ok(is_copied)
}

fn is_copy(copied: &Refs) -> bool {
    copied.head() == b"refs/heads/m".as_slice() && lists(copied, 0, b"refs/tags/v", 2)
}

fn changes_a_copy(alloc: Global, refs: &Refs) -> Result<bool, Fail> {
    let mut copy = refs.copy()?;
    let is_changed = is_changed(alloc, &mut copy);
    drop(copy);
    is_changed
}

// Whether a change to a copy leaves the refs that it was made of unchanged.
fn stays_beside_a_copy(alloc: Global, refs: &mut Refs) -> Result<bool, Fail> {
    set_all(alloc, refs, MAIN_AND_TAG)?;
    let is_changed = changes_a_copy(alloc, refs)?;
    let has_its_head = refs.head() == b"refs/heads/main".as_slice();
    Ok(is_changed && has_its_head && lists_all(refs, MAIN_AND_TAG))
}

fn changes_of(alloc: Global, rows: &[(&[u8], Option<u8>)]) -> Result<Vec<RefChange>, Fail> {
    let mut changes = Vec::new(alloc);
    for (text, byte) in rows {
        let ref_name = RefName::read(alloc, text)?;
        let target = byte.map(|byte| Name::from_bytes([byte; 20]));
        changes.push(RefChange { ref_name, target })?;
    }
    Ok(changes)
}

// Makes the changes within a limit, and answers whether that is refused.
fn is_limited(refs: &mut Refs, changes: Vec<RefChange>, limit: usize) -> bool {
    match refs.change_all(changes, limit) {
        Err(ChangesFault::Limit) => true,
        _ => false,
    }
}

// Whether the changes are refused where one ref too many would be left, and made where none is.
fn are_merged(alloc: Global, refs: &mut Refs) -> Result<bool, Fail> {
    set_all(alloc, refs, BEFORE)?;
    let changes = changes_of(alloc, CHANGES)?;
    let is_refused = is_limited(refs, changes, AFTER.len() - 1) && lists_all(refs, BEFORE);
    let changes = changes_of(alloc, CHANGES)?;
    Ok(is_refused && !is_limited(refs, changes, AFTER.len()) && lists_all(refs, AFTER))
}

fn goes_in_turn(alloc: Global, refs: &mut Refs, turn: Turn) -> Result<bool, Fail> {
    match turn {
        Turn::Lists => goes_in_order(alloc, refs),
        Turn::Copies => stays_beside_a_copy(alloc, refs),
        Turn::Merges => are_merged(alloc, refs),
    }
}

fn new_refs_go(alloc: Global, turn: Turn) -> Result<bool, Fail> {
    let mut refs = Refs::new(alloc);
    let go = goes_in_turn(alloc, &mut refs, turn);
    drop(refs);
    go
}

#[test]
fn lists_refs_by_their_bytes(rt: HostRuntime) -> Result<(), Fail> {
    assert!(rt; new_refs_go(rt.alloc(), Turn::Lists)?);
    Ok(())
}

#[test]
fn changes_a_copy_alone(rt: HostRuntime) -> Result<(), Fail> {
    assert!(rt; new_refs_go(rt.alloc(), Turn::Copies)?);
    Ok(())
}

#[test]
fn merges_many_changes(rt: HostRuntime) -> Result<(), Fail> {
    assert!(rt; new_refs_go(rt.alloc(), Turn::Merges)?);
    Ok(())
}
