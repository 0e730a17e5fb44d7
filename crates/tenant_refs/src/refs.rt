//! The refs of one repository: which object name each holds, in the order of their bytes, and the
//! ref that HEAD names.
//!
//! There may be a ref `a` and a ref `a/b` at the same time. Nothing here checks that the object of
//! a name exists.

ghost use Rattle.std.specs.Prelude.{◌≡◌, ◌≢◌, ◌↔◌, ◌≤◌, IfOk, IfSome, OnOk, OnErr, IsTrue, Some};
ghost use Rattle.std.specs.Prelude.{None, option_map, slice_get, length, codes};
ghost use Rattle.git_model.specs.{Limits.{ref_name_limit}, RefStore.{with_head, ChangesRef}};
ghost use Rattle.git_model.specs.RefStore.{no_refs, target_of, listed_refs, with_ref, without_ref};
ghost use Rattle.git_model.specs.RefName.{IsRefName};
ghost use Rattle.tenant_refs.specs.StoredName.{NamesRef};

use crate::place::place_of;
use git_names::{Memory, Name, RefName};
use std::alloc::Global;
use std::marker::Model;

/// The ref that HEAD names in a new repository.
pub const FIRST_HEAD: &[u8] = b"refs/heads/main";

/// The refs of one repository in the order of their bytes, with the object name that each holds,
/// and HEAD.
#[derive(Drop)]
pub struct Refs {
    pub(crate) alloc: Global,
    pub(crate) entries: Vec<(RefName, Name)>,
    // `None` means `FIRST_HEAD`, so that `new` takes no memory.
    head: Option<RefName>,
}

impl Model for Refs {
    ghost use Rattle.git_model.specs.RefStore.{RefStore, ref_store_code};

    ghost Value = { RefStore };

    ghost coded = { ref_store_code };

    ghost use Rattle.std.specs.{Prelude.{IsTrue, unwrap_or}, FinMap.{from_sorted}};
    ghost use Rattle.git_model.specs.{RefName.{is_ref_name}, RefStore.{first_head}};
    ghost use Rattle.tenant_refs.specs.Place.{IsInOrder};

    ghost view = { λ r. record {
      refs = from_sorted r.entries.items;
      head = unwrap_or r.head first_head;
    } };

    ghost invariant = { λ r.
        IsInOrder r.entries.items × IsTrue (is_ref_name (unwrap_or r.head first_head)) };
}

impl Refs {
    /// No refs, and HEAD that names `refs/heads/main`. Takes no memory; the copies of refs that are
    /// set later come from `alloc`.
    pub fn new(alloc: Global) -> Refs
        ensures { result ≡ no_refs }
    {
        Refs {
            alloc,
            entries: Vec::new(alloc),
            head: None,
        }
    }

    /// How many refs there are.
    pub fn len(&self) -> usize
        ensures { result ≡ length (listed_refs self.now) }
    {
        self.entries.as_slice().len()
    }

    /// Whether there are none.
    pub fn is_empty(&self) -> bool
        ensures { IsTrue result ↔ (length (listed_refs self.now) ≡ 0) }
    {
        self.entries.as_slice().is_empty()
    }

    /// The object name that a ref holds; `None` if there is no such ref. Takes no memory.
    pub fn get(&self, ref_name: &[u8]) -> Option<Name>
        ensures { result ≡ target_of self.now ref_name.now }
    {
        match place_of(&self.entries, ref_name) {
            Ok(position) => Some(self.entries[position].1),
            Err(_) => None,
        }
    }

    /// The ref at a position in the order of bytes, counted from 0, with the object name that it
    /// holds; `None` from `len` on. Takes no memory.
    pub fn at(&self, position: usize) -> Option<(&[u8], Name)>
        ensures entry { option_map (λ entry. (entry.0.now, entry.1)) result
            ≡ slice_get (listed_refs self.now) position }
        ensures well_formed { IfSome result (λ entry. NamesRef entry.0.now) }
        ensures short { IfSome result (λ entry. length entry.0.now ≤ ref_name_limit) }
    {
        let (ref_name, target) = self.entries.get(position)?;
        Some((ref_name.as_bytes(), *target))
    }

    /// Sets a ref to an object name, whether the ref was there or not. Every other ref and HEAD
    /// stay unchanged.
    ///
    /// `Memory` (90) if there is no room for a ref that was not there; nothing has changed then.
    pub fn set(&mut self, ref_name: &RefName, target: Name) -> Result<(), Memory>
        ensures set { OnOk result (self.new ≡ with_ref self.old ref_name.now target) }
        ensures changes { OnOk result (ChangesRef self.old self.new ref_name.now (Some target)) }
        ensures refused { OnErr result (self.new ≡ self.old) }
        ensures refused_for_new { OnErr result (target_of self.old ref_name.now ≡ None) }
    {
        match place_of(&self.entries, ref_name.as_bytes()) {
            Ok(position) => {
                let entry = &mut self.entries[position];
                entry.1 = target;
            }
            Err(position) => {
                let ref_name = ref_name.try_clone(self.alloc)?;
                self.entries.insert(position, (ref_name, target))?;
            }
        }
        Ok(())
    }

    /// Removes a ref if it is there. Every other ref and HEAD stay unchanged. Takes no memory.
    pub fn remove(&mut self, ref_name: &[u8])
        ensures removed { self.new ≡ without_ref self.old ref_name.now }
        ensures changes { ChangesRef self.old self.new ref_name.now None }
    {
        match place_of(&self.entries, ref_name) {
            Ok(position) => {
                self.entries.remove(position);
            }
            Err(_) => {}
        }
    }

    /// The ref that HEAD names. There need not be such a ref. Takes no memory.
    pub fn head(&self) -> &[u8]
        ensures head { result.now ≡ self.now.head }
        ensures well_formed { IsRefName self.now.head }
        ensures short { length self.now.head ≤ ref_name_limit }
    {
        match &self.head {
            Some(ref_name) => ref_name.as_bytes(),
            None => FIRST_HEAD,
        }
    }

    /// Makes HEAD name another ref, which must not be `HEAD` itself and need not be there. Takes no
    /// memory.
    pub fn set_head(&mut self, ref_name: RefName)
        requires { ref_name ≢ codes "HEAD" }
        ensures { self.new ≡ with_head self.old ref_name }
    {
        self.head = Some(ref_name);
    }

    /// A copy of all refs and HEAD. `Memory` (90) if there is no room for it.
    pub fn copy(&self) -> Result<Refs, Memory>
        ensures { IfOk result (λ copy. copy ≡ self.now) }
    {
        let entries = copied_entries(self.alloc, &self.entries)?;
        let head = copied_head(self.alloc, &self.head)?;
        Ok(Refs {
            alloc: self.alloc,
            entries,
            head,
        })
    }
}

fn copied_entries(
    alloc: Global,
    entries: &[(RefName, Name)],
) -> Result<Vec<(RefName, Name)>, Memory>
    ensures { IfOk result (λ copy. copy.items ≡ entries.now) }
{
    let mut copy = Vec::with_capacity(alloc, entries.len())?;
    for (ref_name, target) in entries {
        copy.push((ref_name.try_clone(alloc)?, *target))?;
    }
    Ok(copy)
}

fn copied_head(alloc: Global, head: &Option<RefName>) -> Result<Option<RefName>, Memory>
    ensures { IfOk result (λ copy. copy ≡ head.now) }
{
    match head {
        Some(ref_name) => Ok(Some(ref_name.try_clone(alloc)?)),
        None => Ok(None),
    }
}
