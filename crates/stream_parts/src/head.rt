//! What HEAD is to name: "HEAD" of gitglossary(7).

ghost use Rattle.std.specs.{Prelude.{◌≡◌, ◌≢◌, codes, if◌then◌else◌, Ok, Err}, Str.{bytes_eq}};
ghost use Rattle.stream_parts.specs.Faults.{Gives};
ghost use Rattle.stream_grammar.specs.declared.fault.Fault.TheVariants as text_fault;

use crate::fault::Fault;
use std::alloc::Global;
use std::marker::Model;
use tenant_refs::RefName;

/// A ref that HEAD may name, which is not `HEAD` itself.
#[derive(Drop)]
pub struct Head {
    ref_name: RefName,
}

impl Model for Head {
    ghost use Rattle.std.specs.Prelude.{ℕ, List, ◌≢◌, codes};

    ghost Value = { List ℕ };

    ghost view = { λ head. head.ref_name };

    ghost invariant = { λ head. head.ref_name ≢ codes "HEAD" };
}

impl Head {
    /// HEAD is to name this ref; `HEAD` itself is a bad ref name (11).
    pub fn new(ref_name: RefName) -> Result<Head, Fault>
        ensures { result ≡ (if bytes_eq ref_name (codes "HEAD")
            then Err (Fault.Text text_fault.BadRefName) else Ok ref_name) }
    {
        if ref_name.is_head() {
            return Err(Fault::Text(stream_grammar::Fault::BadRefName));
        }
        Ok(Head { ref_name })
    }

    /// The same with a copy of the ref. `Memory` (90) if it cannot be allocated.
    pub fn copy_of(alloc: Global, ref_name: &RefName) -> Result<Head, Fault>
        ensures { Gives result (if bytes_eq ref_name.now (codes "HEAD")
            then Err (Fault.Text text_fault.BadRefName) else Ok ref_name.now) }
    {
        Head::new(ref_name.try_clone(alloc)?)
    }

    /// The ref.
    pub fn ref_name(&self) -> &RefName
        ensures { result.now ≡ self.now }
    {
        &self.ref_name
    }

    /// The ref, by value.
    pub fn into_ref(self) -> RefName
        ensures same { result ≡ self }
        ensures other { result ≢ codes "HEAD" }
    {
        self.ref_name
    }
}
