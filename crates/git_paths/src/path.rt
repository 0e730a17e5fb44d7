//! A path: the components that lead from the root of a tree down to an entry.
//!
//! A path does not say what is there, and it has no limits: only `read` checks them. No component
//! is empty, `.` or `..`, and none contains NUL or `/`. The value holds the bytes, with `/` between
//! components. `a/b` has the components `a` and `b`; the root has none, and no bytes.

ghost use Rattle.std.specs.Prelude.{◌≡◌, ◌↔◌, List, ℕ, [], ◌∷◌, ◌++◌, length, IsTrue, IfOk, IfSome};
ghost use Rattle.std.specs.Prelude.{OnOk, OnErr, Ok, Some, is_some, true};
ghost use Rattle.git_paths.specs.{Faults.{Gives}, Paths.{strip_prefix, is_path}, Quoting.{quoted}};
ghost use Rattle.git_paths.specs.Paths.{IsComponent, IsPath, IsWithinLimits, joined, components_of};
ghost use Rattle.git_paths.specs.{Written.{BeginsWith, shown}, Reading.{path_at, canonical_path}};

use crate::components::Components;
use crate::fault::Fault;
use crate::judging::{are_few, are_names, count_components};
use crate::place::Place;
use crate::prefixes::{bytes_after, join_bytes};
use crate::printing::quote_into;
use crate::reading::read_bytes;
use git_model::Memory;
use std::alloc::Global;
use std::marker::Model;

/// A path of a tree, such as `a/b`, or the root.
#[derive(Debug, Drop)]
pub struct Path {
    bytes: Vec<u8>,
}

impl Model for Path {
    ghost use Rattle.std.specs.Prelude.{List, ℕ};
    ghost use Rattle.git_paths.specs.Paths.{IsPath, components_of};

    ghost Value = { List (List ℕ) };

    ghost view = { λ p. components_of p.bytes.items };

    ghost invariant = { λ p. IsPath (components_of p.bytes.items) };
}

impl Path {
    fn of(bytes: Vec<u8>) -> Path
        requires { is_path (components_of bytes.items) ≡ true }
        ensures value { result ≡ components_of bytes.items }
        ensures path { IsPath result }
    {
        Path { bytes }
    }

    /// The root of a tree, which has no components. Takes no memory.
    pub fn root(alloc: Global) -> Path
        ensures { result ≡ [] }
    {
        Path {
            bytes: Vec::new(alloc),
        }
    }

    /// Reads the path that a text begins with, and answers it with the rest of the text:
    /// git-fast-import(1), `M`, `D`, `C` and `R`.
    ///
    /// A path that begins with a quote is quoted, and ends at the next quote without a backslash.
    /// An unquoted path ends at the first space if it is a source, and else at the end of the text.
    /// After a source there must be a space, which is not part of the rest; after a last path there
    /// must be nothing.
    ///
    /// `Fault::BadPath` (10) if this rule is broken, if an escape is unknown or above 255, or if a
    /// component is empty, `.` or `..` or contains NUL. Else `Fault::Limit` (25) above 16,383 bytes
    /// or 256 components. Takes memory for the bytes: `Fault::Memory` (90) may replace any other
    /// answer.
    pub fn read(alloc: Global, text: &[u8], place: Place) -> Result<(Path, &[u8]), Fault>
        // A path that is answered is written there.
        ensures found { IfOk result (λ r. BeginsWith place text.now r.0 r.1.now) }
        // A path that is written there is answered, unless memory runs out.
        ensures only { (path : List (List ℕ)) (rest : List ℕ) → BeginsWith place text.now path rest
            → Gives shown result (Ok (path, rest)) }
        // Which fault it is.
        ensures exact { Gives shown result (path_at place text.now) }
    {
        Path::read_from(alloc, text, place)
    }

    fn read_from(alloc: Global, text: &[u8], place: Place) -> Result<(Path, &[u8]), Fault>
        ensures exact { Gives shown result (path_at place text.now) }
        ensures path { IfOk result (λ r. IsPath r.0) }
    {
        let (bytes, rest) = read_bytes(alloc, text, place)?;
        Ok((Path::of(bytes), rest))
    }

    /// The bytes of the path, with `/` between its components; none at the root.
    pub fn as_bytes(&self) -> &[u8]
        ensures bytes { result.now ≡ joined self.now }
        ensures path { IsPath self.now }
    {
        self.bytes.as_slice()
    }

    /// Whether this is the root.
    pub fn is_root(&self) -> bool
        ensures { IsTrue result ↔ (self.now ≡ []) }
    {
        self.bytes.is_empty()
    }

    /// How many components the path has; 0 at the root.
    pub fn component_count(&self) -> usize
        ensures { result ≡ length self.now }
    {
        count_components(&self.bytes)
    }

    /// Whether the path has at most 16,383 bytes and 256 components.
    pub fn is_within_limits(&self) -> bool
        ensures { IsTrue result ↔ IsWithinLimits self.now }
    {
        are_few(&self.bytes)
    }

    /// Appends the path to `out`, in quotes if a byte needs them: git-config(1), core.quotePath.
    /// The root appends nothing.
    ///
    /// `Memory` (90) if `out` cannot grow; its bytes are then unchanged.
    pub fn quote_into(&self, out: &mut Vec<u8>) -> Result<(), Memory>
        ensures ok { OnOk result (out.new.items ≡ out.old.items ++ quoted (joined self.now)) }
        ensures err { OnErr result (out.new.items ≡ out.old.items) }
    {
        quote_into(self.as_bytes(), out)
    }

    /// Reads a path that is never quoted: gitrevisions(7), `<rev>:<path>`. The empty text is the
    /// root. There are no limits on the path.
    ///
    /// `None` if a component is empty, `.` or `..` or contains NUL. `Memory` (90) if there is no
    /// memory for the bytes.
    pub fn from_canonical(alloc: Global, bytes: &[u8]) -> Result<Option<Path>, Memory>
        // A path that is answered has these bytes.
        ensures found { IfOk result (λ o. IfSome o (λ path. IsPath path
            × (joined path ≡ bytes.now))) }
        // A path with these bytes is answered, unless memory runs out.
        ensures only { (path : List (List ℕ)) → IsPath path → joined path ≡ bytes.now
            → IfOk result (λ o. o ≡ Some path) }
        // Which answer it is.
        ensures exact { IfOk result (λ o. o ≡ canonical_path bytes.now) }
    {
        Path::canonical_of(alloc, bytes)
    }

    #[tactic(auto, unfolding(crate::specs::Reading::canonical_path))]
    fn canonical_of(alloc: Global, bytes: &[u8]) -> Result<Option<Path>, Memory>
        ensures exact { IfOk result (λ o. o ≡ canonical_path bytes.now) }
        ensures path { IfOk result (λ o. IfSome o IsPath) }
    {
        if !are_names(bytes) {
            return Ok(None);
        }
        Ok(Some(Path::of(Vec::from_slice(alloc, bytes)?)))
    }

    /// The components, from the root down.
    pub fn components(&self) -> Components<'_>
        ensures { result ≡ self.now }
    {
        Components::of(&self.bytes)
    }

    /// The components of the path after its prefix `top`, or `None` if `top` is not a prefix of it.
    /// If `top` is the path itself, no components are left.
    pub fn strip_prefix(&self, top: &Path) -> Option<Components<'_>>
        ensures { result ≡ strip_prefix top.now self.now }
    {
        let rest = bytes_after(&top.bytes, &self.bytes)?;
        Some(Components::of(rest))
    }

    /// Whether the path is `top` or is below it.
    pub fn is_at_or_below(&self, top: &Path) -> bool
        ensures { result ≡ is_some (strip_prefix top.now self.now) }
    {
        bytes_after(&top.bytes, &self.bytes).is_some()
    }

    /// This path followed by more components. There are no limits on the path.
    ///
    /// `Memory` (90) if there is no memory for the bytes.
    pub fn join(&self, alloc: Global, rest: &Components<'_>) -> Result<Path, Memory>
        ensures { IfOk result (λ path. path ≡ self.now ++ rest.now) }
    {
        Ok(Path::of(join_bytes(alloc, self.as_bytes(), rest.as_bytes())?))
    }

    /// This path followed by one more component. There are no limits on the path.
    ///
    /// `Memory` (90) if there is no memory for the bytes.
    pub fn child(&self, alloc: Global, name: &[u8]) -> Result<Path, Memory>
        requires { IsComponent name.now }
        ensures { IfOk result (λ path. path ≡ self.now ++ name.now ∷ []) }
    {
        self.join(alloc, &Components::of(name))
    }

    /// A copy of the path. `Memory` (90) if there is no memory for its bytes.
    pub fn copied(&self, alloc: Global) -> Result<Path, Memory>
        ensures { IfOk result (λ path. path ≡ self.now) }
    {
        Ok(Path {
            bytes: Vec::from_slice(alloc, &self.bytes)?,
        })
    }
}
