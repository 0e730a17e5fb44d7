//! What a pack is made of.

ghost use Rattle.std.specs.{Prelude.{◌≡◌, List, length, slice_get}, Option.{option_map}};
ghost use Rattle.git_model.specs.Content.{Content, content_from};

use git_model::Kind;

/// The objects of a pack by their positions, wherever their contents lie.
pub trait PackContents {
    // The contents, in the order of the pack.
    ghost contents: { Self → List Content };

    /// How many objects there are.
    fn len(&self) -> usize
        ensures { result ≡ length (contents self.now) };

    /// The kind and the bytes of the object at a position, counted from 0; `None` from `len` on.
    fn at(&self, position: usize) -> Option<(Kind, &[u8])>
        ensures { option_map (λ r. content_from r.0 r.1.now) result
            ≡ slice_get (contents self.now) position };
}
