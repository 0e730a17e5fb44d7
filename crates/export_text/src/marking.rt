//! Flags of objects by their places.

ghost use Rattle.std.specs.Prelude.{◌≡◌, [], ◌∷◌, length};
ghost use Rattle.export_text.specs.Marking.{with_flags};

use git_objects::{Name, Naming};
use tenant_tables::Objects;

/// Sets the flag of the object of this name, if there is one. Takes no memory.
pub fn mark<N: Naming>(objects: &Objects<'_, N>, id: &Name, flags: &mut [bool])
    requires size { length flags.old ≡ length objects.now }
    ensures { flags.new ≡ with_flags objects.now flags.old (id.now ∷ []) }
{
    match objects.place(id) {
        Some(place) => flags[place] = true,
        None => {}
    }
}

/// Sets the flags of the objects of these names. Takes no memory.
pub fn mark_all<N: Naming>(objects: &Objects<'_, N>, ids: &[Name], flags: &mut [bool])
    requires size { length flags.old ≡ length objects.now }
    ensures { flags.new ≡ with_flags objects.now flags.old ids.now }
{
    for id in ids {
        mark(objects, id, flags);
    }
}
