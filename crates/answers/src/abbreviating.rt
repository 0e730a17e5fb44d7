//! The shortest prefix of an object name: git-rev-parse(1), --short.

ghost use Rattle.std.specs.Prelude.{◌≡◌, ◌≤◌, take};
ghost use Rattle.hex.specs.Hex.{encode_lower};
ghost use Rattle.git_model.specs.HeldObjects.{AreHeld};
ghost use Rattle.answers.specs.Printed.{shortest_prefix};

use git_objects::{Name, Naming, has_twenty_bytes};
use tenant_tables::Objects;

/// The fewest digits that a prefix may have.
const FEWEST_DIGITS: usize = 4;

/// The digits of an object name.
const ALL_DIGITS: usize = 40;

/// The number of digits, 4 to 40, of the shortest prefix of a name that begins no other name of
/// these objects. Takes no memory.
pub fn shortest_prefix<N: Naming>(objects: &Objects<'_, N>, id: &Name) -> usize
    ensures prefix { AreHeld N.digest_of objects.now
        → take result (encode_lower id.now) ≡ shortest_prefix objects.now id.now }
    ensures digits { result ≤ ALL_DIGITS }
{
    has_twenty_bytes(id);
    let shared = objects.most_shared(id).min(ALL_DIGITS - 1);
    FEWEST_DIGITS.max(shared + 1)
}
