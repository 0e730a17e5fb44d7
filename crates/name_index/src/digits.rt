//! The digits that two names share.

ghost use Rattle.std.specs.Prelude.{◌≡◌};
ghost use Rattle.name_index.specs.Index.{shared_apart};

use git_names::{Name, has_twenty_bytes};

/// How many leading hexadecimal digits another name shares with `id`; 0 for `id` itself.
pub fn shared_apart(id: &Name, other: &Name) -> usize
    ensures { result ≡ shared_apart id.now other.now }
{
    has_twenty_bytes(id);
    has_twenty_bytes(other);
    let (ours, theirs) = (id.as_bytes(), other.as_bytes());
    for place in 0..20 {
        if ours[place] != theirs[place] {
            let half = ours[place] / 16 == theirs[place] / 16;
            return 2 * place + usize::from(half);
        }
    }
    0
}
