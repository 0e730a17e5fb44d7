//! How long the entry of an object is.

ghost use Rattle.std.specs.Prelude.{◌≡◌, ◌+◌, ◌<◌, ◌≤◌, ◌^◌, ℕ, length};
ghost use Rattle.git_model.specs.Content.{Content};
ghost use Rattle.pack_text.specs.PackText.{entry_text, size_text};

// How many bytes follow the first one of a head: seven bits of the rest of the size in each.
#[tactic(auto, unfolding(crate::specs::PackText::size_text))]
fn rest_len(left: u64, rest: u64) -> u64
    ensures length { (byte : ℕ) → length (size_text left byte rest) ≡ 1 + result }
    ensures few { result ≤ left }
{
    if left == 0 || rest == 0 {
        return 0;
    }
    1 + rest_len(left - 1, rest / 128)
}

/// The length, in bytes, of the entry of an object whose contents have this many bytes, fewer than
/// 2^63. Takes no memory.
pub fn entry_len(size: u64) -> u64
    ensures { (c : Content) → length c.bytes ≡ size → size < 2 ^ 63
        → result ≡ length (entry_text c) }
{
    let head = 1 + rest_len(10, size / 16);
    let blocks = size.saturating_sub(1) / 65_535 + 1;
    size.saturating_add(head + 2 + blocks * 5 + 4)
}
