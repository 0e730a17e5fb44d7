//! The letters after a backslash in quotes: git-config(1), core.quotePath.

/// Each letter, and the byte that it means.
pub(crate) const LETTERS: [(u8, u8); 9] = [
    (b'a', 7),
    (b'b', 8),
    (b't', 9),
    (b'n', 10),
    (b'v', 11),
    (b'f', 12),
    (b'r', 13),
    (b'"', b'"'),
    (b'\\', b'\\'),
];
