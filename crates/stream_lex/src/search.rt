//! The search for line ends, which scans no byte twice.

ghost use Rattle.std.specs.Prelude.{◌≤◌, length};
ghost use Rattle.stream_lex.specs.Search.{FindsLineEnd, GoesOver};

use memchr::memchr;

/// How far the search for a line end has come in some bytes, and how many bytes it has scanned in
/// all.
#[derive(Clone, Copy)]
pub struct Search {
    /// How many of the bytes, from the first on, were scanned or are known already.
    pub seen: usize,
    /// How many bytes were scanned in all; it stays at the greatest number.
    pub searched: u64,
}

impl Search {
    /// The position of the first line end in `bytes` after those that were seen.
    pub fn line_end(&mut self, bytes: &[u8]) -> Option<usize>
        requires { self.old.seen ≤ length bytes.now }
        ensures found { FindsLineEnd bytes.now self.old.seen result }
        ensures counted { GoesOver bytes.now self.old result self.new }
    {
        let fresh = bytes.split_at(self.seen).1;
        let (end, gone) = match memchr(b'\n', fresh) {
            Some(at) => (Some(self.seen + at), at + 1),
            None => (None, fresh.len()),
        };
        self.seen += gone;
        self.searched = self.searched.saturating_add(gone as u64);
        end
    }
}
