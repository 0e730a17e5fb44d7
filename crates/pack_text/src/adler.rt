//! Adler-32: RFC 1950, section 8.2.

ghost use Rattle.std.specs.Prelude.{◌≡◌, ◌≤◌, ◌<◌, ◌+◌, length, sum};
ghost use Rattle.pack_text.specs.Adler.{adler32, high_sum};

const MODULUS: u64 = 65_521;

// How many bytes are added between two reductions. Their sums fit in 64 bits by far.
const CHUNK: usize = 65_536;

// The two sums after more bytes, from those before them.
fn sums_after(low_before: u64, high_before: u64, bytes: &[u8]) -> (u64, u64)
    requires few { length bytes.now ≤ 65536 }
    requires low { low_before < 65521 }
    requires high { high_before < 65521 }
    ensures low { result.0 ≡ low_before + sum bytes.now }
    ensures high { result.1 ≡ high_before + high_sum low_before bytes.now }
{
    let mut low = low_before;
    let mut high = high_before;
    for byte in bytes {
        low += *byte as u64;
        high += low;
    }
    (low, high)
}

/// The checksum of these bytes. Takes no memory.
pub fn adler32(bytes: &[u8]) -> u32
    ensures { result ≡ adler32 bytes.now }
{
    let mut low: u64 = 1;
    let mut high: u64 = 0;
    let mut left = bytes;
    while !left.is_empty() {
        let (few, more) = left.split_at(left.len().min(CHUNK));
        let sums = sums_after(low, high, few);
        low = sums.0 % MODULUS;
        high = sums.1 % MODULUS;
        left = more;
    }
    (high * 65_536 + low) as u32
}
