//! A naming for tests, under which collisions are easy to find.

ghost use Rattle.std.specs.Prelude.{◌≡◌, ◌%◌, sum};
ghost use Rattle.git_names.specs.{Digests.{tail_answers_names}, Naming.{tail_digest}};

use crate::naming::Naming;

/// Names an object by nineteen bytes 0xab and then the sum of all bytes of the message modulo 256,
/// so that `ab` and `ba` have the same name.
#[derive(Clone, Copy, Debug, Drop)]
pub struct TailNaming;

impl Naming for TailNaming {
    ghost digest_of = { tail_digest };

    ghost answers_names = { tail_answers_names };

    fn digest(&self, bytes: &[u8]) -> [u8; 20] {
        let mut digest = [0xab; 20];
        digest[19] = sum_of(bytes);
        digest
    }
}

// The sum of all bytes, modulo 256.
fn sum_of(bytes: &[u8]) -> u8
    ensures { result ≡ sum bytes.now % 256 }
{
    let mut sum: u8 = 0;
    for byte in bytes {
        sum = sum.wrapping_add(*byte);
    }
    sum
}
