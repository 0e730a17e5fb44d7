//! Bytes that are read and judged in one call.

use super::files::{VERSION_1, VERSION_2, changed};
use super::parts::{code_of, number_of};
use byte_devices::Counted;
use git_names::TailNaming;
use pool_file_checks::read_judged;
use pool_file_format::{Fault, StreamingDigest};
use std::alloc::Global;

// What is answered if one byte of version 1 is greater by one and the digest is made right, byte by
// byte.
const CODES_1: &[u8; 66] = b"00000000111222222222522222222..2222222222.22222222\
    4444444422222222";

// The same of version 2.
const CODES_2: &[u8; 83] = b"00000000111122222222522222222..2222222222.22222222\
    44444444222222222277777..........";

// Version 1 with one thing wrong and its digest made right: an object of no kind, the number of no
// object, and a ref to the blob.
const NO_KIND: &[u8] = b"gitpool\n\0\0\0\x01\
    \0\0\0\0\0\0\0\x01\x05\0\0\0\0\0\0\0\x02ab\
    \0\0\0\0\0\0\0\x01\0\x01t\0\0\0\0\0\0\0\x01\0\0\0\0\0\0\0\0\
    \0\0\0\0\0\0\0\0\
    \xab\xab\xab\xab\xab\xab\xab\xab\xab\xab\xab\xab\xab\xab\xab\xab\xab\xab\xab\x4b";

const NO_OBJECT: &[u8] = b"gitpool\n\0\0\0\x01\
    \0\0\0\0\0\0\0\x01\x03\0\0\0\0\0\0\0\x02ab\
    \0\0\0\0\0\0\0\x01\0\x01t\0\0\0\0\0\0\0\x01\0\0\0\0\0\0\0\x01\
    \0\0\0\0\0\0\0\0\
    \xab\xab\xab\xab\xab\xab\xab\xab\xab\xab\xab\xab\xab\xab\xab\xab\xab\xab\xab\x4a";

const REF_TO_A_BLOB: &[u8] = b"gitpool\n\0\0\0\x01\
    \0\0\0\0\0\0\0\x01\x03\0\0\0\0\0\0\0\x02ab\
    \0\0\0\0\0\0\0\x01\0\x01t\0\0\0\0\0\0\0\x01\0\0\0\0\0\0\0\0\
    \0\0\0\0\0\0\0\x01\0\x1erefs/namespaces/t/refs/heads/m\0\0\0\0\0\0\0\0\
    \xab\xab\xab\xab\xab\xab\xab\xab\xab\xab\xab\xab\xab\xab\xab\xab\xab\xab\xab\xb9";

/// What reading and judging bytes answers.
pub fn code_of_judging<N: StreamingDigest>(alloc: Global, naming: &N, bytes: &[u8]) -> u16 {
    let mut reader = Counted::new(bytes);
    code_of(read_judged(alloc, naming, &mut reader))
}

// The last byte of a digest is the sum of all bytes before it, so it is greater by one too.
fn code_with_change(alloc: Global, file: &[u8], place: usize) -> Result<u16, Fault> {
    let bytes = changed(alloc, file, &[place, file.len().wrapping_sub(1)])?;
    Ok(code_of_judging(alloc, &TailNaming, &bytes))
}

fn are_judged_so(alloc: Global, file: &[u8], codes: &[u8]) -> Result<bool, Fault> {
    for (place, code) in codes.iter().enumerate() {
        if code_with_change(alloc, file, place)? != number_of(*code) {
            return Ok(false);
        }
    }
    Ok(true)
}

#[test]
fn judges_both_versions_byte_for_byte(rt: HostRuntime) {
    assert!(rt; code_of_judging(rt.alloc(), &TailNaming, VERSION_1) == 0);
    assert!(rt; code_of_judging(rt.alloc(), &TailNaming, VERSION_2) == 0);
}

#[test]
fn judges_files_with_one_thing_wrong_byte_for_byte(rt: HostRuntime) {
    assert!(rt; code_of_judging(rt.alloc(), &TailNaming, NO_KIND) == 65);
    assert!(rt; code_of_judging(rt.alloc(), &TailNaming, NO_OBJECT) == 64);
    assert!(rt; code_of_judging(rt.alloc(), &TailNaming, REF_TO_A_BLOB) == 67);
}

#[test]
fn judges_each_changed_byte_under_its_own_digest(rt: HostRuntime) {
    assert!(rt; are_judged_so(rt.alloc(), VERSION_1, CODES_1) == Ok(true));
    assert!(rt; are_judged_so(rt.alloc(), VERSION_2, CODES_2) == Ok(true));
}
