//! Services that are loaded from a pool file and saved to one.

use byte_devices::FailingReader;
use gitpool::{Counted, Naming, PoolFault, Service, StreamingDigest, TailNaming};
use std::alloc::Global;
use std::io::Read;

// The tenant `t` with the one blob `ab`, in version 1.
const VERSION_1: &[u8] = b"gitpool\n\0\0\0\x01\0\0\0\0\0\0\0\x01\x03\0\0\0\0\0\0\0\x02ab\
    \0\0\0\0\0\0\0\x01\0\x01t\0\0\0\0\0\0\0\x01\0\0\0\0\0\0\0\0\0\0\0\0\0\0\0\0\
    \xab\xab\xab\xab\xab\xab\xab\xab\xab\xab\xab\xab\xab\xab\xab\xab\xab\xab\xab\x49";

// The same in version 2, with HEAD.
const VERSION_2: &[u8] = b"gitpool\n\0\0\0\x02\0\0\0\0\0\0\0\x01\x03\0\0\0\0\0\0\0\x02ab\
    \0\0\0\0\0\0\0\x01\0\x01t\0\0\0\0\0\0\0\x01\0\0\0\0\0\0\0\0\0\0\0\0\0\0\0\0\
    \0\x0frefs/heads/main\
    \xab\xab\xab\xab\xab\xab\xab\xab\xab\xab\xab\xab\xab\xab\xab\xab\xab\xab\xab\x11";

// Other bytes of version 1 at these places, and the number that refuses it.
type Change = (&'static [(usize, u8)], u16);

const CHANGES: &[Change] = &[
    // With a digest that fits the changed file: an object of an unknown kind, and the number of an
    // object that is not there.
    (&[(20, 5), (85, b'\x4b')], 65),
    (&[(57, 1), (85, b'\x4a')], 64),
    // With the old digest: the number of version 2, but no HEAD; a count of 0 objects; another byte
    // in the blob.
    (&[(11, 2)], 62),
    (&[(19, 0)], 62),
    (&[(30, b'c')], 63),
];

// Version 1 with a ref to the blob, and a digest that fits.
const WITH_REF: &[u8] = b"gitpool\n\0\0\0\x01\0\0\0\0\0\0\0\x01\x03\0\0\0\0\0\0\0\x02ab\
    \0\0\0\0\0\0\0\x01\0\x01t\0\0\0\0\0\0\0\x01\0\0\0\0\0\0\0\0\0\0\0\0\0\0\0\x01\
    \0\x1erefs/namespaces/t/refs/heads/m\0\0\0\0\0\0\0\0\
    \xab\xab\xab\xab\xab\xab\xab\xab\xab\xab\xab\xab\xab\xab\xab\xab\xab\xab\xab\xb9";

/// The file that a service saves; nothing if the save fails.
pub fn saved<N: Naming + StreamingDigest>(alloc: Global, service: &Service<N>) -> Vec<u8> {
    let mut writer = Counted::new(Vec::new(alloc));
    let is_saved = service.save(&mut writer).is_ok();
    let mut file = writer.into_inner();
    if !is_saved {
        file.clear();
    }
    file
}

/// Whether saving the service writes this file.
pub fn is_saved_as<N: Naming + StreamingDigest>(
    alloc: Global,
    service: &Service<N>,
    file: &[u8],
) -> bool {
    let mut writer = Counted::new(Vec::new(alloc));
    let is_saved = service.save(&mut writer).is_ok();
    let written = writer.into_inner();
    is_saved && written.as_slice() == file
}

/// The fault of loading a service from a reader, `None` if it is loaded; and the number of calls.
pub fn refusal_of<N: Naming + StreamingDigest, R: Read + Drop>(
    alloc: Global,
    naming: N,
    reader: R,
) -> (Option<PoolFault>, u64) {
    let mut counted = Counted::new(reader);
    let refusal = Service::load(alloc, naming, &mut counted).err();
    (refusal, counted.calls())
}

// Whether a service has one blob of two bytes, and is saved in version 2.
fn is_that(alloc: Global, service: &Service<TailNaming>) -> bool {
    let counts = service.stored() == (1, 2) && service.tenants() == 1;
    counts && is_saved_as(alloc, service, VERSION_2)
}

fn is_that_of(alloc: Global, service: Service<TailNaming>) -> bool {
    let is_that = is_that(alloc, &service);
    drop(service);
    is_that
}

fn load(alloc: Global, file: &[u8]) -> Result<Service<TailNaming>, PoolFault> {
    let mut reader = Counted::new(file);
    Service::load(alloc, TailNaming, &mut reader)
}

// Whether a file gives such a service.
fn comes_back(alloc: Global, file: &[u8]) -> bool {
    match load(alloc, file) {
        Ok(service) => is_that_of(alloc, service),
        Err(_) => false,
    }
}

// The number that refuses a file, or 0 if it is loaded.
fn number_of(alloc: Global, file: &[u8]) -> u16 {
    match refusal_of(alloc, TailNaming, file).0 {
        Some(fault) => fault.code(),
        None => 0,
    }
}

fn change(file: &mut [u8], changes: &[(usize, u8)]) {
    for (place, byte) in changes {
        if let Some(changed) = file.get_mut(*place) {
            *changed = *byte;
        }
    }
}

fn is_refused_with(alloc: Global, changes: &[(usize, u8)], number: u16) -> bool {
    let mut file = Vec::new(alloc);
    let is_copied = file.extend_from_slice(VERSION_1).is_ok();
    change(&mut file, changes);
    is_copied && number_of(alloc, &file) == number
}

// Whether version 1 is refused with one more byte at its end.
fn is_refused_with_more(alloc: Global) -> bool {
    let mut file = Vec::new(alloc);
    file.extend_from_slice(VERSION_1).is_ok()
        && file.push(0).is_ok()
        && number_of(alloc, &file) == 69
}

// The size of the first prefix of a file that is not refused as cut off (62).
fn first_front_otherwise(alloc: Global, file: &[u8]) -> Option<usize> {
    for size in 0..file.len() {
        if number_of(alloc, file.split_at(size).0) != 62 {
            return Some(size);
        }
    }
    None
}

// Whether this number may refuse a file with another byte at this place.
fn may_refuse(place: usize, number: u16) -> bool {
    match place {
        0..=7 => number == 60,
        8..=11 => number == 61,
        _ => number == 62 || number == 63 || number == 69,
    }
}

// Whether a file is refused like this when the byte at this place is greater by two. Adding two
// never turns the number of one version into that of the other.
fn is_refused_with_change(alloc: Global, bytes: &mut [u8], place: usize) -> bool {
    if place < bytes.len() {
        bytes[place] = bytes[place].wrapping_add(2);
    }
    may_refuse(place, number_of(alloc, bytes))
}

fn is_change_refused(alloc: Global, file: &[u8], place: usize) -> bool {
    let mut bytes = Vec::new(alloc);
    bytes.extend_from_slice(file).is_ok() && is_refused_with_change(alloc, &mut bytes, place)
}

// The first place of a file where another byte is accepted, or refused under a wrong number.
fn first_change_otherwise(alloc: Global, file: &[u8]) -> Option<usize> {
    for place in 0..file.len() {
        if !is_change_refused(alloc, file, place) {
            return Some(place);
        }
    }
    None
}

// The number of calls that loading version 1 from a slice makes.
const READS: u64 = 21;

fn fails_at_each(alloc: Global) -> bool {
    for nth in 0..READS {
        let reader = FailingReader::new(VERSION_1, nth);
        if refusal_of(alloc, TailNaming, reader).0 != Some(PoolFault::Device) {
            return false;
        }
    }
    true
}

#[test]
fn version_1_comes_back_as_version_2(rt: HostRuntime) {
    assert!(rt; comes_back(rt.alloc(), VERSION_1));
}

#[test]
fn version_2_comes_back(rt: HostRuntime) {
    assert!(rt; comes_back(rt.alloc(), VERSION_2));
}

#[test]
fn is_not_loaded_from_a_device_that_fails(rt: HostRuntime) {
    assert!(rt; fails_at_each(rt.alloc()));
}

#[test]
fn is_not_loaded_from_a_file_with_one_thing_wrong(rt: HostRuntime) {
    for (place, (changes, number)) in CHANGES.iter().enumerate() {
        assert!(rt; is_refused_with(rt.alloc(), changes, *number), "at {place}");
    }
    assert_eq!(rt; number_of(rt.alloc(), WITH_REF), 67);
    assert!(rt; is_refused_with_more(rt.alloc()));
}

#[test]
fn is_not_loaded_from_a_front_of_a_file(rt: HostRuntime) {
    assert_eq!(rt; first_front_otherwise(rt.alloc(), VERSION_1), None);
    assert_eq!(rt; first_front_otherwise(rt.alloc(), VERSION_2), None);
}

#[test]
fn is_not_loaded_where_one_byte_is_another(rt: HostRuntime) {
    assert_eq!(rt; first_change_otherwise(rt.alloc(), VERSION_1), None);
    assert_eq!(rt; first_change_otherwise(rt.alloc(), VERSION_2), None);
}
