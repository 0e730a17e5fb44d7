//! Packs of a tenant, by the lines that a reader has: what is written, what refuses the lines, and
//! devices that fail. git accepted the packs; zlib and SHA-1 of Python made their bytes.

use super::one_byte::OneByte;
use super::packing::{PACK, STREAM, is_written};
use super::told::takes;
use byte_devices::{FailingReader, FailingWriter};
use gitpool::{Counted, PackFault, Service, Sha1Naming, pack};
use std::alloc::Global;

// A tenant, whether every ref is wanted, the lines, and the pack or the number of the refusal.
type Asked = (
    &'static [u8],
    bool,
    &'static [u8],
    Result<&'static [u8], u16>,
);

// The pack of the second commit alone.
const COMMIT: &[u8] = b"PACK\x00\x00\x00\x02\x00\x00\x00\x01\
    \x92\x09\x78\x01\x01\x92\x00\x6d\xfftree 463487d62f5c28b7973ad2296f8b1c4b1e4d499c\n\
    parent 28139c25c808723300683a56bda158d153221c0e\nauthor A <a@b> 1 +0000\n\
    committer A <a@b> 1 +0000\n\ny\n\x6b\xc6\x26\xb3\
    \x51\xf5\xed\x51\x6a\x54\xdc\x6b\xc0\xbe\x32\x00\xf1\x93\xaf\xdb\xb2\x63\x4e\xf0";

const NOTHING: &[u8] = b"PACK\x00\x00\x00\x02\x00\x00\x00\x00\
    \x02\x9d\x08\x82\x3b\xd8\xa8\xea\xb5\x10\xad\x6a\xc7\x5c\x82\x3c\xfd\x3e\xd3\x1e";

// The name of the blob of PACK.
const AB: &[u8] = b"81bf396956110ad81c14860af1bbcc9dfbe4df20\n";

// The tree of the second commit, and the first commit, which are there already.
const HAD: &[u8] = b"^463487d62f5c28b7973ad2296f8b1c4b1e4d499c\n\
    ^28139c25c808723300683a56bda158d153221c0e\n";

const ASKED: &[Asked] = &[
    (b"acme", false, AB, Ok(PACK)),
    (
        b"acme",
        false,
        b"81BF396956110AD81C14860AF1BBCC9DFBE4DF20",
        Ok(PACK),
    ),
    (b"acme", false, b"", Ok(NOTHING)),
    (b"acme", true, HAD, Ok(COMMIT)),
    (
        b"acme",
        true,
        b"^a1a1e7249b6457feefcf075455d315500a842795\n",
        Ok(NOTHING),
    ),
    (
        b"acme",
        false,
        b"^0000000000000000000000000000000000000000\n81bf396956110ad81c14860af1bbcc9dfbe4df20",
        Ok(PACK),
    ),
    (b"nobody", true, b"", Ok(NOTHING)),
    (b"nobody", false, AB, Err(16)),
    (b"acme", false, b"\n", Err(16)),
    (b"acme", false, b"main\n", Err(16)),
    (b"acme", false, b"^main\n", Err(16)),
    (
        b"acme",
        false,
        b"81bf396956110ad81c14860af1bbcc9dfbe4df20\n\n",
        Err(16),
    ),
    (
        b"acme",
        false,
        b"81bf396956110ad81c14860af1bbcc9dfbe4df20 \n",
        Err(16),
    ),
    (
        b"acme",
        false,
        b"^^81bf396956110ad81c14860af1bbcc9dfbe4df20\n",
        Err(16),
    ),
    (b"a b", true, b"", Err(32)),
];

// Whether this pack is written; or nothing, under this number.
fn packs_so(alloc: Global, service: &Service<Sha1Naming>, row: &Asked) -> bool {
    let (tenant, all, lines, expected) = *row;
    let mut reader = Counted::new(OneByte::new(lines));
    let mut writer = Counted::new(Vec::new(alloc));
    let packed = pack(alloc, service, tenant, all, &mut reader, &mut writer);
    is_written(&writer.into_inner(), packed, expected)
}

// The place of the first row of which something else is true.
fn first_wrong(alloc: Global, service: &Service<Sha1Naming>) -> Option<usize> {
    for (place, row) in ASKED.iter().enumerate() {
        if !packs_so(alloc, service, row) {
            return Some(place);
        }
    }
    None
}

// Whether a reader that fails at its nth call is told, and nothing is written.
fn tells_read(alloc: Global, service: &Service<Sha1Naming>, nth: u64) -> bool {
    let mut reader = Counted::new(FailingReader::new(OneByte::new(AB), nth));
    let mut writer = Counted::new(Vec::new(alloc));
    let packed = pack(alloc, service, b"acme", false, &mut reader, &mut writer);
    packed == Err(PackFault::Device) && reader.faults() == 1 && writer.calls() == 0
}

// Whether a writer that fails at its nth call is told, after the bytes before it are written.
fn tells_write(alloc: Global, service: &Service<Sha1Naming>, nth: u64) -> bool {
    let mut reader = Counted::new(AB);
    let mut writer = Counted::new(FailingWriter::new(Vec::new(alloc), nth));
    let packed = pack(alloc, service, b"acme", false, &mut reader, &mut writer);
    let faults = writer.faults();
    let written = writer.into_inner().into_inner();
    packed == Err(PackFault::Device)
        && faults == 1
        && Some(written.as_slice()) == PACK.get(..nth as usize)
}

#[test]
fn a_pack_has_what_the_lines_ask_for(rt: HostRuntime) {
    let mut service = Service::new(rt.alloc(), Sha1Naming);
    assert!(rt; takes(rt.alloc(), &mut service, b"acme", STREAM));
    assert_eq!(rt; first_wrong(rt.alloc(), &service), None);
}

// Each byte is one call, and the call after the last one finds the end of the lines.
#[test]
fn a_pack_tells_each_call_that_fails(rt: HostRuntime) {
    let mut service = Service::new(rt.alloc(), Sha1Naming);
    assert!(rt; takes(rt.alloc(), &mut service, b"acme", STREAM));
    for nth in 0..=AB.len() as u64 {
        assert!(rt; tells_read(rt.alloc(), &service, nth), "at {nth}");
    }
    for nth in 0..PACK.len() as u64 {
        assert!(rt; tells_write(rt.alloc(), &service, nth), "at {nth}");
    }
}
