//! Whole packs, compared with one that Git made and one that a script in Python made; fronts of
//! them, if a writer fails.

ghost use Rattle.std.specs.Prelude.{map};
ghost use Rattle.git_model.specs.Content.{content_from};

use byte_devices::{Counted, DeviceFault, FailingWriter};
use git_model::Kind;
use git_names::{Name, Naming, Sha1Naming};
use pack_text::{PackContents, write_pack};
use std::alloc::{AllocError, Global};

const COMMIT: &[u8] = b"tree b2a7bc4969d397aa2ee4f6b854b919438a519547\n\
author Ada <ada@x> 1700000000 +0000\ncommitter Ada <ada@x> 1700000000 +0000\n\nfirst\n";

const TAG: &[u8] = b"object 04e6396c2ea1e2c7d0c9291adeab810a020f9063\ntype commit\ntag v1\n\
tagger Ada <ada@x> 1700000000 +0000\n\nrelease\n";

const TREE: &[u8] = b"100644 a\0\xce\x01\x36\x25\x03\x0b\xa8\xdb\xa9\x06\xf7\x56\x96\x7f\x9e\x9c\
\xa3\x94\x46\x4a100644 empty\0\xe6\x9d\xe2\x9b\xb2\xd1\xd6\x43\x4b\x8b\x29\xae\x77\x5a\xd8\xc2\
\xe4\x8c\x53\x91";

const OBJECTS: &[(Kind, &[u8])] = &[
    (Kind::Commit, COMMIT),
    (Kind::Tag, TAG),
    (Kind::Tree, TREE),
    (Kind::Blob, b"hello\n"),
    (Kind::Blob, b""),
];

// What `git -c core.compression=0 pack-objects --all --stdout --no-reuse-object --depth=0
// --window=0` wrote of these objects.
const PACK: &[u8] = b"PACK\0\0\0\x02\0\0\0\x05\
\x90\x08\x78\x01\x01\x80\0\x7f\xfftree b2a7bc4969d397aa2ee4f6b854b919438a519547\n\
author Ada <ada@x> 1700000000 +0000\ncommitter Ada <ada@x> 1700000000 +0000\n\nfirst\n\
\x0a\xe1\x22\x9d\
\xc0\x07\x78\x01\x01\x70\0\x8f\xffobject 04e6396c2ea1e2c7d0c9291adeab810a020f9063\n\
type commit\ntag v1\ntagger Ada <ada@x> 1700000000 +0000\n\nrelease\n\
\x58\xef\x20\x29\
\xae\x03\x78\x01\x01\x3e\0\xc1\xff100644 a\0\xce\x01\x36\x25\x03\x0b\xa8\xdb\xa9\x06\xf7\x56\
\x96\x7f\x9e\x9c\xa3\x94\x46\x4a100644 empty\0\xe6\x9d\xe2\x9b\xb2\xd1\xd6\x43\x4b\x8b\x29\xae\
\x77\x5a\xd8\xc2\xe4\x8c\x53\x91\
\xb9\xff\x1a\x04\
\x36\x78\x01\x01\x06\0\xf9\xffhello\n\x08\x4b\x02\x1f\
\x30\x78\x01\x01\0\0\xff\xff\0\0\0\x01\
\x33\x34\xa0\x2c\x50\x6e\x48\x4f\x79\xa4\x46\xb9\x03\x20\x44\x16\x48\x55\x52\x31";

// The pack of no objects, which Git writes too.
const EMPTY: &[u8] = b"PACK\0\0\0\x02\0\0\0\0\
\x02\x9d\x08\x82\x3b\xd8\xa8\xea\xb5\x10\xad\x6a\xc7\x5c\x82\x3c\xfd\x3e\xd3\x1e";

// Objects that lie in a list.
#[derive(Drop)]
struct Listed<'a> {
    objects: &'a [(Kind, &'a [u8])],
}

impl<'a> PackContents for Listed<'a> {
    ghost contents = { λ list. map (λ o. content_from o.0 o.1.now) list.objects.now };

    fn len(&self) -> usize {
        self.objects.len()
    }

    fn at(&self, position: usize) -> Option<(Kind, &[u8])> {
        let (kind, bytes) = self.objects.get(position)?;
        Some((*kind, *bytes))
    }
}

// Whether the pack of these objects has just these bytes, and one call wrote all but its digest.
fn is_written(alloc: Global, objects: &[(Kind, &[u8])], wanted: &[u8]) -> bool {
    let mut writer = Counted::new(Vec::new(alloc));
    let answer = write_pack(alloc, &Sha1Naming, &Listed { objects }, &mut writer);
    let calls = writer.calls();
    answer.is_ok() && calls == 2 && writer.into_inner().as_slice() == wanted
}

// Whether a writer that fails at this call, of one byte each, got all bytes before it.
fn is_front_written(alloc: Global, nth: usize) -> bool {
    let mut writer = Counted::new(FailingWriter::new(Vec::new(alloc), nth as u64));
    let answer = write_pack(
        alloc,
        &Sha1Naming,
        &Listed { objects: OBJECTS },
        &mut writer,
    );
    let faults = writer.faults();
    let written = writer.into_inner().into_inner();
    answer == Err(DeviceFault)
        && faults == 1
        && written.as_slice() == PACK.split_at(nth.min(PACK.len())).0
}

// The length of the pack of blobs of so many bytes 7, its SHA-1, and how many calls wrote it.
fn pack_of_sevens(alloc: Global, sizes: &[usize]) -> Result<(usize, [u8; 40], u64), AllocError> {
    let sevens = Vec::from_elem(alloc, 7, 200_000)?;
    let mut objects = Vec::new(alloc);
    for size in sizes {
        let (contents, _) = sevens.as_slice().split_at((*size).min(200_000));
        objects.push((Kind::Blob, contents))?;
    }
    let mut writer = Counted::new(Vec::new(alloc));
    let _answer = write_pack(
        alloc,
        &Sha1Naming,
        &Listed { objects: &objects },
        &mut writer,
    );
    let calls = writer.calls();
    let pack = writer.into_inner();
    let digest = Name::from_bytes(Sha1Naming.digest(&pack)).to_hex();
    Ok((pack.len(), digest, calls))
}

#[test]
fn writes_the_pack_that_git_writes(rt: HostRuntime) {
    assert!(rt; is_written(rt.alloc(), OBJECTS, PACK));
    assert!(rt; is_written(rt.alloc(), &[], EMPTY));
}

#[test]
fn leaves_a_front_of_a_pack_where_a_writer_fails(rt: HostRuntime) {
    for nth in 0..PACK.len() {
        assert!(rt; is_front_written(rt.alloc(), nth));
    }
}

// Python made the digest, and `git index-pack --strict` accepted the pack. No call writes 128 KiB or
// more.
#[test]
fn writes_large_contents_in_blocks(rt: HostRuntime) {
    let sizes = [
        0, 65_535, 65_536, 131_054, 131_055, 131_070, 131_071, 131_072, 1, 200_000,
    ];
    let digits = *b"157cd094610e52eb4b564a9b68ff9d2c1e9718f2";
    assert!(rt; pack_of_sevens(rt.alloc(), &sizes) == Ok((986_617, digits, 14)));
}
