//! Questions for a pack that come as frames. The names are those that git gives.

use super::hosting::{Frame, hosted, put_frames};
use super::memory_place::MemoryPlace;

const STREAM: &[u8] = b"blob\ndata 6\nhello\n";

// The name of the blob `hello`, as the only wanted one, as a had one, and after a limit.
const WANTED: &[u8] =
    b"\0\0\0\x01\xce\x01\x36\x25\x03\x0b\xa8\xdb\xa9\x06\xf7\x56\x96\x7f\x9e\x9c\xa3\x94\x46\x4a";

const HAD: &[u8] =
    b"\0\0\0\0\xce\x01\x36\x25\x03\x0b\xa8\xdb\xa9\x06\xf7\x56\x96\x7f\x9e\x9c\xa3\x94\x46\x4a";

const WITHIN: &[u8] =
    b"\0\0\0\0\0\0\0\x12\xce\x01\x36\x25\x03\x0b\xa8\xdb\xa9\x06\xf7\x56\x96\x7f\x9e\x9c\xa3\x94\x46\x4a";

const BEYOND: &[u8] =
    b"\0\0\0\0\0\0\0\x11\xce\x01\x36\x25\x03\x0b\xa8\xdb\xa9\x06\xf7\x56\x96\x7f\x9e\x9c\xa3\x94\x46\x4a";

const FRAMES: &[Frame] = &[
    (1, b"acme", b""),
    (2, b"acme", STREAM),
    (3, b"acme", b""),
    (22, b"acme", WANTED),
    (22, b"acme", HAD),
    (22, b"other", WANTED),
    (22, b"a b", WANTED),
    (23, b"acme", WITHIN),
    (23, b"acme", BEYOND),
    (23, b"other", WITHIN),
];

// Three answers Ok; Ok with 29 bytes, Ok without a reply, 16 and 32; Ok with 18 bytes, 25 and 16.
const ANSWERS: &[u8] = b"\0\0\0\0\0\0\0\0\0\0\0\0\0\0\0\0\0\
    \0\0\0\0\0\0\0\0\0\0\0\0\0\0\0\0\0\
    \0\0\0\0\0\0\0\0\0\0\0\0\0\0\0\0\0\
    \0\0\0\0\0\0\0\0\0\0\0\0\0\0\0\0\x1d\
    \xce\x01\x36\x25\x03\x0b\xa8\xdb\xa9\x06\xf7\x56\x96\x7f\x9e\x9c\xa3\x94\x46\x4a\
    \x03\0\0\0\0\0\0\0\x06\
    \0\0\0\0\0\0\0\0\0\0\0\0\0\0\0\0\0\
    \x01\0\0\0\0\0\0\0\x10\0\0\0\0\0\0\0\0\
    \x01\0\0\0\0\0\0\0\x20\0\0\0\0\0\0\0\0\
    \0\0\0\0\0\0\0\0\0\0\0\0\0\0\0\0\x12\
    \x36\x78\x01\x01\x06\x00\xf9\xffhello\n\x08\x4b\x02\x1f\
    \x01\0\0\0\0\0\0\0\x19\0\0\0\0\0\0\0\0\
    \x01\0\0\0\0\0\0\0\x10\0\0\0\0\0\0\0\0";

fn are_answered(place: &mut MemoryPlace) -> bool {
    let alloc = place.alloc;
    let mut bytes = Vec::new(alloc);
    let mut out = Vec::new(alloc);
    put_frames(&mut bytes, FRAMES).is_ok()
        && hosted(alloc, place, &bytes, &mut out) == Ok(())
        && out.as_slice() == ANSWERS
}

#[test]
fn questions_for_a_pack_are_answered(rt: HostRuntime) {
    let mut place = MemoryPlace::new(rt.alloc(), 0);
    assert!(rt; are_answered(&mut place));
}
