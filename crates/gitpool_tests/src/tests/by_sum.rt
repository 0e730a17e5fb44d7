//! Two contents with the same name, and digits with which two names begin. In the naming of these
//! tests all names begin alike: nineteen bytes 0xab, and the sum of all bytes of the content.

use super::rows::{Do, Row, Told, first_otherwise};
use gitpool::TailNaming;

const AB: &[u8] = b"blob\nmark :1\ndata 2\nabcat-blob :1\n";

const AB_SHOWN: &[u8] = b"abababababababababababababababababababb4 blob 2\nab\n";

const BA: &[u8] = b"blob\nmark :1\ndata 2\nbacat-blob :1\n";

const BA_SHOWN: &[u8] = b"abababababababababababababababababababb4 blob 2\nba\n";

const ABBREVIATE_A: &[u8] = b"abbrev ababababababababababababababababababab51";

const NAME_OF_A: &[u8] = b"ababababababababababababababababababab51\n";

const SHOW_B: &[u8] = b"cat ababababababababababababababababababab52";

const B_SHOWN: &[u8] = b"ababababababababababababababababababab52 blob 1\nb\n";

// Two tenants have one content each, with the same name; a second content with that name is
// refused. Then `c` has two blobs, and `d` has the first of them. The whole name is printed if
// fewer digits do not suffice.
const ROWS: &[Row] = &[
    (Do::Open(b"a"), Told::Done, (0, 0, 0)),
    (Do::Open(b"b"), Told::Done, (0, 0, 0)),
    (Do::Feed(b"a", AB), Told::Prints(AB_SHOWN), (1, 2, 0)),
    (Do::Feed(b"b", BA), Told::Prints(BA_SHOWN), (2, 4, 0)),
    (
        Do::Feed(b"a", b"blob\ndata 2\nba"),
        Told::Refused(24),
        (1, 2, 0),
    ),
    (Do::Restart, Told::Done, (0, 0, 0)),
    (Do::Open(b"c"), Told::Done, (0, 0, 0)),
    (
        Do::Feed(b"c", b"blob\ndata 1\na\nblob\ndata 1\nb\n"),
        Told::Done,
        (2, 2, 0),
    ),
    (Do::End(b"c"), Told::Done, (2, 2, 1)),
    (Do::Open(b"d"), Told::Done, (2, 2, 1)),
    (Do::Feed(b"d", b"blob\ndata 1\na\n"), Told::Done, (2, 2, 1)),
    (Do::End(b"d"), Told::Done, (2, 2, 2)),
    (
        Do::Ask(b"c", b"rev-parse abab"),
        Told::Refused(17),
        (2, 2, 2),
    ),
    (Do::Ask(b"c", b"abbrev abab"), Told::Refused(17), (2, 2, 2)),
    (
        Do::Ask(b"c", ABBREVIATE_A),
        Told::Prints(NAME_OF_A),
        (2, 2, 2),
    ),
    (Do::Ask(b"c", SHOW_B), Told::Prints(B_SHOWN), (2, 2, 2)),
    (
        Do::Ask(b"d", b"rev-parse abab"),
        Told::Prints(NAME_OF_A),
        (2, 2, 2),
    ),
    (
        Do::Ask(b"d", b"abbrev abab"),
        Told::Prints(b"abab\n"),
        (2, 2, 2),
    ),
    (Do::Ask(b"d", SHOW_B), Told::Refused(16), (2, 2, 2)),
];

#[test]
fn keeps_contents_of_one_name_apart_and_refuses_digits_of_two_names(rt: HostRuntime) {
    assert_eq!(rt; first_otherwise(rt.alloc(), TailNaming, ROWS), None);
}
