// The longest body that is stored: of 2^30 bytes. A longer one is relayed.
use crate::saying::says_nothing;
use pp_play::{Act, Exchange, Filed, GET, Part, Step, T, Wanted, unlike};
use pp_world::Decision;
use std::test::Fail;

/// The head of the longest body that is stored. No entry has so long a one: what left memory is nowhere.
pub(crate) const LONGEST: &[u8] =
    b"HTTP/1.1 200 OK\r\nDate: Sun, 06 Nov 1994 08:49:37 GMT\r\nETag: \"x\"\r\nCache-Control: max-age=60\r\nContent-Length: 1073741824\r\n\r\n";

/// A client that wants the first chunk, and only where it is held.
const ONLY_FIRST: &[u8] =
    b"GET http://h/a HTTP/1.1\r\nHost: h\r\nRange: bytes=0-4095\r\nCache-Control: only-if-cached\r\n\r\n";

const LENGTHS: &[Exchange<'static>] = &[
    Exchange {
        name: "what came of a body of 2^30 bytes is held",
        acts: &[
            Act::Tick(T),
            Act::Connect,
            Act::Say(1, GET),
            Act::Reach(2),
            Act::Answer(2, LONGEST),
            Act::Fill(2, b'a', 4_096),
            Act::Connect,
            Act::Say(3, ONLY_FIRST),
        ],
        wanted: &[
            Wanted::Count(Step::Dialled(80), 1),
            Wanted::Taken(1, Decision::Part(0, 1_073_741_824)),
            Wanted::Said(
                1,
                &[
                    Part::Text(
                        b"HTTP/1.1 200 OK\r\netag: \"x\"\r\ndate: Sun, 06 Nov 1994 08:49:37 GMT\r\ncache-control: max-age=60\r\nvia: 1.1 polipo\r\ncontent-length: 1073741824\r\nconnection: keep-alive\r\n\r\n",
                    ),
                    Part::Fill(b'a', 4_096),
                ],
            ),
            Wanted::Taken(3, Decision::Hit(0, 4_096)),
            Wanted::Said(
                3,
                &[
                    Part::Text(
                        b"HTTP/1.1 206 Partial Content\r\netag: \"x\"\r\ndate: Sun, 06 Nov 1994 08:49:37 GMT\r\ncache-control: max-age=60\r\nage: 0\r\nvia: 1.1 polipo\r\ncontent-range: bytes 0-4095/1073741824\r\ncontent-length: 4096\r\nconnection: keep-alive\r\n\r\n",
                    ),
                    Part::Fill(b'a', 4_096),
                ],
            ),
            Wanted::Filed(&[Filed::Woke(false)]),
        ],
    },
    Exchange {
        name: "one that is longer by a byte is relayed",
        acts: &[
            Act::Tick(T),
            Act::Connect,
            Act::Say(1, GET),
            Act::Reach(2),
            Act::Answer(
                2,
                b"HTTP/1.1 200 OK\r\nDate: Sun, 06 Nov 1994 08:49:37 GMT\r\nETag: \"x\"\r\nCache-Control: max-age=60\r\nContent-Length: 1073741825\r\n\r\n",
            ),
            Act::Fill(2, b'a', 4_096),
            Act::Connect,
            Act::Say(3, ONLY_FIRST),
        ],
        wanted: &[
            Wanted::Count(Step::Dialled(80), 1),
            Wanted::Taken(1, Decision::Relay),
            Wanted::Said(
                1,
                &[
                    Part::Text(
                        b"HTTP/1.1 200 OK\r\ndate: Sun, 06 Nov 1994 08:49:37 GMT\r\netag: \"x\"\r\ncache-control: max-age=60\r\nvia: 1.1 polipo\r\ncontent-length: 1073741825\r\nconnection: keep-alive\r\n\r\n",
                    ),
                    Part::Fill(b'a', 4_096),
                ],
            ),
            Wanted::Taken(3, Decision::Refuse(504)),
            Wanted::Filed(&[Filed::Woke(false)]),
        ],
    },
];

#[test]
fn a_body_of_2_to_the_30_is_stored_and_a_longer_one_relayed(rt: HostRuntime) -> Result<(), Fail> {
    says_nothing(&rt, unlike(rt.alloc(), LENGTHS))
}
