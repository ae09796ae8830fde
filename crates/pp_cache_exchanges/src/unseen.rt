// What nobody will see is not read on (ours; RFC 2616, section 8.1.4 lets either side close at any time).
//
// A client is lost by two breaks: where the first fails a read, it counts as one that sends no more; the other fails the next
// write.
use crate::saying::says_nothing;
use pp_play::{Act, Exchange, GET, Pace, Part, Step, T, Wanted, unlike, unlike_at};
use std::test::Fail;

/// The course of an origin's connection that was asked so many bytes: it is dropped; or it stands until the program ends.
macro_rules! dropped {
    ($asked:literal) => {
        Wanted::Course(
            2,
            &[Step::Dialled(80), Step::Reached, Step::Asked($asked), Step::Dropped, Step::Stopped],
        )
    };
}

macro_rules! stands {
    ($asked:literal) => {
        Wanted::Course(
            2,
            &[Step::Dialled(80), Step::Reached, Step::Asked($asked), Step::Stopped, Step::Dropped],
        )
    };
}

/// The client is gone behind the first bytes of a response that is passed to it alone, and more comes.
macro_rules! passed {
    ($name:literal, $request:expr, $response:literal, $more:literal, $asked:literal) => {
        Exchange {
            name: $name,
            acts: &[
                Act::Connect,
                Act::Say(1, $request),
                Act::Reach(2),
                Act::Answer(2, $response),
                Act::Break(1),
                Act::Break(1),
                Act::Answer(2, $more),
            ],
            wanted: &[Wanted::Shut(1), dropped!($asked)],
        }
    };
}

const PASSED: &[Exchange<'static>] = &[
    passed!(
        "a long body",
        GET,
        b"HTTP/1.1 200 OK\r\nContent-Length: 1000000\r\n\r\nhello",
        b"hello",
        45
    ),
    passed!(
        "chunks",
        b"GET http://h/a HTTP/1.1\r\nCache-Control: no-store\r\n\r\n",
        b"HTTP/1.1 200 OK\r\nTransfer-Encoding: chunked\r\n\r\n5\r\nhello\r\n",
        b"5\r\nhello\r\n",
        70
    ),
    passed!(
        "a body that the connection's end ends",
        GET,
        b"HTTP/1.1 200 OK\r\n\r\nla la",
        b" la",
        45
    ),
    Exchange {
        name: "before its head came, where its client goes while it is said to continue",
        acts: &[
            Act::Connect,
            Act::Window(1, 0),
            Act::Say(
                1,
                b"POST http://h/a HTTP/1.1\r\nExpect: 100-continue\r\nContent-Length: 3\r\n\r\nabc",
            ),
            Act::Reach(2),
            Act::Break(1),
            Act::Break(1),
            Act::Window(1, 1),
        ],
        wanted: &[Wanted::Said(1, &[]), Wanted::Shut(1), dropped!(68)],
    },
];

#[test]
fn what_is_passed_to_nobody_is_not_read_on(rt: HostRuntime) -> Result<(), Fail> {
    says_nothing(&rt, unlike(rt.alloc(), PASSED))
}

/// The client took the head of the reply, of 160 bytes, and ten bytes of its body, and is gone behind eleven that came. Then so
/// many come.
macro_rules! kept {
    ($name:literal, $head:literal, $more:literal, [$($then:expr),*], [$($wanted:expr),*]) => {
        Exchange {
            name: $name,
            acts: &[
                Act::Tick(T),
                Act::Connect,
                Act::Window(1, 170),
                Act::Say(1, GET),
                Act::Reach(2),
                Act::Answer(2, $head),
                Act::Fill(2, b'a', 11),
                Act::Break(1),
                Act::Break(1),
                Act::Window(1, 1),
                Act::Fill(2, b'a', $more),
                $($then),*
            ],
            wanted: &[Wanted::Shut(1), $($wanted),*],
        }
    };
}

/// A part without a version, that was asked for from the begin of a chunk on, is dropped as it comes, and its request passed.
macro_rules! useless {
    ($name:literal, $count:literal, $wanted:expr) => {
        Exchange {
            name: $name,
            acts: &[
                Act::Connect,
                Act::Say(1, b"GET http://h/d HTTP/1.1\r\nRange: bytes=5000-5004\r\n\r\n"),
                Act::Reach(2),
                Act::Answer(
                    2,
                    b"HTTP/1.1 206 Partial Content\r\nContent-Range: bytes 4096-104095/200000\r\nContent-Length: 100000\r\n\r\n",
                ),
                Act::Fill(2, b'd', $count),
                Act::Reach(3),
                Act::Answer(
                    3,
                    b"HTTP/1.1 206 Partial Content\r\nContent-Range: bytes 5000-5004/200000\r\nContent-Length: 5\r\n\r\nddddd",
                ),
            ],
            wanted: &[
                $wanted,
                Wanted::Said(
                    1,
                    &[Part::Text(
                        b"HTTP/1.1 206 Partial Content\r\ncontent-range: bytes 5000-5004/200000\r\nvia: 1.1 polipo\r\ncontent-length: 5\r\nconnection: keep-alive\r\n\r\nddddd",
                    )],
                ),
            ],
        }
    };
}

/// 256 chunks are 1,048,576 bytes.
const LONG: &[Exchange<'static>] = &[
    kept!(
        "256 chunks past where its last client left, and more than that is left",
        b"HTTP/1.1 200 OK\r\nDate: Sun, 06 Nov 1994 08:49:37 GMT\r\nETag: \"x\"\r\nCache-Control: max-age=60\r\nContent-Length: 2097164\r\n\r\n",
        1_048_575,
        [],
        [stands!(45)]
    ),
    kept!(
        "a byte further, and 256 chunks are left",
        b"HTTP/1.1 200 OK\r\nDate: Sun, 06 Nov 1994 08:49:37 GMT\r\nETag: \"x\"\r\nCache-Control: max-age=60\r\nContent-Length: 2097163\r\n\r\n",
        1_048_576,
        [],
        [stands!(45)]
    ),
    kept!(
        "a byte further, and more is left: what is held stays, and of the rest what is wanted is asked for",
        b"HTTP/1.1 200 OK\r\nDate: Sun, 06 Nov 1994 08:49:37 GMT\r\nETag: \"x\"\r\nCache-Control: max-age=60\r\nContent-Length: 2097164\r\n\r\n",
        1_048_576,
        [
            Act::Connect,
            Act::Say(
                3,
                b"GET http://h/a HTTP/1.1\r\nRange: bytes=1048576-1048589\r\n\r\n"
            ),
            Act::Reach(4),
            Act::Answer(
                4,
                b"HTTP/1.1 206 Partial Content\r\nETag: \"x\"\r\nContent-Range: bytes 1048587-1048589/2097164\r\nContent-Length: 3\r\n\r\nbbb"
            )
        ],
        [
            dropped!(45),
            Wanted::Asked(
                4,
                &[
                    b"GET /a HTTP/1.1\r\nhost: h\r\nrange: bytes=1048587-1048589\r\nif-range: \"x\"\r\nvia: 1.1 polipo\r\n\r\n"
                ]
            ),
            Wanted::Said(
                3,
                &[Part::Text(
                    b"HTTP/1.1 206 Partial Content\r\netag: \"x\"\r\ndate: Sun, 06 Nov 1994 08:49:37 GMT\r\ncache-control: max-age=60\r\nage: 0\r\nvia: 1.1 polipo\r\ncontent-range: bytes 1048576-1048589/2097164\r\ncontent-length: 14\r\nconnection: keep-alive\r\n\r\naaaaaaaaaaabbb"
                )]
            )
        ]
    ),
    Exchange {
        name: "the last client of its body left far ahead of it",
        acts: &[
            Act::Tick(T),
            Act::Connect,
            Act::Window(1, 170),
            Act::Say(1, GET),
            Act::Reach(2),
            Act::Answer(
                2,
                b"HTTP/1.1 200 OK\r\nDate: Sun, 06 Nov 1994 08:49:37 GMT\r\nETag: \"x\"\r\nCache-Control: max-age=60\r\nContent-Length: 4000000\r\n\r\n",
            ),
            Act::Fill(2, b'a', 11),
            Act::Connect,
            Act::Say(
                3,
                b"GET http://h/a HTTP/1.1\r\nRange: bytes=3497984-3497987\r\n\r\n",
            ),
            Act::Reach(4),
            Act::Break(1),
            Act::Break(1),
            Act::Window(1, 1),
            Act::Answer(
                4,
                b"HTTP/1.1 206 Partial Content\r\nETag: \"x\"\r\nContent-Range: bytes 3497984-3497987/4000000\r\nContent-Length: 4\r\n\r\nbbbb",
            ),
        ],
        wanted: &[
            Wanted::Shut(1),
            dropped!(45),
            Wanted::Said(
                3,
                &[Part::Text(
                    b"HTTP/1.1 206 Partial Content\r\netag: \"x\"\r\ndate: Sun, 06 Nov 1994 08:49:37 GMT\r\ncache-control: max-age=60\r\nvia: 1.1 polipo\r\ncontent-range: bytes 3497984-3497987/4000000\r\ncontent-length: 4\r\nconnection: keep-alive\r\n\r\nbbbb",
                )],
            ),
        ],
    },
    Exchange {
        name: "another client reads of its body far ahead of it",
        acts: &[
            Act::Tick(T),
            Act::Connect,
            Act::Window(1, 170),
            Act::Say(1, GET),
            Act::Reach(2),
            Act::Answer(
                2,
                b"HTTP/1.1 200 OK\r\nDate: Sun, 06 Nov 1994 08:49:37 GMT\r\nETag: \"x\"\r\nCache-Control: max-age=60\r\nContent-Length: 4000000\r\n\r\n",
            ),
            Act::Fill(2, b'a', 11),
            Act::Connect,
            Act::Say(
                3,
                b"GET http://h/a HTTP/1.1\r\nRange: bytes=3497984-3497987\r\n\r\n",
            ),
            Act::Reach(4),
            Act::Answer(
                4,
                b"HTTP/1.1 206 Partial Content\r\nETag: \"x\"\r\nContent-Range: bytes 3497984-3497987/4000000\r\nContent-Length: 4\r\n\r\nbb",
            ),
            Act::Break(1),
            Act::Break(1),
            Act::Window(1, 1),
        ],
        wanted: &[
            Wanted::Shut(1),
            dropped!(45),
            Wanted::Said(
                3,
                &[Part::Text(
                    b"HTTP/1.1 206 Partial Content\r\netag: \"x\"\r\ndate: Sun, 06 Nov 1994 08:49:37 GMT\r\ncache-control: max-age=60\r\nvia: 1.1 polipo\r\ncontent-range: bytes 3497984-3497987/4000000\r\ncontent-length: 4\r\nconnection: keep-alive\r\n\r\nbb",
                )],
            ),
        ],
    },
    Exchange {
        name: "another client waits for bytes of it that come soon enough",
        acts: &[
            Act::Tick(T),
            Act::Connect,
            Act::Window(1, 170),
            Act::Say(1, GET),
            Act::Reach(2),
            Act::Answer(
                2,
                b"HTTP/1.1 200 OK\r\nDate: Sun, 06 Nov 1994 08:49:37 GMT\r\nETag: \"x\"\r\nCache-Control: max-age=60\r\nContent-Length: 4000000\r\n\r\n",
            ),
            Act::Fill(2, b'a', 11),
            Act::Connect,
            Act::Say(
                3,
                b"GET http://h/a HTTP/1.1\r\nRange: bytes=1048587-1048590\r\n\r\n",
            ),
            Act::Break(1),
            Act::Break(1),
            Act::Window(1, 1),
        ],
        wanted: &[
            Wanted::Shut(1),
            stands!(45),
            Wanted::Count(Step::Dialled(80), 1),
        ],
    },
    useless!("65,536 bytes of what is dropped", 65_536, stands!(69)),
    useless!("65,537 bytes of it", 65_537, dropped!(69)),
];

#[test]
fn what_is_read_for_nobody_is_read_so_far(rt: HostRuntime) -> Result<(), Fail> {
    says_nothing(&rt, unlike_at(rt.alloc(), Pace::Whole, LONG))
}
