// Clients that read far ahead of what comes (ours): an exchange is waited for at most 256 chunks ahead of what it brings next, and
// what is farther is asked for, but of an origin that gives no ranges. 256 chunks are 1,048,576 bytes.
use crate::saying::says_nothing;
use pp_play::{ASK, Act, Exchange, GET, Part, Step, T, Wanted, unlike};
use pp_world::Decision;
use std::test::Fail;

const AHEAD: &[Exchange<'static>] = &[
    Exchange {
        name: "of a fetch of which nothing but the head came",
        acts: &[
            Act::Tick(T),
            Act::Connect,
            Act::Say(1, GET),
            Act::Reach(2),
            Act::Answer(
                2,
                b"HTTP/1.1 200 OK\r\nDate: Sun, 06 Nov 1994 08:49:37 GMT\r\nETag: \"x\"\r\nCache-Control: max-age=60\r\nContent-Length: 2000000\r\n\r\n",
            ),
            Act::Connect,
            Act::Say(
                3,
                b"GET http://h/a HTTP/1.1\r\nRange: bytes=1048576-1048579\r\n\r\n",
            ),
            Act::Connect,
            Act::Say(
                4,
                b"GET http://h/a HTTP/1.1\r\nRange: bytes=1048577-1048580\r\n\r\n",
            ),
            Act::Reach(5),
            Act::Answer(
                5,
                b"HTTP/1.1 206 Partial Content\r\nETag: \"x\"\r\nContent-Range: bytes 1048576-1048580/2000000\r\nContent-Length: 5\r\n\r\nabcde",
            ),
        ],
        wanted: &[
            Wanted::Taken(3, Decision::Part(1_048_576, 1_048_580)),
            Wanted::Taken(4, Decision::Part(1_048_577, 1_048_581)),
            Wanted::Count(Step::Dialled(80), 2),
            Wanted::Asked(2, &[ASK]),
            Wanted::Asked(
                5,
                &[
                    b"GET /a HTTP/1.1\r\nhost: h\r\nrange: bytes=1048576-1048580\r\nif-range: \"x\"\r\nvia: 1.1 polipo\r\n\r\n",
                ],
            ),
            Wanted::Said(1, &[]),
            Wanted::Said(
                3,
                &[Part::Text(
                    b"HTTP/1.1 206 Partial Content\r\netag: \"x\"\r\ndate: Sun, 06 Nov 1994 08:49:37 GMT\r\ncache-control: max-age=60\r\nage: 0\r\nvia: 1.1 polipo\r\ncontent-range: bytes 1048576-1048579/2000000\r\ncontent-length: 4\r\nconnection: keep-alive\r\n\r\nabcd",
                )],
            ),
            Wanted::Said(
                4,
                &[Part::Text(
                    b"HTTP/1.1 206 Partial Content\r\netag: \"x\"\r\ndate: Sun, 06 Nov 1994 08:49:37 GMT\r\ncache-control: max-age=60\r\nvia: 1.1 polipo\r\ncontent-range: bytes 1048577-1048580/2000000\r\ncontent-length: 4\r\nconnection: keep-alive\r\n\r\nbcde",
                )],
            ),
        ],
    },
    Exchange {
        name: "of a rest from the fourth byte on, which was asked for and is not answered",
        acts: &[
            Act::Tick(T),
            Act::Connect,
            Act::Say(1, b"GET http://h/a HTTP/1.1\r\nRange: bytes=0-3\r\n\r\n"),
            Act::Reach(2),
            Act::Answer(
                2,
                b"HTTP/1.1 206 Partial Content\r\nDate: Sun, 06 Nov 1994 08:49:37 GMT\r\nETag: \"x\"\r\nCache-Control: max-age=60\r\nContent-Range: bytes 0-3/2000000\r\nContent-Length: 4\r\n\r\nhell",
            ),
            Act::Connect,
            Act::Say(3, GET),
            Act::Connect,
            Act::Say(
                4,
                b"GET http://h/a HTTP/1.1\r\nRange: bytes=1048580-1048583\r\n\r\n",
            ),
            Act::Connect,
            Act::Say(
                5,
                b"GET http://h/a HTTP/1.1\r\nRange: bytes=1048581-1048584\r\n\r\n",
            ),
            Act::Reach(6),
            Act::Answer(
                6,
                b"HTTP/1.1 206 Partial Content\r\nETag: \"x\"\r\nContent-Range: bytes 1048576-1048584/2000000\r\nContent-Length: 9\r\n\r\nabcdefghi",
            ),
        ],
        wanted: &[
            Wanted::Count(Step::Dialled(80), 2),
            Wanted::Asked(
                2,
                &[
                    b"GET /a HTTP/1.1\r\nhost: h\r\nrange: bytes=0-3\r\nvia: 1.1 polipo\r\n\r\n",
                    b"GET /a HTTP/1.1\r\nhost: h\r\nrange: bytes=4-1999999\r\nif-range: \"x\"\r\nvia: 1.1 polipo\r\n\r\n",
                ],
            ),
            Wanted::Asked(
                6,
                &[
                    b"GET /a HTTP/1.1\r\nhost: h\r\nrange: bytes=1048576-1048584\r\nif-range: \"x\"\r\nvia: 1.1 polipo\r\n\r\n",
                ],
            ),
            Wanted::Said(
                4,
                &[Part::Text(
                    b"HTTP/1.1 206 Partial Content\r\netag: \"x\"\r\ndate: Sun, 06 Nov 1994 08:49:37 GMT\r\ncache-control: max-age=60\r\nage: 0\r\nvia: 1.1 polipo\r\ncontent-range: bytes 1048580-1048583/2000000\r\ncontent-length: 4\r\nconnection: keep-alive\r\n\r\nefgh",
                )],
            ),
            Wanted::Said(
                5,
                &[Part::Text(
                    b"HTTP/1.1 206 Partial Content\r\netag: \"x\"\r\ndate: Sun, 06 Nov 1994 08:49:37 GMT\r\ncache-control: max-age=60\r\nvia: 1.1 polipo\r\ncontent-range: bytes 1048581-1048584/2000000\r\ncontent-length: 4\r\nconnection: keep-alive\r\n\r\nfghi",
                )],
            ),
        ],
    },
];

#[test]
fn what_is_far_ahead_is_asked_for(rt: HostRuntime) -> Result<(), Fail> {
    says_nothing(&rt, unlike(rt.alloc(), AHEAD))
}

const WHOLE: &[Exchange<'static>] = &[
    Exchange {
        name: "the whole comes for a range that is asked for first",
        acts: &[
            Act::Tick(T),
            Act::Connect,
            Act::Say(
                1,
                b"GET http://h/a HTTP/1.1\r\nRange: bytes=1500000-1500003\r\n\r\n",
            ),
            Act::Reach(2),
            Act::Answer(
                2,
                b"HTTP/1.1 200 OK\r\nETag: \"x\"\r\nCache-Control: max-age=60\r\nContent-Length: 2000000\r\n\r\nhell",
            ),
        ],
        wanted: &[
            Wanted::Taken(1, Decision::Part(1_500_000, 1_500_004)),
            Wanted::Count(Step::Dialled(80), 1),
            Wanted::Asked(
                2,
                &[
                    b"GET /a HTTP/1.1\r\nhost: h\r\nrange: bytes=1499136-1500003\r\nvia: 1.1 polipo\r\n\r\n",
                ],
            ),
            Wanted::Said(1, &[]),
        ],
    },
    Exchange {
        name: "the whole comes for a hole",
        acts: &[
            Act::Tick(T),
            Act::Connect,
            Act::Say(1, b"GET http://h/a HTTP/1.1\r\nRange: bytes=0-3\r\n\r\n"),
            Act::Reach(2),
            Act::Answer(
                2,
                b"HTTP/1.1 206 Partial Content\r\nDate: Sun, 06 Nov 1994 08:49:37 GMT\r\nETag: \"x\"\r\nCache-Control: max-age=60\r\nContent-Range: bytes 0-3/2000000\r\nContent-Length: 4\r\n\r\nhell",
            ),
            Act::Connect,
            Act::Say(
                3,
                b"GET http://h/a HTTP/1.1\r\nRange: bytes=1500000-1500003\r\n\r\n",
            ),
            Act::Answer(
                2,
                b"HTTP/1.1 200 OK\r\nETag: \"x\"\r\nCache-Control: max-age=60\r\nContent-Length: 2000000\r\n\r\nhell",
            ),
        ],
        wanted: &[
            Wanted::Taken(3, Decision::Part(1_500_000, 1_500_004)),
            Wanted::Count(Step::Dialled(80), 1),
            Wanted::Asked(
                2,
                &[
                    b"GET /a HTTP/1.1\r\nhost: h\r\nrange: bytes=0-3\r\nvia: 1.1 polipo\r\n\r\n",
                    b"GET /a HTTP/1.1\r\nhost: h\r\nrange: bytes=1499136-1500003\r\nif-range: \"x\"\r\nvia: 1.1 polipo\r\n\r\n",
                ],
            ),
            Wanted::Said(3, &[]),
        ],
    },
];

#[test]
fn an_origin_that_gives_no_ranges_is_waited_for(rt: HostRuntime) -> Result<(), Fail> {
    says_nothing(&rt, unlike(rt.alloc(), WHOLE))
}
