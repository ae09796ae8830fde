// What is missing of a page, and asked for.
use crate::saying::says_nothing;
use pp_play::{Act, Exchange, Part, Step, T, Wanted, unlike};
use pp_world::{Cause, Decision};
use std::test::Fail;

/// The page /b has three chunks: one of a, one of b, one of c. These are its requests.
const GET_A: &[u8] = b"GET http://h/b HTTP/1.1\r\nHost: h\r\nRange: bytes=0-4095\r\n\r\n";

const GET_C: &[u8] = b"GET http://h/b HTTP/1.1\r\nHost: h\r\nRange: bytes=8192-12287\r\n\r\n";

const GET_ALL: &[u8] = b"GET http://h/b HTTP/1.1\r\nHost: h\r\n\r\n";

/// What its origin is asked: nothing is known of it at first.
const ASK_A: &[u8] =
    b"GET /b HTTP/1.1\r\nhost: h\r\nrange: bytes=0-4095\r\nvia: 1.1 polipo\r\n\r\n";

const ASK_B: &[u8] =
    b"GET /b HTTP/1.1\r\nhost: h\r\nrange: bytes=4096-8191\r\nif-range: \"x\"\r\nvia: 1.1 polipo\r\n\r\n";

const ASK_C: &[u8] =
    b"GET /b HTTP/1.1\r\nhost: h\r\nrange: bytes=8192-12287\r\nif-range: \"x\"\r\nvia: 1.1 polipo\r\n\r\n";

/// The heads of its answers.
const HEAD_A: &[u8] =
    b"HTTP/1.1 206 Partial Content\r\nDate: Sun, 06 Nov 1994 08:49:37 GMT\r\nETag: \"x\"\r\nCache-Control: max-age=60\r\nContent-Range: bytes 0-4095/12288\r\nContent-Length: 4096\r\n\r\n";

const HEAD_B: &[u8] =
    b"HTTP/1.1 206 Partial Content\r\nDate: Sun, 06 Nov 1994 08:49:37 GMT\r\nETag: \"x\"\r\nCache-Control: max-age=60\r\nContent-Range: bytes 4096-8191/12288\r\nContent-Length: 4096\r\n\r\n";

const HEAD_C: &[u8] =
    b"HTTP/1.1 206 Partial Content\r\nDate: Sun, 06 Nov 1994 08:49:37 GMT\r\nETag: \"x\"\r\nCache-Control: max-age=60\r\nContent-Range: bytes 8192-12287/12288\r\nContent-Length: 4096\r\n\r\n";

/// The heads of the replies. The age is not told to the client whose own ask brought the response.
const REPLY_HEAD_A: &[u8] =
    b"HTTP/1.1 206 Partial Content\r\netag: \"x\"\r\ndate: Sun, 06 Nov 1994 08:49:37 GMT\r\ncache-control: max-age=60\r\nvia: 1.1 polipo\r\ncontent-range: bytes 0-4095/12288\r\ncontent-length: 4096\r\nconnection: keep-alive\r\n\r\n";

const REPLY_HEAD_C: &[u8] =
    b"HTTP/1.1 206 Partial Content\r\netag: \"x\"\r\ndate: Sun, 06 Nov 1994 08:49:37 GMT\r\ncache-control: max-age=60\r\nvia: 1.1 polipo\r\ncontent-range: bytes 8192-12287/12288\r\ncontent-length: 4096\r\nconnection: keep-alive\r\n\r\n";

const REPLY_HEAD_ALL: &[u8] =
    b"HTTP/1.1 200 OK\r\netag: \"x\"\r\ndate: Sun, 06 Nov 1994 08:49:37 GMT\r\ncache-control: max-age=60\r\nage: 0\r\nvia: 1.1 polipo\r\ncontent-length: 12288\r\nconnection: keep-alive\r\n\r\n";

/// Its first and third chunk are fetched, and the whole page is asked for.
const PARTS: &[Exchange<'static>] = &[Exchange {
    name: "just what is missing is asked for",
    acts: &[
        Act::Tick(T),
        Act::Connect,
        Act::Say(1, GET_A),
        Act::Reach(2),
        Act::Answer(2, HEAD_A),
        Act::Fill(2, b'a', 4_096),
        Act::Connect,
        Act::Say(3, GET_C),
        Act::Answer(2, HEAD_C),
        Act::Fill(2, b'c', 4_096),
        Act::Connect,
        Act::Say(4, GET_ALL),
        Act::Answer(2, HEAD_B),
        Act::Fill(2, b'b', 4_096),
    ],
    wanted: &[
        Wanted::Count(Step::Dialled(80), 1),
        Wanted::Asked(2, &[ASK_A, ASK_C, ASK_B]),
        Wanted::Taken(1, Decision::Fetch),
        Wanted::Taken(3, Decision::Part(8_192, 12_288)),
        Wanted::Taken(4, Decision::Part(0, 12_288)),
        Wanted::Said(1, &[Part::Text(REPLY_HEAD_A), Part::Fill(b'a', 4_096)]),
        Wanted::Said(3, &[Part::Text(REPLY_HEAD_C), Part::Fill(b'c', 4_096)]),
        Wanted::Said(
            4,
            &[
                Part::Text(REPLY_HEAD_ALL),
                Part::Fill(b'a', 4_096),
                Part::Fill(b'b', 4_096),
                Part::Fill(b'c', 4_096),
            ],
        ),
    ],
}];

#[test]
fn just_what_is_missing_is_asked_for(rt: HostRuntime) -> Result<(), Fail> {
    says_nothing(&rt, unlike(rt.alloc(), PARTS))
}

const REPLACED: &[Exchange<'static>] = &[Exchange {
    name: "a page that changed is not mixed with what was sent",
    acts: &[
        Act::Tick(T),
        Act::Connect,
        Act::Say(1, GET_A),
        Act::Reach(2),
        Act::Answer(2, HEAD_A),
        Act::Fill(2, b'a', 4_096),
        Act::Connect,
        Act::Say(3, GET_C),
        Act::Answer(2, HEAD_C),
        Act::Fill(2, b'c', 4_096),
        Act::Connect,
        Act::Say(4, GET_ALL),
        Act::Answer(
            2,
            b"HTTP/1.1 200 OK\r\nETag: \"y\"\r\nCache-Control: max-age=60\r\nContent-Length: 3\r\n\r\nnew",
        ),
        Act::Connect,
        Act::Say(5, GET_ALL),
    ],
    wanted: &[
        Wanted::Count(Step::Dialled(80), 1),
        Wanted::Asked(2, &[ASK_A, ASK_C, ASK_B]),
        Wanted::Cut(4, Cause::Superseded),
        Wanted::Said(4, &[Part::Text(REPLY_HEAD_ALL), Part::Fill(b'a', 4_096)]),
        Wanted::Taken(5, Decision::Hit(0, 3)),
        Wanted::Said(
            5,
            &[Part::Text(
                b"HTTP/1.1 200 OK\r\netag: \"y\"\r\ndate: Sun, 06 Nov 1994 08:49:37 GMT\r\ncache-control: max-age=60\r\nage: 0\r\nvia: 1.1 polipo\r\ncontent-length: 3\r\nconnection: keep-alive\r\n\r\nnew",
            )],
        ),
    ],
}];

#[test]
fn a_page_that_changed_is_not_mixed(rt: HostRuntime) -> Result<(), Fail> {
    says_nothing(&rt, unlike(rt.alloc(), REPLACED))
}

/// What is missing is asked for, then the page is stale and checked, and what was missing comes first, of another version.
/// Its answer came eleven seconds behind its ask, which counts as age (RFC 2616, section 13.2.3).
const OVERTAKEN: &[Exchange<'static>] = &[Exchange {
    name: "a page was replaced before it was said that it still stands",
    acts: &[
        Act::Tick(T),
        Act::Connect,
        Act::Say(1, GET_A),
        Act::Reach(2),
        Act::Answer(2, HEAD_A),
        Act::Fill(2, b'a', 4_096),
        Act::Tick(T + 50),
        Act::Connect,
        Act::Say(3, GET_ALL),
        Act::Tick(T + 61),
        Act::Connect,
        Act::Say(4, GET_ALL),
        Act::Reach(5),
        Act::Answer(
            2,
            b"HTTP/1.1 200 OK\r\nDate: Sun, 06 Nov 1994 08:50:38 GMT\r\nETag: \"y\"\r\nCache-Control: max-age=60\r\nContent-Length: 3\r\n\r\nnew",
        ),
        Act::Answer(
            5,
            b"HTTP/1.1 304 Not Modified\r\nDate: Sun, 06 Nov 1994 08:50:38 GMT\r\nCache-Control: max-age=60\r\n\r\n",
        ),
    ],
    wanted: &[
        Wanted::Count(Step::Dialled(80), 2),
        Wanted::Asked(
            2,
            &[
                ASK_A,
                b"GET /b HTTP/1.1\r\nhost: h\r\nrange: bytes=4096-12287\r\nif-range: \"x\"\r\nvia: 1.1 polipo\r\n\r\n",
            ],
        ),
        Wanted::Asked(
            5,
            &[b"GET /b HTTP/1.1\r\nhost: h\r\nif-none-match: \"x\"\r\nvia: 1.1 polipo\r\n\r\n"],
        ),
        Wanted::Cut(3, Cause::Superseded),
        Wanted::Taken(4, Decision::Validate),
        Wanted::Taken(4, Decision::Hit(0, 3)),
        Wanted::Said(
            4,
            &[Part::Text(
                b"HTTP/1.1 200 OK\r\netag: \"y\"\r\ndate: Sun, 06 Nov 1994 08:50:38 GMT\r\ncache-control: max-age=60\r\nage: 11\r\nvia: 1.1 polipo\r\ncontent-length: 3\r\nconnection: keep-alive\r\n\r\nnew",
            )],
        ),
    ],
}];

#[test]
fn a_page_that_was_replaced_is_decided_again(rt: HostRuntime) -> Result<(), Fail> {
    says_nothing(&rt, unlike(rt.alloc(), OVERTAKEN))
}

const GET_D: &[u8] = b"GET http://h/d HTTP/1.1\r\nHost: h\r\nRange: bytes=5000-5999\r\n\r\n";

const ASK_D: &[u8] =
    b"GET /d HTTP/1.1\r\nhost: h\r\nrange: bytes=4096-5999\r\nvia: 1.1 polipo\r\n\r\n";

/// A range of a page that is not known, which is asked for from the begin of a chunk.
const MOVED: &[Exchange<'static>] = &[
    Exchange {
        name: "the page ends before the range",
        acts: &[
            Act::Tick(T),
            Act::Connect,
            Act::Say(1, GET_D),
            Act::Reach(2),
            Act::Answer(
                2,
                b"HTTP/1.1 206 Partial Content\r\nDate: Sun, 06 Nov 1994 08:49:37 GMT\r\nETag: \"x\"\r\nCache-Control: max-age=60\r\nContent-Range: bytes 4096-4499/4500\r\nContent-Length: 404\r\n\r\n",
            ),
            Act::Fill(2, b'd', 404),
        ],
        wanted: &[
            Wanted::Count(Step::Dialled(80), 1),
            Wanted::Asked(2, &[ASK_D]),
            Wanted::Said(
                1,
                &[Part::Text(
                    b"HTTP/1.1 416 Requested Range Not Satisfiable\r\ncontent-range: bytes */4500\r\ncontent-type: text/plain\r\ncontent-length: 36\r\nconnection: keep-alive\r\n\r\n416 Requested Range Not Satisfiable\n",
                )],
            ),
        ],
    },
    Exchange {
        name: "the page has the range",
        acts: &[
            Act::Tick(T),
            Act::Connect,
            Act::Say(1, GET_D),
            Act::Reach(2),
            Act::Answer(
                2,
                b"HTTP/1.1 206 Partial Content\r\nDate: Sun, 06 Nov 1994 08:49:37 GMT\r\nETag: \"x\"\r\nCache-Control: max-age=60\r\nContent-Range: bytes 4096-5999/9000\r\nContent-Length: 1904\r\n\r\n",
            ),
            Act::Fill(2, b'-', 904),
            Act::Fill(2, b'd', 1_000),
        ],
        wanted: &[
            Wanted::Count(Step::Dialled(80), 1),
            Wanted::Asked(2, &[ASK_D]),
            Wanted::Said(
                1,
                &[
                    Part::Text(
                        b"HTTP/1.1 206 Partial Content\r\netag: \"x\"\r\ndate: Sun, 06 Nov 1994 08:49:37 GMT\r\ncache-control: max-age=60\r\nvia: 1.1 polipo\r\ncontent-range: bytes 5000-5999/9000\r\ncontent-length: 1000\r\nconnection: keep-alive\r\n\r\n",
                    ),
                    Part::Fill(b'd', 1_000),
                ],
            ),
        ],
    },
];

#[test]
fn a_range_is_asked_for_from_the_begin_of_a_chunk(rt: HostRuntime) -> Result<(), Fail> {
    says_nothing(&rt, unlike(rt.alloc(), MOVED))
}
