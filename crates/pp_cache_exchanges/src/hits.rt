// Replies from what is held.
use crate::saying::says_nothing;
use pp_play::{ASK, Act, Exchange, GET, Part, REPLY, RESPONSE, Step, T, Wanted, unlike};
use pp_world::Decision;
use std::test::Fail;

const FIRST: &[Exchange<'static>] = &[Exchange {
    name: "a page that is not known is fetched",
    acts: &[
        Act::Tick(T),
        Act::Connect,
        Act::Say(1, GET),
        Act::Reach(2),
        Act::Answer(2, RESPONSE),
    ],
    wanted: &[
        Wanted::Count(Step::Dialled(80), 1),
        Wanted::Asked(2, &[ASK]),
        Wanted::Taken(1, Decision::Fetch),
        Wanted::Said(1, &[Part::Text(REPLY)]),
    ],
}];

#[test]
fn a_page_that_is_not_known_is_fetched(rt: HostRuntime) -> Result<(), Fail> {
    says_nothing(&rt, unlike(rt.alloc(), FIRST))
}

/// The reply to a client that comes ten seconds behind the one for whom the page was fetched.
const REPLY_AGED: &[u8] =
    b"HTTP/1.1 200 OK\r\netag: \"x\"\r\ndate: Sun, 06 Nov 1994 08:49:37 GMT\r\ncache-control: max-age=60\r\nage: 10\r\nvia: 1.1 polipo\r\ncontent-length: 5\r\nconnection: keep-alive\r\n\r\nhello";

const AGAIN: &[Exchange<'static>] = &[Exchange {
    name: "a page that is held is not asked for again",
    acts: &[
        Act::Tick(T),
        Act::Connect,
        Act::Say(1, GET),
        Act::Reach(2),
        Act::Answer(2, RESPONSE),
        Act::Tick(T + 10),
        Act::Connect,
        Act::Say(3, GET),
    ],
    wanted: &[
        Wanted::Count(Step::Dialled(80), 1),
        Wanted::Asked(2, &[ASK]),
        Wanted::Taken(3, Decision::Hit(0, 5)),
        Wanted::Said(1, &[Part::Text(REPLY)]),
        Wanted::Said(3, &[Part::Text(REPLY_AGED)]),
    ],
}];

#[test]
fn a_page_that_is_held_is_not_asked_for_again(rt: HostRuntime) -> Result<(), Fail> {
    says_nothing(&rt, unlike(rt.alloc(), AGAIN))
}

const RANGES: &[Exchange<'static>] = &[Exchange {
    name: "ranges of a page that is held (RFC 2616, sections 14.16 and 14.35)",
    acts: &[
        Act::Tick(T),
        Act::Connect,
        Act::Say(1, GET),
        Act::Reach(2),
        Act::Answer(2, RESPONSE),
        Act::Tick(T + 10),
        Act::Connect,
        Act::Say(
            3,
            b"GET http://h/a HTTP/1.1\r\nHost: h\r\nRange: bytes=1-3\r\n\r\n",
        ),
        Act::Connect,
        Act::Say(
            4,
            b"GET http://h/a HTTP/1.1\r\nHost: h\r\nRange: bytes=-9\r\n\r\n",
        ),
        Act::Connect,
        Act::Say(
            5,
            b"GET http://h/a HTTP/1.1\r\nHost: h\r\nRange: bytes=5-\r\n\r\n",
        ),
        Act::Connect,
        Act::Say(
            6,
            b"GET http://h/a HTTP/1.1\r\nHost: h\r\nRange: bytes=3-1\r\n\r\n",
        ),
    ],
    wanted: &[
        Wanted::Count(Step::Dialled(80), 1),
        Wanted::Asked(2, &[ASK]),
        Wanted::Taken(3, Decision::Hit(1, 4)),
        Wanted::Said(
            3,
            &[Part::Text(
                b"HTTP/1.1 206 Partial Content\r\netag: \"x\"\r\ndate: Sun, 06 Nov 1994 08:49:37 GMT\r\ncache-control: max-age=60\r\nage: 10\r\nvia: 1.1 polipo\r\ncontent-range: bytes 1-3/5\r\ncontent-length: 3\r\nconnection: keep-alive\r\n\r\nell",
            )],
        ),
        Wanted::Said(
            4,
            &[Part::Text(
                b"HTTP/1.1 206 Partial Content\r\netag: \"x\"\r\ndate: Sun, 06 Nov 1994 08:49:37 GMT\r\ncache-control: max-age=60\r\nage: 10\r\nvia: 1.1 polipo\r\ncontent-range: bytes 0-4/5\r\ncontent-length: 5\r\nconnection: keep-alive\r\n\r\nhello",
            )],
        ),
        Wanted::Taken(5, Decision::Unsatisfiable),
        Wanted::Said(
            5,
            &[Part::Text(
                b"HTTP/1.1 416 Requested Range Not Satisfiable\r\ncontent-range: bytes */5\r\ncontent-type: text/plain\r\ncontent-length: 36\r\nconnection: keep-alive\r\n\r\n416 Requested Range Not Satisfiable\n",
            )],
        ),
        Wanted::Said(6, &[Part::Text(REPLY_AGED)]),
    ],
}];

#[test]
fn ranges_are_answered_from_what_is_held(rt: HostRuntime) -> Result<(), Fail> {
    says_nothing(&rt, unlike(rt.alloc(), RANGES))
}

const EMPTY: &[Exchange<'static>] = &[Exchange {
    name: "a page without a byte",
    acts: &[
        Act::Tick(T),
        Act::Connect,
        Act::Say(1, GET),
        Act::Reach(2),
        Act::Answer(
            2,
            b"HTTP/1.1 200 OK\r\nDate: Sun, 06 Nov 1994 08:49:37 GMT\r\nETag: \"x\"\r\nCache-Control: max-age=60\r\nContent-Length: 0\r\n\r\n",
        ),
        Act::Connect,
        Act::Say(
            3,
            b"GET http://h/a HTTP/1.1\r\nHost: h\r\nRange: bytes=0-\r\n\r\n",
        ),
        Act::Connect,
        Act::Say(
            4,
            b"GET http://h/a HTTP/1.1\r\nHost: h\r\nRange: bytes=-5\r\n\r\n",
        ),
    ],
    wanted: &[
        Wanted::Count(Step::Dialled(80), 1),
        Wanted::Asked(2, &[ASK]),
        Wanted::Said(
            1,
            &[Part::Text(
                b"HTTP/1.1 200 OK\r\netag: \"x\"\r\ndate: Sun, 06 Nov 1994 08:49:37 GMT\r\ncache-control: max-age=60\r\nvia: 1.1 polipo\r\ncontent-length: 0\r\nconnection: keep-alive\r\n\r\n",
            )],
        ),
        Wanted::Said(
            3,
            &[Part::Text(
                b"HTTP/1.1 416 Requested Range Not Satisfiable\r\ncontent-range: bytes */0\r\ncontent-type: text/plain\r\ncontent-length: 36\r\nconnection: keep-alive\r\n\r\n416 Requested Range Not Satisfiable\n",
            )],
        ),
        Wanted::Said(
            4,
            &[Part::Text(
                b"HTTP/1.1 200 OK\r\netag: \"x\"\r\ndate: Sun, 06 Nov 1994 08:49:37 GMT\r\ncache-control: max-age=60\r\nage: 0\r\nvia: 1.1 polipo\r\ncontent-length: 0\r\nconnection: keep-alive\r\n\r\n",
            )],
        ),
    ],
}];

#[test]
fn a_page_without_a_byte_is_held(rt: HostRuntime) -> Result<(), Fail> {
    says_nothing(&rt, unlike(rt.alloc(), EMPTY))
}
