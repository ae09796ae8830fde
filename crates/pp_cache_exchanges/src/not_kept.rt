// What the cache does not answer.
use crate::saying::says_nothing;
use pp_play::{ASK, Act, Exchange, GET, Part, Step, T, Wanted, unlike};
use pp_world::Decision;
use std::test::Fail;

const GET_C: &[u8] = b"GET http://h/c HTTP/1.0\r\n\r\n";

const ASK_C: &[u8] = b"GET /c HTTP/1.1\r\nhost: h\r\nvia: 1.1 polipo\r\n\r\n";

const RESPONSE_C: &[u8] =
    b"HTTP/1.1 200 OK\r\nTransfer-Encoding: chunked\r\n\r\n5\r\nhello\r\n0\r\n\r\n";

const REPLY_C: &[u8] = b"HTTP/1.1 200 OK\r\nvia: 1.1 polipo\r\nconnection: close\r\n\r\nhello";

const CODED: &[Exchange<'static>] = &[Exchange {
    name: "a page without a length, for a client of HTTP/1.0 (RFC 2616, section 4.4)",
    acts: &[
        Act::Tick(T),
        Act::Connect,
        Act::Say(1, GET_C),
        Act::Reach(2),
        Act::Answer(2, RESPONSE_C),
        Act::Connect,
        Act::Say(3, GET_C),
        Act::Answer(2, RESPONSE_C),
    ],
    wanted: &[
        Wanted::Count(Step::Dialled(80), 1),
        Wanted::Asked(2, &[ASK_C, ASK_C]),
        Wanted::Said(1, &[Part::Text(REPLY_C)]),
        Wanted::Shut(1),
        Wanted::Said(3, &[Part::Text(REPLY_C)]),
        Wanted::Shut(3),
    ],
}];

#[test]
fn a_page_without_a_length_is_not_kept(rt: HostRuntime) -> Result<(), Fail> {
    says_nothing(&rt, unlike(rt.alloc(), CODED))
}

const WEAK_RESPONSE: &[u8] =
    b"HTTP/1.1 200 OK\r\nETag: W/\"x\"\r\nCache-Control: max-age=60\r\nContent-Length: 5\r\n\r\nhello";

const WEAK_REPLY: &[u8] =
    b"HTTP/1.1 200 OK\r\netag: W/\"x\"\r\ncache-control: max-age=60\r\nvia: 1.1 polipo\r\ncontent-length: 5\r\nconnection: keep-alive\r\n\r\nhello";

const WEAK: &[Exchange<'static>] = &[Exchange {
    name: "a page with a weak tag (RFC 2616, section 13.3.3)",
    acts: &[
        Act::Tick(T),
        Act::Connect,
        Act::Say(1, GET),
        Act::Reach(2),
        Act::Answer(2, WEAK_RESPONSE),
        Act::Say(1, GET),
        Act::Answer(2, WEAK_RESPONSE),
    ],
    wanted: &[
        Wanted::Count(Step::Dialled(80), 1),
        Wanted::Asked(2, &[ASK, ASK]),
        Wanted::Taken(1, Decision::Relay),
        Wanted::Said(1, &[Part::Text(WEAK_REPLY), Part::Text(WEAK_REPLY)]),
    ],
}];

#[test]
fn a_page_with_a_weak_tag_is_not_kept(rt: HostRuntime) -> Result<(), Fail> {
    says_nothing(&rt, unlike(rt.alloc(), WEAK))
}

const CACHED_ALONE: &[Exchange<'static>] = &[Exchange {
    name: "a client that wants nothing but what is held (RFC 2616, section 14.9.4)",
    acts: &[
        Act::Tick(T),
        Act::Connect,
        Act::Say(
            1,
            b"GET http://h/a HTTP/1.1\r\nHost: h\r\nCache-Control: only-if-cached\r\n\r\n",
        ),
    ],
    wanted: &[
        Wanted::Count(Step::Dialled(80), 0),
        Wanted::Taken(1, Decision::Refuse(504)),
        Wanted::Said(
            1,
            &[Part::Text(
                b"HTTP/1.1 504 Gateway Timeout\r\ncontent-type: text/plain\r\ncontent-length: 20\r\nconnection: keep-alive\r\n\r\n504 Gateway Timeout\n",
            )],
        ),
    ],
}];

#[test]
fn a_page_that_is_not_held_is_refused_where_nothing_else_is_wanted(
    rt: HostRuntime,
) -> Result<(), Fail> {
    says_nothing(&rt, unlike(rt.alloc(), CACHED_ALONE))
}
