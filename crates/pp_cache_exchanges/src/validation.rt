// Rows that are refreshed or replaced.
use crate::saying::says_nothing;
use pp_play::{
    ASK, Act, Exchange, GET, HEAD, PAGE_502, Part, REPLY, RESPONSE, Step, T, Wanted, unlike,
};
use pp_world::Decision;
use std::test::Fail;

/// What the origin is asked once a page is stale.
const CHECK: &[u8] =
    b"GET /a HTTP/1.1\r\nhost: h\r\nif-none-match: \"x\"\r\nvia: 1.1 polipo\r\n\r\n";

const GROWN: &[Exchange<'static>] = &[Exchange {
    name: "a page under the same tag has another length",
    acts: &[
        Act::Tick(T),
        Act::Connect,
        Act::Say(1, GET),
        Act::Reach(2),
        Act::Answer(2, RESPONSE),
        Act::Tick(T + 61),
        Act::Connect,
        Act::Say(3, GET),
        Act::Reach(4),
        Act::Answer(
            4,
            b"HTTP/1.1 200 OK\r\nDate: Sun, 06 Nov 1994 08:50:38 GMT\r\nETag: \"x\"\r\nCache-Control: max-age=60\r\nContent-Length: 6\r\n\r\nhello!",
        ),
    ],
    wanted: &[
        Wanted::Said(1, &[Part::Text(REPLY)]),
        Wanted::Taken(3, Decision::Validate),
        Wanted::Asked(2, &[ASK]),
        Wanted::Asked(4, &[CHECK]),
        Wanted::Said(
            3,
            &[Part::Text(
                b"HTTP/1.1 200 OK\r\netag: \"x\"\r\ndate: Sun, 06 Nov 1994 08:50:38 GMT\r\ncache-control: max-age=60\r\nvia: 1.1 polipo\r\ncontent-length: 6\r\nconnection: keep-alive\r\n\r\nhello!",
            )],
        ),
    ],
}];

#[test]
fn a_page_that_grew_is_another_version(rt: HostRuntime) -> Result<(), Fail> {
    says_nothing(&rt, unlike(rt.alloc(), GROWN))
}

const REFRESHED: &[Exchange<'static>] = &[Exchange {
    name: "a page that still stands (RFC 2616, section 10.3.5)",
    acts: &[
        Act::Tick(T),
        Act::Connect,
        Act::Say(1, GET),
        Act::Reach(2),
        Act::Answer(2, RESPONSE),
        Act::Tick(T + 61),
        Act::Connect,
        Act::Say(3, GET),
        Act::Reach(4),
        Act::Answer(
            4,
            b"HTTP/1.1 304 Not Modified\r\nDate: Sun, 06 Nov 1994 08:50:38 GMT\r\nCache-Control: max-age=60\r\n\r\n",
        ),
    ],
    wanted: &[
        Wanted::Taken(3, Decision::Validate),
        Wanted::Taken(3, Decision::Hit(0, 5)),
        Wanted::Asked(2, &[ASK]),
        Wanted::Asked(4, &[CHECK]),
        Wanted::Said(
            3,
            &[Part::Text(
                b"HTTP/1.1 200 OK\r\netag: \"x\"\r\ndate: Sun, 06 Nov 1994 08:50:38 GMT\r\ncache-control: max-age=60\r\nage: 0\r\nvia: 1.1 polipo\r\ncontent-length: 5\r\nconnection: keep-alive\r\n\r\nhello",
            )],
        ),
    ],
}];

#[test]
fn a_page_that_still_stands_is_served_again(rt: HostRuntime) -> Result<(), Fail> {
    says_nothing(&rt, unlike(rt.alloc(), REFRESHED))
}

/// The tag is as it was, and the body is not.
const ANSWER: &[u8] =
    b"HTTP/1.1 200 OK\r\nDate: Sun, 06 Nov 1994 08:50:38 GMT\r\nETag: \"x\"\r\nCache-Control: max-age=60\r\nContent-Length: 5\r\n\r\nworld";

const ANSWERED: &[Exchange<'static>] = &[
    Exchange {
        name: "a full answer, whatever its tag (RFC 7234, section 4.3.3)",
        acts: &[
            Act::Tick(T),
            Act::Connect,
            Act::Say(1, GET),
            Act::Reach(2),
            Act::Answer(2, RESPONSE),
            Act::Tick(T + 61),
            Act::Connect,
            Act::Say(3, GET),
            Act::Reach(4),
            Act::Answer(4, ANSWER),
            Act::Connect,
            Act::Say(5, GET),
        ],
        wanted: &[
            Wanted::Asked(2, &[ASK]),
            Wanted::Asked(4, &[CHECK]),
            Wanted::Taken(3, Decision::Validate),
            Wanted::Said(
                3,
                &[Part::Text(
                    b"HTTP/1.1 200 OK\r\netag: \"x\"\r\ndate: Sun, 06 Nov 1994 08:50:38 GMT\r\ncache-control: max-age=60\r\nvia: 1.1 polipo\r\ncontent-length: 5\r\nconnection: keep-alive\r\n\r\nworld",
                )],
            ),
            Wanted::Taken(5, Decision::Hit(0, 5)),
            Wanted::Said(
                5,
                &[Part::Text(
                    b"HTTP/1.1 200 OK\r\netag: \"x\"\r\ndate: Sun, 06 Nov 1994 08:50:38 GMT\r\ncache-control: max-age=60\r\nage: 0\r\nvia: 1.1 polipo\r\ncontent-length: 5\r\nconnection: keep-alive\r\n\r\nworld",
                )],
            ),
        ],
    },
    Exchange {
        name: "whoever reads the former body has that to its end (RFC 7233, section 4.3)",
        acts: &[
            Act::Tick(T),
            Act::Connect,
            Act::Say(1, GET),
            Act::Reach(2),
            Act::Answer(2, HEAD),
            Act::Answer(2, b"he"),
            Act::Connect,
            Act::Say(
                3,
                b"GET http://h/a HTTP/1.1\r\nCache-Control: no-cache\r\n\r\n",
            ),
            Act::Reach(4),
            Act::Answer(
                4,
                b"HTTP/1.1 200 OK\r\nETag: \"x\"\r\nContent-Length: 5\r\n\r\nworld",
            ),
            Act::Answer(2, b"llo"),
        ],
        wanted: &[
            Wanted::Asked(2, &[ASK]),
            Wanted::Said(1, &[Part::Text(REPLY)]),
            Wanted::Taken(3, Decision::Validate),
            Wanted::Said(
                3,
                &[Part::Text(
                    b"HTTP/1.1 200 OK\r\netag: \"x\"\r\ndate: Sun, 06 Nov 1994 08:49:37 GMT\r\nvia: 1.1 polipo\r\ncontent-length: 5\r\nconnection: keep-alive\r\n\r\nworld",
                )],
            ),
        ],
    },
];

#[test]
fn the_full_answer_to_a_check_is_what_is_told(rt: HostRuntime) -> Result<(), Fail> {
    says_nothing(&rt, unlike(rt.alloc(), ANSWERED))
}

const DISREGARDED: &[Exchange<'static>] = &[Exchange {
    name: "a 304 of another version is one of three attempts (RFC 2616, section 10.3.5); a connection that had answered is none",
    acts: &[
        Act::Tick(T),
        Act::Connect,
        Act::Say(1, GET),
        Act::Reach(2),
        Act::Answer(2, RESPONSE),
        Act::Tick(T + 61),
        Act::Connect,
        Act::Say(3, GET),
        Act::Reach(4),
        Act::Answer(4, b"HTTP/1.1 304 Not Modified\r\nETag: \"y\"\r\n\r\n"),
        Act::End(4),
        Act::Reach(5),
        Act::End(5),
        Act::Reach(6),
        Act::End(6),
    ],
    wanted: &[
        Wanted::Asked(2, &[ASK]),
        Wanted::Asked(4, &[CHECK, ASK]),
        Wanted::Asked(5, &[ASK]),
        Wanted::Asked(6, &[ASK]),
        Wanted::Said(3, &[Part::Text(PAGE_502)]),
        Wanted::Count(Step::Dialled(80), 4),
    ],
}];

#[test]
fn a_304_of_another_version_is_no_answer(rt: HostRuntime) -> Result<(), Fail> {
    says_nothing(&rt, unlike(rt.alloc(), DISREGARDED))
}

/// Ten seconds for a cache that many share, a minute for others.
const SHARED: &[Exchange<'static>] = &[Exchange {
    name: "a page is fresh as long as a shared cache may take it (RFC 2616, section 14.9.3)",
    acts: &[
        Act::Tick(T),
        Act::Connect,
        Act::Say(1, GET),
        Act::Reach(2),
        Act::Answer(
            2,
            b"HTTP/1.1 200 OK\r\nDate: Sun, 06 Nov 1994 08:49:37 GMT\r\nETag: \"x\"\r\nCache-Control: max-age=60, s-maxage=10\r\nContent-Length: 5\r\n\r\nhello",
        ),
        Act::Tick(T + 9),
        Act::Connect,
        Act::Say(3, GET),
        Act::Tick(T + 10),
        Act::Connect,
        Act::Say(4, GET),
    ],
    wanted: &[
        Wanted::Count(Step::Dialled(80), 1),
        Wanted::Asked(2, &[ASK, CHECK]),
        Wanted::Taken(3, Decision::Hit(0, 5)),
        Wanted::Taken(4, Decision::Validate),
        Wanted::Said(4, &[]),
    ],
}];

#[test]
fn a_page_is_fresh_as_long_as_a_shared_cache_may_take_it(rt: HostRuntime) -> Result<(), Fail> {
    says_nothing(&rt, unlike(rt.alloc(), SHARED))
}
