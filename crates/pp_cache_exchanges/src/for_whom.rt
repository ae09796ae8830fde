// For whom a response is, and how long (RFC 2616, sections 13.2.4, 13.9, 14.3 and 14.9; RFC 9111, section 5.1).
use crate::saying::says_nothing;
use pp_play::{ASK, Act, Exchange, GET, Part, RESPONSE, Step, T, Wanted, unlike};
use pp_world::Decision;
use std::test::Fail;

/// What the origin is asked once a page is stale.
const CHECK: &[u8] =
    b"GET /a HTTP/1.1\r\nhost: h\r\nif-none-match: \"x\"\r\nvia: 1.1 polipo\r\n\r\n";

// ---- what forbids sharing

/// What it answers one client alone, and how that is passed.
const YOURS: &[u8] =
    b"HTTP/1.1 200 OK\r\nETag: \"x\"\r\nCache-Control: private\r\nSet-Cookie: c=d\r\nContent-Length: 5\r\n\r\nyours";

const YOURS_PASSED: &[u8] =
    b"HTTP/1.1 200 OK\r\netag: \"x\"\r\ncache-control: private\r\nset-cookie: c=d\r\nvia: 1.1 polipo\r\ncontent-length: 5\r\nconnection: keep-alive\r\n\r\nyours";

/// The page is kept, is stale, and is checked for client 3, which is answered so. Then client 5 wants it.
macro_rules! became_private {
    ($name:literal, $unchanged:literal) => {
        Exchange {
            name: $name,
            acts: &[
                Act::Tick(T),
                Act::Connect,
                Act::Say(1, GET),
                Act::Reach(2),
                Act::Answer(2, RESPONSE),
                Act::Tick(T + 61),
                Act::Connect,
                Act::Say(3, GET),
                Act::Reach(4),
                Act::Answer(4, $unchanged),
                Act::Answer(4, YOURS),
                Act::Connect,
                Act::Say(5, GET),
            ],
            wanted: &[
                Wanted::Asked(4, &[CHECK, ASK, ASK]),
                Wanted::Said(3, &[Part::Text(YOURS_PASSED)]),
                Wanted::Taken(5, Decision::Fetch),
                Wanted::Said(5, &[]),
            ],
        }
    };
}

const PRIVATE: &[Exchange<'static>] = &[
    became_private!(
        "a 304 that says private",
        b"HTTP/1.1 304 Not Modified\r\nCache-Control: private, max-age=1000\r\n\r\n"
    ),
    became_private!(
        "a 304 that says no-store",
        b"HTTP/1.1 304 Not Modified\r\nCache-Control: no-store, max-age=1000\r\n\r\n"
    ),
    became_private!(
        "a 304 that varies",
        b"HTTP/1.1 304 Not Modified\r\nCache-Control: max-age=1000\r\nVary: Cookie\r\n\r\n"
    ),
    became_private!(
        "a 304 that sets a cookie",
        b"HTTP/1.1 304 Not Modified\r\nCache-Control: max-age=1000\r\nSet-Cookie: c=d\r\n\r\n"
    ),
    became_private!(
        "a 304 that sets a cookie in the older way (RFC 2965)",
        b"HTTP/1.1 304 Not Modified\r\nCache-Control: max-age=1000\r\nSet-Cookie2: c=d\r\n\r\n"
    ),
    Exchange {
        name: "a full answer to the check",
        acts: &[
            Act::Tick(T),
            Act::Connect,
            Act::Say(1, GET),
            Act::Reach(2),
            Act::Answer(2, RESPONSE),
            Act::Tick(T + 61),
            Act::Connect,
            Act::Say(3, GET),
            Act::Reach(4),
            Act::Answer(4, YOURS),
            Act::Connect,
            Act::Say(5, GET),
        ],
        wanted: &[
            Wanted::Asked(4, &[CHECK, ASK]),
            Wanted::Said(3, &[Part::Text(YOURS_PASSED)]),
            Wanted::Taken(5, Decision::Fetch),
            Wanted::Said(5, &[]),
        ],
    },
];

#[test]
fn what_became_private_is_told_to_nobody_else(rt: HostRuntime) -> Result<(), Fail> {
    says_nothing(&rt, unlike(rt.alloc(), PRIVATE))
}

// ---- how long, and for whom, it is fresh

/// A request is answered so; ten seconds later this is decided for another one.
macro_rules! later {
    ($name:literal, $first:expr, $response:literal, $second:expr, $decision:expr) => {
        Exchange {
            name: $name,
            acts: &[
                Act::Tick(T),
                Act::Connect,
                Act::Say(1, $first),
                Act::Reach(2),
                Act::Answer(2, $response),
                Act::Tick(T + 10),
                Act::Connect,
                Act::Say(3, $second),
            ],
            wanted: &[Wanted::Taken(3, $decision), Wanted::Count(Step::Dialled(80), 1)],
        }
    };
}

const QUERY: &[u8] = b"GET http://h/a?b=c HTTP/1.1\r\n\r\n";

const WITH_COOKIE: &[u8] = b"GET http://h/a HTTP/1.1\r\nCookie: c=d\r\n\r\n";

/// It changed ten days before: a day may be guessed.
const GUESSES: &[Exchange<'static>] = &[
    later!(
        "a plain page",
        GET,
        b"HTTP/1.1 200 OK\r\nDate: Sun, 06 Nov 1994 08:49:37 GMT\r\nETag: \"x\"\r\nLast-Modified: Thu, 27 Oct 1994 08:49:37 GMT\r\nContent-Length: 5\r\n\r\nhello",
        GET,
        Decision::Hit(0, 5)
    ),
    later!(
        "an answer to a query (RFC 2616, section 13.9)",
        QUERY,
        b"HTTP/1.1 200 OK\r\nDate: Sun, 06 Nov 1994 08:49:37 GMT\r\nETag: \"x\"\r\nLast-Modified: Thu, 27 Oct 1994 08:49:37 GMT\r\nContent-Length: 5\r\n\r\nhello",
        QUERY,
        Decision::Validate
    ),
    later!(
        "an answer to a query that tells its lifetime",
        QUERY,
        b"HTTP/1.1 200 OK\r\nDate: Sun, 06 Nov 1994 08:49:37 GMT\r\nETag: \"x\"\r\nCache-Control: max-age=60\r\nContent-Length: 5\r\n\r\nhello",
        QUERY,
        Decision::Hit(0, 5)
    ),
    later!(
        "a page that was asked for with a cookie",
        WITH_COOKIE,
        b"HTTP/1.1 200 OK\r\nDate: Sun, 06 Nov 1994 08:49:37 GMT\r\nETag: \"x\"\r\nLast-Modified: Thu, 27 Oct 1994 08:49:37 GMT\r\nContent-Length: 5\r\n\r\nhello",
        GET,
        Decision::Validate
    ),
    later!(
        "a page whose origin means no-cache in the older way (RFC 2616, section 14.32)",
        GET,
        b"HTTP/1.1 200 OK\r\nDate: Sun, 06 Nov 1994 08:49:37 GMT\r\nETag: \"x\"\r\nLast-Modified: Thu, 27 Oct 1994 08:49:37 GMT\r\nPragma: no-cache\r\nContent-Length: 5\r\n\r\nhello",
        GET,
        Decision::Validate
    ),
];

#[test]
fn nothing_is_guessed_where_guessing_is_forbidden(rt: HostRuntime) -> Result<(), Fail> {
    says_nothing(&rt, unlike(rt.alloc(), GUESSES))
}

const SHORTER: &[Exchange<'static>] = &[
    later!(
        "of two ages the first (RFC 9111, section 5.1)",
        GET,
        b"HTTP/1.1 200 OK\r\nDate: Sun, 06 Nov 1994 08:49:37 GMT\r\nETag: \"x\"\r\nCache-Control: max-age=60\r\nAge: 1000, 0\r\nContent-Length: 5\r\n\r\nhello",
        GET,
        Decision::Validate
    ),
    later!(
        "an age that is no number",
        GET,
        b"HTTP/1.1 200 OK\r\nDate: Sun, 06 Nov 1994 08:49:37 GMT\r\nETag: \"x\"\r\nCache-Control: max-age=60\r\nAge: old\r\nContent-Length: 5\r\n\r\nhello",
        GET,
        Decision::Validate
    ),
    later!(
        "an age that is too large (RFC 9111, section 1.2.2)",
        GET,
        b"HTTP/1.1 200 OK\r\nDate: Sun, 06 Nov 1994 08:49:37 GMT\r\nETag: \"x\"\r\nCache-Control: max-age=60\r\nAge: 18446744073709551617\r\nContent-Length: 5\r\n\r\nhello",
        GET,
        Decision::Validate
    ),
    later!(
        "a quoted string that does not end",
        GET,
        b"HTTP/1.1 200 OK\r\nDate: Sun, 06 Nov 1994 08:49:37 GMT\r\nETag: \"x\"\r\nCache-Control: max-age=60, x=\"y, no-store\r\nContent-Length: 5\r\n\r\nhello",
        GET,
        Decision::Fetch
    ),
    later!(
        "a lifetime that is the connection's",
        GET,
        b"HTTP/1.1 200 OK\r\nDate: Sun, 06 Nov 1994 08:49:37 GMT\r\nETag: \"x\"\r\nConnection: cache-control\r\nCache-Control: max-age=60\r\nContent-Length: 5\r\n\r\nhello",
        GET,
        Decision::Fetch
    ),
    later!(
        "an age that is the connection's",
        GET,
        b"HTTP/1.1 200 OK\r\nDate: Sun, 06 Nov 1994 08:49:37 GMT\r\nETag: \"x\"\r\nConnection: age\r\nAge: 1000\r\nCache-Control: max-age=60\r\nContent-Length: 5\r\n\r\nhello",
        GET,
        Decision::Fetch
    ),
];

#[test]
fn the_shorter_life_is_the_safe_one(rt: HostRuntime) -> Result<(), Fail> {
    says_nothing(&rt, unlike(rt.alloc(), SHORTER))
}

const CODINGS: &[Exchange<'static>] = &[
    later!(
        "a client that takes gzip",
        b"GET http://h/a HTTP/1.1\r\nAccept-Encoding: gzip, deflate\r\n\r\n",
        b"HTTP/1.1 200 OK\r\nDate: Sun, 06 Nov 1994 08:49:37 GMT\r\nETag: \"x\"\r\nCache-Control: max-age=60\r\nContent-Encoding: gzip\r\nContent-Length: 5\r\n\r\nhello",
        GET,
        Decision::Fetch
    ),
    later!(
        "a client that takes gzip, and is sent none",
        b"GET http://h/a HTTP/1.1\r\nAccept-Encoding: gzip, deflate\r\n\r\n",
        b"HTTP/1.1 200 OK\r\nDate: Sun, 06 Nov 1994 08:49:37 GMT\r\nETag: \"x\"\r\nCache-Control: max-age=60\r\nContent-Encoding: identity\r\nContent-Length: 5\r\n\r\nhello",
        GET,
        Decision::Hit(0, 5)
    ),
    later!(
        "an archive, for a client that says nothing of codings",
        GET,
        b"HTTP/1.1 200 OK\r\nDate: Sun, 06 Nov 1994 08:49:37 GMT\r\nETag: \"x\"\r\nCache-Control: max-age=60\r\nContent-Encoding: x-gzip\r\nContent-Length: 5\r\n\r\nhello",
        GET,
        Decision::Hit(0, 5)
    ),
    later!(
        "an archive, for a client that takes no coding",
        b"GET http://h/a HTTP/1.1\r\nAccept-Encoding: identity\r\n\r\n",
        b"HTTP/1.1 200 OK\r\nDate: Sun, 06 Nov 1994 08:49:37 GMT\r\nETag: \"x\"\r\nCache-Control: max-age=60\r\nContent-Encoding: x-gzip\r\nContent-Length: 5\r\n\r\nhello",
        GET,
        Decision::Hit(0, 5)
    ),
];

#[test]
fn a_coding_is_kept_where_nobody_asked_for_one(rt: HostRuntime) -> Result<(), Fail> {
    says_nothing(&rt, unlike(rt.alloc(), CODINGS))
}
