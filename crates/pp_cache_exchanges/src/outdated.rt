// Rows that a passed response outdates: what HEAD and GET show, and what an unsafe method changed.
use crate::saying::says_nothing;
use pp_play::{ASK, Act, Exchange, GET, Part, REPLY, REPLY_HELD, RESPONSE, T, Wanted, unlike};
use pp_world::Decision;
use std::test::Fail;

const HEAD: &[u8] = b"HEAD http://h/a HTTP/1.1\r\nCache-Control: no-cache\r\n\r\n";

/// A client with a name has its own answer (RFC 2616, section 14.8).
const NAMED_GET: &[u8] = b"GET http://h/a HTTP/1.1\r\nAuthorization: Basic eDp5\r\n\r\n";

const POST: &[u8] = b"POST http://h/p HTTP/1.1\r\n\r\n";

/// Whoever wants nothing but what is held is told whether the page is known.
const KNOWN: &[u8] = b"GET http://h/a HTTP/1.1\r\nCache-Control: only-if-cached\r\n\r\n";

/// It is, as it was.
const IS: &[Wanted<'static>] = &[
    Wanted::Taken(2, Decision::Hit(0, 5)),
    Wanted::Said(2, &[Part::Text(REPLY_HELD)]),
];

/// It is not.
const IS_NOT: &[Wanted<'static>] = &[
    Wanted::Taken(2, Decision::Refuse(504)),
    Wanted::Said(
        2,
        &[Part::Text(
            b"HTTP/1.1 504 Gateway Timeout\r\ncontent-type: text/plain\r\ncontent-length: 20\r\nconnection: keep-alive\r\n\r\n504 Gateway Timeout\n",
        )],
    ),
];

/// The page is kept; then this request is passed behind it, and this answered.
macro_rules! passed {
    ($name:expr, $request:expr, $response:expr, $wanted:expr) => {
        Exchange {
            name: $name,
            acts: &[
                Act::Tick(T),
                Act::Connect,
                Act::Connect,
                Act::Say(1, GET),
                Act::Reach(3),
                Act::Answer(3, RESPONSE),
                Act::Say(1, $request),
                Act::Answer(3, $response),
                Act::Say(2, KNOWN),
            ],
            wanted: $wanted,
        }
    };
}

/// The same of a request that takes a connection for itself.
macro_rules! passed_alone {
    ($name:expr, $request:expr, $response:expr, $wanted:expr) => {
        Exchange {
            name: $name,
            acts: &[
                Act::Tick(T),
                Act::Connect,
                Act::Connect,
                Act::Say(1, GET),
                Act::Reach(3),
                Act::Answer(3, RESPONSE),
                Act::Say(1, $request),
                Act::Reach(4),
                Act::Answer(4, $response),
                Act::Say(2, KNOWN),
            ],
            wanted: $wanted,
        }
    };
}

const SHOWN: &[Exchange<'static>] = &[
    passed!(
        "another length (RFC 2616, section 9.4)",
        HEAD,
        b"HTTP/1.1 200 OK\r\nETag: \"x\"\r\nContent-Length: 6\r\n\r\n",
        IS_NOT
    ),
    passed!(
        "another tag",
        HEAD,
        b"HTTP/1.1 200 OK\r\nETag: \"y\"\r\nContent-Length: 5\r\n\r\n",
        IS_NOT
    ),
    passed!(
        "another tag, which is weak",
        HEAD,
        b"HTTP/1.1 200 OK\r\nETag: W/\"y\"\r\n\r\n",
        IS_NOT
    ),
    passed!(
        "the tag, weakly, and the length",
        HEAD,
        b"HTTP/1.1 200 OK\r\nETag: W/\"x\"\r\nContent-Length: 5\r\n\r\n",
        IS
    ),
    passed!(
        "neither a tag nor a length",
        HEAD,
        b"HTTP/1.1 200 OK\r\n\r\n",
        IS
    ),
    passed!(
        "nothing",
        HEAD,
        b"HTTP/1.1 404 Not Found\r\nContent-Length: 5\r\n\r\n",
        IS_NOT
    ),
    passed!(
        "nothing any more",
        HEAD,
        b"HTTP/1.1 410 Gone\r\nContent-Length: 5\r\n\r\n",
        IS_NOT
    ),
    passed!(
        "a fault, whose length is that of its page",
        HEAD,
        b"HTTP/1.1 500 Internal Server Error\r\nContent-Length: 6\r\n\r\n",
        IS
    ),
    passed!(
        "another body, to a client with a name",
        NAMED_GET,
        b"HTTP/1.1 200 OK\r\nETag: \"y\"\r\nCache-Control: private\r\nContent-Length: 5\r\n\r\nyours",
        IS_NOT
    ),
    passed!(
        "nothing, to a client with a name",
        NAMED_GET,
        b"HTTP/1.1 404 Not Found\r\nContent-Length: 0\r\n\r\n",
        IS_NOT
    ),
    passed!(
        "the body, to a client with a name",
        NAMED_GET,
        b"HTTP/1.1 200 OK\r\nETag: \"x\"\r\nContent-Length: 5\r\n\r\nhello",
        IS
    ),
    passed_alone!(
        "nothing, to a GET with a body",
        b"GET http://h/a HTTP/1.1\r\nContent-Length: 2\r\n\r\nab",
        b"HTTP/1.1 404 Not Found\r\nContent-Length: 0\r\n\r\n",
        IS_NOT
    ),
    passed_alone!(
        "nothing, to a method that does not ask for the page",
        b"OPTIONS http://h/a HTTP/1.1\r\n\r\n",
        b"HTTP/1.1 404 Not Found\r\nContent-Length: 0\r\n\r\n",
        IS
    ),
];

#[test]
fn what_head_and_get_show_of_a_page_is_believed(rt: HostRuntime) -> Result<(), Fail> {
    says_nothing(&rt, unlike(rt.alloc(), SHOWN))
}

const FETCHED_ANEW: &[Exchange<'static>] = &[Exchange {
    name: "HEAD shows that the page grew (RFC 2616, section 9.4)",
    acts: &[
        Act::Tick(T),
        Act::Connect,
        Act::Say(1, GET),
        Act::Reach(2),
        Act::Answer(2, RESPONSE),
        Act::Say(1, HEAD),
        Act::Answer(2, b"HTTP/1.1 200 OK\r\nContent-Length: 6\r\n\r\n"),
        Act::Say(1, GET),
        Act::Answer(
            2,
            b"HTTP/1.1 200 OK\r\nETag: \"x\"\r\nContent-Length: 6\r\n\r\nhello!",
        ),
    ],
    wanted: &[
        Wanted::Asked(
            2,
            &[
                ASK,
                b"HEAD /a HTTP/1.1\r\nhost: h\r\ncache-control: no-cache\r\nvia: 1.1 polipo\r\n\r\n",
                ASK,
            ],
        ),
        Wanted::Said(
            1,
            &[
                Part::Text(REPLY),
                Part::Text(
                    b"HTTP/1.1 200 OK\r\nvia: 1.1 polipo\r\ncontent-length: 6\r\nconnection: keep-alive\r\n\r\n",
                ),
                Part::Text(
                    b"HTTP/1.1 200 OK\r\netag: \"x\"\r\ndate: Sun, 06 Nov 1994 08:49:37 GMT\r\nvia: 1.1 polipo\r\ncontent-length: 6\r\nconnection: keep-alive\r\n\r\nhello!",
                ),
            ],
        ),
    ],
}];

#[test]
fn a_page_that_head_shows_to_be_another_is_fetched_anew(rt: HostRuntime) -> Result<(), Fail> {
    says_nothing(&rt, unlike(rt.alloc(), FETCHED_ANEW))
}

const INVALIDATED: &[Exchange<'static>] = &[
    passed_alone!(
        "what was made is there (RFC 2616, sections 9.5 and 13.10)",
        POST,
        b"HTTP/1.1 201 Created\r\nLocation: http://h/a\r\nContent-Length: 0\r\n\r\n",
        IS_NOT
    ),
    passed_alone!(
        "what was changed is there",
        POST,
        b"HTTP/1.1 200 OK\r\nContent-Location: http://h/a\r\nContent-Length: 0\r\n\r\n",
        IS_NOT
    ),
    passed_alone!(
        "a path of the host",
        POST,
        b"HTTP/1.1 204 No Content\r\nContent-Location: /a\r\n\r\n",
        IS_NOT
    ),
    passed_alone!(
        "another spelling of the URL (RFC 2616, section 3.2.3)",
        POST,
        b"HTTP/1.1 303 See Other\r\nlocation: HTTP://H:80/a\r\nContent-Length: 0\r\n\r\n",
        IS_NOT
    ),
    passed_alone!(
        "each that is named",
        POST,
        b"HTTP/1.1 201 Created\r\nLocation: /b\r\nContent-Location: /c\r\nContent-Location: /a\r\nContent-Length: 0\r\n\r\n",
        IS_NOT
    ),
    passed_alone!(
        "another host: a host could clear what others have",
        POST,
        b"HTTP/1.1 201 Created\r\nLocation: http://i/a\r\nContent-Length: 0\r\n\r\n",
        IS
    ),
    passed_alone!(
        "another path",
        POST,
        b"HTTP/1.1 201 Created\r\nLocation: http://h/b\r\nContent-Location: a\r\nContent-Length: 0\r\n\r\n",
        IS
    ),
    passed_alone!(
        "another scheme",
        POST,
        b"HTTP/1.1 201 Created\r\nLocation: https://h/a\r\nContent-Length: 0\r\n\r\n",
        IS
    ),
    passed_alone!(
        "nothing was changed",
        POST,
        b"HTTP/1.1 403 Forbidden\r\nLocation: /a\r\nContent-Length: 0\r\n\r\n",
        IS
    ),
    passed_alone!(
        "another port",
        b"POST http://h:8080/p HTTP/1.1\r\n\r\n",
        b"HTTP/1.1 201 Created\r\nLocation: http://h/a\r\nContent-Location: /a\r\nContent-Length: 0\r\n\r\n",
        IS
    ),
    passed_alone!(
        "a method that changes nothing",
        b"OPTIONS http://h/p HTTP/1.1\r\n\r\n",
        b"HTTP/1.1 200 OK\r\nContent-Location: /a\r\nContent-Length: 0\r\n\r\n",
        IS
    ),
];

#[test]
fn what_a_post_names_is_not_known_any_more(rt: HostRuntime) -> Result<(), Fail> {
    says_nothing(&rt, unlike(rt.alloc(), INVALIDATED))
}
