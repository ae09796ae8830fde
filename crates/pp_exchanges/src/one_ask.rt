// Connections to origins that are not for the next request, and how many a host has (RFC 2616, section 8.1; RFC 4559, section 6;
// RFC 7230, section 3.3.3).
use crate::saying::says_nothing;
use pp_play::{
    ASK, ASK_B, Act, Exchange, GET, GET_B, Part, REPLY, REPLY_B, RESPONSE, RESPONSE_B, Step, T,
    Wanted, asking, unlike, unlike_with,
};
use std::test::Fail;

/// One connection is idle; a request comes with these credentials, and is asked on a connection of its own, in so many bytes.
macro_rules! asked_alone {
    ($name:literal, $request:literal, $asked:literal) => {
        Exchange {
            name: $name,
            acts: &[
                Act::Tick(T),
                Act::Connect,
                Act::Say(1, GET),
                Act::Reach(2),
                Act::Answer(2, RESPONSE),
                Act::Say(1, $request),
                Act::Reach(3),
                Act::Answer(3, b"HTTP/1.1 200 OK\r\nContent-Length: 2\r\n\r\nok"),
            ],
            wanted: &[
                Wanted::Asked(2, &[ASK]),
                Wanted::Course(
                    3,
                    &[Step::Dialled(80), Step::Reached, Step::Asked($asked), Step::Dropped, Step::Stopped],
                ),
            ],
        }
    };
}

const CREDENTIALS: &[Exchange<'static>] = &[
    asked_alone!(
        "NTLM: it holds for the connection",
        b"GET http://h/b HTTP/1.1\r\nAuthorization: NTLM abc\r\n\r\n",
        70
    ),
    asked_alone!(
        "Negotiate, in any letters",
        b"GET http://h/b HTTP/1.1\r\nAuthorization: negotiate abc\r\n\r\n",
        75
    ),
    Exchange {
        name: "Basic: it holds for the request",
        acts: &[
            Act::Tick(T),
            Act::Connect,
            Act::Say(1, GET),
            Act::Reach(2),
            Act::Answer(2, RESPONSE),
            Act::Say(
                1,
                b"GET http://h/b HTTP/1.1\r\nAuthorization: Basic eDp5\r\n\r\n",
            ),
        ],
        wanted: &[
            Wanted::Asked(
                2,
                &[
                    ASK,
                    b"GET /b HTTP/1.1\r\nhost: h\r\nauthorization: Basic eDp5\r\nvia: 1.1 polipo\r\n\r\n",
                ],
            ),
            Wanted::Count(Step::Dialled(80), 1),
        ],
    },
];

#[test]
fn credentials_of_a_connection_are_not_followed_there(rt: HostRuntime) -> Result<(), Fail> {
    says_nothing(&rt, unlike(rt.alloc(), CREDENTIALS))
}

/// A plain request is answered so, and its connection closed.
macro_rules! ends_elsewhere {
    ($name:literal, $response:literal) => {
        Exchange {
            name: $name,
            acts: &[
                Act::Tick(T),
                Act::Connect,
                Act::Say(1, GET),
                Act::Reach(2),
                Act::Answer(2, $response),
            ],
            wanted: &[Wanted::Course(
                2,
                &[Step::Dialled(80), Step::Reached, Step::Asked(45), Step::Dropped, Step::Stopped],
            )],
        }
    };
}

const ENDS: &[Exchange<'static>] = &[
    ends_elsewhere!(
        "204 that tells of a body",
        b"HTTP/1.1 204 No Content\r\nContent-Length: 5\r\n\r\n"
    ),
    ends_elsewhere!(
        "204 that tells of chunks",
        b"HTTP/1.1 204 No Content\r\nTransfer-Encoding: chunked\r\n\r\n"
    ),
    ends_elsewhere!(
        "205 with a body",
        b"HTTP/1.1 205 Reset Content\r\nContent-Length: 5\r\n\r\nhello"
    ),
    ends_elsewhere!(
        "both framings",
        b"HTTP/1.1 200 OK\r\nContent-Length: 3\r\nTransfer-Encoding: chunked\r\n\r\n5\r\nhello\r\n0\r\n\r\n"
    ),
    ends_elsewhere!(
        "chunks of HTTP/1.0",
        b"HTTP/1.0 200 OK\r\nConnection: keep-alive\r\nTransfer-Encoding: chunked\r\n\r\n5\r\nhello\r\n0\r\n\r\n"
    ),
    Exchange {
        name: "and a 204 as it should be, whose connection goes on",
        acts: &[
            Act::Tick(T),
            Act::Connect,
            Act::Say(1, GET),
            Act::Reach(2),
            Act::Answer(2, b"HTTP/1.1 204 No Content\r\n\r\n"),
            Act::Say(1, GET_B),
        ],
        wanted: &[Wanted::Asked(2, &[ASK, ASK_B])],
    },
    Exchange {
        name: "what is left of a response before is none, and costs its client nothing",
        acts: &[
            Act::Tick(T),
            Act::Connect,
            Act::Say(1, GET),
            Act::Reach(2),
            Act::Answer(2, RESPONSE),
            Act::Say(1, GET_B),
            Act::Answer(2, b"hello\r\n\r\n"),
            Act::Reach(3),
            Act::Answer(3, RESPONSE_B),
        ],
        wanted: &[
            Wanted::Asked(2, &[ASK, ASK_B]),
            Wanted::Asked(3, &[ASK_B]),
            Wanted::Said(1, &[Part::Text(REPLY), Part::Text(REPLY_B)]),
        ],
    },
];

#[test]
fn a_response_whose_end_is_in_doubt_is_the_last(rt: HostRuntime) -> Result<(), Fail> {
    says_nothing(&rt, unlike(rt.alloc(), ENDS))
}

/// As the program is without a word.
const NO_WORDS: &[&str] = &[];

const NOT_BEHIND: &[Exchange<'static>] = &[Exchange {
    name: "an ask does not go behind another",
    acts: &[
        Act::Tick(T),
        Act::Connect,
        Act::Say(1, GET),
        Act::Reach(2),
        Act::Answer(2, RESPONSE),
        Act::Connect,
        Act::Say(3, GET_B),
        Act::Connect,
        Act::Say(4, b"GET http://h/c HTTP/1.1\r\n\r\n"),
    ],
    wanted: &[
        Wanted::Asked(2, &[ASK, ASK_B]),
        Wanted::Dialled(5, b"h", 80),
        Wanted::Count(Step::Dialled(80), 2),
    ],
}];

#[test]
fn no_ask_waits_behind_another_without_a_word(rt: HostRuntime) -> Result<(), Fail> {
    says_nothing(&rt, unlike_with(rt.alloc(), NO_WORDS, NOT_BEHIND))
}

#[test]
fn a_host_has_at_most_eight_connections_without_a_word(rt: HostRuntime) -> Result<(), Fail> {
    let acts = asking(rt.alloc(), &[b"POST http://h/a HTTP/1.1\r\n\r\n"], 9, &[])?;
    let exchange = [Exchange {
        name: "nine that go alone",
        acts: acts.as_slice(),
        wanted: &[
            Wanted::MostOpen(Step::Dialled(80), Step::Dropped, 8),
            Wanted::Count(Step::Dialled(80), 8),
        ],
    }];
    says_nothing(&rt, unlike_with(rt.alloc(), NO_WORDS, &exchange))
}
