// Plain requests, and their replies.
use crate::saying::says_nothing;
use pp_play::{
    ASK, ASK_B, Act, Exchange, GET, GET_B, HEAD, HEAD_B, Pace, Part, REPLY, REPLY_B, REPLY_HELD,
    RESPONSE, Step, T, Wanted, unlike, unlike_at,
};
use pp_run::Exit;
use pp_world::Decision;
use std::test::Fail;

const PLAIN: &[Act<'static>] = &[
    Act::Tick(T),
    Act::Connect,
    Act::Say(1, GET),
    Act::Reach(2),
    Act::Answer(2, RESPONSE),
];

/// The course of its connection to the origin, which stays.
const PLAIN_ASKED: &[Step] = &[
    Step::Dialled(80),
    Step::Reached,
    Step::Asked(45),
    Step::Stopped,
    Step::Dropped,
];

const PLAIN_WHOLE: &[Exchange<'static>] = &[Exchange {
    name: "a plain GET",
    acts: PLAIN,
    wanted: &[
        Wanted::Exit(Exit::Served),
        Wanted::Dialled(2, b"h", 80),
        Wanted::Asked(2, &[ASK]),
        Wanted::Said(1, &[Part::Text(REPLY)]),
        Wanted::Course(
            1,
            &[
                Step::Opened,
                Step::Taken(0, Decision::Fetch),
                Step::Taken(0, Decision::Hit(0, 5)),
                Step::Said(159),
                Step::Stopped,
                Step::Shut,
            ],
        ),
        Wanted::Course(2, PLAIN_ASKED),
    ],
}];

const PLAIN_BYTEWISE: &[Exchange<'static>] = &[Exchange {
    name: "a plain GET byte by byte, decided when no byte of the body is there",
    acts: PLAIN,
    wanted: &[
        Wanted::Exit(Exit::Served),
        Wanted::Dialled(2, b"h", 80),
        Wanted::Asked(2, &[ASK]),
        Wanted::Said(1, &[Part::Text(REPLY)]),
        Wanted::Course(
            1,
            &[
                Step::Opened,
                Step::Taken(0, Decision::Fetch),
                Step::Taken(0, Decision::Part(0, 5)),
                Step::Said(159),
                Step::Stopped,
                Step::Shut,
            ],
        ),
        Wanted::Course(2, PLAIN_ASKED),
    ],
}];

#[test]
fn a_plain_get_is_fetched_and_answered(rt: HostRuntime) -> Result<(), Fail> {
    let alloc = rt.alloc();
    says_nothing(&rt, unlike_at(alloc, Pace::Whole, PLAIN_WHOLE))?;
    says_nothing(&rt, unlike_at(alloc, Pace::Bytewise, PLAIN_BYTEWISE))
}

const TARGETS: &[Exchange<'static>] = &[
    Exchange {
        name: "a path alone",
        acts: &[
            Act::Connect,
            Act::Say(1, b"GET http://h/ HTTP/1.1\r\nHost: h\r\n\r\n"),
            Act::Reach(2),
        ],
        wanted: &[
            Wanted::Dialled(2, b"h", 80),
            Wanted::Asked(
                2,
                &[b"GET / HTTP/1.1\r\nhost: h\r\nvia: 1.1 polipo\r\n\r\n"],
            ),
            Wanted::Said(1, &[]),
        ],
    },
    Exchange {
        name: "a host in capitals, a port, no path and a query (RFC 2616, sections 3.2.2 and 3.2.3)",
        acts: &[
            Act::Connect,
            Act::Say(1, b"GET http://A-1.Example:8080?q=/1 HTTP/1.1\r\n\r\n"),
            Act::Reach(2),
        ],
        wanted: &[
            Wanted::Dialled(2, b"a-1.example", 8080),
            Wanted::Asked(
                2,
                &[b"GET /?q=/1 HTTP/1.1\r\nhost: a-1.example:8080\r\nvia: 1.1 polipo\r\n\r\n"],
            ),
        ],
    },
    Exchange {
        name: "the port 80, and a fragment",
        acts: &[
            Act::Connect,
            Act::Say(1, b"GET http://h:80/b/../c?d=/e?f#g HTTP/1.1\r\n\r\n"),
            Act::Reach(2),
        ],
        wanted: &[
            Wanted::Dialled(2, b"h", 80),
            Wanted::Asked(
                2,
                &[b"GET /b/../c?d=/e?f HTTP/1.1\r\nhost: h\r\nvia: 1.1 polipo\r\n\r\n"],
            ),
        ],
    },
    Exchange {
        name: "the host of the target counts, whatever the Host field says (RFC 2616, section 5.2)",
        acts: &[
            Act::Connect,
            Act::Say(1, b"GET http://h/a HTTP/1.1\r\nhOST:other:1\r\n\r\n"),
            Act::Reach(2),
        ],
        wanted: &[Wanted::Dialled(2, b"h", 80), Wanted::Asked(2, &[ASK])],
    },
    Exchange {
        name: "an empty line before a request is passed over (RFC 2616, section 4.1)",
        acts: &[
            Act::Connect,
            Act::Say(1, b"\r\nGET http://h/a HTTP/1.1\r\nHost: h\r\n\r\n"),
            Act::Reach(2),
        ],
        wanted: &[Wanted::Asked(2, &[ASK])],
    },
    Exchange {
        name: "a line may end with LF alone (RFC 2616, section 19.3)",
        acts: &[
            Act::Connect,
            Act::Say(1, b"GET http://h/a HTTP/1.1\nHost: h\n\n"),
            Act::Reach(2),
        ],
        wanted: &[Wanted::Asked(2, &[ASK])],
    },
    Exchange {
        name: "fields of one connection stay behind, all others go on (RFC 2616, sections 13.5.1 and 14.10)",
        acts: &[
            Act::Connect,
            Act::Say(
                1,
                b"GET http://h/a HTTP/1.1\r\nProxy-Connection: keep-alive\r\nA:  b  c \r\nConnection: X, te\r\nx: y\r\nTE: z\r\nCookie: d\r\nUpgrade: e\r\nVia: 1.0 f\r\nX-Polipo-Date: 1\r\nProxy-Authorization: g\r\nA:\r\n\r\n",
            ),
            Act::Reach(2),
        ],
        wanted: &[Wanted::Asked(
            2,
            &[
                b"GET /a HTTP/1.1\r\nhost: h\r\na: b  c\r\ncookie: d\r\nvia: 1.0 f\r\na: \r\nvia: 1.1 polipo\r\n\r\n",
            ],
        )],
    },
];

#[test]
fn the_origin_is_asked_for_the_path_of_the_target(rt: HostRuntime) -> Result<(), Fail> {
    says_nothing(&rt, unlike(rt.alloc(), TARGETS))
}

const REPLIES: &[Exchange<'static>] = &[
    Exchange {
        name: "an empty body, of a response without a date",
        acts: &[
            Act::Tick(T),
            Act::Connect,
            Act::Say(1, GET),
            Act::Reach(2),
            Act::Answer(
                2,
                b"HTTP/1.1 200 OK\r\nContent-Length: 0\r\nETag: \"e\"\r\n\r\n",
            ),
        ],
        wanted: &[
            Wanted::Said(
                1,
                &[Part::Text(
                    b"HTTP/1.1 200 OK\r\netag: \"e\"\r\ndate: Sun, 06 Nov 1994 08:49:37 GMT\r\nvia: 1.1 polipo\r\ncontent-length: 0\r\nconnection: keep-alive\r\n\r\n",
                )],
            ),
            Wanted::Taken(1, Decision::Hit(0, 0)),
            Wanted::Count(Step::Dialled(80), 1),
        ],
    },
    Exchange {
        name: "of a response that is kept the fields that a later one may change come last, and its age is told",
        acts: &[
            Act::Tick(T),
            Act::Connect,
            Act::Say(1, GET),
            Act::Reach(2),
            Act::Answer(
                2,
                b"HTTP/1.1 200 Fine\r\nCache-Control: max-age=60\r\nAge: 3\r\nA:  b  c \r\nExpires: Sun, 06 Nov 1994 08:49:38 GMT\r\nDate: Sun, 06 Nov 1994 08:49:37 GMT\r\nKeep-Alive: timeout=5\r\nX-Polipo-Date: 1\r\nConnection: B\r\nb: c\r\nETag: \"x\"\r\nContent-Length: 2\r\nA:\r\nVia: 1.0 a\r\nCache-Control: public\r\n\r\nab",
            ),
        ],
        wanted: &[Wanted::Said(
            1,
            &[Part::Text(
                b"HTTP/1.1 200 OK\r\na: b  c\r\netag: \"x\"\r\na: \r\nvia: 1.0 a\r\ndate: Sun, 06 Nov 1994 08:49:37 GMT\r\nexpires: Sun, 06 Nov 1994 08:49:38 GMT\r\ncache-control: max-age=60\r\ncache-control: public\r\nage: 3\r\nvia: 1.1 polipo\r\ncontent-length: 2\r\nconnection: keep-alive\r\n\r\nab",
            )],
        )],
    },
    Exchange {
        name: "any status and reason, and fields in their order",
        acts: &[
            Act::Connect,
            Act::Say(1, GET),
            Act::Reach(2),
            Act::Answer(
                2,
                b"HTTP/1.1 404 Not Quite Here\r\nA:  b  c \r\nETag: W/\"x\"\r\nA:\r\nContent-Length: 1\r\n\r\nz",
            ),
        ],
        wanted: &[Wanted::Said(
            1,
            &[Part::Text(
                b"HTTP/1.1 404 Not Quite Here\r\na: b  c\r\netag: W/\"x\"\r\na: \r\nvia: 1.1 polipo\r\ncontent-length: 1\r\nconnection: keep-alive\r\n\r\nz",
            )],
        )],
    },
    Exchange {
        name: "a whole that looks like several ranges is one body",
        acts: &[
            Act::Connect,
            Act::Say(1, GET),
            Act::Reach(2),
            Act::Answer(
                2,
                b"HTTP/1.1 200 OK\r\nContent-Type: multipart/byteranges; boundary=b\r\nContent-Length: 7\r\n\r\n--b--\r\n",
            ),
        ],
        wanted: &[Wanted::Said(
            1,
            &[Part::Text(
                b"HTTP/1.1 200 OK\r\ncontent-type: multipart/byteranges; boundary=b\r\nvia: 1.1 polipo\r\ncontent-length: 7\r\nconnection: keep-alive\r\n\r\n--b--\r\n",
            )],
        )],
    },
    Exchange {
        name: "fields of one connection stay behind, and those that Connection names",
        acts: &[
            Act::Connect,
            Act::Say(1, GET),
            Act::Reach(2),
            Act::Answer(
                2,
                b"HTTP/1.1 200 \r\nKeep-Alive: timeout=5\r\nX-Polipo-Date: 1\r\nTE: x\r\nTrailer: y\r\nUpgrade: z\r\nProxy-Connection: x\r\nProxy-Authenticate: x\r\nVia: 1.0 a\r\nConnection: close, B\r\nb: c\r\nContent-Length: 0\r\n\r\n",
            ),
        ],
        wanted: &[Wanted::Said(
            1,
            &[Part::Text(
                b"HTTP/1.1 200 \r\nvia: 1.0 a\r\nvia: 1.1 polipo\r\ncontent-length: 0\r\nconnection: keep-alive\r\n\r\n",
            )],
        )],
    },
    Exchange {
        name: "what comes after the body is no part of the response",
        acts: &[
            Act::Connect,
            Act::Say(1, GET),
            Act::Reach(2),
            Act::Answer(
                2,
                b"HTTP/1.1 200 OK\r\nContent-Length: 2\r\n\r\nabHTTP/1.1 200 OK\r\n\r\n",
            ),
        ],
        wanted: &[
            Wanted::Said(
                1,
                &[Part::Text(
                    b"HTTP/1.1 200 OK\r\nvia: 1.1 polipo\r\ncontent-length: 2\r\nconnection: keep-alive\r\n\r\nab",
                )],
            ),
            Wanted::Course(
                2,
                &[
                    Step::Dialled(80),
                    Step::Reached,
                    Step::Asked(45),
                    Step::Dropped,
                    Step::Stopped,
                ],
            ),
        ],
    },
];

#[test]
fn the_reply_has_the_fields_that_are_forwarded(rt: HostRuntime) -> Result<(), Fail> {
    says_nothing(&rt, unlike(rt.alloc(), REPLIES))
}

/// Two requests in one piece.
const GET_BOTH: &[u8] =
    b"GET http://h/a HTTP/1.1\r\nHost: h\r\n\r\nGET http://h/b HTTP/1.1\r\nHost: h\r\n\r\n";

/// Both are asked on one connection, the second one behind the first one's reply.
const BOTH_ANSWERED: &[Wanted<'static>] = &[
    Wanted::Said(1, &[Part::Text(REPLY), Part::Text(REPLY_B)]),
    Wanted::Course(
        1,
        &[
            Step::Opened,
            Step::Taken(0, Decision::Fetch),
            Step::Taken(0, Decision::Part(0, 5)),
            Step::Said(159),
            Step::Taken(1, Decision::Fetch),
            Step::Taken(1, Decision::Part(0, 3)),
            Step::Said(130),
            Step::Stopped,
            Step::Shut,
        ],
    ),
    Wanted::Asked(2, &[ASK, ASK_B]),
    Wanted::Count(Step::Dialled(80), 1),
];

const TWO_REQUESTS: &[Exchange<'static>] = &[
    Exchange {
        name: "one behind the other's reply",
        acts: &[
            Act::Tick(T),
            Act::Connect,
            Act::Say(1, GET),
            Act::Reach(2),
            Act::Answer(2, HEAD),
            Act::Answer(2, b"hello"),
            Act::Say(1, GET_B),
            Act::Answer(2, HEAD_B),
            Act::Answer(2, b"bye"),
        ],
        wanted: BOTH_ANSWERED,
    },
    Exchange {
        name: "both at once",
        acts: &[
            Act::Tick(T),
            Act::Connect,
            Act::Say(1, GET_BOTH),
            Act::Reach(2),
            Act::Answer(2, HEAD),
            Act::Answer(2, b"hello"),
            Act::Answer(2, HEAD_B),
            Act::Answer(2, b"bye"),
        ],
        wanted: BOTH_ANSWERED,
    },
    Exchange {
        name: "the same page twice, and it is held the second time",
        acts: &[
            Act::Tick(T),
            Act::Connect,
            Act::Say(1, GET),
            Act::Say(1, GET),
            Act::Reach(2),
            Act::Answer(2, HEAD),
            Act::Answer(2, b"hello"),
        ],
        wanted: &[
            Wanted::Said(1, &[Part::Text(REPLY), Part::Text(REPLY_HELD)]),
            Wanted::Course(
                1,
                &[
                    Step::Opened,
                    Step::Taken(0, Decision::Fetch),
                    Step::Taken(0, Decision::Part(0, 5)),
                    Step::Said(159),
                    Step::Taken(1, Decision::Hit(0, 5)),
                    Step::Said(167),
                    Step::Stopped,
                    Step::Shut,
                ],
            ),
            Wanted::Asked(2, &[ASK]),
            Wanted::Count(Step::Dialled(80), 1),
        ],
    },
];

#[test]
fn requests_of_one_client_are_answered_one_after_the_other(rt: HostRuntime) -> Result<(), Fail> {
    says_nothing(&rt, unlike(rt.alloc(), TWO_REQUESTS))
}
