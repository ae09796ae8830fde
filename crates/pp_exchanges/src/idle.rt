// Clients and origins that do nothing: nobody waits for ever. The times are ours.
use crate::saying::says_nothing;
use pp_play::{
    Act, Exchange, GET, HEAD, PAGE_502, PASSED, Part, REPLY, RESPONSE, Step, T, Wanted, unlike,
};
use pp_world::{Cause, Decision};
use std::test::Fail;

/// A client takes ten bytes of its reply, and its fifteen minutes are over in a second.
macro_rules! nearly_cut {
    ($then:expr) => {
        &[
            Act::Tick(T),
            Act::Connect,
            Act::Window(1, 10),
            Act::Say(1, GET),
            Act::Reach(2),
            Act::Answer(2, HEAD),
            Act::Answer(2, b"hello"),
            Act::Tick(T + 119),
            Act::Tick(T + 238),
            Act::Tick(T + 357),
            Act::Tick(T + 476),
            Act::Tick(T + 595),
            Act::Tick(T + 714),
            Act::Tick(T + 833),
            Act::Tick(T + 899),
            $then,
        ]
    };
}

const CLIENTS: &[Exchange<'static>] = &[
    Exchange {
        name: "within its request",
        acts: &[
            Act::Tick(T),
            Act::Connect,
            Act::Say(1, b"GET http://h/"),
            Act::Tick(T + 119),
            Act::Tick(T + 120),
        ],
        wanted: &[Wanted::Course(
            1,
            &[
                Step::Opened,
                Step::Cut(Cause::Idle),
                Step::Shut,
                Step::Stopped,
            ],
        )],
    },
    Exchange {
        name: "within its request, but for a byte in time",
        acts: &[
            Act::Tick(T),
            Act::Connect,
            Act::Say(1, b"GET http://h/"),
            Act::Tick(T + 119),
            Act::Say(1, b"a"),
            Act::Tick(T + 238),
        ],
        wanted: &[Wanted::Course(1, &[Step::Opened, Step::Stopped, Step::Shut])],
    },
    Exchange {
        name: "within its reply: it has fifteen minutes",
        acts: nearly_cut!(Act::Tick(T + 900)),
        wanted: &[Wanted::Course(
            1,
            &[
                Step::Opened,
                Step::Taken(0, Decision::Fetch),
                Step::Taken(0, Decision::Part(0, 5)),
                Step::Said(10),
                Step::Cut(Cause::Idle),
                Step::Shut,
                Step::Stopped,
            ],
        )],
    },
    Exchange {
        name: "within its reply, but for what it takes in time",
        acts: nearly_cut!(Act::Window(1, 1_000)),
        wanted: &[Wanted::Said(1, &[Part::Text(REPLY)])],
    },
];

#[test]
fn a_client_that_does_nothing_is_cut(rt: HostRuntime) -> Result<(), Fail> {
    says_nothing(&rt, unlike(rt.alloc(), CLIENTS))
}

/// Its request is asked three times, a minute each.
const GIVEN_UP: &[Wanted<'static>] = &[
    Wanted::Said(1, &[Part::Text(PAGE_502)]),
    Wanted::Count(Step::Dialled(80), 3),
    Wanted::Course(1, REFUSED),
];

/// The course of a client whose exchange came to nothing.
const REFUSED: &[Step] = &[
    Step::Opened,
    Step::Taken(0, Decision::Fetch),
    Step::Taken(0, Decision::Refuse(502)),
    Step::Said(114),
    Step::Stopped,
    Step::Shut,
];

/// A request with a body, and how it is asked.
const PUT: &[u8] = b"PUT http://h/a HTTP/1.1\r\nContent-Length: 3\r\n\r\n";

const ASK_PUT: &[u8] =
    b"PUT /a HTTP/1.1\r\nhost: h\r\ncontent-length: 3\r\nvia: 1.1 polipo\r\n\r\n";

/// The course of a connection that is given up behind a plain ask.
const LEFT: &[Step] = &[
    Step::Dialled(80),
    Step::Reached,
    Step::Asked(45),
    Step::Dropped,
    Step::Stopped,
];

const ORIGINS: &[Exchange<'static>] = &[
    Exchange {
        name: "before it is reached",
        acts: &[
            Act::Tick(T),
            Act::Connect,
            Act::Say(1, GET),
            Act::Tick(T + 60),
            Act::Tick(T + 120),
            Act::Tick(T + 180),
        ],
        wanted: GIVEN_UP,
    },
    Exchange {
        name: "before it took all of its ask",
        acts: &[
            Act::Tick(T),
            Act::Connect,
            Act::Say(1, GET),
            Act::Window(2, 44),
            Act::Reach(2),
            Act::Tick(T + 60),
            Act::Window(3, 44),
            Act::Reach(3),
            Act::Tick(T + 120),
            Act::Window(4, 44),
            Act::Reach(4),
            Act::Tick(T + 180),
        ],
        wanted: GIVEN_UP,
    },
    Exchange {
        name: "before it answers: it has five minutes, and is asked once",
        acts: &[
            Act::Tick(T),
            Act::Connect,
            Act::Say(1, GET),
            Act::Reach(2),
            Act::Tick(T + 100),
            Act::Tick(T + 200),
            Act::Tick(T + 300),
        ],
        wanted: &[
            Wanted::Said(1, &[Part::Text(PAGE_502)]),
            Wanted::Count(Step::Dialled(80), 1),
            Wanted::Course(1, REFUSED),
            Wanted::Course(2, LEFT),
        ],
    },
    Exchange {
        name: "but for a byte in time",
        acts: &[
            Act::Tick(T),
            Act::Connect,
            Act::Say(1, GET),
            Act::Reach(2),
            Act::Tick(T + 100),
            Act::Tick(T + 200),
            Act::Tick(T + 299),
            Act::Answer(2, HEAD),
            Act::Answer(2, b"hel"),
            Act::Tick(T + 399),
            Act::Tick(T + 499),
            Act::Tick(T + 598),
            Act::Answer(2, b"lo"),
        ],
        wanted: &[
            Wanted::Count(Step::Dialled(80), 1),
            Wanted::Said(1, &[Part::Text(REPLY)]),
        ],
    },
    Exchange {
        name: "within its body: the reply is cut, and the next client has the rest asked for",
        acts: &[
            Act::Tick(T),
            Act::Connect,
            Act::Say(1, GET),
            Act::Reach(2),
            Act::Answer(
                2,
                b"HTTP/1.1 200 OK\r\nDate: Sun, 06 Nov 1994 08:49:37 GMT\r\nETag: \"x\"\r\nCache-Control: max-age=1000\r\nContent-Length: 5\r\n\r\n",
            ),
            Act::Answer(2, b"hel"),
            Act::Tick(T + 100),
            Act::Tick(T + 200),
            Act::Tick(T + 300),
            Act::Connect,
            Act::Say(3, GET),
            Act::Reach(4),
            Act::Answer(
                4,
                b"HTTP/1.1 206 Partial Content\r\nETag: \"x\"\r\nContent-Range: bytes 3-4/5\r\nContent-Length: 2\r\n\r\nlo",
            ),
        ],
        wanted: &[
            Wanted::Course(
                1,
                &[
                    Step::Opened,
                    Step::Taken(0, Decision::Fetch),
                    Step::Taken(0, Decision::Part(0, 5)),
                    Step::Said(159),
                    Step::Cut(Cause::Origin),
                    Step::Shut,
                    Step::Stopped,
                ],
            ),
            Wanted::Course(2, LEFT),
            Wanted::Asked(
                4,
                &[
                    b"GET /a HTTP/1.1\r\nhost: h\r\nrange: bytes=3-4\r\nif-range: \"x\"\r\nvia: 1.1 polipo\r\n\r\n",
                ],
            ),
            Wanted::Said(
                3,
                &[Part::Text(
                    b"HTTP/1.1 200 OK\r\netag: \"x\"\r\ndate: Sun, 06 Nov 1994 08:49:37 GMT\r\ncache-control: max-age=1000\r\nage: 300\r\nvia: 1.1 polipo\r\ncontent-length: 5\r\nconnection: keep-alive\r\n\r\nhello",
                )],
            ),
        ],
    },
    Exchange {
        name: "within a body that is passed",
        acts: &[
            Act::Tick(T),
            Act::Connect,
            Act::Say(1, GET),
            Act::Reach(2),
            Act::Answer(2, b"HTTP/1.1 200 OK\r\nContent-Length: 10\r\n\r\nhello"),
            Act::Tick(T + 100),
            Act::Tick(T + 200),
            Act::Tick(T + 299),
            Act::Answer(2, b" "),
            Act::Tick(T + 399),
            Act::Tick(T + 499),
            Act::Tick(T + 599),
        ],
        wanted: &[
            Wanted::Cut(1, Cause::Short),
            Wanted::Count(Step::Dialled(80), 1),
            Wanted::Said(
                1,
                &[Part::Text(
                    b"HTTP/1.1 200 OK\r\nvia: 1.1 polipo\r\ncontent-length: 10\r\nconnection: keep-alive\r\n\r\nhello ",
                )],
            ),
        ],
    },
    Exchange {
        name: "while a part of the request's body is to come",
        acts: &[
            Act::Tick(T),
            Act::Connect,
            Act::Say(1, PUT),
            Act::Say(1, b"ab"),
            Act::Reach(2),
            Act::Tick(T + 60),
        ],
        wanted: &[
            Wanted::Said(1, &[Part::Text(PAGE_502)]),
            Wanted::Count(Step::Dialled(80), 1),
            Wanted::Asked(2, &[ASK_PUT, b"ab"]),
            Wanted::Course(
                2,
                &[
                    Step::Dialled(80),
                    Step::Reached,
                    Step::Asked(66),
                    Step::Dropped,
                    Step::Stopped,
                ],
            ),
        ],
    },
    Exchange {
        name: "behind the request's body, which came a second before that",
        acts: &[
            Act::Tick(T),
            Act::Connect,
            Act::Say(1, PUT),
            Act::Say(1, b"ab"),
            Act::Reach(2),
            Act::Tick(T + 59),
            Act::Say(1, b"c"),
            Act::Tick(T + 159),
            Act::Tick(T + 259),
            Act::Tick(T + 358),
            Act::Answer(2, RESPONSE),
        ],
        wanted: &[
            Wanted::Asked(2, &[ASK_PUT, b"abc"]),
            Wanted::Said(1, &[Part::Text(PASSED)]),
        ],
    },
];

#[test]
fn an_origin_that_does_nothing_is_left(rt: HostRuntime) -> Result<(), Fail> {
    says_nothing(&rt, unlike(rt.alloc(), ORIGINS))
}
