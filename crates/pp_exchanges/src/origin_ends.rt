// Origins that end, speak too early, or are slow (RFC 2616, sections 4.4 and 8.1.4).
use crate::saying::says_nothing;
use pp_play::{
    Act, Exchange, GET, GET_B, PAGE_502, Part, REPLY, REPLY_B, RESPONSE, RESPONSE_B, Step, T,
    Wanted, unlike,
};
use pp_world::Cause;
use std::test::Fail;

const SAID_FIRST: &[Exchange<'static>] = &[
    Exchange {
        name: "of a response that is passed",
        acts: &[
            Act::Tick(T),
            Act::Connect,
            Act::Say(1, GET),
            Act::Window(1, 0),
            Act::Reach(2),
            Act::Answer(2, b"HTTP/1.1 200 OK\r\nContent-Length: 10\r\n\r\nAAAAA"),
            Act::End(2),
            Act::Window(1, 1000),
        ],
        wanted: &[
            Wanted::Said(
                1,
                &[Part::Text(
                    b"HTTP/1.1 200 OK\r\nvia: 1.1 polipo\r\ncontent-length: 10\r\nconnection: keep-alive\r\n\r\nAAAAA",
                )],
            ),
            Wanted::Cut(1, Cause::Short),
        ],
    },
    Exchange {
        name: "of a response that turns bad",
        acts: &[
            Act::Tick(T),
            Act::Connect,
            Act::Say(1, GET),
            Act::Window(1, 0),
            Act::Reach(2),
            Act::Answer(
                2,
                b"HTTP/1.1 200 OK\r\nTransfer-Encoding: chunked\r\n\r\n1\r\nA\r\n",
            ),
            Act::Answer(2, b"oh"),
            Act::Window(1, 1000),
        ],
        wanted: &[
            Wanted::Said(
                1,
                &[
                    Part::Text(
                        b"HTTP/1.1 200 OK\r\nvia: 1.1 polipo\r\ntransfer-encoding: chunked\r\nconnection: keep-alive\r\n\r\n",
                    ),
                    Part::Text(b"1\r\nA\r\n"),
                ],
            ),
            Wanted::Cut(1, Cause::Origin),
        ],
    },
    Exchange {
        name: "of a version that is kept",
        acts: &[
            Act::Tick(T),
            Act::Connect,
            Act::Say(1, GET),
            Act::Window(1, 0),
            Act::Reach(2),
            Act::Answer(
                2,
                b"HTTP/1.1 200 OK\r\nETag: \"x\"\r\nContent-Length: 10\r\n\r\n",
            ),
            Act::Answer(2, b"AAAAA"),
            Act::End(2),
            Act::Window(1, 1000),
            Act::Refuse(3),
            Act::Refuse(4),
            Act::Refuse(5),
        ],
        wanted: &[
            Wanted::Said(
                1,
                &[Part::Text(
                    b"HTTP/1.1 200 OK\r\netag: \"x\"\r\ndate: Sun, 06 Nov 1994 08:49:37 GMT\r\nvia: 1.1 polipo\r\ncontent-length: 10\r\nconnection: keep-alive\r\n\r\nAAAAA",
                )],
            ),
            Wanted::Cut(1, Cause::Origin),
        ],
    },
];

#[test]
fn what_came_is_said_before_a_reply_is_cut(rt: HostRuntime) -> Result<(), Fail> {
    says_nothing(&rt, unlike(rt.alloc(), SAID_FIRST))
}

const EARLY: &[Exchange<'static>] = &[
    Exchange {
        name: "an idle connection is closed with a word, and the request goes on another",
        acts: &[
            Act::Tick(T),
            Act::Connect,
            Act::Say(1, GET),
            Act::Reach(2),
            Act::Answer(2, RESPONSE),
            Act::Window(2, 0),
            Act::Say(1, GET_B),
            Act::Answer(
                2,
                b"HTTP/1.1 408 Request Timeout\r\nConnection: close\r\nContent-Length: 0\r\n\r\n",
            ),
            Act::Reach(3),
            Act::Answer(3, RESPONSE_B),
        ],
        wanted: &[Wanted::Said(1, &[Part::Text(REPLY), Part::Text(REPLY_B)])],
    },
    Exchange {
        name: "an answer before it was asked whole is nobody's, and the request is asked again",
        acts: &[
            Act::Tick(T),
            Act::Connect,
            Act::Say(1, GET),
            Act::Window(2, 44),
            Act::Reach(2),
            Act::Answer(2, RESPONSE),
            Act::Reach(3),
            Act::Answer(3, RESPONSE),
        ],
        wanted: &[
            Wanted::Said(1, &[Part::Text(REPLY)]),
            Wanted::Course(
                2,
                &[
                    Step::Dialled(80),
                    Step::Reached,
                    Step::Asked(44),
                    Step::Dropped,
                    Step::Stopped,
                ],
            ),
        ],
    },
    Exchange {
        name: "one that always speaks first is no origin",
        acts: &[
            Act::Tick(T),
            Act::Connect,
            Act::Say(1, GET),
            Act::Window(2, 0),
            Act::Reach(2),
            Act::Answer(2, b"220 hello\r\n"),
            Act::Window(3, 0),
            Act::Reach(3),
            Act::Answer(3, b"220 hello\r\n"),
            Act::Window(4, 0),
            Act::Reach(4),
            Act::Answer(4, b"220 hello\r\n"),
        ],
        wanted: &[
            Wanted::Said(1, &[Part::Text(PAGE_502)]),
            Wanted::Count(Step::Dialled(80), 3),
        ],
    },
];

#[test]
fn bytes_that_answer_nobody_cost_nobody(rt: HostRuntime) -> Result<(), Fail> {
    says_nothing(&rt, unlike(rt.alloc(), EARLY))
}

/// The clock leaps by an hour, and a second less than five minutes passes behind that.
macro_rules! nearly_given_up {
    ($then:expr) => {
        &[
            Act::Tick(T),
            Act::Connect,
            Act::Say(1, GET),
            Act::Reach(2),
            Act::Tick(T + 3_600),
            Act::Tick(T + 3_719),
            Act::Tick(T + 3_838),
            Act::Tick(T + 3_899),
            $then,
        ]
    };
}

const ASLEEP: &[Exchange<'static>] = &[
    Exchange {
        name: "two minutes, while the origin owes an answer",
        acts: &[
            Act::Tick(T),
            Act::Connect,
            Act::Say(1, GET),
            Act::Reach(2),
            Act::Tick(T + 120),
            Act::Answer(2, RESPONSE),
        ],
        wanted: &[
            Wanted::Said(1, &[Part::Text(REPLY)]),
            Wanted::Count(Step::Dialled(80), 1),
        ],
    },
    Exchange {
        name: "an hour, while the origin owes an answer",
        acts: &[
            Act::Tick(T),
            Act::Connect,
            Act::Say(1, GET),
            Act::Reach(2),
            Act::Tick(T + 3_600),
            Act::Answer(2, RESPONSE),
        ],
        wanted: &[
            Wanted::Said(1, &[Part::Text(REPLY)]),
            Wanted::Count(Step::Dialled(80), 1),
        ],
    },
    Exchange {
        name: "an hour, before the origin is reached",
        acts: &[
            Act::Tick(T),
            Act::Connect,
            Act::Say(1, GET),
            Act::Tick(T + 3_600),
            Act::Reach(2),
            Act::Answer(2, RESPONSE),
        ],
        wanted: &[
            Wanted::Said(1, &[Part::Text(REPLY)]),
            Wanted::Count(Step::Dialled(80), 1),
        ],
    },
    Exchange {
        name: "an hour, within a reply, whose client takes the rest then",
        acts: &[
            Act::Tick(T),
            Act::Connect,
            Act::Window(1, 10),
            Act::Say(1, GET),
            Act::Reach(2),
            Act::Answer(2, RESPONSE),
            Act::Tick(T + 3_600),
            Act::Window(1, 1_000),
        ],
        wanted: &[Wanted::Said(1, &[Part::Text(REPLY)])],
    },
    Exchange {
        name: "an hour, and nearly five minutes more",
        acts: nearly_given_up!(Act::Answer(2, RESPONSE)),
        wanted: &[
            Wanted::Said(1, &[Part::Text(REPLY)]),
            Wanted::Count(Step::Dialled(80), 1),
        ],
    },
    Exchange {
        name: "an hour, and five minutes more: then the origin is given up",
        acts: nearly_given_up!(Act::Tick(T + 3_900)),
        wanted: &[
            Wanted::Said(1, &[Part::Text(PAGE_502)]),
            Wanted::Count(Step::Dialled(80), 1),
        ],
    },
];

#[test]
fn a_computer_that_was_asleep_loses_no_request(rt: HostRuntime) -> Result<(), Fail> {
    says_nothing(&rt, unlike(rt.alloc(), ASLEEP))
}
