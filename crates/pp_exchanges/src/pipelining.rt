// Asks behind one another on a connection (RFC 2616, sections 8.1.2.2 and 8.1.4).
use crate::saying::says_nothing;
use pp_play::{
    ASK, ASK_B, Act, Exchange, GET, GET_B, PAGE_502, Part, REPLY, RESPONSE, Step, T, Wanted,
    unlike, unlike_with,
};
use std::test::Fail;

/// Further pages of the same host, and how they are asked for.
const GET_C: &[u8] = b"GET http://h/c HTTP/1.1\r\n\r\n";

const GET_D: &[u8] = b"GET http://h/d HTTP/1.1\r\n\r\n";

const GET_E: &[u8] = b"GET http://h/e HTTP/1.1\r\n\r\n";

const GET_F: &[u8] = b"GET http://h/f HTTP/1.1\r\n\r\n";

const ASK_C: &[u8] = b"GET /c HTTP/1.1\r\nhost: h\r\nvia: 1.1 polipo\r\n\r\n";

const ASK_E: &[u8] = b"GET /e HTTP/1.1\r\nhost: h\r\nvia: 1.1 polipo\r\n\r\n";

const ASK_F: &[u8] = b"GET /f HTTP/1.1\r\nhost: h\r\nvia: 1.1 polipo\r\n\r\n";

const BEHIND: &[Exchange<'static>] = &[
    Exchange {
        name: "four connections are dialled; the first that brought a response takes all that waits",
        acts: &[
            Act::Tick(T),
            Act::Connect,
            Act::Say(1, GET),
            Act::Connect,
            Act::Say(3, GET_B),
            Act::Connect,
            Act::Say(5, GET_C),
            Act::Connect,
            Act::Say(7, GET_D),
            Act::Connect,
            Act::Say(9, GET_E),
            Act::Connect,
            Act::Say(10, GET_F),
            Act::Reach(4),
            Act::Answer(4, RESPONSE),
            Act::Answer(4, RESPONSE),
            Act::Answer(4, RESPONSE),
        ],
        wanted: &[
            Wanted::Count(Step::Dialled(80), 4),
            Wanted::Asked(4, &[ASK_B, ASK_E, ASK_F]),
            Wanted::Said(3, &[Part::Text(REPLY)]),
            Wanted::Said(9, &[Part::Text(REPLY)]),
            Wanted::Said(10, &[Part::Text(REPLY)]),
            Wanted::Said(1, &[]),
        ],
    },
    Exchange {
        name: "a response that breaks off takes those behind it along: all are asked again, and nothing is counted",
        acts: &[
            Act::Tick(T),
            Act::Connect,
            Act::Say(1, GET),
            Act::Reach(2),
            Act::Answer(2, RESPONSE),
            Act::Connect,
            Act::Say(3, GET_B),
            Act::Connect,
            Act::Say(4, GET_C),
            Act::Connect,
            Act::Say(6, GET_D),
            Act::Connect,
            Act::Say(8, GET_E),
            Act::Connect,
            Act::Say(10, GET_F),
            Act::Answer(2, b"HTTP/1."),
            Act::End(2),
            // a loss that was counted would make the second of these the last
            Act::Refuse(11),
            Act::Refuse(12),
            Act::Reach(13),
            Act::Answer(13, RESPONSE),
            Act::Answer(13, RESPONSE),
        ],
        wanted: &[
            Wanted::Asked(2, &[ASK, ASK_B, ASK_F]),
            Wanted::Asked(13, &[ASK_B, ASK_F]),
            Wanted::MostOpen(Step::Dialled(80), Step::Dropped, 4),
            Wanted::Count(Step::Dialled(80), 7),
            Wanted::Said(3, &[Part::Text(REPLY)]),
            Wanted::Said(10, &[Part::Text(REPLY)]),
        ],
    },
    Exchange {
        name: "a POST takes a connection of its own, though another is idle, and that takes asks behind it",
        acts: &[
            Act::Tick(T),
            Act::Connect,
            Act::Say(1, GET),
            Act::Reach(2),
            Act::Answer(2, RESPONSE),
            Act::Say(1, b"POST http://h/c HTTP/1.1\r\n\r\n"),
            Act::Reach(3),
            Act::Answer(3, b"HTTP/1.1 204 No Content\r\n\r\n"),
            Act::Connect,
            Act::Say(4, GET_E),
            Act::Connect,
            Act::Say(5, GET_F),
            Act::Answer(2, RESPONSE),
            Act::Answer(3, RESPONSE),
        ],
        wanted: &[
            Wanted::Asked(2, &[ASK, ASK_E]),
            Wanted::Asked(
                3,
                &[
                    b"POST /c HTTP/1.1\r\nhost: h\r\nvia: 1.1 polipo\r\n\r\n",
                    ASK_F,
                ],
            ),
            Wanted::Count(Step::Dialled(80), 2),
            Wanted::Said(4, &[Part::Text(REPLY)]),
            Wanted::Said(5, &[Part::Text(REPLY)]),
        ],
    },
];

#[test]
fn asks_go_behind_one_another_where_no_connection_is_free(rt: HostRuntime) -> Result<(), Fail> {
    says_nothing(&rt, unlike(rt.alloc(), BEHIND))
}

/// A host has one connection, and asks go behind one another on it.
const ONE_CONNECTION: &[&str] = &["hostConnections=1", "pipelineAsks=1"];

/// The only connection of the host brought a page, and was asked for two more, the first for the same client. It is
/// given up for that one; the other is asked again, and nothing is counted: a loss that was would make the second refusal the last.
macro_rules! given_up {
    ($name:literal, [$($gives_up:expr),*], $first:expr) => {
        Exchange {
            name: $name,
            acts: &[
                Act::Tick(T),
                Act::Connect,
                Act::Say(1, GET),
                Act::Reach(2),
                Act::Answer(2, RESPONSE),
                Act::Say(1, GET_B),
                Act::Connect,
                Act::Say(3, GET_C),
                $($gives_up,)*
                Act::Refuse(4),
                Act::Refuse(5),
                Act::Reach(6),
                Act::Answer(6, RESPONSE),
            ],
            wanted: &[
                Wanted::Asked(2, &[ASK, ASK_B, ASK_C]),
                Wanted::Course(
                    2,
                    &[
                        Step::Dialled(80),
                        Step::Reached,
                        Step::Asked(135),
                        Step::Dropped,
                        Step::Stopped,
                    ],
                ),
                Wanted::Count(Step::Dialled(80), 4),
                $first,
                Wanted::Asked(6, &[ASK_C]),
                Wanted::Said(3, &[Part::Text(REPLY)]),
            ],
        }
    };
}

const GIVEN_UP: &[Exchange<'static>] = &[
    given_up!(
        "the client of what is passed is gone",
        [
            Act::Answer(
                2,
                b"HTTP/1.1 200 OK\r\nContent-Length: 1000000\r\n\r\nhello"
            ),
            Act::Break(1),
            Act::Break(1),
            Act::Answer(2, b"hello")
        ],
        Wanted::Shut(1)
    ),
    given_up!(
        "the first is not answered for five minutes",
        [Act::Tick(T + 100), Act::Tick(T + 200), Act::Tick(T + 300)],
        Wanted::Said(1, &[Part::Text(REPLY), Part::Text(PAGE_502)])
    ),
];

#[test]
fn those_behind_one_that_is_given_up_are_asked_again(rt: HostRuntime) -> Result<(), Fail> {
    says_nothing(&rt, unlike_with(rt.alloc(), ONE_CONNECTION, GIVEN_UP))
}
