// Clients that close their writing half and wait for their replies (RFC 7230, section 6.6).
use crate::saying::says_nothing;
use pp_play::{
    ASK, ASK_B, Act, Exchange, GET, HEAD, HEAD_B, PASSED, Pace, Part, REPLY, REPLY_B, RESPONSE,
    Step, T, Wanted, unlike, unlike_at,
};
use pp_world::Decision;
use std::test::Fail;

const ENDED: &[Exchange<'static>] = &[
    Exchange {
        name: "behind its request",
        acts: &[
            Act::Connect,
            Act::Say(1, GET),
            Act::HangUp(1),
            Act::Reach(2),
            Act::Answer(2, HEAD),
            Act::Answer(2, b"hello"),
        ],
        wanted: &[
            Wanted::Said(1, &[Part::Text(REPLY)]),
            Wanted::Course(
                1,
                &[
                    Step::Opened,
                    Step::Taken(0, Decision::Fetch),
                    Step::HungUp,
                    Step::Taken(0, Decision::Part(0, 5)),
                    Step::Said(159),
                    Step::Shut,
                    Step::Stopped,
                ],
            ),
            Wanted::Course(
                2,
                &[
                    Step::Dialled(80),
                    Step::Reached,
                    Step::Asked(45),
                    Step::Stopped,
                    Step::Dropped,
                ],
            ),
        ],
    },
    Exchange {
        name: "behind two requests and a front of a third",
        acts: &[
            Act::Tick(T),
            Act::Connect,
            Act::Say(
                1,
                b"GET http://h/a HTTP/1.1\r\nHost: h\r\n\r\nGET http://h/b HTTP/1.1\r\nHost: h\r\n\r\nGET http://h/c",
            ),
            Act::HangUp(1),
            Act::Reach(2),
            Act::Answer(2, HEAD),
            Act::Answer(2, b"hello"),
            Act::Answer(2, HEAD_B),
            Act::Answer(2, b"bye"),
        ],
        wanted: &[
            Wanted::Asked(2, &[ASK, ASK_B]),
            Wanted::Said(1, &[Part::Text(REPLY), Part::Text(REPLY_B)]),
            Wanted::Course(
                1,
                &[
                    Step::Opened,
                    Step::Taken(0, Decision::Fetch),
                    Step::HungUp,
                    Step::Taken(0, Decision::Part(0, 5)),
                    Step::Said(159),
                    Step::Taken(1, Decision::Fetch),
                    Step::Taken(1, Decision::Part(0, 3)),
                    Step::Said(130),
                    Step::Shut,
                    Step::Stopped,
                ],
            ),
        ],
    },
    Exchange {
        name: "behind the body of its request",
        acts: &[
            Act::Connect,
            Act::Say(
                1,
                b"PUT http://h/a HTTP/1.1\r\nContent-Length: 3\r\n\r\nabc",
            ),
            Act::HangUp(1),
            Act::Reach(2),
            Act::Answer(2, RESPONSE),
        ],
        wanted: &[
            Wanted::Asked(
                2,
                &[b"PUT /a HTTP/1.1\r\nhost: h\r\ncontent-length: 3\r\nvia: 1.1 polipo\r\n\r\nabc"],
            ),
            Wanted::Said(1, &[Part::Text(PASSED)]),
            Wanted::Course(
                1,
                &[
                    Step::Opened,
                    Step::Taken(0, Decision::Pass),
                    Step::HungUp,
                    Step::Said(159),
                    Step::Shut,
                    Step::Stopped,
                ],
            ),
        ],
    },
];

#[test]
fn a_client_that_ends_gets_its_replies(rt: HostRuntime) -> Result<(), Fail> {
    says_nothing(&rt, unlike(rt.alloc(), ENDED))
}

const ENDED_IN_REPLY: &[Exchange<'static>] = &[
    Exchange {
        name: "in its reply",
        acts: &[
            Act::Connect,
            Act::Window(1, 10),
            Act::Say(1, GET),
            Act::Reach(2),
            Act::Answer(2, RESPONSE),
            Act::HangUp(1),
            Act::Window(1, 1_000),
        ],
        wanted: &[
            Wanted::Said(1, &[Part::Text(REPLY)]),
            Wanted::Course(
                1,
                &[
                    Step::Opened,
                    Step::Taken(0, Decision::Fetch),
                    Step::Taken(0, Decision::Hit(0, 5)),
                    Step::Said(10),
                    Step::HungUp,
                    Step::Said(149),
                    Step::Shut,
                    Step::Stopped,
                ],
            ),
        ],
    },
    Exchange {
        name: "before a page",
        acts: &[
            Act::Connect,
            Act::Window(1, 0),
            Act::Say(1, b"GET /a HTTP/1.1\r\n\r\n"),
            Act::HangUp(1),
            Act::Window(1, 200),
        ],
        wanted: &[
            Wanted::Said(
                1,
                &[Part::Text(
                    b"HTTP/1.1 400 Bad Request\r\ncontent-type: text/plain\r\ncontent-length: 16\r\nconnection: close\r\n\r\n400 Bad Request\n",
                )],
            ),
            Wanted::Course(
                1,
                &[
                    Step::Opened,
                    Step::Taken(0, Decision::Refuse(400)),
                    Step::HungUp,
                    Step::Said(109),
                    Step::Shut,
                    Step::Stopped,
                ],
            ),
        ],
    },
];

#[test]
fn a_client_that_ends_in_its_reply_gets_the_rest(rt: HostRuntime) -> Result<(), Fail> {
    says_nothing(&rt, unlike_at(rt.alloc(), Pace::Whole, ENDED_IN_REPLY))
}
