// Origins that are lost, and asked again (RFC 2616, section 8.1.4).
use crate::saying::says_nothing;
use pp_play::{
    ASK, ASK_B, Act, Exchange, GET, GET_B, HEAD, PAGE_502, Part, REPLY, REPLY_B, RESPONSE,
    RESPONSE_B, Step, T, Wanted, unlike,
};
use pp_world::{Cause, Decision};
use std::test::Fail;

/// What is asked for the rest of the page from an offset on.
const REST_1: &[u8] =
    b"GET /a HTTP/1.1\r\nhost: h\r\nrange: bytes=1-4\r\nif-range: \"x\"\r\nvia: 1.1 polipo\r\n\r\n";

const REST_2: &[u8] =
    b"GET /a HTTP/1.1\r\nhost: h\r\nrange: bytes=2-4\r\nif-range: \"x\"\r\nvia: 1.1 polipo\r\n\r\n";

const REST_3: &[u8] =
    b"GET /a HTTP/1.1\r\nhost: h\r\nrange: bytes=3-4\r\nif-range: \"x\"\r\nvia: 1.1 polipo\r\n\r\n";

const REST_4: &[u8] =
    b"GET /a HTTP/1.1\r\nhost: h\r\nrange: bytes=4-4\r\nif-range: \"x\"\r\nvia: 1.1 polipo\r\n\r\n";

const WITHIN_HEAD: &[Exchange<'static>] = &[
    Exchange {
        name: "three times in a row",
        acts: &[
            Act::Connect,
            Act::Say(1, GET),
            Act::Reach(2),
            Act::Answer(2, b"HTTP/1.1 200 OK\r\nETa"),
            Act::End(2),
            Act::Reach(3),
            Act::Break(3),
            Act::Refuse(4),
        ],
        wanted: &[
            Wanted::Asked(2, &[ASK]),
            Wanted::Asked(3, &[ASK]),
            Wanted::Asked(4, &[]),
            Wanted::Count(Step::Dialled(80), 3),
            Wanted::Said(1, &[Part::Text(PAGE_502)]),
            Wanted::Course(
                1,
                &[
                    Step::Opened,
                    Step::Taken(0, Decision::Fetch),
                    Step::Taken(0, Decision::Refuse(502)),
                    Step::Said(114),
                    Step::Stopped,
                    Step::Shut,
                ],
            ),
        ],
    },
    Exchange {
        name: "and twice, which the client does not see",
        acts: &[
            Act::Connect,
            Act::Say(1, GET),
            Act::Refuse(2),
            Act::Reach(3),
            Act::Answer(3, b"HTTP/1.1 200 OK\r\nETa"),
            Act::End(3),
            Act::Reach(4),
            Act::Answer(4, RESPONSE),
        ],
        wanted: &[
            Wanted::Asked(3, &[ASK]),
            Wanted::Asked(4, &[ASK]),
            Wanted::Said(1, &[Part::Text(REPLY)]),
        ],
    },
    Exchange {
        name: "a connection that brought a response before may end, and nothing is counted",
        acts: &[
            Act::Tick(T),
            Act::Connect,
            Act::Say(1, GET),
            Act::Reach(2),
            Act::Answer(2, RESPONSE),
            Act::Say(1, GET_B),
            Act::End(2),
            Act::Refuse(3),
            Act::Refuse(4),
            Act::Reach(5),
            Act::Answer(5, RESPONSE_B),
        ],
        wanted: &[
            Wanted::Asked(2, &[ASK, ASK_B]),
            Wanted::Asked(5, &[ASK_B]),
            Wanted::Said(1, &[Part::Text(REPLY), Part::Text(REPLY_B)]),
        ],
    },
    Exchange {
        name: "a POST is not asked again (RFC 2616, section 9.1.2)",
        acts: &[
            Act::Connect,
            Act::Say(1, b"POST http://h/a HTTP/1.1\r\n\r\n"),
            Act::Reach(2),
            Act::End(2),
        ],
        wanted: &[
            Wanted::Asked(
                2,
                &[b"POST /a HTTP/1.1\r\nhost: h\r\nvia: 1.1 polipo\r\n\r\n"],
            ),
            Wanted::Count(Step::Dialled(80), 1),
            Wanted::Said(1, &[Part::Text(PAGE_502)]),
        ],
    },
];

#[test]
fn what_is_lost_within_its_head_is_asked_again(rt: HostRuntime) -> Result<(), Fail> {
    says_nothing(&rt, unlike(rt.alloc(), WITHIN_HEAD))
}

const WITHIN_BODY: &[Exchange<'static>] = &[
    Exchange {
        name: "its rest is asked for (RFC 7233, section 3.2), which the client does not see",
        acts: &[
            Act::Tick(T),
            Act::Connect,
            Act::Say(1, GET),
            Act::Reach(2),
            Act::Answer(2, HEAD),
            Act::Answer(2, b"he"),
            Act::End(2),
            Act::Reach(3),
            Act::Answer(
                3,
                b"HTTP/1.1 206 Partial Content\r\nETag: \"x\"\r\nContent-Range: bytes 2-4/5\r\nContent-Length: 3\r\n\r\nllo",
            ),
        ],
        wanted: &[
            Wanted::Asked(2, &[ASK]),
            Wanted::Asked(3, &[REST_2]),
            Wanted::Said(1, &[Part::Text(REPLY)]),
            Wanted::Course(
                1,
                &[
                    Step::Opened,
                    Step::Taken(0, Decision::Fetch),
                    Step::Taken(0, Decision::Part(0, 5)),
                    Step::Said(159),
                    Step::Stopped,
                    Step::Shut,
                ],
            ),
        ],
    },
    Exchange {
        name: "each byte that comes begins the count of losses anew",
        acts: &[
            Act::Tick(T),
            Act::Connect,
            Act::Say(1, GET),
            Act::Reach(2),
            Act::Answer(2, HEAD),
            Act::Answer(2, b"h"),
            Act::End(2),
            Act::Reach(3),
            Act::Answer(
                3,
                b"HTTP/1.1 206 Partial Content\r\nETag: \"x\"\r\nContent-Range: bytes 1-4/5\r\nContent-Length: 4\r\n\r\ne",
            ),
            Act::Break(3),
            Act::Refuse(4),
            Act::Reach(5),
            Act::Answer(
                5,
                b"HTTP/1.1 206 Partial Content\r\nETag: \"x\"\r\nContent-Range: bytes 2-4/5\r\nContent-Length: 3\r\n\r\nl",
            ),
            Act::End(5),
            Act::Refuse(6),
            Act::Reach(7),
            Act::Answer(
                7,
                b"HTTP/1.1 206 Partial Content\r\nETag: \"x\"\r\nContent-Range: bytes 3-4/5\r\nContent-Length: 2\r\n\r\nl",
            ),
            Act::End(7),
            Act::Reach(8),
            Act::Answer(
                8,
                b"HTTP/1.1 206 Partial Content\r\nETag: \"x\"\r\nContent-Range: bytes 4-4/5\r\nContent-Length: 1\r\n\r\no",
            ),
        ],
        wanted: &[
            Wanted::Asked(3, &[REST_1]),
            Wanted::Asked(5, &[REST_2]),
            Wanted::Asked(7, &[REST_3]),
            Wanted::Asked(8, &[REST_4]),
            Wanted::Said(1, &[Part::Text(REPLY)]),
        ],
    },
    Exchange {
        name: "three times in a row, and the client is cut",
        acts: &[
            Act::Tick(T),
            Act::Connect,
            Act::Say(1, GET),
            Act::Reach(2),
            Act::Answer(2, HEAD),
            Act::Answer(2, b"he"),
            Act::End(2),
            Act::Reach(3),
            Act::Answer(3, b"HTTP/1.1 206 Pa"),
            Act::Break(3),
            Act::Refuse(4),
        ],
        wanted: &[
            Wanted::Asked(3, &[REST_2]),
            Wanted::Cut(1, Cause::Origin),
            Wanted::Count(Step::Dialled(80), 3),
            Wanted::Course(
                1,
                &[
                    Step::Opened,
                    Step::Taken(0, Decision::Fetch),
                    Step::Taken(0, Decision::Part(0, 5)),
                    Step::Said(156),
                    Step::Cut(Cause::Origin),
                    Step::Shut,
                    Step::Stopped,
                ],
            ),
        ],
    },
    Exchange {
        name: "before a byte of the body came no reply has begun: behind the third loss it is fetched anew",
        acts: &[
            Act::Tick(T),
            Act::Connect,
            Act::Say(1, GET),
            Act::Reach(2),
            Act::Answer(2, HEAD),
            Act::End(2),
            Act::Refuse(3),
            Act::Refuse(4),
            Act::Reach(5),
            Act::Answer(5, HEAD),
            Act::Answer(5, b"hello"),
        ],
        wanted: &[
            Wanted::Count(Step::Dialled(80), 4),
            Wanted::Asked(5, &[ASK]),
            Wanted::Said(1, &[Part::Text(REPLY)]),
            Wanted::Course(
                1,
                &[
                    Step::Opened,
                    Step::Taken(0, Decision::Fetch),
                    Step::Taken(0, Decision::Part(0, 5)),
                    Step::Taken(0, Decision::Fetch),
                    Step::Taken(0, Decision::Part(0, 5)),
                    Step::Said(159),
                    Step::Stopped,
                    Step::Shut,
                ],
            ),
        ],
    },
    Exchange {
        name: "and where that is lost as often, the client is told",
        acts: &[
            Act::Tick(T),
            Act::Connect,
            Act::Say(1, GET),
            Act::Reach(2),
            Act::Answer(2, HEAD),
            Act::End(2),
            Act::Refuse(3),
            Act::Refuse(4),
            Act::Reach(5),
            Act::Answer(5, HEAD),
            Act::End(5),
            Act::Refuse(6),
            Act::Refuse(7),
        ],
        wanted: &[
            Wanted::Count(Step::Dialled(80), 6),
            Wanted::Said(1, &[Part::Text(PAGE_502)]),
            Wanted::Course(
                1,
                &[
                    Step::Opened,
                    Step::Taken(0, Decision::Fetch),
                    Step::Taken(0, Decision::Part(0, 5)),
                    Step::Taken(0, Decision::Fetch),
                    Step::Taken(0, Decision::Part(0, 5)),
                    Step::Taken(0, Decision::Refuse(502)),
                    Step::Said(114),
                    Step::Stopped,
                    Step::Shut,
                ],
            ),
        ],
    },
    Exchange {
        name: "what is not kept is not asked again",
        acts: &[
            Act::Connect,
            Act::Say(1, GET),
            Act::Reach(2),
            Act::Answer(2, b"HTTP/1.1 200 OK\r\nContent-Length: 5\r\n\r\n"),
            Act::Answer(2, b"he"),
            Act::End(2),
        ],
        wanted: &[
            Wanted::Said(
                1,
                &[Part::Text(
                    b"HTTP/1.1 200 OK\r\nvia: 1.1 polipo\r\ncontent-length: 5\r\nconnection: keep-alive\r\n\r\nhe",
                )],
            ),
            Wanted::Cut(1, Cause::Short),
            Wanted::Count(Step::Dialled(80), 1),
        ],
    },
];

#[test]
fn of_what_is_lost_within_its_body_the_rest_is_asked_for(rt: HostRuntime) -> Result<(), Fail> {
    says_nothing(&rt, unlike(rt.alloc(), WITHIN_BODY))
}
