// One fetch for many: clients that ask for one page at once.
use crate::saying::says_nothing;
use pp_play::{
    ASK, Act, Exchange, GET, HEAD, Part, REPLY, REPLY_HELD, RESPONSE, Step, T, Wanted, unlike,
};
use pp_world::Decision;
use std::test::Fail;

/// What the origin is asked once the page is stale, and how it is served again.
const CHECK: &[u8] =
    b"GET /a HTTP/1.1\r\nhost: h\r\nif-none-match: \"x\"\r\nvia: 1.1 polipo\r\n\r\n";

const REPLY_CHECKED: &[u8] =
    b"HTTP/1.1 200 OK\r\netag: \"x\"\r\ndate: Sun, 06 Nov 1994 08:50:38 GMT\r\ncache-control: max-age=60\r\nage: 0\r\nvia: 1.1 polipo\r\ncontent-length: 5\r\nconnection: keep-alive\r\n\r\nhello";

/// A response that is not kept, and how it is relayed.
const WEAK_HEAD: &[u8] = b"HTTP/1.1 200 OK\r\nETag: W/\"x\"\r\nContent-Length: 5\r\n\r\n";

const WEAK: &[u8] = b"HTTP/1.1 200 OK\r\nETag: W/\"x\"\r\nContent-Length: 5\r\n\r\nhello";

const RELAYED: &[u8] =
    b"HTTP/1.1 200 OK\r\netag: W/\"x\"\r\nvia: 1.1 polipo\r\ncontent-length: 5\r\nconnection: keep-alive\r\n\r\nhello";

const SHARED: &[Exchange<'static>] = &[
    Exchange {
        name: "a page that is not known is asked for once, and the others wait for its head",
        acts: &[
            Act::Tick(T),
            Act::Connect,
            Act::Say(1, GET),
            Act::Connect,
            Act::Say(3, GET),
            Act::Connect,
            Act::Say(4, GET),
            Act::Reach(2),
            Act::Answer(2, HEAD),
            Act::Answer(2, b"hello"),
        ],
        wanted: &[
            Wanted::Count(Step::Dialled(80), 1),
            Wanted::Asked(2, &[ASK]),
            Wanted::Said(1, &[Part::Text(REPLY)]),
            Wanted::Said(3, &[Part::Text(REPLY_HELD)]),
            Wanted::Said(4, &[Part::Text(REPLY_HELD)]),
            Wanted::Course(
                3,
                &[
                    Step::Opened,
                    Step::Taken(0, Decision::Part(0, 5)),
                    Step::Said(167),
                    Step::Stopped,
                    Step::Shut,
                ],
            ),
        ],
    },
    Exchange {
        name: "a page that is stale is checked once, on a new connection, since the old one was idle for a minute",
        acts: &[
            Act::Tick(T),
            Act::Connect,
            Act::Say(1, GET),
            Act::Reach(2),
            Act::Answer(2, RESPONSE),
            Act::Tick(T + 61),
            Act::Connect,
            Act::Say(3, GET),
            Act::Connect,
            Act::Say(5, GET),
            Act::Reach(4),
            Act::Answer(
                4,
                b"HTTP/1.1 304 Not Modified\r\nDate: Sun, 06 Nov 1994 08:50:38 GMT\r\n\r\n",
            ),
        ],
        wanted: &[
            Wanted::Count(Step::Dialled(80), 2),
            Wanted::Course(
                2,
                &[
                    Step::Dialled(80),
                    Step::Reached,
                    Step::Asked(45),
                    Step::Dropped,
                    Step::Stopped,
                ],
            ),
            Wanted::Asked(4, &[CHECK]),
            Wanted::Taken(3, Decision::Validate),
            Wanted::Said(3, &[Part::Text(REPLY_CHECKED)]),
            Wanted::Said(5, &[Part::Text(REPLY_CHECKED)]),
            Wanted::Course(
                5,
                &[
                    Step::Opened,
                    Step::Taken(0, Decision::Hit(0, 5)),
                    Step::Said(167),
                    Step::Stopped,
                    Step::Shut,
                ],
            ),
        ],
    },
    Exchange {
        name: "what cannot be shared is then asked for by all at once",
        acts: &[
            Act::Tick(T),
            Act::Connect,
            Act::Say(1, GET),
            Act::Connect,
            Act::Say(3, GET),
            Act::Connect,
            Act::Say(4, GET),
            Act::Reach(2),
            Act::Answer(2, WEAK_HEAD),
            Act::Answer(2, b"hello"),
            Act::Reach(5),
            Act::Reach(6),
            Act::Answer(6, WEAK),
            Act::Answer(5, WEAK),
        ],
        wanted: &[
            Wanted::Count(Step::Dialled(80), 3),
            Wanted::Asked(2, &[ASK]),
            Wanted::Asked(5, &[ASK]),
            Wanted::Asked(6, &[ASK]),
            Wanted::Said(1, &[Part::Text(RELAYED)]),
            Wanted::Said(3, &[Part::Text(RELAYED)]),
            Wanted::Said(4, &[Part::Text(RELAYED)]),
        ],
    },
    Exchange {
        name: "where the one that asked is refused, the others ask for themselves",
        acts: &[
            Act::Tick(T),
            Act::Connect,
            Act::Say(1, GET),
            Act::Connect,
            Act::Say(3, GET),
            Act::Refuse(2),
            Act::Refuse(4),
            Act::Refuse(5),
            Act::Reach(6),
            Act::Answer(6, HEAD),
            Act::Answer(6, b"hello"),
        ],
        wanted: &[
            Wanted::Taken(1, Decision::Refuse(502)),
            Wanted::Asked(6, &[ASK]),
            Wanted::Said(3, &[Part::Text(REPLY)]),
            Wanted::Course(
                3,
                &[
                    Step::Opened,
                    Step::Taken(0, Decision::Fetch),
                    Step::Taken(0, Decision::Part(0, 5)),
                    Step::Said(159),
                    Step::Stopped,
                    Step::Shut,
                ],
            ),
        ],
    },
];

#[test]
fn clients_of_one_page_share_its_fetch(rt: HostRuntime) -> Result<(), Fail> {
    says_nothing(&rt, unlike(rt.alloc(), SHARED))
}

/// Two that came three seconds behind the first.
const PATIENT: &[Exchange<'static>] = &[
    Exchange {
        name: "for less than five seconds they wait for the head of what is asked already",
        acts: &[
            Act::Tick(T),
            Act::Connect,
            Act::Say(1, GET),
            Act::Reach(2),
            Act::Tick(T + 3),
            Act::Connect,
            Act::Say(3, GET),
            Act::Connect,
            Act::Say(4, GET),
            Act::Tick(T + 7),
            Act::Answer(2, HEAD),
            Act::Answer(2, b"hello"),
        ],
        wanted: &[
            Wanted::Count(Step::Dialled(80), 1),
            Wanted::Asked(2, &[ASK]),
            Wanted::Said(1, &[Part::Text(REPLY)]),
            Wanted::Taken(3, Decision::Part(0, 5)),
            Wanted::Taken(4, Decision::Part(0, 5)),
        ],
    },
    Exchange {
        name: "at the first tick five seconds later each asks for itself",
        acts: &[
            Act::Tick(T),
            Act::Connect,
            Act::Say(1, GET),
            Act::Reach(2),
            Act::Tick(T + 3),
            Act::Connect,
            Act::Say(3, GET),
            Act::Connect,
            Act::Say(4, GET),
            Act::Tick(T + 8),
            Act::Reach(5),
            Act::Answer(5, HEAD),
            Act::Answer(5, b"hello"),
            Act::Reach(6),
            Act::Answer(6, HEAD),
            Act::Answer(6, b"hello"),
            Act::Answer(2, HEAD),
            Act::Answer(2, b"hello"),
        ],
        wanted: &[
            Wanted::Count(Step::Dialled(80), 3),
            Wanted::Asked(2, &[ASK]),
            Wanted::Asked(5, &[ASK]),
            Wanted::Asked(6, &[ASK]),
            Wanted::Said(1, &[Part::Text(REPLY)]),
            Wanted::Said(3, &[Part::Text(REPLY)]),
            Wanted::Said(4, &[Part::Text(REPLY)]),
            Wanted::Course(
                3,
                &[
                    Step::Opened,
                    Step::Taken(0, Decision::Fetch),
                    Step::Taken(0, Decision::Part(0, 5)),
                    Step::Said(159),
                    Step::Stopped,
                    Step::Shut,
                ],
            ),
        ],
    },
];

#[test]
fn they_wait_for_it_five_seconds(rt: HostRuntime) -> Result<(), Fail> {
    says_nothing(&rt, unlike(rt.alloc(), PATIENT))
}
