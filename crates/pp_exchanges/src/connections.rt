// Whether a client's connection goes on (RFC 2616, sections 8.1.2, 14.10 and 19.6.2).
use crate::saying::says_nothing;
use pp_play::{
    ASK, Act, Exchange, GET, HEAD, PAGE_502, Part, REPLY, REPLY_HELD, RESPONSE, Step, Wanted,
    unlike,
};
use pp_world::Decision;
use std::test::Fail;

/// The reply to the first of two requests, which says that it is the last.
const LAST_REPLY: &[Wanted<'static>] = &[
    Wanted::Said(
        1,
        &[Part::Text(
            b"HTTP/1.1 200 OK\r\netag: \"x\"\r\ndate: Sun, 06 Nov 1994 08:49:37 GMT\r\ncache-control: max-age=60\r\nvia: 1.1 polipo\r\ncontent-length: 5\r\nconnection: close\r\n\r\nhello",
        )],
    ),
    Wanted::Course(
        1,
        &[
            Step::Opened,
            Step::Taken(0, Decision::Fetch),
            Step::Taken(0, Decision::Part(0, 5)),
            Step::Said(154),
            Step::Shut,
            Step::Stopped,
        ],
    ),
    Wanted::Count(Step::Dialled(80), 1),
];

/// Both replies, the second one from what is held.
const BOTH: &[Wanted<'static>] = &[
    Wanted::Said(1, &[Part::Text(REPLY), Part::Text(REPLY_HELD)]),
    Wanted::Taken(1, Decision::Hit(0, 5)),
    Wanted::Asked(2, &[ASK]),
    Wanted::Count(Step::Dialled(80), 1),
];

/// A request, and a further one behind it. The head of the response comes first, at either pace: it decides.
macro_rules! behind {
    ($request:literal) => {
        &[
            Act::Connect,
            Act::Say(1, $request),
            Act::Say(1, GET),
            Act::Reach(2),
            Act::Answer(2, HEAD),
            Act::Answer(2, b"hello"),
        ]
    };
}

const GOES_ON: &[Exchange<'static>] = &[
    Exchange {
        name: "1.1",
        acts: behind!(b"GET http://h/a HTTP/1.1\r\n\r\n"),
        wanted: BOTH,
    },
    Exchange {
        name: "1.1, close",
        acts: behind!(b"GET http://h/a HTTP/1.1\r\nConnection: x, Close\r\n\r\n"),
        wanted: LAST_REPLY,
    },
    Exchange {
        name: "1.1, close in the older field",
        acts: behind!(b"GET http://h/a HTTP/1.1\r\nProxy-Connection: close\r\n\r\n"),
        wanted: BOTH,
    },
    Exchange {
        name: "1.0",
        acts: behind!(b"GET http://h/a HTTP/1.0\r\n\r\n"),
        wanted: LAST_REPLY,
    },
    Exchange {
        name: "1.0, keep-alive",
        acts: behind!(b"GET http://h/a HTTP/1.0\r\nConnection: Keep-Alive\r\n\r\n"),
        wanted: BOTH,
    },
    Exchange {
        name: "1.0, keep-alive in the older field",
        acts: behind!(b"GET http://h/a HTTP/1.0\r\nProxy-Connection: keep-alive\r\n\r\n"),
        wanted: BOTH,
    },
    Exchange {
        name: "a page of a gateway that failed does not close its client",
        acts: &[
            Act::Connect,
            Act::Say(1, GET),
            Act::Say(1, GET),
            Act::Refuse(2),
            Act::Refuse(3),
            Act::Refuse(4),
            Act::Reach(5),
            Act::Answer(5, RESPONSE),
        ],
        wanted: &[
            Wanted::Said(1, &[Part::Text(PAGE_502), Part::Text(REPLY)]),
            Wanted::Asked(5, &[ASK]),
        ],
    },
];

#[test]
fn a_connection_goes_on_as_the_request_wants(rt: HostRuntime) -> Result<(), Fail> {
    says_nothing(&rt, unlike(rt.alloc(), GOES_ON))
}
