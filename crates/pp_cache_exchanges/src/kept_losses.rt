// What a lost origin sent is kept, until the rest was asked for in vain as often as is allowed.
use crate::saying::says_nothing;
use pp_play::{ASK, Act, Exchange, GET, PAGE_502, Pace, Part, Step, T, Wanted, unlike, unlike_at};
use pp_world::{Cause, Decision};
use std::test::Fail;

/// Seven bytes of a page of ten.
const LOST: &[u8] =
    b"HTTP/1.1 200 OK\r\nDate: Sun, 06 Nov 1994 08:49:37 GMT\r\nETag: \"x\"\r\nCache-Control: max-age=60\r\nContent-Length: 10\r\n\r\nhello w";

/// Its rest, and how that is asked for.
const REST: &[u8] =
    b"HTTP/1.1 206 Partial Content\r\nETag: \"x\"\r\nContent-Range: bytes 7-9/10\r\nContent-Length: 3\r\n\r\norl";

const ASK_REST: &[u8] =
    b"GET /a HTTP/1.1\r\nhost: h\r\nrange: bytes=7-9\r\nif-range: \"x\"\r\nvia: 1.1 polipo\r\n\r\n";

/// The head of the reply to the client that it was fetched for.
const REPLY_HEAD: &[u8] =
    b"HTTP/1.1 200 OK\r\netag: \"x\"\r\ndate: Sun, 06 Nov 1994 08:49:37 GMT\r\ncache-control: max-age=60\r\nvia: 1.1 polipo\r\ncontent-length: 10\r\nconnection: keep-alive\r\n\r\n";

const ENDED: &[Exchange<'static>] = &[Exchange {
    name: "what an origin sent before it ended is kept",
    acts: &[
        Act::Tick(T),
        Act::Connect,
        Act::Say(1, GET),
        Act::Reach(2),
        Act::Answer(2, LOST),
        Act::End(2),
        Act::Refuse(3),
        Act::Connect,
        Act::Say(5, GET),
        Act::Reach(4),
        Act::Answer(4, REST),
    ],
    wanted: &[
        Wanted::Count(Step::Dialled(80), 3),
        Wanted::Asked(2, &[ASK]),
        Wanted::Asked(4, &[ASK_REST]),
        Wanted::Said(1, &[Part::Text(REPLY_HEAD), Part::Text(b"hello worl")]),
        Wanted::Taken(5, Decision::Part(0, 10)),
        Wanted::Said(
            5,
            &[Part::Text(
                b"HTTP/1.1 200 OK\r\netag: \"x\"\r\ndate: Sun, 06 Nov 1994 08:49:37 GMT\r\ncache-control: max-age=60\r\nage: 0\r\nvia: 1.1 polipo\r\ncontent-length: 10\r\nconnection: keep-alive\r\n\r\nhello worl",
            )],
        ),
    ],
}];

#[test]
fn what_an_origin_sent_before_it_ended_is_kept(rt: HostRuntime) -> Result<(), Fail> {
    says_nothing(&rt, unlike(rt.alloc(), ENDED))
}

/// The last two bytes of the page, and how they are asked for where nothing is known, and where its front is.
const GET_END: &[u8] = b"GET http://h/a HTTP/1.1\r\nRange: bytes=8-9\r\n\r\n";

const ASK_END: &[u8] = b"GET /a HTTP/1.1\r\nhost: h\r\nrange: bytes=0-9\r\nvia: 1.1 polipo\r\n\r\n";

const ASK_BEHIND_FRONT: &[u8] =
    b"GET /a HTTP/1.1\r\nhost: h\r\nrange: bytes=4-9\r\nif-range: \"x\"\r\nvia: 1.1 polipo\r\n\r\n";

/// Its first four bytes.
const GET_FRONT: &[u8] = b"GET http://h/a HTTP/1.1\r\nRange: bytes=0-3\r\n\r\n";

const ASK_FRONT: &[u8] =
    b"GET /a HTTP/1.1\r\nhost: h\r\nrange: bytes=0-3\r\nvia: 1.1 polipo\r\n\r\n";

const FRONT: &[u8] =
    b"HTTP/1.1 206 Partial Content\r\nDate: Sun, 06 Nov 1994 08:49:37 GMT\r\nETag: \"x\"\r\nCache-Control: max-age=60\r\nContent-Range: bytes 0-3/10\r\nContent-Length: 4\r\n\r\nhell";

/// What an origin says that gives no part of it, and how it is passed.
const BUSY: &[u8] = b"HTTP/1.1 503 Service Unavailable\r\nContent-Length: 0\r\n\r\n";

const BUSY_PASSED: &[u8] =
    b"HTTP/1.1 503 Service Unavailable\r\nvia: 1.1 polipo\r\ncontent-length: 0\r\nconnection: keep-alive\r\n\r\n";

const UNFILLED: &[Exchange<'static>] = &[
    Exchange {
        name: "nobody gives the rest: a begun reply is cut, another is fetched anew, and what is held is not known any more",
        acts: &[
            Act::Tick(T),
            Act::Connect,
            Act::Say(1, GET),
            Act::Reach(2),
            Act::Answer(2, LOST),
            Act::End(2),
            Act::Refuse(3),
            Act::Connect,
            Act::Say(5, GET_END),
            Act::Refuse(4),
            Act::Connect,
            Act::Say(
                7,
                b"GET http://h/a HTTP/1.1\r\nCache-Control: only-if-cached\r\nRange: bytes=0-3\r\n\r\n",
            ),
            Act::Reach(6),
            Act::Answer(
                6,
                b"HTTP/1.1 206 Partial Content\r\nDate: Sun, 06 Nov 1994 08:49:37 GMT\r\nETag: \"x\"\r\nCache-Control: max-age=60\r\nContent-Range: bytes 0-9/10\r\nContent-Length: 10\r\n\r\nhello worl",
            ),
        ],
        wanted: &[
            Wanted::Count(Step::Dialled(80), 4),
            Wanted::Said(1, &[Part::Text(REPLY_HEAD), Part::Text(b"hello w")]),
            Wanted::Cut(1, Cause::Origin),
            Wanted::Taken(5, Decision::Part(8, 10)),
            Wanted::Taken(5, Decision::Fetch),
            Wanted::Asked(6, &[ASK_END]),
            Wanted::Said(
                5,
                &[Part::Text(
                    b"HTTP/1.1 206 Partial Content\r\netag: \"x\"\r\ndate: Sun, 06 Nov 1994 08:49:37 GMT\r\ncache-control: max-age=60\r\nvia: 1.1 polipo\r\ncontent-range: bytes 8-9/10\r\ncontent-length: 2\r\nconnection: keep-alive\r\n\r\nrl",
                )],
            ),
            Wanted::Said(
                7,
                &[Part::Text(
                    b"HTTP/1.1 504 Gateway Timeout\r\ncontent-type: text/plain\r\ncontent-length: 20\r\nconnection: keep-alive\r\n\r\n504 Gateway Timeout\n",
                )],
            ),
        ],
    },
    Exchange {
        name: "the origin gives no part of it, three times: what it says to a plain ask is its answer",
        acts: &[
            Act::Tick(T),
            Act::Connect,
            Act::Say(1, GET_FRONT),
            Act::Reach(2),
            Act::Answer(2, FRONT),
            Act::Connect,
            Act::Say(3, GET_END),
            Act::Answer(2, BUSY),
            Act::Answer(2, BUSY),
            Act::Answer(2, BUSY),
            Act::Answer(2, BUSY),
        ],
        wanted: &[
            Wanted::Count(Step::Dialled(80), 1),
            Wanted::Asked(
                2,
                &[
                    ASK_FRONT,
                    ASK_BEHIND_FRONT,
                    ASK_BEHIND_FRONT,
                    ASK_BEHIND_FRONT,
                    ASK_END,
                ],
            ),
            Wanted::Said(3, &[Part::Text(BUSY_PASSED)]),
        ],
    },
    Exchange {
        name: "the origin does not answer for five minutes: it is asked for the whole",
        acts: &[
            Act::Tick(T),
            Act::Connect,
            Act::Say(1, GET_FRONT),
            Act::Reach(2),
            Act::Answer(2, FRONT),
            Act::Connect,
            Act::Say(3, GET_END),
            Act::Tick(T + 100),
            Act::Tick(T + 200),
            Act::Tick(T + 300),
            Act::Reach(4),
            Act::Answer(4, BUSY),
        ],
        wanted: &[
            Wanted::Count(Step::Dialled(80), 2),
            Wanted::Asked(2, &[ASK_FRONT, ASK_BEHIND_FRONT]),
            Wanted::Asked(4, &[ASK_END]),
            Wanted::Said(3, &[Part::Text(BUSY_PASSED)]),
        ],
    },
];

/// A part that forbids sharing, to the ask for the rest.
const PRIVATE: &[u8] =
    b"HTTP/1.1 206 Partial Content\r\nETag: \"x\"\r\nCache-Control: private\r\nContent-Range: bytes 4-9/10\r\nContent-Length: 6\r\n\r\nsecret";

/// Nothing new of the rest, which forbids sharing too.
const PRIVATE_AS_BEFORE: &[u8] = b"HTTP/1.1 304 Not Modified\r\nCache-Control: private\r\n\r\n";

const UNSHARED: &[Exchange<'static>] = &[
    Exchange {
        name: "what is held is not known any more, and its client is answered by an ask of its own",
        acts: &[
            Act::Tick(T),
            Act::Connect,
            Act::Say(1, GET_FRONT),
            Act::Reach(2),
            Act::Answer(2, FRONT),
            Act::Connect,
            Act::Say(3, GET_END),
            Act::Answer(2, PRIVATE),
            Act::Answer(2, BUSY),
        ],
        wanted: &[
            Wanted::Count(Step::Dialled(80), 1),
            Wanted::Asked(2, &[ASK_FRONT, ASK_BEHIND_FRONT, ASK_END]),
            Wanted::Taken(3, Decision::Part(8, 10)),
            Wanted::Taken(3, Decision::Fetch),
            Wanted::Said(3, &[Part::Text(BUSY_PASSED)]),
        ],
    },
    Exchange {
        name: "it costs no attempt: three connections are lost before its client is refused",
        acts: &[
            Act::Tick(T),
            Act::Connect,
            Act::Say(1, GET_FRONT),
            Act::Reach(2),
            Act::Answer(2, FRONT),
            Act::Connect,
            Act::Say(3, GET_END),
            Act::Answer(2, PRIVATE),
            Act::End(2),
            Act::Refuse(4),
            Act::Refuse(5),
            Act::Refuse(6),
        ],
        wanted: &[
            Wanted::Count(Step::Dialled(80), 4),
            Wanted::Said(3, &[Part::Text(PAGE_502)]),
        ],
    },
    Exchange {
        name: "the front is for everybody, and the rest for one alone: from the second time on it costs an attempt",
        acts: &[
            Act::Tick(T),
            Act::Connect,
            Act::Say(1, GET_END),
            Act::Reach(2),
            Act::Answer(2, FRONT),
            Act::Answer(2, PRIVATE),
            Act::Answer(2, FRONT),
            Act::Answer(2, PRIVATE),
            Act::Answer(2, FRONT),
            Act::Answer(2, PRIVATE_AS_BEFORE),
            Act::Answer(2, FRONT),
            Act::Answer(2, PRIVATE),
        ],
        wanted: &[
            Wanted::Count(Step::Dialled(80), 1),
            Wanted::Asked(
                2,
                &[
                    ASK_END,
                    ASK_BEHIND_FRONT,
                    ASK_END,
                    ASK_BEHIND_FRONT,
                    ASK_END,
                    ASK_BEHIND_FRONT,
                    ASK_END,
                    ASK_BEHIND_FRONT,
                ],
            ),
            Wanted::Said(1, &[Part::Text(PAGE_502)]),
        ],
    },
    Exchange {
        name: "so does the first one, where nobody filled a hole of a row before",
        acts: &[
            Act::Tick(T),
            Act::Connect,
            Act::Say(1, GET_END),
            Act::Reach(2),
            Act::Answer(2, FRONT),
            Act::Answer(2, BUSY),
            Act::Answer(2, BUSY),
            Act::Answer(2, BUSY),
            Act::Answer(2, FRONT),
            Act::Answer(2, PRIVATE),
            Act::Answer(2, FRONT),
            Act::Answer(2, PRIVATE),
            Act::Answer(2, FRONT),
            Act::Answer(2, PRIVATE),
        ],
        wanted: &[
            Wanted::Count(Step::Dialled(80), 1),
            Wanted::Asked(
                2,
                &[
                    ASK_END,
                    ASK_BEHIND_FRONT,
                    ASK_BEHIND_FRONT,
                    ASK_BEHIND_FRONT,
                    ASK_END,
                    ASK_BEHIND_FRONT,
                    ASK_END,
                    ASK_BEHIND_FRONT,
                    ASK_END,
                    ASK_BEHIND_FRONT,
                ],
            ),
            Wanted::Said(1, &[Part::Text(PAGE_502)]),
        ],
    },
];

/// The rest is not given: each ask for it is answered by the front of yet another version, or the last by one that answers the request.
const EVER_ANOTHER: &[Exchange<'static>] = &[
    Exchange {
        name: "three asks for the rest, and no more",
        acts: &[
            Act::Tick(T),
            Act::Connect,
            Act::Say(1, GET_END),
            Act::Reach(2),
            Act::Answer(2, FRONT),
            Act::Answer(
                2,
                b"HTTP/1.1 206 Partial Content\r\nETag: \"y\"\r\nContent-Range: bytes 0-3/10\r\nContent-Length: 4\r\n\r\nhell",
            ),
            Act::Answer(
                2,
                b"HTTP/1.1 206 Partial Content\r\nETag: \"z\"\r\nContent-Range: bytes 0-3/10\r\nContent-Length: 4\r\n\r\nhell",
            ),
            Act::Answer(
                2,
                b"HTTP/1.1 206 Partial Content\r\nETag: \"w\"\r\nContent-Range: bytes 0-3/10\r\nContent-Length: 4\r\n\r\nhell",
            ),
        ],
        wanted: &[
            Wanted::Count(Step::Dialled(80), 1),
            Wanted::Asked(
                2,
                &[
                    ASK_END,
                    ASK_BEHIND_FRONT,
                    b"GET /a HTTP/1.1\r\nhost: h\r\nrange: bytes=4-9\r\nif-range: \"y\"\r\nvia: 1.1 polipo\r\n\r\n",
                    b"GET /a HTTP/1.1\r\nhost: h\r\nrange: bytes=4-9\r\nif-range: \"z\"\r\nvia: 1.1 polipo\r\n\r\n",
                ],
            ),
            Wanted::Said(1, &[Part::Text(PAGE_502)]),
        ],
    },
    Exchange {
        name: "a third version that ends before what is wanted is the answer",
        acts: &[
            Act::Tick(T),
            Act::Connect,
            Act::Say(1, GET_END),
            Act::Reach(2),
            Act::Answer(2, FRONT),
            Act::Answer(2, BUSY),
            Act::Answer(2, BUSY),
            Act::Answer(
                2,
                b"HTTP/1.1 200 OK\r\nETag: \"w\"\r\nContent-Length: 5\r\n\r\nhello",
            ),
        ],
        wanted: &[
            Wanted::Asked(
                2,
                &[
                    ASK_END,
                    ASK_BEHIND_FRONT,
                    ASK_BEHIND_FRONT,
                    ASK_BEHIND_FRONT,
                ],
            ),
            Wanted::Said(
                1,
                &[Part::Text(
                    b"HTTP/1.1 416 Requested Range Not Satisfiable\r\ncontent-range: bytes */5\r\ncontent-type: text/plain\r\ncontent-length: 36\r\nconnection: keep-alive\r\n\r\n416 Requested Range Not Satisfiable\n",
                )],
            ),
        ],
    },
    Exchange {
        name: "so is one of no bytes, where all is wanted",
        acts: &[
            Act::Tick(T),
            Act::Connect,
            Act::Say(1, GET),
            Act::Reach(2),
            Act::Answer(
                2,
                b"HTTP/1.1 200 OK\r\nETag: \"x\"\r\nCache-Control: max-age=60\r\nContent-Length: 10\r\n\r\n",
            ),
            Act::End(2),
            Act::Reach(3),
            Act::Answer(3, BUSY),
            Act::Answer(
                3,
                b"HTTP/1.1 200 OK\r\nDate: Sun, 06 Nov 1994 08:49:37 GMT\r\nETag: \"w\"\r\nCache-Control: max-age=60\r\nContent-Length: 0\r\n\r\n",
            ),
        ],
        wanted: &[
            Wanted::Asked(2, &[ASK]),
            Wanted::Asked(
                3,
                &[
                    b"GET /a HTTP/1.1\r\nhost: h\r\nrange: bytes=0-9\r\nif-range: \"x\"\r\nvia: 1.1 polipo\r\n\r\n",
                    b"GET /a HTTP/1.1\r\nhost: h\r\nrange: bytes=0-9\r\nif-range: \"x\"\r\nvia: 1.1 polipo\r\n\r\n",
                ],
            ),
            Wanted::Said(
                1,
                &[Part::Text(
                    b"HTTP/1.1 200 OK\r\netag: \"w\"\r\ndate: Sun, 06 Nov 1994 08:49:37 GMT\r\ncache-control: max-age=60\r\nvia: 1.1 polipo\r\ncontent-length: 0\r\nconnection: keep-alive\r\n\r\n",
                )],
            ),
        ],
    },
];

#[test]
fn a_rest_of_yet_another_version_is_not_asked_for_without_end(rt: HostRuntime) -> Result<(), Fail> {
    says_nothing(&rt, unlike_at(rt.alloc(), Pace::Whole, EVER_ANOTHER))
}

#[test]
fn a_part_that_forbids_sharing_makes_a_page_known_no_more(rt: HostRuntime) -> Result<(), Fail> {
    says_nothing(&rt, unlike_at(rt.alloc(), Pace::Whole, UNSHARED))
}

#[test]
fn a_page_whose_rest_nobody_gives_is_known_no_more(rt: HostRuntime) -> Result<(), Fail> {
    says_nothing(&rt, unlike(rt.alloc(), UNFILLED))
}
