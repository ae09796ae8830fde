// Requests of any method, with bodies (RFC 2616, sections 4.3, 8.2.3 and 9).
use crate::saying::says_nothing;
use pp_play::{
    ASK, Act, Cut, Exchange, GET, PAGE_502, Part, REPLY, RESPONSE, Step, T, Wanted, unlike,
    unlike_when_cut,
};
use pp_world::Decision;
use std::test::Fail;

const POST: &[u8] =
    b"POST http://h/p HTTP/1.1\r\nHost: h\r\nContent-Length: 3\r\nExpect: 100-continue\r\n\r\n";

const POST_ASK: &[u8] =
    b"POST /p HTTP/1.1\r\nhost: h\r\ncontent-length: 3\r\nvia: 1.1 polipo\r\n\r\nabc";

const CONTINUE: &[u8] = b"HTTP/1.1 100 Continue\r\n\r\n";

const NO_CONTENT: &[u8] = b"HTTP/1.1 204 No Content\r\n\r\n";

const NO_CONTENT_PASSED: &[u8] =
    b"HTTP/1.1 204 No Content\r\nvia: 1.1 polipo\r\nconnection: keep-alive\r\n\r\n";

const EXPECTING: &[Exchange<'static>] = &[
    Exchange {
        name: "the body is sent behind the interim answer",
        acts: &[
            Act::Connect,
            Act::Say(1, POST),
            Act::Reach(2),
            Act::Say(1, b"abc"),
            Act::Answer(2, NO_CONTENT),
        ],
        wanted: &[
            Wanted::Asked(2, &[POST_ASK]),
            Wanted::Said(1, &[Part::Text(CONTINUE), Part::Text(NO_CONTENT_PASSED)]),
            Wanted::Course(
                1,
                &[
                    Step::Opened,
                    Step::Taken(0, Decision::Pass),
                    Step::Said(93),
                    Step::Stopped,
                    Step::Shut,
                ],
            ),
            Wanted::Count(Step::Dropped, 1),
        ],
    },
    Exchange {
        name: "nothing but the interim answer comes before the origin is reached",
        acts: &[Act::Connect, Act::Say(1, POST)],
        wanted: &[
            Wanted::Dialled(2, b"h", 80),
            Wanted::Said(1, &[Part::Text(CONTINUE)]),
        ],
    },
    Exchange {
        name: "the body came with the request",
        acts: &[
            Act::Connect,
            Act::Say(
                1,
                b"POST http://h/p HTTP/1.1\r\nExpect: 100-Continue\r\nContent-Length: 3\r\n\r\nabc",
            ),
            Act::Reach(2),
            Act::Answer(2, NO_CONTENT),
        ],
        wanted: &[
            Wanted::Asked(2, &[POST_ASK]),
            Wanted::Said(1, &[Part::Text(CONTINUE), Part::Text(NO_CONTENT_PASSED)]),
        ],
    },
    Exchange {
        name: "the gateway fails behind the interim answer, and the body is no request",
        acts: &[
            Act::Connect,
            Act::Say(1, POST),
            Act::Refuse(2),
            Act::Say(1, b"abc"),
            Act::Say(1, GET),
            Act::Reach(3),
            Act::Answer(3, RESPONSE),
        ],
        wanted: &[
            Wanted::Asked(3, &[ASK]),
            Wanted::Said(
                1,
                &[
                    Part::Text(CONTINUE),
                    Part::Text(PAGE_502),
                    Part::Text(REPLY),
                ],
            ),
        ],
    },
    Exchange {
        name: "without a body nobody waits for it",
        acts: &[
            Act::Connect,
            Act::Say(
                1,
                b"GET http://h/a HTTP/1.1\r\nExpect: 100-continue\r\n\r\n",
            ),
            Act::Reach(2),
            Act::Answer(2, RESPONSE),
        ],
        wanted: &[
            Wanted::Asked(2, &[ASK]),
            Wanted::Said(1, &[Part::Text(REPLY)]),
        ],
    },
];

#[test]
fn a_client_that_waits_for_100_is_told_to_go_on(rt: HostRuntime) -> Result<(), Fail> {
    says_nothing(&rt, unlike(rt.alloc(), EXPECTING))
}

const CUT_POST: &Cut<'static> = &Cut {
    request: b"POST http://h/p HTTP/1.1\r\nHost: h\r\nContent-Length: 3\r\nExpect: 100-continue\r\n\r\nabc",
    attempts: 1,
    interim: CONTINUE,
    head: b"HTTP/1.1 100 Continue\r\n\r\nHTTP/1.1 200 OK\r\nContent-Length: 5\r\n\r\n",
    body: b"hello",
    reply_head: b"HTTP/1.1 200 OK\r\nvia: 1.1 polipo\r\ncontent-length: 5\r\nconnection: keep-alive\r\n\r\n",
    data: Part::Text(b"hello"),
    is_ended_by_end: false,
    page: PAGE_502,
};

#[test]
fn a_response_to_a_post_may_be_lost_behind_each_byte(rt: HostRuntime) -> Result<(), Fail> {
    says_nothing(&rt, unlike_when_cut(rt.alloc(), CUT_POST))
}

const METHODS: &[Exchange<'static>] = &[
    Exchange {
        name: "the reply to HEAD has no body, and the next reply follows its head (RFC 2616, section 9.4)",
        acts: &[
            Act::Connect,
            Act::Say(1, b"HEAD http://h/a HTTP/1.1\r\n\r\n"),
            Act::Say(1, GET),
            Act::Reach(2),
            Act::Answer(2, b"HTTP/1.1 200 OK\r\nContent-Length: 5\r\n\r\n"),
            Act::Answer(2, RESPONSE),
        ],
        wanted: &[
            Wanted::Asked(
                2,
                &[
                    b"HEAD /a HTTP/1.1\r\nhost: h\r\nvia: 1.1 polipo\r\n\r\n",
                    ASK,
                ],
            ),
            Wanted::Said(
                1,
                &[
                    Part::Text(
                        b"HTTP/1.1 200 OK\r\nvia: 1.1 polipo\r\ncontent-length: 5\r\nconnection: keep-alive\r\n\r\n",
                    ),
                    Part::Text(REPLY),
                ],
            ),
        ],
    },
    Exchange {
        name: "nor has one in chunks",
        acts: &[
            Act::Connect,
            Act::Say(1, b"HEAD http://h/a HTTP/1.1\r\n\r\n"),
            Act::Reach(2),
            Act::Answer(2, b"HTTP/1.1 200 OK\r\nTransfer-Encoding: chunked\r\n\r\n"),
        ],
        wanted: &[
            Wanted::Said(
                1,
                &[Part::Text(
                    b"HTTP/1.1 200 OK\r\nvia: 1.1 polipo\r\nconnection: keep-alive\r\n\r\n",
                )],
            ),
            Wanted::Count(Step::Dropped, 1),
        ],
    },
    Exchange {
        name: "a 304 describes a length and has no body (RFC 2616, section 10.3.5)",
        acts: &[
            Act::Connect,
            Act::Say(
                1,
                b"GET http://h/a HTTP/1.1\r\nIf-None-Match: \"x\"\r\n\r\n",
            ),
            Act::Reach(2),
            Act::Answer(
                2,
                b"HTTP/1.1 304 Not Modified\r\nETag: \"x\"\r\nContent-Length: 5\r\n\r\n",
            ),
        ],
        wanted: &[
            Wanted::Asked(
                2,
                &[b"GET /a HTTP/1.1\r\nhost: h\r\nif-none-match: \"x\"\r\nvia: 1.1 polipo\r\n\r\n"],
            ),
            Wanted::Said(
                1,
                &[Part::Text(
                    b"HTTP/1.1 304 Not Modified\r\netag: \"x\"\r\nvia: 1.1 polipo\r\ncontent-length: 5\r\nconnection: keep-alive\r\n\r\n",
                )],
            ),
        ],
    },
    Exchange {
        name: "any method with a body, and a request in the body",
        acts: &[
            Act::Connect,
            Act::Say(
                1,
                b"M-SEARCH http://h/p HTTP/1.1\r\nContent-Length: 36\r\n\r\n",
            ),
            Act::Say(1, GET),
            Act::Say(1, GET),
            Act::Reach(2),
            Act::Answer(2, NO_CONTENT),
            Act::Answer(2, RESPONSE),
        ],
        wanted: &[
            Wanted::Asked(
                2,
                &[
                    b"M-SEARCH /p HTTP/1.1\r\nhost: h\r\ncontent-length: 36\r\nvia: 1.1 polipo\r\n\r\nGET http://h/a HTTP/1.1\r\nHost: h\r\n\r\n",
                    ASK,
                ],
            ),
            Wanted::Said(1, &[Part::Text(NO_CONTENT_PASSED), Part::Text(REPLY)]),
        ],
    },
    Exchange {
        name: "equal lengths count as one, and no coding is a coding",
        acts: &[
            Act::Connect,
            Act::Say(
                1,
                b"POST http://h/p HTTP/1.1\r\nContent-Length: 3\r\nTransfer-Encoding: identity\r\ncontent-length: 03\r\n\r\nabc",
            ),
            Act::Reach(2),
        ],
        wanted: &[Wanted::Asked(2, &[POST_ASK])],
    },
    Exchange {
        name: "a reply may come before the body was asked, whose rest is no request",
        acts: &[
            Act::Connect,
            Act::Say(
                1,
                b"POST http://h/p HTTP/1.1\r\nContent-Length: 41\r\n\r\nabcde",
            ),
            Act::Reach(2),
            Act::Answer(2, NO_CONTENT),
            Act::Say(1, GET),
            Act::Say(1, GET),
            Act::Reach(3),
            Act::Answer(3, RESPONSE),
        ],
        wanted: &[
            Wanted::Asked(
                2,
                &[
                    b"POST /p HTTP/1.1\r\nhost: h\r\ncontent-length: 41\r\nvia: 1.1 polipo\r\n\r\nabcde",
                ],
            ),
            Wanted::Asked(3, &[ASK]),
            Wanted::Said(1, &[Part::Text(NO_CONTENT_PASSED), Part::Text(REPLY)]),
        ],
    },
    Exchange {
        name: "a PUT whose origin cannot be reached is tried once",
        acts: &[
            Act::Connect,
            Act::Say(1, b"PUT http://h/a HTTP/1.1\r\nHost: h\r\n\r\n"),
            Act::Refuse(2),
        ],
        wanted: &[
            Wanted::Said(1, &[Part::Text(PAGE_502)]),
            Wanted::Count(Step::Dialled(80), 1),
            Wanted::Course(
                1,
                &[
                    Step::Opened,
                    Step::Taken(0, Decision::Pass),
                    Step::Taken(0, Decision::Refuse(502)),
                    Step::Said(114),
                    Step::Stopped,
                    Step::Shut,
                ],
            ),
        ],
    },
    Exchange {
        name: "what a POST changed is not served from what was held (RFC 2616, section 13.10)",
        acts: &[
            Act::Tick(T),
            Act::Connect,
            Act::Say(1, GET),
            Act::Reach(2),
            Act::Answer(2, RESPONSE),
            Act::Say(1, b"POST http://h/a HTTP/1.1\r\n\r\n"),
            Act::Reach(3),
            Act::Answer(3, NO_CONTENT),
            Act::Say(1, GET),
            Act::Answer(2, RESPONSE),
        ],
        wanted: &[
            Wanted::Asked(2, &[ASK, ASK]),
            Wanted::Asked(
                3,
                &[b"POST /a HTTP/1.1\r\nhost: h\r\nvia: 1.1 polipo\r\n\r\n"],
            ),
            Wanted::Said(
                1,
                &[
                    Part::Text(REPLY),
                    Part::Text(NO_CONTENT_PASSED),
                    Part::Text(REPLY),
                ],
            ),
        ],
    },
    Exchange {
        name: "HEAD of a page that is held asks nobody",
        acts: &[
            Act::Tick(T),
            Act::Connect,
            Act::Say(1, GET),
            Act::Reach(2),
            Act::Answer(2, RESPONSE),
            Act::Say(1, b"HEAD http://h/a HTTP/1.1\r\n\r\n"),
        ],
        wanted: &[
            Wanted::Asked(2, &[ASK]),
            Wanted::Taken(1, Decision::Head),
            Wanted::Said(
                1,
                &[
                    Part::Text(REPLY),
                    Part::Text(
                        b"HTTP/1.1 200 OK\r\netag: \"x\"\r\ndate: Sun, 06 Nov 1994 08:49:37 GMT\r\ncache-control: max-age=60\r\nage: 0\r\nvia: 1.1 polipo\r\ncontent-length: 5\r\nconnection: keep-alive\r\n\r\n",
                    ),
                ],
            ),
        ],
    },
];

#[test]
fn each_method_is_passed_with_its_body(rt: HostRuntime) -> Result<(), Fail> {
    says_nothing(&rt, unlike(rt.alloc(), METHODS))
}
