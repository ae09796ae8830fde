// Responses however they are delimited, to clients of either version (RFC 2616, sections 3.6.1 and 4.4).
use crate::saying::says_nothing;
use pp_play::{
    ASK, Act, Cut, Exchange, GET, PAGE_502, Part, REPLY, RESPONSE, Step, Wanted, unlike,
    unlike_when_cut,
};
use pp_world::Decision;
use std::test::Fail;

const OLD_GET: &[u8] = b"GET http://h/c HTTP/1.0\r\n\r\n";

const CHUNKED_REPLY: Part<'static> = Part::Text(
    b"HTTP/1.1 200 OK\r\nvia: 1.1 polipo\r\ntransfer-encoding: chunked\r\nconnection: keep-alive\r\n\r\n",
);

const CLOSED_REPLY: Part<'static> = Part::Text(
    b"HTTP/1.1 200 OK\r\nvia: 1.1 polipo\r\nconnection: close\r\n\r\n",
);

const CHUNKED: &[Exchange<'static>] = &[
    Exchange {
        name: "chunks to HTTP/1.0, up to the end of the connection",
        acts: &[
            Act::Connect,
            Act::Say(1, OLD_GET),
            Act::Reach(2),
            Act::Answer(
                2,
                b"HTTP/1.1 200 OK\r\nTransfer-Encoding: chunked\r\n\r\n5\r\nhello\r\n0\r\n\r\n",
            ),
        ],
        wanted: &[
            Wanted::Asked(
                2,
                &[b"GET /c HTTP/1.1\r\nhost: h\r\nvia: 1.1 polipo\r\n\r\n"],
            ),
            Wanted::Said(1, &[CLOSED_REPLY, Part::Text(b"hello")]),
            Wanted::Course(
                1,
                &[
                    Step::Opened,
                    Step::Taken(0, Decision::Fetch),
                    Step::Taken(0, Decision::Relay),
                    Step::Said(60),
                    Step::Shut,
                    Step::Stopped,
                ],
            ),
            Wanted::Course(
                2,
                &[
                    Step::Dialled(80),
                    Step::Reached,
                    Step::Asked(45),
                    Step::Stopped,
                    Step::Dropped,
                ],
            ),
        ],
    },
    Exchange {
        name: "the same though the client asks to go on, since its end is not known",
        acts: &[
            Act::Connect,
            Act::Say(
                1,
                b"GET http://h/c HTTP/1.0\r\nConnection: keep-alive\r\n\r\n",
            ),
            Act::Say(1, GET),
            Act::Reach(2),
            Act::Answer(
                2,
                b"HTTP/1.1 200 OK\r\nTransfer-Encoding: chunked\r\n\r\n5\r\nhello\r\n0\r\n\r\n",
            ),
        ],
        wanted: &[
            Wanted::Said(1, &[CLOSED_REPLY, Part::Text(b"hello")]),
            Wanted::Course(
                1,
                &[
                    Step::Opened,
                    Step::Taken(0, Decision::Fetch),
                    Step::Taken(0, Decision::Relay),
                    Step::Said(60),
                    Step::Shut,
                    Step::Stopped,
                ],
            ),
            Wanted::Count(Step::Dialled(80), 1),
        ],
    },
    Exchange {
        name: "chunks to HTTP/1.1, whose connection goes on",
        acts: &[
            Act::Connect,
            Act::Say(1, GET),
            Act::Say(1, GET),
            Act::Reach(2),
            Act::Answer(
                2,
                b"HTTP/1.1 200 OK\r\nTransfer-Encoding: chunked\r\n\r\n5;a=b\r\nhello\r\n006 \r\n world\r\n0;c\r\nTrailer: d\r\n\r\n",
            ),
            Act::Answer(2, RESPONSE),
        ],
        wanted: &[
            Wanted::Asked(2, &[ASK, ASK]),
            Wanted::Said(
                1,
                &[
                    CHUNKED_REPLY,
                    Part::Coded(b"hello world"),
                    Part::Text(REPLY),
                ],
            ),
            Wanted::Count(Step::Dialled(80), 1),
        ],
    },
    Exchange {
        name: "no chunk but the last",
        acts: &[
            Act::Connect,
            Act::Say(1, GET),
            Act::Reach(2),
            Act::Answer(
                2,
                b"HTTP/1.1 200 OK\r\nTransfer-Encoding: Identity, Chunked\r\n\r\n0\r\n\r\n",
            ),
        ],
        wanted: &[Wanted::Said(1, &[CHUNKED_REPLY, Part::Coded(b"")])],
    },
    Exchange {
        name: "chunks count before a length (RFC 2616, section 4.4)",
        acts: &[
            Act::Connect,
            Act::Say(1, GET),
            Act::Reach(2),
            Act::Answer(
                2,
                b"HTTP/1.1 200 OK\r\nContent-Length: 3\r\nTransfer-Encoding: chunked\r\n\r\n5\r\nhello\r\n0\r\n\r\n",
            ),
        ],
        wanted: &[Wanted::Said(1, &[CHUNKED_REPLY, Part::Coded(b"hello")])],
    },
];

#[test]
fn a_chunked_body_is_passed_as_the_client_can_read_it(rt: HostRuntime) -> Result<(), Fail> {
    says_nothing(&rt, unlike(rt.alloc(), CHUNKED))
}

const TO_THE_END: &[Exchange<'static>] = &[
    Exchange {
        name: "a body that the connection's end ends, to HTTP/1.1",
        acts: &[
            Act::Connect,
            Act::Say(1, GET),
            Act::Reach(2),
            Act::Answer(2, b"HTTP/1.0 200 OK\r\n\r\nhello"),
            Act::End(2),
        ],
        wanted: &[
            Wanted::Said(1, &[CHUNKED_REPLY, Part::Coded(b"hello")]),
            Wanted::Course(
                2,
                &[
                    Step::Dialled(80),
                    Step::Reached,
                    Step::Asked(45),
                    Step::Ended,
                    Step::Dropped,
                    Step::Stopped,
                ],
            ),
        ],
    },
    Exchange {
        name: "and to HTTP/1.0",
        acts: &[
            Act::Connect,
            Act::Say(1, OLD_GET),
            Act::Reach(2),
            Act::Answer(2, b"HTTP/1.1 200 OK\r\n\r\nhello"),
            Act::End(2),
        ],
        wanted: &[
            Wanted::Said(1, &[CLOSED_REPLY, Part::Text(b"hello")]),
            Wanted::Course(
                1,
                &[
                    Step::Opened,
                    Step::Taken(0, Decision::Fetch),
                    Step::Taken(0, Decision::Relay),
                    Step::Said(60),
                    Step::Shut,
                    Step::Stopped,
                ],
            ),
        ],
    },
    Exchange {
        name: "an empty one",
        acts: &[
            Act::Connect,
            Act::Say(1, GET),
            Act::Reach(2),
            Act::Answer(2, b"HTTP/1.1 200 OK\r\n\r\n"),
            Act::End(2),
        ],
        wanted: &[Wanted::Said(1, &[CHUNKED_REPLY, Part::Coded(b"")])],
    },
    Exchange {
        name: "a length of an older origin, which keeps or ends as it likes",
        acts: &[
            Act::Connect,
            Act::Say(1, GET),
            Act::Reach(2),
            Act::Answer(
                2,
                b"HTTP/1.0 200 OK\r\nConnection: close\r\nContent-Length: 5\r\n\r\nhello",
            ),
            Act::End(2),
        ],
        wanted: &[Wanted::Said(
            1,
            &[Part::Text(
                b"HTTP/1.1 200 OK\r\nvia: 1.1 polipo\r\ncontent-length: 5\r\nconnection: keep-alive\r\n\r\nhello",
            )],
        )],
    },
];

#[test]
fn a_body_may_end_with_the_connection(rt: HostRuntime) -> Result<(), Fail> {
    says_nothing(&rt, unlike(rt.alloc(), TO_THE_END))
}

const CUT_CHUNKS: &Cut<'static> = &Cut {
    request: GET,
    attempts: 3,
    interim: b"",
    head: b"HTTP/1.1 200 OK\r\nTransfer-Encoding: chunked\r\n\r\n",
    body: b"5;a\r\nhello\r\n6\r\n world\r\n0\r\nA: b\r\n\r\n",
    reply_head: b"HTTP/1.1 200 OK\r\nvia: 1.1 polipo\r\ntransfer-encoding: chunked\r\nconnection: keep-alive\r\n\r\n",
    data: Part::Coded(b"hello world"),
    is_ended_by_end: false,
    page: PAGE_502,
};

const CUT_OLD_CHUNKS: &Cut<'static> = &Cut {
    request: OLD_GET,
    attempts: 3,
    interim: b"",
    head: b"HTTP/1.1 200 OK\r\nTransfer-Encoding: chunked\r\n\r\n",
    body: b"5\r\nhello\r\n0\r\n\r\n",
    reply_head: b"HTTP/1.1 200 OK\r\nvia: 1.1 polipo\r\nconnection: close\r\n\r\n",
    data: Part::Text(b"hello"),
    is_ended_by_end: false,
    page: b"HTTP/1.1 502 Bad Gateway\r\ncontent-type: text/plain\r\ncontent-length: 16\r\nconnection: close\r\n\r\n502 Bad Gateway\n",
};

const CUT_END: &Cut<'static> = &Cut {
    request: GET,
    attempts: 3,
    interim: b"",
    head: b"HTTP/1.1 103 Early Hints\r\nLink: x\r\n\r\nHTTP/1.1 200 OK\r\n\r\n",
    body: b"hello",
    reply_head: b"HTTP/1.1 200 OK\r\nvia: 1.1 polipo\r\ntransfer-encoding: chunked\r\nconnection: keep-alive\r\n\r\n",
    data: Part::Coded(b"hello"),
    is_ended_by_end: true,
    page: PAGE_502,
};

#[test]
fn a_response_may_be_lost_behind_each_byte(rt: HostRuntime) -> Result<(), Fail> {
    for cut in [CUT_CHUNKS, CUT_OLD_CHUNKS, CUT_END] {
        says_nothing(&rt, unlike_when_cut(rt.alloc(), cut))?;
    }
    Ok(())
}

const INTERIM: &[Exchange<'static>] = &[
    Exchange {
        name: "interim responses are dropped (RFC 2616, section 10.1)",
        acts: &[
            Act::Connect,
            Act::Say(1, GET),
            Act::Reach(2),
            Act::Answer(
                2,
                b"HTTP/1.1 100 Continue\r\n\r\nHTTP/1.1 103 Early Hints\r\nContent-Length: 9\r\n\r\n",
            ),
            Act::Answer(2, RESPONSE),
        ],
        wanted: &[
            Wanted::Asked(2, &[ASK]),
            Wanted::Said(1, &[Part::Text(REPLY)]),
            Wanted::Count(Step::Dialled(80), 1),
        ],
    },
    Exchange {
        name: "no protocol is switched",
        acts: &[
            Act::Connect,
            Act::Say(1, GET),
            Act::Reach(2),
            Act::Answer(2, b"HTTP/1.1 101 Switching Protocols\r\nUpgrade: x\r\n\r\n"),
        ],
        wanted: &[
            Wanted::Said(1, &[Part::Text(PAGE_502)]),
            Wanted::Course(
                2,
                &[
                    Step::Dialled(80),
                    Step::Reached,
                    Step::Asked(45),
                    Step::Dropped,
                    Step::Stopped,
                ],
            ),
        ],
    },
];

#[test]
fn interim_responses_are_not_passed(rt: HostRuntime) -> Result<(), Fail> {
    says_nothing(&rt, unlike(rt.alloc(), INTERIM))
}
