// Origins that answer wrongly, or not at all. Where nothing came of it the client gets a page, and its connection goes on.
use pp_play::{
    ASK, ASK_B, Act, Cut, Exchange, GET, GET_B, HEAD, PAGE_502, Pace, Part, REPLY, REPLY_B,
    RESPONSE, RESPONSE_B, Step, T, WORDS, Wanted, joined, play, play_with, unlike, unlike_at,
    unlike_when_cut, with_repeated,
};
use pp_world::{Cause, Decision};
use std::test::Fail;

/// The course of a client whose exchange came to nothing.
const REFUSED: &[Step] = &[
    Step::Opened,
    Step::Taken(0, Decision::Fetch),
    Step::Taken(0, Decision::Refuse(502)),
    Step::Said(114),
    Step::Stopped,
    Step::Shut,
];

/// What a client gets where the answer is none: the origin is left, and not asked again.
const FAILED: &[Wanted<'static>] = &[
    Wanted::Said(1, &[Part::Text(PAGE_502)]),
    Wanted::Course(1, REFUSED),
    Wanted::Course(
        2,
        &[
            Step::Dialled(80),
            Step::Reached,
            Step::Asked(45),
            Step::Dropped,
            Step::Stopped,
        ],
    ),
    Wanted::Count(Step::Dialled(80), 1),
];

/// What it gets where the origin is lost: it was asked three times.
const LOST: &[Wanted<'static>] = &[
    Wanted::Said(1, &[Part::Text(PAGE_502)]),
    Wanted::Course(1, REFUSED),
    Wanted::Count(Step::Dialled(80), 3),
    Wanted::Count(Step::Dropped, 3),
];

/// What a client gets whose request is passed, and asked once.
const NOT_PASSED: &[Wanted<'static>] = &[
    Wanted::Said(1, &[Part::Text(PAGE_502)]),
    Wanted::Course(
        1,
        &[
            Step::Opened,
            Step::Taken(0, Decision::Pass),
            Step::Taken(0, Decision::Refuse(502)),
            Step::Said(114),
            Step::Stopped,
            Step::Shut,
        ],
    ),
    Wanted::Count(Step::Dialled(80), 1),
    Wanted::Count(Step::Dropped, 1),
];

/// An origin that answers this.
macro_rules! answers {
    ($name:literal, $text:literal) => {
        Exchange {
            name: $name,
            acts: &[Act::Connect, Act::Say(1, GET), Act::Reach(2), Act::Answer(2, $text)],
            wanted: FAILED,
        }
    };
}

const NO_ANSWERS: &[Exchange<'static>] = &[
    answers!(
        "another coding",
        b"HTTP/1.1 200 OK\r\nTransfer-Encoding: gzip, chunked\r\n\r\n5\r\nhello\r\n0\r\n\r\n"
    ),
    answers!(
        "a coding behind chunks",
        b"HTTP/1.1 200 OK\r\nTransfer-Encoding: chunked, gzip\r\n\r\n"
    ),
    answers!(
        "chunks of chunks",
        b"HTTP/1.1 200 OK\r\nTransfer-Encoding: chunked\r\nTransfer-Encoding: chunked\r\n\r\n"
    ),
    answers!(
        "two lengths",
        b"HTTP/1.1 200 OK\r\nContent-Length: 5\r\nContent-Length: 6\r\n\r\nhello"
    ),
    answers!(
        "a length with a sign",
        b"HTTP/1.1 200 OK\r\nContent-Length: +5\r\n\r\nhello"
    ),
    answers!(
        "an empty length",
        b"HTTP/1.1 200 OK\r\nContent-Length:\r\n\r\nhello"
    ),
    answers!(
        "two lengths beside chunks",
        b"HTTP/1.1 200 OK\r\nContent-Length: 5\r\nContent-Length: 6\r\nTransfer-Encoding: chunked\r\n\r\n"
    ),
    answers!(
        "a length of 65 bits",
        b"HTTP/1.1 200 OK\r\nContent-Length: 18446744073709551616\r\n\r\nhello"
    ),
    answers!("another protocol", b"SSH-2.0-OpenSSH_9.6\r\n"),
    answers!(
        "a status below 100 (RFC 9110, section 15)",
        b"HTTP/1.1 099 Odd\r\nContent-Length: 2\r\n\r\nhi"
    ),
    answers!("zeros", b"\0\0\0\0"),
    answers!("a folded line", b"HTTP/1.1 200 OK\r\nA: b\r\n c\r\n\r\n"),
    answers!(
        "a fault behind an interim response",
        b"HTTP/1.1 100 Continue\r\n\r\nHTTP/2 200\r\n\r\n"
    ),
    answers!(
        "a change of protocol",
        b"HTTP/1.1 101 Switching Protocols\r\nUpgrade: x\r\n\r\n"
    ),
    answers!(
        "unchanged, and nothing was named",
        b"HTTP/1.1 304 Not Modified\r\nETag: \"x\"\r\n\r\n"
    ),
    answers!(
        "several ranges, and none was asked for",
        b"HTTP/1.1 206 Partial Content\r\nETag: \"x\"\r\nContent-Type: multipart/byteranges; boundary=b\r\nContent-Length: 7\r\n\r\n--b--\r\n"
    ),
    Exchange {
        name: "two lengths, where the request is passed",
        acts: &[
            Act::Connect,
            Act::Say(1, b"DELETE http://h/a HTTP/1.1\r\n\r\n"),
            Act::Reach(2),
            Act::Answer(
                2,
                b"HTTP/1.1 200 OK\r\nContent-Length: 5\r\nContent-Length: 6\r\n\r\nhello",
            ),
        ],
        wanted: NOT_PASSED,
    },
];

#[test]
fn a_response_that_cannot_be_passed_gets_a_page(rt: HostRuntime) -> Result<(), Fail> {
    assert_eq!(rt; unlike(rt.alloc(), NO_ANSWERS)?.as_str(), "");
    Ok(())
}

#[test]
fn a_response_head_that_does_not_end_gets_a_page(rt: HostRuntime) -> Result<(), Fail> {
    let alloc = rt.alloc();
    let many_fields = with_repeated(alloc, b"HTTP/1.1 200 OK\r\n", 101, b"a: b\r\n")?;
    let long_field = with_repeated(alloc, b"HTTP/1.1 200 OK\r\na: ", 2048, b"bbbbbbbb")?;
    let heads = [
        (Pace::Whole, many_fields.as_slice()),
        (Pace::Bytewise, many_fields.as_slice()),
        (Pace::Whole, long_field.as_slice()),
    ];
    for (pace, head) in heads {
        let acts = [
            Act::Connect,
            Act::Say(1, GET),
            Act::Reach(2),
            Act::Answer(2, head),
        ];
        let played = play(alloc, pace, &acts)?;
        assert_eq!(rt; played.said(1)?.as_slice(), PAGE_502, "{pace:?}");
        assert_eq!(rt; played.count(Step::Dropped), 1, "{pace:?}");
    }
    Ok(())
}

const NOT_REACHED: &[Exchange<'static>] = &[
    Exchange {
        name: "refused",
        acts: &[
            Act::Connect,
            Act::Say(1, GET),
            Act::Refuse(2),
            Act::Refuse(3),
            Act::Refuse(4),
        ],
        wanted: LOST,
    },
    Exchange {
        name: "lost once reached",
        acts: &[
            Act::Connect,
            Act::Say(1, GET),
            Act::Reach(2),
            Act::Refuse(2),
            Act::Reach(3),
            Act::Refuse(3),
            Act::Reach(4),
            Act::Refuse(4),
        ],
        wanted: LOST,
    },
    Exchange {
        name: "lost within its interim response",
        acts: &[
            Act::Connect,
            Act::Say(1, GET),
            Act::Reach(2),
            Act::Answer(2, b"HTTP/1.1 100 Continue\r\n\r\n"),
            Act::End(2),
            Act::Reach(3),
            Act::Answer(3, b"HTTP/1.1 100 Continue\r\n\r\n"),
            Act::End(3),
            Act::Reach(4),
            Act::Answer(4, b"HTTP/1.1 100 Continue\r\n\r\n"),
            Act::End(4),
        ],
        wanted: LOST,
    },
    Exchange {
        name: "lost behind the head of what is kept: it is known no more, and the whole is asked for, three times",
        acts: &[
            Act::Connect,
            Act::Say(1, GET),
            Act::Reach(2),
            Act::Answer(2, HEAD),
            Act::End(2),
            Act::Refuse(3),
            Act::Refuse(4),
            Act::Refuse(5),
            Act::Refuse(6),
            Act::Refuse(7),
        ],
        wanted: &[
            Wanted::Said(1, &[Part::Text(PAGE_502)]),
            Wanted::Taken(1, Decision::Part(0, 5)),
            Wanted::Taken(1, Decision::Refuse(502)),
            Wanted::Count(Step::Dialled(80), 6),
        ],
    },
    Exchange {
        name: "lost while the request's body is asked, which is asked once",
        acts: &[
            Act::Connect,
            Act::Say(
                1,
                b"POST http://h/a HTTP/1.1\r\nContent-Length: 5\r\n\r\nab",
            ),
            Act::Reach(2),
            Act::Break(2),
            Act::Say(1, b"cde"),
        ],
        wanted: NOT_PASSED,
    },
];

#[test]
fn an_origin_that_is_lost_gives_a_page(rt: HostRuntime) -> Result<(), Fail> {
    assert_eq!(rt; unlike(rt.alloc(), NOT_REACHED)?.as_str(), "");
    // calls: list, listen, read, dial, dial, dial
    let played = play_with(
        rt.alloc(),
        WORDS,
        Pace::Whole,
        &[Act::Connect, Act::Say(1, GET)],
        &[4, 5, 6],
    )?;
    assert_eq!(rt; played.said(1)?.as_slice(), PAGE_502);
    assert_eq!(rt; played.count(Step::Dialled(80)), 0);
    Ok(())
}

/// An origin that is there at the third attempt.
const AT_LAST: &[Exchange<'static>] = &[Exchange {
    name: "refused, and ended within its head, and then it answers (RFC 2616, section 8.1.4)",
    acts: &[
        Act::Tick(T),
        Act::Connect,
        Act::Say(1, GET),
        Act::Refuse(2),
        Act::Reach(3),
        Act::Answer(3, b"HTTP/1.1 200 OK\r\nETag: \"y\"\r\n"),
        Act::End(3),
        Act::Reach(4),
        Act::Answer(4, RESPONSE),
    ],
    wanted: &[
        Wanted::Count(Step::Dialled(80), 3),
        Wanted::Said(1, &[Part::Text(REPLY)]),
    ],
}];

#[test]
fn an_origin_that_is_lost_is_asked_again(rt: HostRuntime) -> Result<(), Fail> {
    assert_eq!(rt; unlike(rt.alloc(), AT_LAST)?.as_str(), "");
    Ok(())
}

/// Two clients that ask for the same: the second waits for the first one's answer.
const SHARED: &[Exchange<'static>] = &[Exchange {
    name: "an answer that is none, for which another waits",
    acts: &[
        Act::Tick(T),
        Act::Connect,
        Act::Say(1, GET),
        Act::Connect,
        Act::Say(3, GET),
        Act::Reach(2),
        Act::Answer(2, b"HTTP/2 200\r\n\r\n"),
        Act::Reach(4),
        Act::Answer(4, RESPONSE),
    ],
    wanted: &[
        Wanted::Said(1, &[Part::Text(PAGE_502)]),
        Wanted::Taken(3, Decision::Fetch),
        Wanted::Asked(4, &[ASK]),
        Wanted::Said(3, &[Part::Text(REPLY)]),
    ],
}];

#[test]
fn a_bad_answer_fails_one_request_alone(rt: HostRuntime) -> Result<(), Fail> {
    assert_eq!(rt; unlike(rt.alloc(), SHARED)?.as_str(), "");
    Ok(())
}

const CUT_LENGTH: &Cut<'static> = &Cut {
    request: GET,
    attempts: 3,
    interim: b"",
    head: b"HTTP/1.1 200 OK\r\nDate: Sun, 06 Nov 1994 08:49:37 GMT\r\nETag: W/\"x\"\r\nContent-Length: 5\r\n\r\n",
    body: b"hello",
    reply_head: b"HTTP/1.1 200 OK\r\ndate: Sun, 06 Nov 1994 08:49:37 GMT\r\netag: W/\"x\"\r\nvia: 1.1 polipo\r\ncontent-length: 5\r\nconnection: keep-alive\r\n\r\n",
    data: Part::Text(b"hello"),
    is_ended_by_end: false,
    page: PAGE_502,
};

/// It is bad once it is whole, and until then the origin is lost.
const CUT_CODING: &Cut<'static> = &Cut {
    request: GET,
    attempts: 3,
    interim: b"",
    head: b"HTTP/1.1 200 OK\r\nTransfer-Encoding: gzip, chunked\r\n\r\n",
    body: b"",
    reply_head: b"",
    data: Part::Text(b""),
    is_ended_by_end: false,
    page: PAGE_502,
};

#[test]
fn an_origin_may_be_lost_behind_each_byte(rt: HostRuntime) -> Result<(), Fail> {
    for cut in [CUT_LENGTH, CUT_CODING] {
        assert_eq!(rt; unlike_when_cut(rt.alloc(), cut)?.as_str(), "");
    }
    Ok(())
}

const REPLY_HEAD: &[u8] =
    b"HTTP/1.1 200 OK\r\netag: \"x\"\r\ndate: Sun, 06 Nov 1994 08:49:37 GMT\r\ncache-control: max-age=60\r\nvia: 1.1 polipo\r\ncontent-length: 5\r\nconnection: keep-alive\r\n\r\n";

const BODY: &[u8] = b"hello";

/// The reply to what is kept begins with the first byte of the body. Once that came, its client is cut.
#[test]
fn an_origin_may_be_lost_behind_each_byte_of_what_is_kept(rt: HostRuntime) -> Result<(), Fail> {
    for lost in [Act::End(2), Act::Break(2)] {
        for len in 1..BODY.len() {
            let acts = [
                Act::Connect,
                Act::Say(1, GET),
                Act::Reach(2),
                Act::Answer(2, HEAD),
                Act::Answer(2, &BODY[..len]),
                lost,
                Act::Refuse(3),
                Act::Refuse(4),
            ];
            let played = play(rt.alloc(), Pace::Whole, &acts)?;
            let said = joined(rt.alloc(), &[REPLY_HEAD, &BODY[..len]])?;
            assert_eq!(rt; played.said(1)?.as_slice(), said.as_slice(), "at {len}");
            assert_eq!(rt; played.count(Step::Cut(Cause::Origin)), 1, "at {len}");
            assert_eq!(rt; played.count(Step::Dialled(80)), 3, "at {len}");
        }
    }
    Ok(())
}

/// A reply of no version that began, and was cut: what is lost of it cannot be asked for. Where more came that is no body, the
/// origin is the cause.
macro_rules! cut {
    ($name:literal, $first:literal, $then:expr, $said:literal, $len:literal, $cause:ident) => {
        Exchange {
            name: $name,
            acts: &[Act::Connect, Act::Say(1, GET), Act::Say(1, GET), Act::Reach(2), Act::Answer(2, $first), $then],
            wanted: &[
                Wanted::Said(1, &[Part::Text($said)]),
                Wanted::Course(
                    1,
                    &[
                        Step::Opened,
                        Step::Taken(0, Decision::Fetch),
                        Step::Taken(0, Decision::Relay),
                        Step::Said($len),
                        Step::Cut(Cause::$cause),
                        Step::Shut,
                        Step::Stopped,
                    ],
                ),
                Wanted::Count(Step::Dialled(80), 1),
                Wanted::Count(Step::Dropped, 1),
            ],
        }
    };
}

const CUTS: &[Exchange<'static>] = &[
    cut!(
        "an end within a length",
        b"HTTP/1.1 200 OK\r\nContent-Length: 5\r\n\r\nhel",
        Act::End(2),
        b"HTTP/1.1 200 OK\r\nvia: 1.1 polipo\r\ncontent-length: 5\r\nconnection: keep-alive\r\n\r\nhel",
        82,
        Short
    ),
    cut!(
        "an end within a chunk",
        b"HTTP/1.1 200 OK\r\nTransfer-Encoding: chunked\r\n\r\n5\r\nhel",
        Act::End(2),
        b"HTTP/1.1 200 OK\r\nvia: 1.1 polipo\r\ntransfer-encoding: chunked\r\nconnection: keep-alive\r\n\r\n3\r\nhel\r\n",
        96,
        Short
    ),
    cut!(
        "a size of 17 digits",
        b"HTTP/1.1 200 OK\r\nTransfer-Encoding: chunked\r\n\r\n3\r\nhel\r\n",
        Act::Answer(2, b"00000000000000001\r\na\r\n0\r\n\r\n"),
        b"HTTP/1.1 200 OK\r\nvia: 1.1 polipo\r\ntransfer-encoding: chunked\r\nconnection: keep-alive\r\n\r\n3\r\nhel\r\n",
        96,
        Origin
    ),
    cut!(
        "a reset of a body that the end ends",
        b"HTTP/1.1 200 OK\r\n\r\nhel",
        Act::Break(2),
        b"HTTP/1.1 200 OK\r\nvia: 1.1 polipo\r\ntransfer-encoding: chunked\r\nconnection: keep-alive\r\n\r\n3\r\nhel\r\n",
        96,
        Short
    ),
];

#[test]
fn a_response_that_turns_bad_cuts_its_client(rt: HostRuntime) -> Result<(), Fail> {
    assert_eq!(rt; unlike_at(rt.alloc(), Pace::Whole, CUTS)?.as_str(), "");
    Ok(())
}

/// The rest of a body is asked for.
const ASK_REST: &[u8] =
    b"GET /a HTTP/1.1\r\nhost: h\r\nrange: bytes=7-9\r\nif-range: \"x\"\r\nvia: 1.1 polipo\r\n\r\n";

const NO_RANGE: &[u8] =
    b"HTTP/1.1 416 Requested Range Not Satisfiable\r\nContent-Length: 0\r\n\r\n";

/// A body is lost behind seven of its ten bytes, and its rest is asked for: this comes, and that is said of it.
macro_rules! goes_on {
    ($name:literal, [$($answer:expr),*], $said:literal, $($wanted:expr),*) => {
        Exchange {
            name: $name,
            acts: &[
                Act::Tick(T),
                Act::Connect,
                Act::Say(1, GET),
                Act::Reach(2),
                Act::Answer(2, b"HTTP/1.1 200 OK\r\nDate: Sun, 06 Nov 1994 08:49:37 GMT\r\nETag: \"x\"\r\nCache-Control: max-age=60\r\nContent-Length: 10\r\n\r\nhello w"),
                Act::End(2),
                Act::Reach(3),
                $(Act::Answer(3, $answer)),*
            ],
            wanted: &[
                Wanted::Said(
                    1,
                    &[
                        Part::Text(b"HTTP/1.1 200 OK\r\netag: \"x\"\r\ndate: Sun, 06 Nov 1994 08:49:37 GMT\r\ncache-control: max-age=60\r\nvia: 1.1 polipo\r\ncontent-length: 10\r\nconnection: keep-alive\r\n\r\nhello w"),
                        Part::Text($said),
                    ],
                ),
                Wanted::Count(Step::Dialled(80), 2),
                $($wanted),*
            ],
        }
    };
}

const RESTS: &[Exchange<'static>] = &[
    goes_on!(
        "its rest",
        [
            b"HTTP/1.1 206 Partial Content\r\nETag: \"x\"\r\nContent-Range: bytes 7-9/10\r\nContent-Length: 3\r\n\r\norl"
        ],
        b"orl",
        Wanted::Asked(3, &[ASK_REST])
    ),
    goes_on!(
        "the rest of a body with another tag",
        [
            b"HTTP/1.1 206 Partial Content\r\nETag: \"y\"\r\nContent-Range: bytes 7-9/10\r\nContent-Length: 3\r\n\r\norl"
        ],
        b"",
        Wanted::Asked(3, &[ASK_REST]),
        Wanted::Cut(1, Cause::Superseded)
    ),
    goes_on!(
        "the rest of a longer body with the same tag",
        [
            b"HTTP/1.1 206 Partial Content\r\nETag: \"x\"\r\nContent-Range: bytes 7-9/11\r\nContent-Length: 3\r\n\r\norl"
        ],
        b"",
        Wanted::Asked(3, &[ASK_REST]),
        Wanted::Cut(1, Cause::Superseded)
    ),
    goes_on!(
        "a body without a tag",
        [b"HTTP/1.1 200 OK\r\nContent-Length: 10\r\n\r\nhello worl"],
        b"",
        Wanted::Asked(3, &[ASK_REST]),
        Wanted::Cut(1, Cause::Superseded)
    ),
    goes_on!(
        "several ranges of it",
        [
            b"HTTP/1.1 206 Partial Content\r\nETag: \"x\"\r\nContent-Type: multipart/byteranges; boundary=b\r\nContent-Length: 7\r\n\r\n--b--\r\n"
        ],
        b"",
        Wanted::Asked(3, &[ASK_REST]),
        Wanted::Cut(1, Cause::Origin)
    ),
    goes_on!(
        "what is no response",
        [b"HTTP/2 206\r\n\r\n"],
        b"",
        Wanted::Asked(3, &[ASK_REST]),
        Wanted::Cut(1, Cause::Origin)
    ),
    // with the lost connection there were three attempts
    goes_on!(
        "no range, and once more",
        [NO_RANGE, NO_RANGE],
        b"",
        Wanted::Asked(3, &[ASK_REST, ASK_REST]),
        Wanted::Cut(1, Cause::Origin)
    ),
];

#[test]
fn a_lost_body_is_gone_on_with_by_its_own_rest_alone(rt: HostRuntime) -> Result<(), Fail> {
    assert_eq!(rt; unlike(rt.alloc(), RESTS)?.as_str(), "");
    Ok(())
}

/// An answer and another one behind it, which nobody asked for: it is no answer to what is asked next.
const STRAY: &[Exchange<'static>] = &[Exchange {
    name: "a second answer to one request (RFC 2616, section 8.1.2.2)",
    acts: &[
        Act::Tick(T),
        Act::Connect,
        Act::Say(1, GET),
        Act::Reach(2),
        Act::Answer(
            2,
            b"HTTP/1.1 200 OK\r\nDate: Sun, 06 Nov 1994 08:49:37 GMT\r\nETag: \"x\"\r\nCache-Control: max-age=60\r\nContent-Length: 5\r\n\r\nhelloHTTP/1.1 200 OK\r\nETag: \"z\"\r\nContent-Length: 5\r\n\r\nwrong",
        ),
        Act::Say(1, GET_B),
        Act::Reach(3),
        Act::Answer(3, RESPONSE_B),
    ],
    wanted: &[
        Wanted::Asked(2, &[ASK]),
        Wanted::Course(
            2,
            &[
                Step::Dialled(80),
                Step::Reached,
                Step::Asked(45),
                Step::Dropped,
                Step::Stopped,
            ],
        ),
        Wanted::Asked(3, &[ASK_B]),
        Wanted::Said(1, &[Part::Text(REPLY), Part::Text(REPLY_B)]),
    ],
}];

#[test]
fn an_answer_that_nobody_asked_for_is_not_taken(rt: HostRuntime) -> Result<(), Fail> {
    assert_eq!(rt; unlike(rt.alloc(), STRAY)?.as_str(), "");
    Ok(())
}
