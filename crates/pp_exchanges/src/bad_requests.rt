// Requests that are none, or have just the form that they may have. More of them stand in `refusals`.
use crate::filled::{Filled, text_of};
use crate::saying::says_nothing;
use pp_play::{
    Act, Exchange, PAGE_400, PAGE_431, Pace, Part, REPLY, RESPONSE, Step, T, Wanted, play, unlike,
};
use pp_text::OutOfMemory;
use pp_world::Decision;
use std::alloc::Global;
use std::test::Fail;

const POST: &[u8] = b"POST http://h/p HTTP/1.1\r\nContent-Length: 1\r\nContent-Length: 1\r\n\r\na";

const REQUESTS: &[Exchange<'static>] = &[
    Exchange {
        name: "a host in brackets that is no address",
        acts: &[
            Act::Connect,
            Act::Say(1, b"GET http://[1]/ HTTP/1.1\r\nHost: h\r\n\r\n"),
        ],
        wanted: &[
            Wanted::Said(1, &[Part::Text(PAGE_400)]),
            Wanted::Taken(1, Decision::Refuse(400)),
            Wanted::Shut(1),
            Wanted::Count(Step::Dialled(80), 0),
        ],
    },
    Exchange {
        name: "a length that is said twice is one, and the request is one (RFC 2616, section 4.4)",
        acts: &[
            Act::Connect,
            Act::Say(1, POST),
            Act::Reach(2),
            Act::Answer(2, b"HTTP/1.1 200 OK\r\nContent-Length: 2\r\n\r\nok"),
        ],
        wanted: &[
            Wanted::Asked(
                2,
                &[b"POST /p HTTP/1.1\r\nhost: h\r\ncontent-length: 1\r\nvia: 1.1 polipo\r\n\r\na"],
            ),
            Wanted::Said(
                1,
                &[Part::Text(
                    b"HTTP/1.1 200 OK\r\nvia: 1.1 polipo\r\ncontent-length: 2\r\nconnection: keep-alive\r\n\r\nok",
                )],
            ),
            Wanted::Course(
                1,
                &[
                    Step::Opened,
                    Step::Taken(0, Decision::Pass),
                    Step::Said(81),
                    Step::Stopped,
                    Step::Shut,
                ],
            ),
        ],
    },
];

#[test]
fn a_request_is_one_or_gets_a_page(rt: HostRuntime) -> Result<(), Fail> {
    says_nothing(&rt, unlike(rt.alloc(), REQUESTS))
}

/// A request, what its origin is asked, what its client is said, and the course of that.
struct Head {
    name: &'static str,
    request: Filled,
    ask: Filled,
    said: &'static [u8],
    course: &'static [Step],
}

/// The front of a head: 67 bytes.
const FRONT: &[u8] = b"GET http://h/a HTTP/1.1\r\nHost: h\r\nProxy-Connection: keep-alive\r\nA: ";

const NOT_ASKED: Filled = Filled {
    front: b"",
    count: 0,
    end: b"",
};

const TOO_LONG: &[Step] = &[
    Step::Opened,
    Step::Taken(0, Decision::Refuse(431)),
    Step::Said(149),
    Step::Shut,
    Step::Stopped,
];

const HEADS: &[Head] = &[
    Head {
        name: "16,384 bytes with their end are asked and answered",
        request: Filled {
            front: FRONT,
            count: 16_313,
            end: b"\r\n\r\n",
        },
        ask: Filled {
            front: b"GET /a HTTP/1.1\r\nhost: h\r\na: ",
            count: 16_313,
            end: b"\r\nvia: 1.1 polipo\r\n\r\n",
        },
        said: REPLY,
        course: &[
            Step::Opened,
            Step::Taken(0, Decision::Fetch),
            Step::Taken(0, Decision::Hit(0, 5)),
            Step::Said(159),
            Step::Stopped,
            Step::Shut,
        ],
    },
    Head {
        name: "a byte more gets a page",
        request: Filled {
            front: FRONT,
            count: 16_314,
            end: b"\r\n\r\n",
        },
        ask: NOT_ASKED,
        said: PAGE_431,
        course: TOO_LONG,
    },
    Head {
        name: "16,384 bytes without an end get a page",
        request: Filled {
            front: FRONT,
            count: 16_317,
            end: b"",
        },
        ask: NOT_ASKED,
        said: PAGE_431,
        course: TOO_LONG,
    },
    Head {
        name: "with a byte less the end is waited for",
        request: Filled {
            front: FRONT,
            count: 16_316,
            end: b"",
        },
        ask: NOT_ASKED,
        said: b"",
        course: &[Step::Opened, Step::Stopped, Step::Shut],
    },
];

/// Where one of these goes otherwise: nothing is said where none does.
fn unlike_heads(alloc: Global, heads: &[Head]) -> Result<String, OutOfMemory> {
    for head in heads {
        let part = first_unlike(alloc, head)?;
        if !part.is_empty() {
            return Ok(format!(in alloc; "{}: {part}", head.name)?);
        }
    }
    Ok(String::new(alloc))
}

/// What goes otherwise, or nothing.
fn first_unlike(alloc: Global, head: &Head) -> Result<&'static str, OutOfMemory> {
    let request = text_of(alloc, &head.request)?;
    let ask = text_of(alloc, &head.ask)?;
    let acts = [
        Act::Tick(T),
        Act::Connect,
        Act::Say(1, request.as_slice()),
        Act::Reach(2),
        Act::Answer(2, RESPONSE),
    ];
    let played = play(alloc, Pace::Whole, &acts)?;
    if played.asked(2)?.as_slice() != ask.as_slice() {
        return Ok("what is asked");
    }
    if played.said(1)?.as_slice() != head.said {
        return Ok("what is said");
    }
    if played.course(1)?.as_slice() != head.course {
        return Ok("its course");
    }
    Ok("")
}

#[test]
fn a_head_has_at_most_16384_bytes(rt: HostRuntime) -> Result<(), Fail> {
    says_nothing(&rt, unlike_heads(rt.alloc(), HEADS))
}
