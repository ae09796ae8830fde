// Responses that are none, or bring nothing that can be kept. More of them stand in `gateways`.
use crate::filled::{Filled, text_of};
use crate::saying::says_nothing;
use pp_play::{
    Act, Exchange, GET, PAGE_502, Pace, Part, REPLY, REPLY_HELD, RESPONSE, Step, T, Wanted, joined,
    unlike, unlike_at,
};
use pp_text::OutOfMemory;
use pp_world::{Cause, Decision};
use std::alloc::Global;
use std::test::Fail;

const CHUNKED: &[u8] = b"HTTP/1.1 200 OK\r\nTransfer-Encoding: chunked\r\n\r\n";

const CHUNKED_PASSED: &[u8] =
    b"HTTP/1.1 200 OK\r\nvia: 1.1 polipo\r\ntransfer-encoding: chunked\r\nconnection: keep-alive\r\n\r\n";

/// The course of a connection whose answer is none.
const LEFT: &[Step] = &[
    Step::Dialled(80),
    Step::Reached,
    Step::Asked(45),
    Step::Dropped,
    Step::Stopped,
];

/// A chunk, and what its client gets where it comes in a turn behind the head of the response, and in that of the head.
struct Chunk {
    name: &'static str,
    text: Filled,
    behind: &'static [Wanted<'static>],
    within: &'static [Wanted<'static>],
}

/// The reply has begun, and nothing of its body came.
const CUT: &[Wanted<'static>] = &[
    Wanted::Said(1, &[Part::Text(CHUNKED_PASSED)]),
    Wanted::Cut(1, Cause::Origin),
    Wanted::Course(2, LEFT),
    Wanted::Count(Step::Dialled(80), 1),
];

const REFUSED: &[Wanted<'static>] = &[
    Wanted::Said(1, &[Part::Text(PAGE_502)]),
    Wanted::Course(2, LEFT),
    Wanted::Count(Step::Dialled(80), 1),
];

const PASSED: &[Wanted<'static>] = &[
    Wanted::Said(1, &[Part::Text(CHUNKED_PASSED), Part::Coded(b"a")]),
    Wanted::Count(Step::Dialled(80), 1),
];

const CHUNKS: &[Chunk] = &[
    Chunk {
        name: "17 digits",
        text: Filled {
            front: b"00000000000000001",
            count: 0,
            end: b"\r\na\r\n0\r\n\r\n",
        },
        behind: CUT,
        within: REFUSED,
    },
    Chunk {
        name: "an extension of 4,097 bytes",
        text: Filled {
            front: b"1;",
            count: 4_097,
            end: b"\r\na\r\n0\r\n\r\n",
        },
        behind: CUT,
        within: REFUSED,
    },
    Chunk {
        name: "16 digits, and an extension of 4,096 bytes",
        text: Filled {
            front: b"0000000000000001;",
            count: 4_096,
            end: b"\r\na\r\n0\r\n\r\n",
        },
        behind: PASSED,
        within: PASSED,
    },
];

/// Where one of these goes otherwise: nothing is said where none does.
fn unlike_chunks(alloc: Global, chunks: &[Chunk]) -> Result<String, OutOfMemory> {
    for chunk in chunks {
        let said = unlike_chunk(alloc, chunk)?;
        if !said.is_empty() {
            return Ok(said);
        }
    }
    Ok(String::new(alloc))
}

fn unlike_chunk(alloc: Global, chunk: &Chunk) -> Result<String, OutOfMemory> {
    let text = text_of(alloc, &chunk.text)?;
    let whole = joined(alloc, &[CHUNKED, text.as_slice()])?;
    let said = unlike_behind(alloc, chunk.name, text.as_slice(), chunk.behind)?;
    if !said.is_empty() {
        return Ok(said);
    }
    unlike_within(alloc, chunk.name, whole.as_slice(), chunk.within)
}

/// The chunk comes in a turn behind the head.
fn unlike_behind(
    alloc: Global,
    name: &'static str,
    text: &[u8],
    wanted: &'static [Wanted<'static>],
) -> Result<String, OutOfMemory> {
    let acts = [
        Act::Connect,
        Act::Say(1, GET),
        Act::Reach(2),
        Act::Answer(2, CHUNKED),
        Act::Answer(2, text),
    ];
    let exchange = [Exchange {
        name,
        acts: &acts,
        wanted,
    }];
    unlike_at(alloc, Pace::Whole, &exchange)
}

/// It comes in that of the head.
fn unlike_within(
    alloc: Global,
    name: &'static str,
    whole: &[u8],
    wanted: &'static [Wanted<'static>],
) -> Result<String, OutOfMemory> {
    let acts = [
        Act::Connect,
        Act::Say(1, GET),
        Act::Reach(2),
        Act::Answer(2, whole),
    ];
    let exchange = [Exchange {
        name,
        acts: &acts,
        wanted,
    }];
    unlike_at(alloc, Pace::Whole, &exchange)
}

#[test]
fn a_line_of_a_chunk_has_at_most_16_digits_and_4096_bytes(rt: HostRuntime) -> Result<(), Fail> {
    says_nothing(&rt, unlike_chunks(rt.alloc(), CHUNKS))
}

const RESPONSES: &[Exchange<'static>] = &[
    Exchange {
        name: "a list of lengths",
        acts: &[
            Act::Connect,
            Act::Say(1, GET),
            Act::Reach(2),
            Act::Answer(2, b"HTTP/1.1 200 OK\r\nContent-Length: 1, 2\r\n\r\nab"),
        ],
        wanted: REFUSED,
    },
    Exchange {
        name: "what comes when nothing is asked: what is held stays",
        acts: &[
            Act::Tick(T),
            Act::Connect,
            Act::Say(1, GET),
            Act::Reach(2),
            Act::Answer(2, RESPONSE),
            Act::Answer(
                2,
                b"HTTP/1.1 200 OK\r\nETag: \"z\"\r\nCache-Control: max-age=60\r\nContent-Length: 5\r\n\r\nwrong",
            ),
            Act::Say(1, GET),
        ],
        wanted: &[
            Wanted::Said(1, &[Part::Text(REPLY), Part::Text(REPLY_HELD)]),
            Wanted::Course(2, LEFT),
            Wanted::Count(Step::Dialled(80), 1),
        ],
    },
];

#[test]
fn a_response_that_is_none_changes_nothing(rt: HostRuntime) -> Result<(), Fail> {
    says_nothing(&rt, unlike(rt.alloc(), RESPONSES))
}

/// Two tags, so that neither names what came (RFC 2616, section 14.19).
const TWO_TAGS: &[u8] =
    b"HTTP/1.1 200 OK\r\nETag: \"x\"\r\nETag: \"z\"\r\nCache-Control: max-age=60\r\nContent-Length: 5\r\n\r\nhello";

const TWO_TAGS_PASSED: Part<'static> = Part::Text(
    b"HTTP/1.1 200 OK\r\netag: \"x\"\r\netag: \"z\"\r\ncache-control: max-age=60\r\nvia: 1.1 polipo\r\ncontent-length: 5\r\nconnection: keep-alive\r\n\r\nhello",
);

const TAGS: &[Exchange<'static>] = &[Exchange {
    name: "a page with two tags",
    acts: &[
        Act::Tick(T),
        Act::Connect,
        Act::Say(1, GET),
        Act::Reach(2),
        Act::Answer(2, TWO_TAGS),
        Act::Say(1, GET),
        Act::Answer(2, TWO_TAGS),
    ],
    wanted: &[
        Wanted::Said(1, &[TWO_TAGS_PASSED, TWO_TAGS_PASSED]),
        Wanted::Count(Step::Taken(0, Decision::Relay), 1),
        Wanted::Count(Step::Taken(1, Decision::Fetch), 1),
        Wanted::Count(Step::Taken(1, Decision::Relay), 1),
    ],
}];

#[test]
fn a_page_with_two_tags_is_passed_and_not_kept(rt: HostRuntime) -> Result<(), Fail> {
    says_nothing(&rt, unlike(rt.alloc(), TAGS))
}
