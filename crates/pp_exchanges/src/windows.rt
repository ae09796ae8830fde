// Windows of many sizes, and of one byte a second.
use crate::saying::says_nothing;
use pp_play::{
    ASK, ASK_B, Act, Exchange, GET, GET_B, Part, RESPONSE_B, Sizes, T, Wanted, unlike,
    unlike_through_windows,
};
use pp_text::OutOfMemory;
use std::alloc::{AllocError, Global};
use std::test::Fail;

/// A page of which more is there than one write says, for a client whose connection takes nothing yet, up to the body of its
/// response.
const LARGE: &[Act<'static>] = &[
    Act::Tick(T),
    Act::Connect,
    Act::Window(1, 0),
    Act::Say(1, GET),
    Act::Reach(2),
    Act::Answer(
        2,
        b"HTTP/1.1 200 OK\r\nDate: Sun, 06 Nov 1994 08:49:37 GMT\r\nETag: \"x\"\r\nContent-Length: 70000\r\n\r\n",
    ),
];

const LARGE_HEAD: &[u8] =
    b"HTTP/1.1 200 OK\r\netag: \"x\"\r\ndate: Sun, 06 Nov 1994 08:49:37 GMT\r\nvia: 1.1 polipo\r\ncontent-length: 70000\r\nconnection: keep-alive\r\n\r\n";

/// So many bytes, each of which tells where it stands.
fn counted(alloc: Global, count: u32) -> Result<Vec<u8>, OutOfMemory> {
    let mut bytes = Vec::new(alloc);
    for at in 0..count {
        bytes.push((at % 251) as u8).map_err(AllocError::from)?;
    }
    Ok(bytes)
}

/// These acts, and then the body of the response.
fn answered<'a>(
    alloc: Global,
    acts: &[Act<'a>],
    body: &'a [u8],
) -> Result<Vec<Act<'a>>, OutOfMemory> {
    let mut all = Vec::from_slice(alloc, acts)?;
    all.extend_from_slice(&[Act::Answer(2, body)])?;
    Ok(all)
}

/// From one byte to the whole body.
const SIZES: Sizes = Sizes {
    first: 1,
    apart: 4_095,
    count: 18,
};

#[test]
fn windows_of_any_size_let_in_the_same_bytes(rt: HostRuntime) -> Result<(), Fail> {
    let body = counted(rt.alloc(), 70_000)?;
    let acts = answered(rt.alloc(), LARGE, body.as_slice())?;
    let reply = [Part::Text(LARGE_HEAD), Part::Text(body.as_slice())];
    says_nothing(
        &rt,
        unlike_through_windows(rt.alloc(), SIZES, acts.as_slice(), &reply),
    )
}

/// The head of a page of three chunks, which may be kept for a minute.
const THREE_CHUNKS: &[u8] =
    b"HTTP/1.1 200 OK\r\nDate: Sun, 06 Nov 1994 08:49:37 GMT\r\nETag: \"x\"\r\nCache-Control: max-age=60\r\nContent-Length: 9000\r\n\r\n";

/// The head of a reply with it a second later, from what is held.
const THREE_CHUNKS_REPLY: &[u8] =
    b"HTTP/1.1 200 OK\r\netag: \"x\"\r\ndate: Sun, 06 Nov 1994 08:49:37 GMT\r\ncache-control: max-age=60\r\nage: 1\r\nvia: 1.1 polipo\r\ncontent-length: 9000\r\nconnection: keep-alive\r\n\r\n";

/// The reply to a client for whom the other page is fetched another second later.
const LATER_REPLY_B: &[u8] =
    b"HTTP/1.1 200 OK\r\netag: \"y\"\r\ndate: Sun, 06 Nov 1994 08:49:39 GMT\r\nvia: 1.1 polipo\r\ncontent-length: 3\r\nconnection: keep-alive\r\n\r\nbye";

const BYTE_A_SECOND: &[Exchange<'static>] = &[Exchange {
    name: "a reader whose window lets in one byte a second holds nobody: of its page, of its connection to the origin",
    acts: &[
        Act::Tick(T),
        Act::Connect,
        Act::Window(1, 0),
        Act::Say(1, GET),
        Act::Reach(2),
        Act::Answer(2, THREE_CHUNKS),
        Act::Fill(2, b'a', 9_000),
        Act::Tick(T + 1),
        Act::Window(1, 1),
        Act::Connect,
        Act::Say(3, GET),
        Act::Tick(T + 2),
        Act::Window(1, 1),
        Act::Connect,
        Act::Say(4, GET_B),
        Act::Answer(2, RESPONSE_B),
        Act::Tick(T + 3),
        Act::Window(1, 1),
    ],
    wanted: &[
        Wanted::Said(1, &[Part::Text(b"HTT")]),
        Wanted::Said(
            3,
            &[Part::Text(THREE_CHUNKS_REPLY), Part::Fill(b'a', 9_000)],
        ),
        Wanted::Said(4, &[Part::Text(LATER_REPLY_B)]),
        Wanted::Asked(2, &[ASK, ASK_B]),
    ],
}];

#[test]
fn a_reader_that_takes_a_byte_a_second_holds_nobody(rt: HostRuntime) -> Result<(), Fail> {
    says_nothing(&rt, unlike(rt.alloc(), BYTE_A_SECOND))
}
