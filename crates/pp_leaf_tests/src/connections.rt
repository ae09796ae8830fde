// Which connection to an origin an ask goes to, and whether it goes on.
use crate::pipes::{ask, tells};
use crate::saying::{says_nothing, told};
use pp_head::{HeadState, KeptHead, Scratch, read_response};
use pp_peers::{Limits, PEERS, Peers, Placed};
use pp_pipe::{binds_connection, stays_open};
use pp_text::OutOfMemory;
use std::alloc::Global;
use std::test::Fail;

/// A head, and what it means for its connection.
enum Head<'a> {
    /// Whether the connection goes on behind this response.
    Stays(&'a [u8], bool),
    /// Whether this request authenticates it.
    Binds(&'a [u8], bool),
}

fn is_meant(row: &Head<'_>) -> bool {
    match row {
        Head::Stays(head, wanted) => stays(head) == Some(*wanted),
        Head::Binds(head, wanted) => binds(head) == Some(*wanted),
    }
}

fn stays(bytes: &[u8]) -> Option<bool> {
    let mut scratch = Scratch::new();
    match read_response(bytes, &mut scratch) {
        HeadState::Whole(head) => Some(stays_open(&head)),
        HeadState::TooLong | HeadState::Bad | HeadState::More => None,
    }
}

fn binds(bytes: &[u8]) -> Option<bool> {
    let mut kept = KeptHead::new();
    kept.read(bytes);
    match kept.show(bytes) {
        HeadState::Whole(head) => Some(binds_connection(&head.fields)),
        HeadState::TooLong | HeadState::Bad | HeadState::More => None,
    }
}

fn unlike_heads(alloc: Global, rows: &[Head<'_>]) -> Result<String, OutOfMemory> {
    told(alloc, "heads", rows.iter().position(|row| !is_meant(row)))
}

const LIMITS: Limits = Limits {
    host_connections: 2,
    pipelines_asks: true,
};

/// What is done with the connections to the host `h`, and what they are then.
enum Act<'a> {
    /// One more, where so many asks are made.
    Add(u64, usize),
    Ask(u64, usize),
    Tells(u64, &'a [u8], &'a [u8]),
    Gone(u64),
    /// Where the next ask goes, shared and alone.
    Places(Placed, Placed),
    Has(u64, bool),
    Len(usize),
}

fn is_met(peers: &mut Peers, act: &Act<'_>) -> bool {
    match act {
        Act::Add(number, asks) => add(peers, *number) && ask_on(peers, *number, *asks),
        Act::Ask(number, asks) => ask_on(peers, *number, *asks),
        Act::Tells(number, bytes, wanted) => tells_on(peers, *number, bytes, wanted),
        Act::Gone(number) => gone(peers, *number),
        Act::Places(shared, alone) => is_placed(peers, false, *shared)
            && is_placed(peers, true, *alone),
        Act::Has(number, wanted) => peers.has(*number) == *wanted,
        Act::Len(len) => peers.len() == *len,
    }
}

/// Whether there is room, and the number is new.
fn add(peers: &mut Peers, number: u64) -> bool {
    if peers.len() >= PEERS {
        return false;
    }
    if peers.has(number) {
        return false;
    }
    peers.add(number, b"h", 80, 0);
    true
}

fn ask_on(peers: &mut Peers, number: u64, asks: usize) -> bool {
    match peers.pipe(number) {
        Some(pipe) => ask(pipe, asks),
        None => false,
    }
}

fn tells_on(peers: &mut Peers, number: u64, bytes: &[u8], wanted: &[u8]) -> bool {
    match peers.pipe(number) {
        Some(pipe) => tells(pipe, bytes, wanted),
        None => false,
    }
}

fn gone(peers: &mut Peers, number: u64) -> bool {
    peers.gone(number);
    true
}

fn is_placed(peers: &Peers, is_alone: bool, wanted: Placed) -> bool {
    peers.place(LIMITS, b"h", 80, is_alone) == wanted
}

fn unlike(alloc: Global, acts: &[Act<'_>]) -> Result<String, OutOfMemory> {
    let mut peers = Peers::new(alloc)?;
    for (place, act) in acts.iter().enumerate() {
        if !is_met(&mut peers, act) {
            return Ok(told(alloc, "connections", Some(place))?);
        }
    }
    Ok(String::new(alloc))
}

/// What may be mixed up closes its connection.
const HEADS: &[Head<'static>] = &[
    Head::Stays(b"HTTP/1.1 204 No Content\r\n\r\n", true),
    Head::Stays(
        b"HTTP/1.1 204 No Content\r\nContent-Length: 84\r\n\r\n",
        false,
    ),
    Head::Stays(
        b"HTTP/1.1 200 OK\r\nTransfer-Encoding: chunked\r\nContent-Length: 5\r\n\r\n",
        false,
    ),
    Head::Binds(
        b"GET http://h/ HTTP/1.1\r\nAuthorization: NTLM TlRM\r\n\r\n",
        true,
    ),
    Head::Binds(
        b"GET http://h/ HTTP/1.1\r\nAuthorization: Basic QQ==\r\n\r\n",
        false,
    ),
];

/// An ask goes to an idle connection, a new one, or behind others.
const PLACED: &[Act<'static>] = &[
    Act::Places(Placed::Dial, Placed::Dial),
    Act::Add(7, 2),
    Act::Add(5, 0),
    Act::Places(Placed::On(5), Placed::CloseThenDial(5)),
    Act::Ask(5, 1),
    Act::Places(Placed::Wait, Placed::Wait),
    Act::Tells(7, b"HTTP/1.1 204 No Content\r\n\r\n", b"<204 >"),
    Act::Places(Placed::On(7), Placed::Wait),
    Act::Gone(5),
    Act::Has(5, false),
    Act::Len(1),
    Act::Places(Placed::Dial, Placed::Dial),
];

#[test]
fn an_ask_goes_where_its_response_can_be_told(rt: HostRuntime) -> Result<(), Fail> {
    says_nothing(&rt, unlike_heads(rt.alloc(), HEADS))?;
    says_nothing(&rt, unlike(rt.alloc(), PLACED))
}
