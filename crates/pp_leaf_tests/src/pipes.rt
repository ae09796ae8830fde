// A connection to an origin: what is asked, and what comes.
use crate::saying::{says_nothing, told};
use arrayvec::ArrayVec;
use pp_framing::Ending;
use pp_head::Scratch;
use pp_pipe::{Full, MAX_ASKS, OUT_ROOM, Pipe, Step};
use pp_text::OutOfMemory;
use std::alloc::Global;
use std::test::Fail;

/// What was told: `<200 ` at a head of that status, the data of the body, `>` at an end, and `!` where no response came.
type Told = ArrayVec<u8, 256>;

fn put(told: &mut Told, text: &[u8]) {
    let _ = told.try_extend_from_slice(text);
}

fn put_head(told: &mut Told, pipe: &Pipe) {
    let digits = digits(status(pipe));
    put(told, b"<");
    put(told, &digits);
    put(told, b" ");
}

fn status(pipe: &Pipe) -> u16 {
    let mut scratch = Scratch::new();
    match pipe.head(&mut scratch) {
        Some(head) => head.status,
        None => 0,
    }
}

fn digits(status: u16) -> [u8; 3] {
    [
        b'0' + (status / 100 % 10) as u8,
        b'0' + (status / 10 % 10) as u8,
        b'0' + (status % 10) as u8,
    ]
}

/// Feeds bytes up to `Idle` or `Bad`, and notes what they tell.
pub fn hear(pipe: &mut Pipe, bytes: &[u8], told: &mut Told) {
    let mut rest = bytes;
    for _step in 0..64 {
        let (used, step) = pipe.feed(rest);
        match step {
            Step::Head => put_head(told, pipe),
            Step::Body(from, to) => put(told, &rest[from..to]),
            Step::End => put(told, b">"),
            Step::Bad => {
                put(told, b"!");
                return;
            }
            Step::Idle => return,
        }
        rest = &rest[used..];
    }
}

/// Whether these bytes tell this.
pub fn tells(pipe: &mut Pipe, bytes: &[u8], wanted: &[u8]) -> bool {
    let mut told = Told::new();
    hear(pipe, bytes, &mut told);
    told.as_slice() == wanted
}

/// The same in two pieces, the first of so many bytes.
fn tells_in_two(pipe: &mut Pipe, cut: usize, bytes: &[u8], wanted: &[u8]) -> bool {
    let (first, second) = bytes.split_at(cut.min(bytes.len()));
    let mut told = Told::new();
    hear(pipe, first, &mut told);
    hear(pipe, second, &mut told);
    told.as_slice() == wanted
}

/// Pushes an ask, where there is room.
fn push(pipe: &mut Pipe, text: &[u8], is_head: bool) -> Result<(), Full> {
    if text.len() > pipe.room() {
        return Err(Full);
    }
    pipe.push(text, is_head)
}

/// Writes so many bytes, as far as there are.
fn write(pipe: &mut Pipe, n: usize) -> bool {
    pipe.took(n.min(pipe.out().len()));
    true
}

/// Asks so many times, the second time by HEAD, and writes it all. Whether there is room.
pub fn ask(pipe: &mut Pipe, count: usize) -> bool {
    for i in 0..count {
        if push(pipe, b"GET / HTTP/1.1\r\nHost: h\r\n\r\n", i == 1).is_err() {
            return false;
        }
    }
    write(pipe, OUT_ROOM)
}

/// Whether the ask of this place is withdrawn. None: there is none.
fn withdraw(pipe: &mut Pipe, place: usize) -> Option<bool> {
    if place < pipe.asks() {
        Some(pipe.withdraw(place))
    } else {
        None
    }
}

fn restart(pipe: &mut Pipe, id: u64) -> bool {
    pipe.restart(id);
    true
}

/// What is done with a connection, and what it is then.
enum Act<'a> {
    Restart(u64),
    /// So many times, the second time by HEAD.
    Ask(usize),
    Push(&'a [u8], Result<(), Full>),
    Write(usize),
    Withdraw(usize, Option<bool>),
    /// These bytes tell this, in two pieces, the first of as many bytes as is tried.
    Tells(&'a [u8], &'a [u8]),
    Feed(&'a [u8], (usize, Step)),
    Ended(Ending),
    Id(u64),
    Room(usize),
    OutLen(usize),
    Out(&'a [u8]),
    Asks(usize),
    Outstanding(usize),
    MayPipeline(bool),
}

fn is_met(pipe: &mut Pipe, cut: usize, act: &Act<'_>) -> bool {
    match act {
        Act::Restart(id) => restart(pipe, *id),
        Act::Ask(count) => ask(pipe, *count),
        Act::Push(text, wanted) => push(pipe, text, false) == *wanted,
        Act::Write(n) => write(pipe, *n),
        Act::Withdraw(place, wanted) => withdraw(pipe, *place) == *wanted,
        Act::Tells(bytes, wanted) => tells_in_two(pipe, cut, bytes, wanted),
        Act::Feed(bytes, wanted) => pipe.feed(bytes) == *wanted,
        Act::Ended(wanted) => pipe.ended(true) == *wanted,
        Act::Id(id) => pipe.id() == *id,
        Act::Room(room) => pipe.room() == *room,
        Act::OutLen(len) => pipe.out().len() == *len,
        Act::Out(wanted) => pipe.out() == *wanted,
        Act::Asks(count) => pipe.asks() == *count,
        Act::Outstanding(count) => pipe.outstanding() == *count,
        Act::MayPipeline(wanted) => pipe.may_pipeline() == *wanted,
    }
}

fn first_unlike(pipe: &mut Pipe, cut: usize, acts: &[Act<'_>]) -> Option<usize> {
    acts.iter().position(|act| !is_met(pipe, cut, act))
}

/// The acts are played for each number of bytes that a first piece may have.
fn unlike(alloc: Global, name: &str, most: usize, acts: &[Act<'_>]) -> Result<String, OutOfMemory> {
    let mut pipe = Pipe::new(alloc, 7)?;
    for cut in 0..=most {
        let place = first_unlike(&mut pipe, cut, acts);
        if place.is_some() {
            return Ok(told(alloc, name, place)?);
        }
    }
    Ok(String::new(alloc))
}

/// The responses to eight asks, the last of which the end of the connection ends.
const EIGHT: &[u8] = b"HTTP/1.1 200 OK\r\nContent-Length: 5\r\n\r\nhello\
HTTP/1.1 200 OK\r\nContent-Length: 5\r\n\r\n\
HTTP/1.1 100 Continue\r\n\r\nHTTP/1.1 103 Early Hints\r\nA: b\r\n\r\nHTTP/1.1 204 No Content\r\n\r\n\
HTTP/1.1 304 Not Modified\r\nContent-Length: 0\r\n\r\n\
HTTP/1.1 200 OK\r\nTransfer-Encoding: chunked\r\n\r\n5\r\nhello\r\n6\r\n world\r\n0\r\nExpires: 0\r\n\r\n\
HTTP/1.0 200 OK\r\nConnection: keep-alive\r\nContent-Length: 0\r\n\r\n\
HTTP/1.1 404 Not Found\r\nContent-Length: 3\r\n\r\nnot\
HTTP/1.1 200 OK\r\nConnection: close\r\n\r\nthe rest";

const TOLD: &[u8] = b"<200 hello><200 ><204 ><304 ><200 hello world><200 ><404 not><200 the rest";

const RESPONSES: &[Act<'static>] = &[
    Act::Restart(1),
    Act::Ask(MAX_ASKS),
    Act::Tells(EIGHT, TOLD),
    Act::Asks(1),
    Act::Ended(Ending::Whole),
    Act::Asks(0),
    Act::MayPipeline(true),
];

const WITHDRAWN: &[Act<'static>] = &[
    Act::Push(b"POST", Ok(())),
    Act::Push(b"two", Ok(())),
    Act::Push(b"two", Ok(())),
    Act::Push(b"two", Ok(())),
    Act::Push(b"two", Ok(())),
    Act::Push(b"two", Ok(())),
    Act::Push(b"two", Ok(())),
    Act::Push(b"two", Ok(())),
    Act::Push(b"six", Err(Full)),
    Act::Id(7),
    Act::OutLen(25),
    Act::Room(131_047),
    Act::Write(2),
    Act::Asks(8),
    Act::Outstanding(0),
    Act::Withdraw(0, Some(false)),
    Act::Withdraw(1, Some(true)),
    Act::Withdraw(7, None),
    Act::Asks(7),
    Act::Out(b"STtwotwotwotwotwotwo"),
    Act::Write(2),
    Act::Outstanding(1),
    Act::Feed(b"HTTP", (4, Step::Idle)),
    Act::Ended(Ending::Short),
];

#[test]
fn asks_are_answered_in_their_order_or_withdrawn(rt: HostRuntime) -> Result<(), Fail> {
    says_nothing(
        &rt,
        unlike(
            rt.alloc(),
            "eight responses however they are cut",
            EIGHT.len(),
            RESPONSES,
        ),
    )?;
    says_nothing(
        &rt,
        unlike(
            rt.alloc(),
            "an ask of which no byte was taken",
            0,
            WITHDRAWN,
        ),
    )
}
