// Whole logs, happening by happening, of followers' asks that lose their place: how often they are tried, and who counts on them.
use crate::lines::{Line, Told, unlike};
use crate::saying::says_nothing;
use pp_play::{ASK, Act, GET, Op, Pace, Step, T};
use pp_world::{Cause, Decision};
use std::test::Fail;

/// A host has two connections, asks go behind one another on them, and each client asks for itself.
const WORDS: &[&str] = &["hostConnections=2", "pipelineAsks=1", "shareFetches=0"];

// ---- what comes before all of them

/// Client 1 asks for the page, of 4,097 bytes. The last byte comes before that, and then the first, as client 3 asks for them.
const ENDS_COME: &[Act<'static>] = &[
    Act::Tick(T),
    Act::Connect,
    Act::Say(1, GET),
    Act::Reach(2),
    Act::Connect,
    Act::Say(3, GET_LAST),
    Act::Reach(4),
    Act::Answer(4, HEAD_LAST),
    Act::Answer(4, b"z"),
    Act::Say(3, GET_FIRST),
    Act::Answer(4, HEAD_FIRST),
    Act::Answer(4, b"a"),
];

const GET_LAST: &[u8] = b"GET http://h/a HTTP/1.1\r\nHost: h\r\nRange: bytes=4096-4096\r\n\r\n";

const HEAD_LAST: &[u8] =
    b"HTTP/1.1 206 Partial Content\r\nDate: Sun, 06 Nov 1994 08:49:37 GMT\r\nETag: \"x\"\r\nCache-Control: max-age=60\r\nContent-Range: bytes 4096-4096/4097\r\nContent-Length: 1\r\n\r\n";

const GET_FIRST: &[u8] = b"GET http://h/a HTTP/1.1\r\nHost: h\r\nRange: bytes=0-0\r\n\r\n";

const HEAD_FIRST: &[u8] =
    b"HTTP/1.1 206 Partial Content\r\nDate: Sun, 06 Nov 1994 08:49:37 GMT\r\nETag: \"x\"\r\nCache-Control: max-age=60\r\nContent-Range: bytes 0-0/4097\r\nContent-Length: 1\r\n\r\n";

const ENDS_LINES: &[Line<'static>] = &[
    Line::Woke(false),
    Line::Uses(b"polipo-cache"),
    Line::Listed,
    Line::Listens(8123),
    Line::Waits(&[], &[]),
    Line::Clock(T),
    Line::Waits(&[], &[]),
    Line::Of(1, Step::Opened),
    Line::Waits(&[1], &[]),
    Line::CanRead(1),
    Line::Heard(1, GET),
    Line::Of(1, Step::Taken(0, Decision::Fetch)),
    Line::Dialled(2, b"h", 80),
    Line::Waits(&[1], &[]),
    Line::Of(2, Step::Reached),
    Line::Waits(&[1, 2], &[2]),
    Line::CanWrite(2),
    Line::Asked(2, ASK),
    Line::Waits(&[1, 2], &[]),
    Line::Of(3, Step::Opened),
    Line::Waits(&[1, 3, 2], &[]),
    Line::CanRead(3),
    Line::Heard(3, GET_LAST),
    Line::Of(3, Step::Taken(0, Decision::Fetch)),
    Line::Dialled(4, b"h", 80),
    Line::Waits(&[1, 3, 2], &[]),
    Line::Of(4, Step::Reached),
    Line::Waits(&[1, 3, 2, 4], &[4]),
    Line::CanWrite(4),
    Line::Asked(
        4,
        b"GET /a HTTP/1.1\r\nhost: h\r\nrange: bytes=4096-4096\r\nvia: 1.1 polipo\r\n\r\n",
    ),
    Line::Waits(&[1, 3, 2, 4], &[]),
    Line::CanRead(4),
    Line::Got(4, HEAD_LAST),
    Line::Of(3, Step::Taken(0, Decision::Part(4_096, 4_097))),
    Line::Waits(&[1, 3, 2, 4], &[]),
    Line::CanRead(4),
    Line::Got(4, b"z"),
    Line::Waits(&[1, 3, 2, 4], &[3]),
    Line::CanWrite(3),
    Line::Said(
        3,
        205,
        b"HTTP/1.1 206 Partial Content\r\netag: \"x\"\r\ndate: Sun, 06 Nov 1994 08:49:37 GMT\r\ncache-control: max-age=60\r\nvia: 1.1 polipo\r\ncontent-range: bytes 4096-4096/4097\r\ncontent-length: 1\r\nconnection: keep-alive\r\n\r\nz",
    ),
    Line::Waits(&[1, 3, 2, 4], &[]),
    Line::CanRead(3),
    Line::Heard(3, GET_FIRST),
    Line::Of(3, Step::Taken(1, Decision::Part(0, 1))),
    Line::Waits(&[1, 3, 2, 4], &[4]),
    Line::CanWrite(4),
    Line::Asked(
        4,
        b"GET /a HTTP/1.1\r\nhost: h\r\nrange: bytes=0-0\r\nif-range: \"x\"\r\nvia: 1.1 polipo\r\n\r\n",
    ),
    Line::Waits(&[1, 3, 2, 4], &[]),
    Line::CanRead(4),
    Line::Got(4, HEAD_FIRST),
    Line::Waits(&[1, 3, 2, 4], &[]),
    Line::CanRead(4),
    Line::Got(4, b"a"),
    Line::Waits(&[1, 3, 2, 4], &[3]),
    Line::CanWrite(3),
    Line::Said(
        3,
        199,
        b"HTTP/1.1 206 Partial Content\r\netag: \"x\"\r\ndate: Sun, 06 Nov 1994 08:49:37 GMT\r\ncache-control: max-age=60\r\nvia: 1.1 polipo\r\ncontent-range: bytes 0-0/4097\r\ncontent-length: 1\r\nconnection: keep-alive\r\n\r\na",
    ),
    Line::Waits(&[1, 3, 2, 4], &[]),
];

/// What is asked for client 5, which is sent all of the page, from its second byte on up to the last one.
const ASK_HOLE: &[u8] =
    b"GET /a HTTP/1.1\r\nhost: h\r\nrange: bytes=1-4095\r\nif-range: \"x\"\r\nvia: 1.1 polipo\r\n\r\n";

/// The head of what client 1 asked for, and what it is sent of it at first.
const HEAD_ALL: &[u8] =
    b"HTTP/1.1 200 OK\r\nDate: Sun, 06 Nov 1994 08:49:37 GMT\r\nETag: \"x\"\r\nCache-Control: max-age=60\r\nContent-Length: 4097\r\n\r\n";

const REPLY_FRONT: &[u8] =
    b"HTTP/1.1 200 OK\r\netag: \"x\"\r\ndate: Sun, 06 Nov 1994 08:49:37 GMT\r\ncache-control: max-age=60\r\nvia: 1.1 polipo\r\ncontent-length: 4097\r\nconnection: keep-alive\r\n\r\na";

/// The same for client 5.
const FRONT_HELD: &[u8] =
    b"HTTP/1.1 200 OK\r\netag: \"x\"\r\ndate: Sun, 06 Nov 1994 08:49:37 GMT\r\ncache-control: max-age=60\r\nage: 0\r\nvia: 1.1 polipo\r\ncontent-length: 4097\r\nconnection: keep-alive\r\n\r\na";

// ---- attempts count anew before each event

/// Client 5 takes the first byte, and the next is asked for it on connection 4. That comes for client 1, and client 5 does not take it.
/// Then connection 4 ends, and its ask has no place.
const PLACE_IS_LOST: &[Act<'static>] = &[
    Act::Connect,
    Act::Window(5, 166),
    Act::Say(5, GET),
    Act::Answer(2, HEAD_ALL),
    Act::Answer(2, b"a"),
    Act::Answer(2, b"b"),
    Act::End(4),
];

/// Two dials fail.
const LOST_LINES: &[Line<'static>] = &[
    Line::Of(5, Step::Opened),
    Line::Waits(&[1, 3, 5, 2, 4], &[]),
    Line::CanRead(5),
    Line::Heard(5, GET),
    Line::Of(5, Step::Taken(0, Decision::Part(0, 4_097))),
    Line::Waits(&[1, 3, 5, 2, 4], &[5]),
    Line::CanWrite(5),
    Line::Said(5, 166, FRONT_HELD),
    Line::Waits(&[1, 3, 5, 2, 4], &[4]),
    Line::CanWrite(4),
    Line::Asked(4, ASK_HOLE),
    Line::Waits(&[1, 3, 5, 2, 4], &[]),
    Line::CanRead(2),
    Line::Got(2, HEAD_ALL),
    Line::Of(1, Step::Taken(0, Decision::Part(0, 4_097))),
    Line::Waits(&[1, 3, 5, 2, 4], &[1]),
    Line::CanWrite(1),
    Line::Said(1, 158, REPLY_FRONT),
    Line::Waits(&[1, 3, 5, 2, 4], &[]),
    Line::CanRead(2),
    Line::Got(2, b"a"),
    Line::Waits(&[1, 3, 5, 2, 4], &[]),
    Line::CanRead(2),
    Line::Got(2, b"b"),
    Line::Waits(&[1, 3, 5, 2, 4], &[1, 5]),
    Line::CanWrite(1),
    Line::Said(1, 1, b"b"),
    Line::Waits(&[1, 3, 5, 2, 4], &[5]),
    Line::CanRead(4),
    Line::Of(4, Step::Ended),
    Line::Of(4, Step::Dropped),
    Line::Undialled(b"h", 80),
    Line::Undialled(b"h", 80),
];

/// The third connection is refused: since the next byte of client 5 is held, that is its first attempt, and it is asked for again.
const THIRD_IS_REFUSED: &[Act<'static>] = &[Act::Refuse(6), Act::Reach(7)];

const ASKED_AGAIN: &[Line<'static>] = &[
    Line::Dialled(6, b"h", 80),
    Line::Waits(&[1, 3, 5, 2], &[5]),
    Line::Of(6, Step::Broke),
    Line::Of(6, Step::Dropped),
    Line::Dialled(7, b"h", 80),
    Line::Waits(&[1, 3, 5, 2], &[5]),
    Line::Of(7, Step::Reached),
    Line::Waits(&[1, 3, 5, 2, 7], &[5, 7]),
    Line::CanWrite(7),
    Line::Asked(7, ASK_HOLE),
    Line::Waits(&[1, 3, 5, 2, 7], &[5]),
    Line::Stopped,
    Line::Of(1, Step::Cut(Cause::Stop)),
    Line::Of(5, Step::Cut(Cause::Stop)),
    Line::Of(1, Step::Shut),
    Line::Of(3, Step::Shut),
    Line::Of(5, Step::Shut),
    Line::Of(2, Step::Dropped),
    Line::Of(7, Step::Dropped),
];

/// Or the third dial fails too, and client 5 takes the byte that is held: it goes on with what comes for client 1.
const BYTE_IS_TAKEN: &[Act<'static>] = &[Act::Window(5, u64::MAX), Act::Answer(2, b"c")];

const GOES_ON: &[Line<'static>] = &[
    Line::Undialled(b"h", 80),
    Line::Waits(&[1, 3, 5, 2], &[5]),
    Line::CanWrite(5),
    Line::Said(5, 1, b"b"),
    Line::Waits(&[1, 3, 5, 2], &[]),
    Line::CanRead(2),
    Line::Got(2, b"c"),
    Line::Waits(&[1, 3, 5, 2], &[1, 5]),
    Line::CanWrite(1),
    Line::Said(1, 1, b"c"),
    Line::Waits(&[1, 3, 5, 2], &[5]),
    Line::CanWrite(5),
    Line::Said(5, 1, b"c"),
    Line::Waits(&[1, 3, 5, 2], &[]),
    Line::Stopped,
    Line::Of(1, Step::Cut(Cause::Stop)),
    Line::Of(5, Step::Cut(Cause::Stop)),
    Line::Of(1, Step::Shut),
    Line::Of(3, Step::Shut),
    Line::Of(5, Step::Shut),
    Line::Of(2, Step::Dropped),
];

/// Calls: list, listen; read, dial, ask; read, dial, ask, read, read, reply; read, ask, read, read, reply; read, reply, ask; read, reply, read,
/// read, reply; read. Byte by byte 36 reads of each request for all, 60 and 54 of the others, and 163, 157 and 116 of the heads.
const REFUSED: &[Told] = &[Told {
    name: "the third connection is refused",
    words: WORDS,
    pace: Pace::Whole,
    acts: &[
        &[Act::Failing(&[26, 27])],
        ENDS_COME,
        PLACE_IS_LOST,
        THIRD_IS_REFUSED,
    ],
    lines: &[ENDS_LINES, LOST_LINES, ASKED_AGAIN],
}];

const REFUSED_BYTEWISE: &[Told] = &[Told {
    name: "the third connection is refused",
    words: WORDS,
    pace: Pace::Bytewise,
    acts: &[
        &[Act::Failing(&[641, 642])],
        ENDS_COME,
        PLACE_IS_LOST,
        THIRD_IS_REFUSED,
    ],
    lines: &[ENDS_LINES, LOST_LINES, ASKED_AGAIN],
}];

const TAKEN: &[Told] = &[Told {
    name: "three dials fail, and what is held is taken",
    words: WORDS,
    pace: Pace::Whole,
    acts: &[
        &[Act::Failing(&[26, 27, 28])],
        ENDS_COME,
        PLACE_IS_LOST,
        BYTE_IS_TAKEN,
    ],
    lines: &[ENDS_LINES, LOST_LINES, GOES_ON],
}];

const TAKEN_BYTEWISE: &[Told] = &[Told {
    name: "three dials fail, and what is held is taken",
    words: WORDS,
    pace: Pace::Bytewise,
    acts: &[
        &[Act::Failing(&[641, 642, 643])],
        ENDS_COME,
        PLACE_IS_LOST,
        BYTE_IS_TAKEN,
    ],
    lines: &[ENDS_LINES, LOST_LINES, GOES_ON],
}];

#[test]
fn the_log_of_attempts_that_count_anew_is_just_this(rt: HostRuntime) -> Result<(), Fail> {
    says_nothing(&rt, unlike(rt.alloc(), REFUSED))?;
    says_nothing(&rt, unlike(rt.alloc(), REFUSED_BYTEWISE))?;
    says_nothing(&rt, unlike(rt.alloc(), TAKEN))?;
    says_nothing(&rt, unlike(rt.alloc(), TAKEN_BYTEWISE))
}

// ---- an ask that its own client does not need any more

/// What client 3 asks for next comes on connection 4, and it takes no byte of it. Client 5 is sent the first byte, and the next are asked
/// for it behind that. All of the page comes for client 1, and client 5 takes all but the last byte.
const REST_COMES: &[Act<'static>] = &[
    Act::Window(3, 0),
    Act::Say(3, b"GET http://h/n HTTP/1.1\r\nHost: h\r\n\r\n"),
    Act::Answer(4, HEAD_N),
    Act::Connect,
    Act::Window(5, 4_261),
    Act::Say(5, GET),
    Act::Answer(2, HEAD_ALL),
    Act::FillWhole(2, b'a', 4_096),
    Act::Answer(2, b"z"),
];

const HEAD_N: &[u8] = b"HTTP/1.1 200 OK\r\nContent-Length: 2\r\n\r\n";

const REST_LINES: &[Line<'static>] = &[
    Line::CanRead(3),
    Line::Heard(3, b"GET http://h/n HTTP/1.1\r\nHost: h\r\n\r\n"),
    Line::Of(3, Step::Taken(2, Decision::Fetch)),
    Line::Waits(&[1, 3, 2, 4], &[4]),
    Line::CanWrite(4),
    Line::Asked(4, b"GET /n HTTP/1.1\r\nhost: h\r\nvia: 1.1 polipo\r\n\r\n"),
    Line::Waits(&[1, 3, 2, 4], &[]),
    Line::CanRead(4),
    Line::Got(4, HEAD_N),
    Line::Of(3, Step::Taken(2, Decision::Relay)),
    Line::Waits(&[1, 3, 2, 4], &[3]),
    Line::Of(5, Step::Opened),
    Line::Waits(&[1, 3, 5, 2, 4], &[3]),
    Line::CanRead(5),
    Line::Heard(5, GET),
    Line::Of(5, Step::Taken(0, Decision::Part(0, 4_097))),
    Line::Waits(&[1, 3, 5, 2, 4], &[3, 5]),
    Line::CanWrite(5),
    Line::Said(5, 166, FRONT_HELD),
    Line::Waits(&[1, 3, 5, 2, 4], &[3, 4]),
    Line::CanWrite(4),
    Line::Asked(4, ASK_HOLE),
    Line::Waits(&[1, 3, 5, 2, 4], &[3]),
    Line::CanRead(2),
    Line::Got(2, HEAD_ALL),
    Line::Of(1, Step::Taken(0, Decision::Part(0, 4_097))),
    Line::Waits(&[1, 3, 5, 2, 4], &[1, 3]),
    Line::CanWrite(1),
    Line::Said(1, 158, REPLY_FRONT),
    Line::Waits(&[1, 3, 5, 2, 4], &[3]),
    Line::CanRead(2),
    Line::Got(2, b""),
    Line::Fill(b'a', 4_096),
    Line::Began(Op::Draft(16_385)),
    Line::Did(Op::Draft(16_385)),
    Line::Began(Op::SyncDraft),
    Line::Did(Op::SyncDraft),
    Line::Began(Op::Publish),
    Line::Did(Op::Publish),
    Line::Kept(4_097, 4_097),
    Line::Waits(&[1, 3, 5, 2, 4], &[1, 3, 5]),
    Line::CanWrite(1),
    Line::Said(1, 4_096, b""),
    Line::Fill(b'a', 4_095),
    Line::Fill(b'z', 1),
    Line::Waits(&[1, 3, 5, 2, 4], &[3, 5]),
    Line::CanWrite(5),
    Line::Said(5, 4_096, b""),
    Line::Fill(b'a', 4_095),
    Line::Waits(&[1, 3, 5, 2, 4], &[3, 5]),
    Line::CanRead(2),
    Line::Got(2, b"z"),
    Line::Waits(&[1, 3, 5, 2, 4], &[3, 5]),
];

/// Client 1 has the page checked, and it comes anew: that is a new version, whatever its tag. With its first byte connection 2 ends, and
/// client 1 counts on what is asked for client 5.
const ANEW: &[Act<'static>] = &[
    Act::Say(1, GET_ANEW),
    Act::Answer(2, HEAD_ALL),
    Act::Answer(2, b"a"),
    Act::End(2),
];

const GET_ANEW: &[u8] = b"GET http://h/a HTTP/1.1\r\nHost: h\r\nCache-Control: no-cache\r\n\r\n";

const ANEW_LINES: &[Line<'static>] = &[
    Line::CanRead(1),
    Line::Heard(1, GET_ANEW),
    Line::Of(1, Step::Taken(1, Decision::Validate)),
    Line::Waits(&[1, 3, 5, 2, 4], &[3, 5, 2]),
    Line::CanWrite(2),
    Line::Asked(
        2,
        b"GET /a HTTP/1.1\r\nhost: h\r\ncache-control: no-cache\r\nif-none-match: \"x\"\r\nvia: 1.1 polipo\r\n\r\n",
    ),
    Line::Waits(&[1, 3, 5, 2, 4], &[3, 5]),
    Line::CanRead(2),
    Line::Got(2, HEAD_ALL),
    Line::Gone,
    Line::Began(Op::Remove),
    Line::Did(Op::Remove),
    Line::Of(1, Step::Taken(1, Decision::Part(0, 4_097))),
    Line::Waits(&[1, 3, 5, 2, 4], &[3, 5]),
    Line::CanRead(2),
    Line::Got(2, b"a"),
    Line::Waits(&[1, 3, 5, 2, 4], &[1, 3, 5]),
    Line::CanWrite(1),
    Line::Said(1, 158, REPLY_FRONT),
    Line::Waits(&[1, 3, 5, 2, 4], &[3, 5]),
    Line::CanRead(2),
    Line::Of(2, Step::Ended),
    Line::Of(2, Step::Dropped),
    Line::Waits(&[1, 3, 5, 4], &[3, 5]),
];

/// Client 3 is lost, so nobody sees what comes on connection 4. Client 5 needs nothing of what was asked for it there: that is given up,
/// and client 1 asks for itself, for all of its version.
const PASSED_IS_LOST: &[Act<'static>] = &[
    Act::HangUp(3),
    Act::Break(3),
    Act::Window(3, u64::MAX),
    Act::Reach(6),
];

const ASKS_FOR_ITSELF: &[Line<'static>] = &[
    Line::CanRead(3),
    Line::Of(3, Step::HungUp),
    Line::Waits(&[1, 5, 4], &[3, 5]),
    Line::CanWrite(3),
    Line::Of(3, Step::HungUp),
    Line::Of(3, Step::Shut),
    Line::Of(4, Step::Dropped),
    Line::Dialled(6, b"h", 80),
    Line::Waits(&[1, 5], &[5]),
    Line::Of(6, Step::Reached),
    Line::Waits(&[1, 5, 6], &[5, 6]),
    Line::CanWrite(6),
    Line::Asked(
        6,
        b"GET /a HTTP/1.1\r\nhost: h\r\ncache-control: no-cache\r\nrange: bytes=1-4096\r\nif-range: \"x\"\r\nvia: 1.1 polipo\r\n\r\n",
    ),
    Line::Waits(&[1, 5, 6], &[5]),
    Line::Stopped,
    Line::Of(1, Step::Cut(Cause::Stop)),
    Line::Of(5, Step::Cut(Cause::Stop)),
    Line::Of(1, Step::Shut),
    Line::Of(5, Step::Shut),
    Line::Of(6, Step::Dropped),
];

const GIVEN_UP: &[Told] = &[Told {
    name: "an ask that an earlier client counted on",
    words: WORDS,
    pace: Pace::Whole,
    acts: &[ENDS_COME, REST_COMES, ANEW, PASSED_IS_LOST],
    lines: &[ENDS_LINES, REST_LINES, ANEW_LINES, ASKS_FOR_ITSELF],
}];

const GIVEN_UP_BYTEWISE: &[Told] = &[Told {
    name: "an ask that an earlier client counted on",
    words: WORDS,
    pace: Pace::Bytewise,
    acts: &[ENDS_COME, REST_COMES, ANEW, PASSED_IS_LOST],
    lines: &[ENDS_LINES, REST_LINES, ANEW_LINES, ASKS_FOR_ITSELF],
}];

#[test]
fn the_log_of_an_ask_that_its_client_does_not_need_is_just_this(
    rt: HostRuntime,
) -> Result<(), Fail> {
    says_nothing(&rt, unlike(rt.alloc(), GIVEN_UP))?;
    says_nothing(&rt, unlike(rt.alloc(), GIVEN_UP_BYTEWISE))
}
