// Whole logs, happening by happening, of a page that is fetched.
use crate::lines::{Line, ONE, SIXTEEN, Told, unlike};
use crate::saying::says_nothing;
use pp_play::{ASK, Act, GET, HEAD, Op, Pace, REPLY, RESPONSE, Step, T};
use pp_world::Decision;
use std::test::Fail;

/// It uses its folder, listens, waits for clients alone, and is stopped.
const NOTHING_LINES: &[Line<'static>] = &[
    Line::Woke(false),
    Line::Uses(b"polipo-cache"),
    Line::Listed,
    Line::Listens(8123),
    Line::Waits(&[], &[]),
    Line::Stopped,
];

const NOTHING: &[Told] = &[Told {
    name: "no words, and no events",
    words: &[],
    pace: Pace::Whole,
    acts: &[],
    lines: &[NOTHING_LINES],
}];

#[test]
fn the_log_without_words_and_events_is_just_this(rt: HostRuntime) -> Result<(), Fail> {
    says_nothing(&rt, unlike(rt.alloc(), NOTHING))
}

// ---- a page is fetched

pub(crate) const ASKED: &[Act<'static>] = &[
    Act::Tick(T),
    Act::Connect,
    Act::Say(1, GET),
    Act::Reach(2),
];

pub(crate) const ANSWERED: &[Act<'static>] = &[Act::Answer(2, RESPONSE)];

/// A page is asked for: its origin is asked on a new connection.
pub(crate) const ASKED_LINES: &[Line<'static>] = &[
    Line::Woke(false),
    Line::Uses(b"polipo-cache"),
    Line::Listed,
    Line::Listens(8123),
    Line::Waits(&[], &[]),
    Line::Clock(T),
    Line::Waits(&[], &[]),
    Line::Of(1, Step::Opened),
    Line::Waits(&[1], &[]),
    Line::CanRead(1),
    Line::Heard(1, GET),
    Line::Of(1, Step::Taken(0, Decision::Fetch)),
    Line::Dialled(2, b"h", 80),
    Line::Waits(&[1], &[]),
    Line::Of(2, Step::Reached),
    Line::Waits(&[1, 2], &[2]),
    Line::CanWrite(2),
    Line::Asked(2, ASK),
    Line::Waits(&[1, 2], &[]),
    Line::CanRead(2),
];

/// With all of its body it is published at once.
const PUBLISHED: &[Line<'static>] = &[
    Line::Began(Op::Draft(12_293)),
    Line::Did(Op::Draft(12_293)),
    Line::Began(Op::SyncDraft),
    Line::Did(Op::SyncDraft),
    Line::Began(Op::Publish),
    Line::Did(Op::Publish),
    Line::Kept(5, 5),
];

/// Or without its body, with the first byte of that.
pub(crate) const DRAFTED: &[Line<'static>] = &[
    Line::Began(Op::Draft(12_288)),
    Line::Did(Op::Draft(12_288)),
    Line::Began(Op::SyncDraft),
    Line::Did(Op::SyncDraft),
    Line::Began(Op::Publish),
    Line::Did(Op::Publish),
];

/// Then its chunk is written and synced before its gate is.
pub(crate) const WRITTEN: &[Line<'static>] = &[
    Line::Began(Op::Write(12_288, 5)),
    Line::Did(Op::Write(12_288, 5)),
    Line::Began(Op::Sync),
    Line::Did(Op::Sync),
    Line::Began(Op::Write(8_192, 1)),
];

pub(crate) const SEALED: &[Line<'static>] = &[
    Line::Did(Op::Write(8_192, 1)),
    Line::Began(Op::Sync),
    Line::Did(Op::Sync),
    Line::Kept(5, 5),
];

/// The reply is written from what is held, its head and its body at once.
pub(crate) const SAID: &[Line<'static>] = &[
    Line::Of(1, Step::Taken(0, Decision::Hit(0, 5))),
    Line::Waits(&[1, 2], &[1]),
    Line::CanWrite(1),
    Line::Said(1, 159, REPLY),
    Line::Waits(&[1, 2], &[]),
];

/// Where every byte comes alone, the head is written with the first byte of the body, and each other byte behind it.
pub(crate) const FIRST_BYTE: &[Line<'static>] = &[
    Line::Got(2, HEAD),
    Line::Of(1, Step::Taken(0, Decision::Part(0, 5))),
    Line::Waits(&[1, 2], &[]),
    Line::CanRead(2),
    Line::Got(2, b"h"),
];

pub(crate) const BUT_LAST: &[Line<'static>] = &[
    Line::Waits(&[1, 2], &[1]),
    Line::CanWrite(1),
    Line::Said(1, 155, REPLY_FRONT),
    Line::Waits(&[1, 2], &[]),
    Line::CanRead(2),
    Line::Streamed(2, 1, b"ell", 1),
    Line::Got(2, b"o"),
];

pub(crate) const SAID_LAST: &[Line<'static>] = &[
    Line::Waits(&[1, 2], &[1]),
    Line::CanWrite(1),
    Line::Said(1, 1, b"o"),
    Line::Waits(&[1, 2], &[]),
];

const REPLY_FRONT: &[u8] =
    b"HTTP/1.1 200 OK\r\netag: \"x\"\r\ndate: Sun, 06 Nov 1994 08:49:37 GMT\r\ncache-control: max-age=60\r\nvia: 1.1 polipo\r\ncontent-length: 5\r\nconnection: keep-alive\r\n\r\nh";

pub(crate) const STOPPED: &[Line<'static>] = &[
    Line::Stopped,
    Line::Of(1, Step::Shut),
    Line::Of(2, Step::Dropped),
];

pub(crate) const GOT: &[Line<'static>] = &[Line::Got(2, RESPONSE)];

const PLAIN: &[Told] = &[
    Told {
        name: "a plain GET",
        words: SIXTEEN,
        pace: Pace::Whole,
        acts: &[ASKED, ANSWERED],
        lines: &[ASKED_LINES, GOT, PUBLISHED, SAID, STOPPED],
    },
    Told {
        name: "a plain GET",
        words: SIXTEEN,
        pace: Pace::Bytewise,
        acts: &[ASKED, ANSWERED],
        lines: &[
            ASKED_LINES,
            FIRST_BYTE,
            BUT_LAST,
            PUBLISHED,
            SAID_LAST,
            STOPPED,
        ],
    },
    Told {
        name: "a plain GET, whose body is written behind its head",
        words: ONE,
        pace: Pace::Whole,
        acts: &[ASKED, ANSWERED],
        lines: &[ASKED_LINES, GOT, DRAFTED, WRITTEN, SEALED, SAID, STOPPED],
    },
    Told {
        name: "a plain GET, whose body is written behind its head",
        words: ONE,
        pace: Pace::Bytewise,
        acts: &[ASKED, ANSWERED],
        lines: &[
            ASKED_LINES,
            FIRST_BYTE,
            DRAFTED,
            BUT_LAST,
            WRITTEN,
            SEALED,
            SAID_LAST,
            STOPPED,
        ],
    },
];

#[test]
fn the_log_of_a_plain_get_is_just_this(rt: HostRuntime) -> Result<(), Fail> {
    says_nothing(&rt, unlike(rt.alloc(), PLAIN))
}

// ---- its gate cannot be written

/// Its name is closed, and its client sees nothing of it.
const CLOSED: &[Line<'static>] = &[Line::Failed(Op::Write(8_192, 1)), Line::Gone];

/// Calls: list, listen, read, dial, ask, read, draft, sync, publish, write, sync, write; byte by byte 36 reads of the request and
/// 118 of the response, and four writes of the reply.
const GATE_FAILS: &[Told] = &[
    Told {
        name: "a gate that cannot be written",
        words: ONE,
        pace: Pace::Whole,
        acts: &[&[Act::Failing(&[12])], ASKED, ANSWERED],
        lines: &[ASKED_LINES, GOT, DRAFTED, WRITTEN, CLOSED, SAID, STOPPED],
    },
    Told {
        name: "a gate that cannot be written",
        words: ONE,
        pace: Pace::Bytewise,
        acts: &[&[Act::Failing(&[168])], ASKED, ANSWERED],
        lines: &[
            ASKED_LINES,
            FIRST_BYTE,
            DRAFTED,
            BUT_LAST,
            WRITTEN,
            CLOSED,
            SAID_LAST,
            STOPPED,
        ],
    },
];

#[test]
fn the_log_of_a_gate_that_cannot_be_written_is_just_this(rt: HostRuntime) -> Result<(), Fail> {
    says_nothing(&rt, unlike(rt.alloc(), GATE_FAILS))
}

// ---- a page without a byte

/// It is asked for whole, from its first byte on, and for its last five.
const EMPTY: &[Act<'static>] = &[
    Act::Answer(2, EMPTY_HEAD),
    Act::Connect,
    Act::Say(3, GET_FROM),
    Act::Connect,
    Act::Say(4, GET_LAST),
];

const GET_FROM: &[u8] = b"GET http://h/a HTTP/1.1\r\nHost: h\r\nRange: bytes=0-\r\n\r\n";

const GET_LAST: &[u8] = b"GET http://h/a HTTP/1.1\r\nHost: h\r\nRange: bytes=-5\r\n\r\n";

const EMPTY_HEAD: &[u8] =
    b"HTTP/1.1 200 OK\r\nDate: Sun, 06 Nov 1994 08:49:37 GMT\r\nETag: \"x\"\r\nCache-Control: max-age=60\r\nContent-Length: 0\r\n\r\n";

const EMPTY_LINES: &[Line<'static>] = &[
    Line::Got(2, EMPTY_HEAD),
    Line::Of(1, Step::Taken(0, Decision::Hit(0, 0))),
    Line::Waits(&[1, 2], &[1]),
    Line::CanWrite(1),
    Line::Said(
        1,
        154,
        b"HTTP/1.1 200 OK\r\netag: \"x\"\r\ndate: Sun, 06 Nov 1994 08:49:37 GMT\r\ncache-control: max-age=60\r\nvia: 1.1 polipo\r\ncontent-length: 0\r\nconnection: keep-alive\r\n\r\n",
    ),
    Line::Waits(&[1, 2], &[]),
    Line::Of(3, Step::Opened),
    Line::Waits(&[1, 3, 2], &[]),
    Line::CanRead(3),
    Line::Heard(3, GET_FROM),
    Line::Of(3, Step::Taken(0, Decision::Unsatisfiable)),
    Line::Waits(&[1, 3, 2], &[3]),
    Line::CanWrite(3),
    Line::Said(
        3,
        180,
        b"HTTP/1.1 416 Requested Range Not Satisfiable\r\ncontent-range: bytes */0\r\ncontent-type: text/plain\r\ncontent-length: 36\r\nconnection: keep-alive\r\n\r\n416 Requested Range Not Satisfiable\n",
    ),
    Line::Waits(&[1, 3, 2], &[]),
    Line::Of(4, Step::Opened),
    Line::Waits(&[1, 3, 4, 2], &[]),
    Line::CanRead(4),
    Line::Heard(4, GET_LAST),
    Line::Of(4, Step::Taken(0, Decision::Hit(0, 0))),
    Line::Waits(&[1, 3, 4, 2], &[4]),
    Line::CanWrite(4),
    Line::Said(
        4,
        162,
        b"HTTP/1.1 200 OK\r\netag: \"x\"\r\ndate: Sun, 06 Nov 1994 08:49:37 GMT\r\ncache-control: max-age=60\r\nage: 0\r\nvia: 1.1 polipo\r\ncontent-length: 0\r\nconnection: keep-alive\r\n\r\n",
    ),
    Line::Waits(&[1, 3, 4, 2], &[]),
    Line::Stopped,
    Line::Of(1, Step::Shut),
    Line::Of(3, Step::Shut),
    Line::Of(4, Step::Shut),
    Line::Of(2, Step::Dropped),
];

const WITHOUT_A_BYTE: &[Told] = &[
    Told {
        name: "a page without a byte",
        words: ONE,
        pace: Pace::Whole,
        acts: &[ASKED, EMPTY],
        lines: &[ASKED_LINES, EMPTY_LINES],
    },
    Told {
        name: "a page without a byte",
        words: ONE,
        pace: Pace::Bytewise,
        acts: &[ASKED, EMPTY],
        lines: &[ASKED_LINES, EMPTY_LINES],
    },
];

#[test]
fn the_log_of_a_page_without_a_byte_is_just_this(rt: HostRuntime) -> Result<(), Fail> {
    says_nothing(&rt, unlike(rt.alloc(), WITHOUT_A_BYTE))
}
