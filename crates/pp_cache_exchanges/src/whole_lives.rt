// Whole logs, happening by happening, through a crash: what is kept of a page, and what of one that was being kept.
use crate::lines::{Line, ONE, Told, unlike};
use crate::saying::says_nothing;
use crate::whole_log::{
    ANSWERED, ASKED, ASKED_LINES, BUT_LAST, DRAFTED, FIRST_BYTE, GOT, SAID, SAID_LAST, SEALED,
    STOPPED, WRITTEN,
};
use pp_play::{Act, GET, Op, Pace, Step, T};
use pp_world::Decision;
use std::test::Fail;

pub(crate) const AGAIN: &[Act<'static>] = &[Act::Crash(None, 0), Act::Tick(T + 10), Act::Connect];

pub(crate) const AGAIN_SAID: &[Act<'static>] = &[Act::Say(3, GET)];

/// The entry is found, and asked for: the head of the reply is written from it.
pub(crate) const AGAIN_LINES: &[Line<'static>] = &[
    Line::Woke(true),
    Line::Uses(b"polipo-cache"),
    Line::Listed,
    Line::Listens(8123),
    Line::Waits(&[], &[]),
    Line::Clock(T + 10),
    Line::Waits(&[], &[]),
    Line::Of(3, Step::Opened),
    Line::Waits(&[3], &[]),
    Line::CanRead(3),
    Line::Heard(3, GET),
    Line::Of(3, Step::Taken(0, Decision::Hit(0, 5))),
    Line::Waits(&[3], &[3]),
    Line::CanWrite(3),
    Line::Said(3, 163, AGED_HEAD),
    Line::Waits(&[3], &[3]),
    Line::CanWrite(3),
];

const AGED_HEAD: &[u8] =
    b"HTTP/1.1 200 OK\r\netag: \"x\"\r\ndate: Sun, 06 Nov 1994 08:49:37 GMT\r\ncache-control: max-age=60\r\nage: 10\r\nvia: 1.1 polipo\r\ncontent-length: 5\r\nconnection: keep-alive\r\n\r\n";

/// Its body is read back, and no origin is asked.
pub(crate) const LOADED: &[Line<'static>] = &[
    Line::Loaded(0),
    Line::Said(3, 5, b"hello"),
    Line::Waits(&[3], &[]),
];

/// Once it is stale it is checked, by the tag that was kept.
const CHECK: &[Act<'static>] = &[
    Act::Tick(T + 61),
    Act::Connect,
    Act::Say(4, GET),
    Act::Reach(5),
    Act::Answer(5, STILL_STANDS),
];

const STILL_STANDS: &[u8] =
    b"HTTP/1.1 304 Not Modified\r\nDate: Sun, 06 Nov 1994 08:50:38 GMT\r\nCache-Control: max-age=60\r\n\r\n";

const CHECKED: &[Line<'static>] = &[
    Line::Clock(T + 61),
    Line::Waits(&[3], &[]),
    Line::Of(4, Step::Opened),
    Line::Waits(&[3, 4], &[]),
    Line::CanRead(4),
    Line::Heard(4, GET),
    Line::Of(4, Step::Taken(0, Decision::Validate)),
    Line::Dialled(5, b"h", 80),
    Line::Waits(&[3, 4], &[]),
    Line::Of(5, Step::Reached),
    Line::Waits(&[3, 4, 5], &[5]),
    Line::CanWrite(5),
    Line::Asked(
        5,
        b"GET /a HTTP/1.1\r\nhost: h\r\nif-none-match: \"x\"\r\nvia: 1.1 polipo\r\n\r\n",
    ),
    Line::Waits(&[3, 4, 5], &[]),
    Line::CanRead(5),
    Line::Got(5, STILL_STANDS),
    Line::Of(4, Step::Taken(0, Decision::Hit(0, 5))),
    Line::Waits(&[3, 4, 5], &[4]),
    Line::CanWrite(4),
    Line::Said(
        4,
        167,
        b"HTTP/1.1 200 OK\r\netag: \"x\"\r\ndate: Sun, 06 Nov 1994 08:50:38 GMT\r\ncache-control: max-age=60\r\nage: 0\r\nvia: 1.1 polipo\r\ncontent-length: 5\r\nconnection: keep-alive\r\n\r\nhello",
    ),
    Line::Waits(&[3, 4, 5], &[]),
    Line::Stopped,
    Line::Of(3, Step::Shut),
    Line::Of(4, Step::Shut),
    Line::Of(5, Step::Dropped),
];

const BEHIND_A_CRASH: &[Told] = &[Told {
    name: "an entry behind a crash",
    words: ONE,
    pace: Pace::Whole,
    acts: &[ASKED, ANSWERED, AGAIN, AGAIN_SAID, CHECK],
    lines: &[
        ASKED_LINES,
        GOT,
        DRAFTED,
        WRITTEN,
        SEALED,
        SAID,
        STOPPED,
        AGAIN_LINES,
        LOADED,
        CHECKED,
    ],
}];

const BEHIND_A_CRASH_BYTEWISE: &[Told] = &[Told {
    name: "an entry behind a crash",
    words: ONE,
    pace: Pace::Bytewise,
    acts: &[ASKED, ANSWERED, AGAIN, AGAIN_SAID, CHECK],
    lines: &[
        ASKED_LINES,
        FIRST_BYTE,
        DRAFTED,
        BUT_LAST,
        WRITTEN,
        SEALED,
        SAID_LAST,
        STOPPED,
        AGAIN_LINES,
        LOADED,
        CHECKED,
    ],
}];

#[test]
fn the_log_of_an_entry_behind_a_crash_is_just_this(rt: HostRuntime) -> Result<(), Fail> {
    says_nothing(&rt, unlike(rt.alloc(), BEHIND_A_CRASH))?;
    says_nothing(&rt, unlike(rt.alloc(), BEHIND_A_CRASH_BYTEWISE))
}

// ---- and it cannot be read back

/// What is missing is asked for again.
const REST: &[Act<'static>] = &[
    Act::Reach(4),
    Act::Answer(4, REST_HEAD),
    Act::Answer(4, b"hello"),
];

const REST_HEAD: &[u8] =
    b"HTTP/1.1 206 Partial Content\r\nETag: \"x\"\r\nContent-Range: bytes 0-4/5\r\nContent-Length: 5\r\n\r\n";

const UNREAD: &[Line<'static>] = &[
    Line::Unread,
    Line::Gone,
    Line::Dialled(4, b"h", 80),
    Line::Waits(&[3], &[]),
    Line::Of(4, Step::Reached),
    Line::Waits(&[3, 4], &[4]),
    Line::CanWrite(4),
    Line::Asked(
        4,
        b"GET /a HTTP/1.1\r\nhost: h\r\nrange: bytes=0-4\r\nif-range: \"x\"\r\nvia: 1.1 polipo\r\n\r\n",
    ),
    Line::Waits(&[3, 4], &[]),
    Line::CanRead(4),
    Line::Got(4, REST_HEAD),
    Line::Waits(&[3, 4], &[]),
    Line::CanRead(4),
];

const REST_SAID: &[Line<'static>] = &[
    Line::Got(4, b"hello"),
    Line::Waits(&[3, 4], &[3]),
    Line::CanWrite(3),
    Line::Said(3, 5, b"hello"),
    Line::Waits(&[3, 4], &[]),
    Line::Stopped,
    Line::Of(3, Step::Shut),
    Line::Of(4, Step::Dropped),
];

const REST_SAID_BYTEWISE: &[Line<'static>] = &[
    Line::Got(4, b"h"),
    Line::Waits(&[3, 4], &[3]),
    Line::CanWrite(3),
    Line::Said(3, 1, b"h"),
    Line::Waits(&[3, 4], &[]),
    Line::CanRead(4),
    Line::Streamed(4, 3, b"ell", 1),
    Line::Got(4, b"o"),
    Line::Waits(&[3, 4], &[3]),
    Line::CanWrite(3),
    Line::Said(3, 1, b"o"),
    Line::Waits(&[3, 4], &[]),
    Line::Stopped,
    Line::Of(3, Step::Shut),
    Line::Of(4, Step::Dropped),
];

/// Calls of the second life: list, read, length, read, listen, read, write, read; byte by byte 36 reads of the request.
const NOT_READ_BACK: &[Told] = &[Told {
    name: "an entry that cannot be read back",
    words: ONE,
    pace: Pace::Whole,
    acts: &[
        ASKED,
        ANSWERED,
        AGAIN,
        &[Act::Failing(&[8])],
        AGAIN_SAID,
        REST,
    ],
    lines: &[
        ASKED_LINES,
        GOT,
        DRAFTED,
        WRITTEN,
        SEALED,
        SAID,
        STOPPED,
        AGAIN_LINES,
        UNREAD,
        REST_SAID,
    ],
}];

const NOT_READ_BACK_BYTEWISE: &[Told] = &[Told {
    name: "an entry that cannot be read back",
    words: ONE,
    pace: Pace::Bytewise,
    acts: &[
        ASKED,
        ANSWERED,
        AGAIN,
        &[Act::Failing(&[43])],
        AGAIN_SAID,
        REST,
    ],
    lines: &[
        ASKED_LINES,
        FIRST_BYTE,
        DRAFTED,
        BUT_LAST,
        WRITTEN,
        SEALED,
        SAID_LAST,
        STOPPED,
        AGAIN_LINES,
        UNREAD,
        REST_SAID_BYTEWISE,
    ],
}];

#[test]
fn the_log_of_an_entry_that_cannot_be_read_back_is_just_this(rt: HostRuntime) -> Result<(), Fail> {
    says_nothing(&rt, unlike(rt.alloc(), NOT_READ_BACK))?;
    says_nothing(&rt, unlike(rt.alloc(), NOT_READ_BACK_BYTEWISE))
}

// ---- it was being drafted, or published

/// What a crash leaves in doubt stays as it was, or is as it was to be.
const OLD: u64 = 0;

const NEW: u64 = 1;

const IN_DRAFT: Option<Op> = Some(Op::Draft(12_288));

const IN_PUBLISH: Option<Op> = Some(Op::Publish);

const ONLY_AGAIN: &[Act<'static>] = &[Act::Tick(T + 10), Act::Connect, Act::Say(3, ONLY)];

const ONLY: &[u8] = b"GET http://h/a HTTP/1.1\r\nHost: h\r\nCache-Control: only-if-cached\r\n\r\n";

const BEGUN: &[Line<'static>] = &[Line::Began(Op::Draft(12_288))];

const UNPUBLISHED: &[Line<'static>] = &[
    Line::Began(Op::Draft(12_288)),
    Line::Did(Op::Draft(12_288)),
    Line::Began(Op::SyncDraft),
    Line::Did(Op::SyncDraft),
    Line::Began(Op::Publish),
];

/// Nothing is held of it.
const NONE: &[Line<'static>] = &[
    Line::Woke(false),
    Line::Uses(b"polipo-cache"),
    Line::Listed,
    Line::Listens(8123),
    Line::Waits(&[], &[]),
    Line::Clock(T + 10),
    Line::Waits(&[], &[]),
    Line::Of(3, Step::Opened),
    Line::Waits(&[3], &[]),
    Line::CanRead(3),
    Line::Heard(3, ONLY),
    Line::Of(3, Step::Taken(0, Decision::Refuse(504))),
    Line::Waits(&[3], &[3]),
    Line::CanWrite(3),
    Line::Said(
        3,
        122,
        b"HTTP/1.1 504 Gateway Timeout\r\ncontent-type: text/plain\r\ncontent-length: 20\r\nconnection: keep-alive\r\n\r\n504 Gateway Timeout\n",
    ),
    Line::Waits(&[3], &[]),
    Line::Stopped,
    Line::Of(3, Step::Shut),
];

/// Or it is known, and no byte of it is held: all of them are asked for, and kept.
const WITHOUT_BYTES: &[Line<'static>] = &[
    Line::Woke(true),
    Line::Uses(b"polipo-cache"),
    Line::Listed,
    Line::Listens(8123),
    Line::Waits(&[], &[]),
    Line::Clock(T + 10),
    Line::Waits(&[], &[]),
    Line::Of(3, Step::Opened),
    Line::Waits(&[3], &[]),
    Line::CanRead(3),
    Line::Heard(3, GET),
    Line::Of(3, Step::Taken(0, Decision::Part(0, 5))),
    Line::Dialled(4, b"h", 80),
    Line::Waits(&[3], &[]),
    Line::Of(4, Step::Reached),
    Line::Waits(&[3, 4], &[4]),
    Line::CanWrite(4),
    Line::Asked(
        4,
        b"GET /a HTTP/1.1\r\nhost: h\r\nrange: bytes=0-4\r\nif-range: \"x\"\r\nvia: 1.1 polipo\r\n\r\n",
    ),
    Line::Waits(&[3, 4], &[]),
    Line::CanRead(4),
    Line::Got(4, REST_HEAD),
    Line::Waits(&[3, 4], &[]),
    Line::CanRead(4),
];

/// The response answers this very request, so that no age is told; and it tells no date, so that of its receipt is told.
const ALL_SAID: &[Line<'static>] = &[
    Line::Waits(&[3, 4], &[3]),
    Line::CanWrite(3),
    Line::Said(3, 159, RENEWED),
    Line::Waits(&[3, 4], &[]),
    Line::Stopped,
    Line::Of(3, Step::Shut),
    Line::Of(4, Step::Dropped),
];

const RENEWED: &[u8] =
    b"HTTP/1.1 200 OK\r\netag: \"x\"\r\ndate: Sun, 06 Nov 1994 08:49:47 GMT\r\ncache-control: max-age=60\r\nvia: 1.1 polipo\r\ncontent-length: 5\r\nconnection: keep-alive\r\n\r\nhello";

const FIRST_SAID: &[Line<'static>] = &[
    Line::Got(4, b"h"),
    Line::Waits(&[3, 4], &[3]),
    Line::CanWrite(3),
    Line::Said(3, 155, RENEWED_FRONT),
    Line::Waits(&[3, 4], &[]),
    Line::CanRead(4),
    Line::Streamed(4, 3, b"ell", 1),
    Line::Got(4, b"o"),
];

const RENEWED_FRONT: &[u8] =
    b"HTTP/1.1 200 OK\r\netag: \"x\"\r\ndate: Sun, 06 Nov 1994 08:49:47 GMT\r\ncache-control: max-age=60\r\nvia: 1.1 polipo\r\ncontent-length: 5\r\nconnection: keep-alive\r\n\r\nh";

const LAST_SAID: &[Line<'static>] = &[
    Line::Waits(&[3, 4], &[3]),
    Line::CanWrite(3),
    Line::Said(3, 1, b"o"),
    Line::Waits(&[3, 4], &[]),
    Line::Stopped,
    Line::Of(3, Step::Shut),
    Line::Of(4, Step::Dropped),
];

const REST_GOT: &[Line<'static>] = &[Line::Got(4, b"hello")];

const GOES_ON: &[Act<'static>] = &[Act::Tick(T + 10), Act::Connect, Act::Say(3, GET)];

const INTERRUPTED: &[Told] = &[
    Told {
        name: "in a draft",
        words: ONE,
        pace: Pace::Whole,
        acts: &[ASKED, ANSWERED, &[Act::Crash(IN_DRAFT, OLD)], ONLY_AGAIN],
        lines: &[ASKED_LINES, GOT, BEGUN, NONE],
    },
    Told {
        name: "in a draft",
        words: ONE,
        pace: Pace::Whole,
        acts: &[ASKED, ANSWERED, &[Act::Crash(IN_DRAFT, NEW)], ONLY_AGAIN],
        lines: &[ASKED_LINES, GOT, BEGUN, NONE],
    },
    Told {
        name: "unpublished",
        words: ONE,
        pace: Pace::Whole,
        acts: &[ASKED, ANSWERED, &[Act::Crash(IN_PUBLISH, OLD)], ONLY_AGAIN],
        lines: &[ASKED_LINES, GOT, UNPUBLISHED, NONE],
    },
    Told {
        name: "published",
        words: ONE,
        pace: Pace::Whole,
        acts: &[
            ASKED,
            ANSWERED,
            &[Act::Crash(IN_PUBLISH, NEW)],
            GOES_ON,
            REST,
        ],
        lines: &[
            ASKED_LINES,
            GOT,
            UNPUBLISHED,
            WITHOUT_BYTES,
            REST_GOT,
            WRITTEN,
            SEALED,
            ALL_SAID,
        ],
    },
];

const INTERRUPTED_BYTEWISE: &[Told] = &[
    Told {
        name: "in a draft",
        words: ONE,
        pace: Pace::Bytewise,
        acts: &[ASKED, ANSWERED, &[Act::Crash(IN_DRAFT, OLD)], ONLY_AGAIN],
        lines: &[ASKED_LINES, FIRST_BYTE, BEGUN, NONE],
    },
    Told {
        name: "in a draft",
        words: ONE,
        pace: Pace::Bytewise,
        acts: &[ASKED, ANSWERED, &[Act::Crash(IN_DRAFT, NEW)], ONLY_AGAIN],
        lines: &[ASKED_LINES, FIRST_BYTE, BEGUN, NONE],
    },
    Told {
        name: "unpublished",
        words: ONE,
        pace: Pace::Bytewise,
        acts: &[ASKED, ANSWERED, &[Act::Crash(IN_PUBLISH, OLD)], ONLY_AGAIN],
        lines: &[ASKED_LINES, FIRST_BYTE, UNPUBLISHED, NONE],
    },
    Told {
        name: "published",
        words: ONE,
        pace: Pace::Bytewise,
        acts: &[
            ASKED,
            ANSWERED,
            &[Act::Crash(IN_PUBLISH, NEW)],
            GOES_ON,
            REST,
        ],
        lines: &[
            ASKED_LINES,
            FIRST_BYTE,
            UNPUBLISHED,
            WITHOUT_BYTES,
            FIRST_SAID,
            WRITTEN,
            SEALED,
            LAST_SAID,
        ],
    },
];

#[test]
fn the_log_of_an_entry_that_was_being_made_is_just_this(rt: HostRuntime) -> Result<(), Fail> {
    says_nothing(&rt, unlike(rt.alloc(), INTERRUPTED))?;
    says_nothing(&rt, unlike(rt.alloc(), INTERRUPTED_BYTEWISE))
}
