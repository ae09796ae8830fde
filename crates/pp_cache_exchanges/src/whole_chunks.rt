// Whole logs, happening by happening, of a page of two chunks: each is kept alone, up to a crash.
use crate::lines::{Line, ONE, Told, unlike};
use crate::saying::says_nothing;
use crate::whole_log::{ASKED, ASKED_LINES, DRAFTED};
use pp_play::{Act, Op, Pace, Step, T};
use pp_world::Decision;
use std::test::Fail;

const TWO_CHUNKS: &[Act<'static>] = &[
    Act::Answer(2, HEAD_2),
    Act::Fill(2, b'a', 4_096),
    Act::Fill(2, b'b', 4_096),
];

const HEAD_2: &[u8] =
    b"HTTP/1.1 200 OK\r\nDate: Sun, 06 Nov 1994 08:49:37 GMT\r\nETag: \"x\"\r\nCache-Control: max-age=60\r\nContent-Length: 8192\r\n\r\n";

/// The first chunk came.
const FIRST_GOT: &[Line<'static>] = &[
    Line::Got(2, HEAD_2),
    Line::Of(1, Step::Taken(0, Decision::Part(0, 8_192))),
    Line::Waits(&[1, 2], &[]),
    Line::CanRead(2),
    Line::Got(2, b""),
    Line::Fill(b'a', 4_096),
];

/// It is written and synced before its gate is.
const FIRST_SEALED: &[Line<'static>] = &[
    Line::Began(Op::Write(12_288, 4_096)),
    Line::Did(Op::Write(12_288, 4_096)),
    Line::Began(Op::Sync),
    Line::Did(Op::Sync),
    Line::Began(Op::Write(8_192, 1)),
    Line::Did(Op::Write(8_192, 1)),
    Line::Began(Op::Sync),
    Line::Did(Op::Sync),
    Line::Kept(8_192, 4_096),
];

/// It is said, and the second comes, which is being written.
const SECOND_GOT: &[Line<'static>] = &[
    Line::Waits(&[1, 2], &[1]),
    Line::CanWrite(1),
    Line::Said(1, 4_253, REPLY_HEAD_2),
    Line::Fill(b'a', 4_096),
    Line::Waits(&[1, 2], &[]),
    Line::CanRead(2),
    Line::Got(2, b""),
    Line::Fill(b'b', 4_096),
    Line::Began(Op::Write(16_384, 4_096)),
];

const REPLY_HEAD_2: &[u8] =
    b"HTTP/1.1 200 OK\r\netag: \"x\"\r\ndate: Sun, 06 Nov 1994 08:49:37 GMT\r\ncache-control: max-age=60\r\nvia: 1.1 polipo\r\ncontent-length: 8192\r\nconnection: keep-alive\r\n\r\n";

/// The same where every byte comes alone: it is drafted with the first byte of the body.
const FIRST_BYTE: &[Line<'static>] = &[
    Line::Got(2, HEAD_2),
    Line::Of(1, Step::Taken(0, Decision::Part(0, 8_192))),
    Line::Waits(&[1, 2], &[]),
    Line::CanRead(2),
    Line::Got(2, b"a"),
];

const FIRST_STREAMED: &[Line<'static>] = &[
    Line::Waits(&[1, 2], &[1]),
    Line::CanWrite(1),
    Line::Said(1, 158, REPLY_FRONT_2),
    Line::Waits(&[1, 2], &[]),
    Line::CanRead(2),
    Line::Streamed(2, 1, b"a", 4_094),
    Line::Got(2, b"a"),
];

const REPLY_FRONT_2: &[u8] =
    b"HTTP/1.1 200 OK\r\netag: \"x\"\r\ndate: Sun, 06 Nov 1994 08:49:37 GMT\r\ncache-control: max-age=60\r\nvia: 1.1 polipo\r\ncontent-length: 8192\r\nconnection: keep-alive\r\n\r\na";

const SECOND_STREAMED: &[Line<'static>] = &[
    Line::Waits(&[1, 2], &[1]),
    Line::CanWrite(1),
    Line::Said(1, 1, b"a"),
    Line::Waits(&[1, 2], &[]),
    Line::CanRead(2),
    Line::Streamed(2, 1, b"b", 4_095),
    Line::Got(2, b"b"),
    Line::Began(Op::Write(16_384, 4_096)),
];

/// It was written and synced, and its gate is being written.
const GATE_BEGUN: &[Line<'static>] = &[
    Line::Did(Op::Write(16_384, 4_096)),
    Line::Began(Op::Sync),
    Line::Did(Op::Sync),
    Line::Began(Op::Write(8_193, 1)),
];

/// Of what a crash leaves in doubt, by the choice: a byte as it was, as 7, or as it was to be.
pub(crate) const OLD: u64 = 0;

const LEAVES_7: u64 = 71;

pub(crate) const NEW: u64 = 1;

const IN_CHUNK: Option<Op> = Some(Op::Write(16_384, 4_096));

const IN_GATE: Option<Op> = Some(Op::Write(8_193, 1));

/// The first chunk is asked for, and then the whole.
const FIRST_AND_ALL: &[Act<'static>] = &[
    Act::Tick(T + 10),
    Act::Connect,
    Act::Say(3, ONLY_FIRST),
    Act::Connect,
    Act::Say(4, ONLY),
];

const ONLY_FIRST: &[u8] =
    b"GET http://h/a HTTP/1.1\r\nHost: h\r\nCache-Control: only-if-cached\r\nRange: bytes=0-4095\r\n\r\n";

const ONLY: &[u8] = b"GET http://h/a HTTP/1.1\r\nHost: h\r\nCache-Control: only-if-cached\r\n\r\n";

/// The first chunk is there.
const FIRST_KEPT: &[Line<'static>] = &[
    Line::Woke(true),
    Line::Uses(b"polipo-cache"),
    Line::Listed,
    Line::Listens(8123),
    Line::Waits(&[], &[]),
    Line::Clock(T + 10),
    Line::Waits(&[], &[]),
    Line::Of(3, Step::Opened),
    Line::Waits(&[3], &[]),
    Line::CanRead(3),
    Line::Heard(3, ONLY_FIRST),
    Line::Of(3, Step::Taken(0, Decision::Hit(0, 4_096))),
    Line::Waits(&[3], &[3]),
    Line::CanWrite(3),
    Line::Said(
        3,
        213,
        b"HTTP/1.1 206 Partial Content\r\netag: \"x\"\r\ndate: Sun, 06 Nov 1994 08:49:37 GMT\r\ncache-control: max-age=60\r\nage: 10\r\nvia: 1.1 polipo\r\ncontent-range: bytes 0-4095/8192\r\ncontent-length: 4096\r\nconnection: keep-alive\r\n\r\n",
    ),
    Line::Waits(&[3], &[3]),
    Line::CanWrite(3),
    Line::Loaded(0),
    Line::Said(3, 4_096, b""),
    Line::Fill(b'a', 4_096),
    Line::Waits(&[3], &[]),
    Line::Of(4, Step::Opened),
    Line::Waits(&[3, 4], &[]),
    Line::CanRead(4),
    Line::Heard(4, ONLY),
];

/// And no more.
const NO_MORE: &[Line<'static>] = &[
    Line::Of(4, Step::Taken(0, Decision::Refuse(504))),
    Line::Waits(&[3, 4], &[4]),
    Line::CanWrite(4),
    Line::Said(4, 122, PAGE_504),
    Line::Waits(&[3, 4], &[]),
    Line::Stopped,
    Line::Of(3, Step::Shut),
    Line::Of(4, Step::Shut),
];

pub(crate) const PAGE_504: &[u8] =
    b"HTTP/1.1 504 Gateway Timeout\r\ncontent-type: text/plain\r\ncontent-length: 20\r\nconnection: keep-alive\r\n\r\n504 Gateway Timeout\n";

/// Or the second too.
const SECOND_KEPT: &[Line<'static>] = &[
    Line::Of(4, Step::Taken(0, Decision::Hit(0, 8_192))),
    Line::Waits(&[3, 4], &[4]),
    Line::CanWrite(4),
    Line::Said(
        4,
        4_262,
        b"HTTP/1.1 200 OK\r\netag: \"x\"\r\ndate: Sun, 06 Nov 1994 08:49:37 GMT\r\ncache-control: max-age=60\r\nage: 10\r\nvia: 1.1 polipo\r\ncontent-length: 8192\r\nconnection: keep-alive\r\n\r\n",
    ),
    Line::Fill(b'a', 4_096),
    Line::Waits(&[3, 4], &[4]),
    Line::CanWrite(4),
    Line::Loaded(1),
    Line::Said(4, 4_096, b""),
    Line::Fill(b'b', 4_096),
    Line::Waits(&[3, 4], &[]),
    Line::Stopped,
    Line::Of(3, Step::Shut),
    Line::Of(4, Step::Shut),
];

const SEALING: &[Told] = &[
    Told {
        name: "a chunk that was being written",
        words: ONE,
        pace: Pace::Whole,
        acts: &[
            ASKED,
            TWO_CHUNKS,
            &[Act::Crash(IN_CHUNK, NEW)],
            FIRST_AND_ALL,
        ],
        lines: &[
            ASKED_LINES,
            FIRST_GOT,
            DRAFTED,
            FIRST_SEALED,
            SECOND_GOT,
            FIRST_KEPT,
            NO_MORE,
        ],
    },
    Told {
        name: "a gate that was being written, and is another byte",
        words: ONE,
        pace: Pace::Whole,
        acts: &[
            ASKED,
            TWO_CHUNKS,
            &[Act::Crash(IN_GATE, LEAVES_7)],
            FIRST_AND_ALL,
        ],
        lines: &[
            ASKED_LINES,
            FIRST_GOT,
            DRAFTED,
            FIRST_SEALED,
            SECOND_GOT,
            GATE_BEGUN,
            FIRST_KEPT,
            NO_MORE,
        ],
    },
    Told {
        name: "a gate that was being written, and is open",
        words: ONE,
        pace: Pace::Whole,
        acts: &[
            ASKED,
            TWO_CHUNKS,
            &[Act::Crash(IN_GATE, NEW)],
            FIRST_AND_ALL,
        ],
        lines: &[
            ASKED_LINES,
            FIRST_GOT,
            DRAFTED,
            FIRST_SEALED,
            SECOND_GOT,
            GATE_BEGUN,
            FIRST_KEPT,
            SECOND_KEPT,
        ],
    },
];

const SEALING_BYTEWISE: &[Told] = &[
    Told {
        name: "a chunk that was being written",
        words: ONE,
        pace: Pace::Bytewise,
        acts: &[
            ASKED,
            TWO_CHUNKS,
            &[Act::Crash(IN_CHUNK, NEW)],
            FIRST_AND_ALL,
        ],
        lines: &[
            ASKED_LINES,
            FIRST_BYTE,
            DRAFTED,
            FIRST_STREAMED,
            FIRST_SEALED,
            SECOND_STREAMED,
            FIRST_KEPT,
            NO_MORE,
        ],
    },
    Told {
        name: "a gate that was being written, and is another byte",
        words: ONE,
        pace: Pace::Bytewise,
        acts: &[
            ASKED,
            TWO_CHUNKS,
            &[Act::Crash(IN_GATE, LEAVES_7)],
            FIRST_AND_ALL,
        ],
        lines: &[
            ASKED_LINES,
            FIRST_BYTE,
            DRAFTED,
            FIRST_STREAMED,
            FIRST_SEALED,
            SECOND_STREAMED,
            GATE_BEGUN,
            FIRST_KEPT,
            NO_MORE,
        ],
    },
    Told {
        name: "a gate that was being written, and is open",
        words: ONE,
        pace: Pace::Bytewise,
        acts: &[
            ASKED,
            TWO_CHUNKS,
            &[Act::Crash(IN_GATE, NEW)],
            FIRST_AND_ALL,
        ],
        lines: &[
            ASKED_LINES,
            FIRST_BYTE,
            DRAFTED,
            FIRST_STREAMED,
            FIRST_SEALED,
            SECOND_STREAMED,
            GATE_BEGUN,
            FIRST_KEPT,
            SECOND_KEPT,
        ],
    },
];

#[test]
fn the_log_of_a_chunk_that_was_being_sealed_is_just_this(rt: HostRuntime) -> Result<(), Fail> {
    says_nothing(&rt, unlike(rt.alloc(), SEALING))?;
    says_nothing(&rt, unlike(rt.alloc(), SEALING_BYTEWISE))
}
