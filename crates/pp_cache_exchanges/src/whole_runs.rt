// Whole logs, happening by happening, of a page of three chunks: they are kept in runs of two, up to a crash.
use crate::lines::{Line, TWO, Told, unlike};
use crate::saying::says_nothing;
use crate::whole_chunks::{NEW, OLD, PAGE_504};
use crate::whole_log::{ASKED, ASKED_LINES, DRAFTED, STOPPED};
use pp_play::{Act, Op, Pace, Step, T};
use pp_world::Decision;
use std::test::Fail;

const THREE_CHUNKS: &[Act<'static>] = &[
    Act::Answer(2, HEAD_3),
    Act::Fill(2, b'a', 4_096),
    Act::Fill(2, b'b', 4_096),
    Act::Fill(2, b'c', 4_096),
];

const HEAD_3: &[u8] =
    b"HTTP/1.1 200 OK\r\nDate: Sun, 06 Nov 1994 08:49:37 GMT\r\nETag: \"x\"\r\nCache-Control: max-age=60\r\nContent-Length: 12288\r\n\r\n";

const REPLY_HEAD_3: &[u8] =
    b"HTTP/1.1 200 OK\r\netag: \"x\"\r\ndate: Sun, 06 Nov 1994 08:49:37 GMT\r\ncache-control: max-age=60\r\nvia: 1.1 polipo\r\ncontent-length: 12288\r\nconnection: keep-alive\r\n\r\n";

const REPLY_FRONT_3: &[u8] =
    b"HTTP/1.1 200 OK\r\netag: \"x\"\r\ndate: Sun, 06 Nov 1994 08:49:37 GMT\r\ncache-control: max-age=60\r\nvia: 1.1 polipo\r\ncontent-length: 12288\r\nconnection: keep-alive\r\n\r\na";

const RUN_GOT: &[Line<'static>] = &[
    Line::Got(2, HEAD_3),
    Line::Of(1, Step::Taken(0, Decision::Part(0, 12_288))),
    Line::Waits(&[1, 2], &[]),
    Line::CanRead(2),
    Line::Got(2, b""),
    Line::Fill(b'a', 4_096),
    Line::Waits(&[1, 2], &[1]),
    Line::CanWrite(1),
    Line::Said(1, 4_254, REPLY_HEAD_3),
    Line::Fill(b'a', 4_096),
    Line::Waits(&[1, 2], &[]),
    Line::CanRead(2),
    Line::Got(2, b""),
    Line::Fill(b'b', 4_096),
];

const RUN_STREAMED: &[Line<'static>] = &[
    Line::Got(2, HEAD_3),
    Line::Of(1, Step::Taken(0, Decision::Part(0, 12_288))),
    Line::Waits(&[1, 2], &[]),
    Line::CanRead(2),
    Line::Got(2, b"a"),
    Line::Waits(&[1, 2], &[1]),
    Line::CanWrite(1),
    Line::Said(1, 159, REPLY_FRONT_3),
    Line::Waits(&[1, 2], &[]),
    Line::CanRead(2),
    Line::Streamed(2, 1, b"a", 4_095),
    Line::Streamed(2, 1, b"b", 4_095),
    Line::Got(2, b"b"),
];

/// The bodies of a run are written and synced before its gates are.
const RUN_WRITTEN: &[Line<'static>] = &[
    Line::Began(Op::Write(12_288, 8_192)),
    Line::Did(Op::Write(12_288, 8_192)),
    Line::Began(Op::Sync),
    Line::Did(Op::Sync),
    Line::Began(Op::Write(8_192, 2)),
];

const RUN_SEALED: &[Line<'static>] = &[
    Line::Did(Op::Write(8_192, 2)),
    Line::Began(Op::Sync),
    Line::Did(Op::Sync),
    Line::Kept(12_288, 8_192),
];

const REST_GOT: &[Line<'static>] = &[
    Line::Waits(&[1, 2], &[1]),
    Line::CanWrite(1),
    Line::Said(1, 4_096, b""),
    Line::Fill(b'b', 4_096),
    Line::Waits(&[1, 2], &[]),
    Line::CanRead(2),
    Line::Got(2, b""),
    Line::Fill(b'c', 4_096),
];

const REST_STREAMED: &[Line<'static>] = &[
    Line::Waits(&[1, 2], &[1]),
    Line::CanWrite(1),
    Line::Said(1, 1, b"b"),
    Line::Waits(&[1, 2], &[]),
    Line::CanRead(2),
    Line::Streamed(2, 1, b"c", 4_095),
    Line::Got(2, b"c"),
];

const REST_SEALED: &[Line<'static>] = &[
    Line::Began(Op::Write(20_480, 4_096)),
    Line::Did(Op::Write(20_480, 4_096)),
    Line::Began(Op::Sync),
    Line::Did(Op::Sync),
    Line::Began(Op::Write(8_194, 1)),
    Line::Did(Op::Write(8_194, 1)),
    Line::Began(Op::Sync),
    Line::Did(Op::Sync),
    Line::Kept(12_288, 12_288),
];

const REST_SAID: &[Line<'static>] = &[
    Line::Waits(&[1, 2], &[1]),
    Line::CanWrite(1),
    Line::Said(1, 4_096, b""),
    Line::Fill(b'c', 4_096),
    Line::Waits(&[1, 2], &[]),
];

const LAST_SAID: &[Line<'static>] = &[
    Line::Waits(&[1, 2], &[1]),
    Line::CanWrite(1),
    Line::Said(1, 1, b"c"),
    Line::Waits(&[1, 2], &[]),
];

/// Two chunks are asked for behind a crash within the write of their gates.
const IN_RUN: Option<Op> = Some(Op::Write(8_192, 2));

const FIRST_TWO: &[Act<'static>] = &[Act::Tick(T + 10), Act::Connect, Act::Say(3, ONLY_TWO)];

const ONLY_TWO: &[u8] =
    b"GET http://h/a HTTP/1.1\r\nHost: h\r\nCache-Control: only-if-cached\r\nRange: bytes=0-8191\r\n\r\n";

const ASKED_AGAIN: &[Line<'static>] = &[
    Line::Woke(true),
    Line::Uses(b"polipo-cache"),
    Line::Listed,
    Line::Listens(8123),
    Line::Waits(&[], &[]),
    Line::Clock(T + 10),
    Line::Waits(&[], &[]),
    Line::Of(3, Step::Opened),
    Line::Waits(&[3], &[]),
    Line::CanRead(3),
    Line::Heard(3, ONLY_TWO),
];

const RUN_LOST: &[Line<'static>] = &[
    Line::Of(3, Step::Taken(0, Decision::Refuse(504))),
    Line::Waits(&[3], &[3]),
    Line::CanWrite(3),
    Line::Said(3, 122, PAGE_504),
    Line::Waits(&[3], &[]),
    Line::Stopped,
    Line::Of(3, Step::Shut),
];

const RUN_KEPT: &[Line<'static>] = &[
    Line::Of(3, Step::Taken(0, Decision::Hit(0, 8_192))),
    Line::Waits(&[3], &[3]),
    Line::CanWrite(3),
    Line::Said(
        3,
        214,
        b"HTTP/1.1 206 Partial Content\r\netag: \"x\"\r\ndate: Sun, 06 Nov 1994 08:49:37 GMT\r\ncache-control: max-age=60\r\nage: 10\r\nvia: 1.1 polipo\r\ncontent-range: bytes 0-8191/12288\r\ncontent-length: 8192\r\nconnection: keep-alive\r\n\r\n",
    ),
    Line::Waits(&[3], &[3]),
    Line::CanWrite(3),
    Line::Loaded(0),
    Line::Said(3, 4_096, b""),
    Line::Fill(b'a', 4_096),
    Line::Waits(&[3], &[3]),
    Line::CanWrite(3),
    Line::Loaded(1),
    Line::Said(3, 4_096, b""),
    Line::Fill(b'b', 4_096),
    Line::Waits(&[3], &[]),
    Line::Stopped,
    Line::Of(3, Step::Shut),
];

const RUNS: &[Told] = &[
    Told {
        name: "three chunks",
        words: TWO,
        pace: Pace::Whole,
        acts: &[ASKED, THREE_CHUNKS],
        lines: &[
            ASKED_LINES,
            RUN_GOT,
            DRAFTED,
            RUN_WRITTEN,
            RUN_SEALED,
            REST_GOT,
            REST_SEALED,
            REST_SAID,
            STOPPED,
        ],
    },
    Told {
        name: "gates that were being written, and are closed",
        words: TWO,
        pace: Pace::Whole,
        acts: &[ASKED, THREE_CHUNKS, &[Act::Crash(IN_RUN, OLD)], FIRST_TWO],
        lines: &[
            ASKED_LINES,
            RUN_GOT,
            DRAFTED,
            RUN_WRITTEN,
            ASKED_AGAIN,
            RUN_LOST,
        ],
    },
    Told {
        name: "gates that were being written, and are open",
        words: TWO,
        pace: Pace::Whole,
        acts: &[ASKED, THREE_CHUNKS, &[Act::Crash(IN_RUN, NEW)], FIRST_TWO],
        lines: &[
            ASKED_LINES,
            RUN_GOT,
            DRAFTED,
            RUN_WRITTEN,
            ASKED_AGAIN,
            RUN_KEPT,
        ],
    },
];

const RUNS_BYTEWISE: &[Told] = &[
    Told {
        name: "three chunks",
        words: TWO,
        pace: Pace::Bytewise,
        acts: &[ASKED, THREE_CHUNKS],
        lines: &[
            ASKED_LINES,
            RUN_STREAMED,
            DRAFTED,
            RUN_WRITTEN,
            RUN_SEALED,
            REST_STREAMED,
            REST_SEALED,
            LAST_SAID,
            STOPPED,
        ],
    },
    Told {
        name: "gates that were being written, and are closed",
        words: TWO,
        pace: Pace::Bytewise,
        acts: &[ASKED, THREE_CHUNKS, &[Act::Crash(IN_RUN, OLD)], FIRST_TWO],
        lines: &[
            ASKED_LINES,
            RUN_STREAMED,
            DRAFTED,
            RUN_WRITTEN,
            ASKED_AGAIN,
            RUN_LOST,
        ],
    },
    Told {
        name: "gates that were being written, and are open",
        words: TWO,
        pace: Pace::Bytewise,
        acts: &[ASKED, THREE_CHUNKS, &[Act::Crash(IN_RUN, NEW)], FIRST_TWO],
        lines: &[
            ASKED_LINES,
            RUN_STREAMED,
            DRAFTED,
            RUN_WRITTEN,
            ASKED_AGAIN,
            RUN_KEPT,
        ],
    },
];

#[test]
fn the_log_of_runs_of_two_chunks_is_just_this(rt: HostRuntime) -> Result<(), Fail> {
    says_nothing(&rt, unlike(rt.alloc(), RUNS))?;
    says_nothing(&rt, unlike(rt.alloc(), RUNS_BYTEWISE))
}
