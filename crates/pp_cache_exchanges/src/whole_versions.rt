// A whole log, happening by happening, of a page in parts: what is missing of it comes of another version.
use crate::lines::{Line, ONE, Told, unlike};
use crate::saying::says_nothing;
use crate::whole_log::DRAFTED;
use pp_play::{Act, Op, Pace, Step, T};
use pp_world::{Cause, Decision};
use std::test::Fail;

/// The first and the third chunk of the page are fetched, and then the whole is asked for.
const IN_PARTS: &[Act<'static>] = &[
    Act::Tick(T),
    Act::Connect,
    Act::Say(1, GET_A),
    Act::Reach(2),
    Act::Answer(2, HEAD_A),
    Act::Fill(2, b'a', 4_096),
    Act::Connect,
    Act::Say(3, GET_C),
    Act::Answer(2, HEAD_C),
    Act::Fill(2, b'c', 4_096),
    Act::Connect,
    Act::Say(4, GET_ALL),
    Act::Answer(2, NEW_HEAD),
    Act::Answer(2, b"new"),
    Act::Connect,
    Act::Say(5, GET_ALL),
];

const GET_A: &[u8] = b"GET http://h/b HTTP/1.1\r\nHost: h\r\nRange: bytes=0-4095\r\n\r\n";

const GET_C: &[u8] = b"GET http://h/b HTTP/1.1\r\nHost: h\r\nRange: bytes=8192-12287\r\n\r\n";

const GET_ALL: &[u8] = b"GET http://h/b HTTP/1.1\r\nHost: h\r\n\r\n";

const HEAD_A: &[u8] =
    b"HTTP/1.1 206 Partial Content\r\nDate: Sun, 06 Nov 1994 08:49:37 GMT\r\nETag: \"x\"\r\nCache-Control: max-age=60\r\nContent-Range: bytes 0-4095/12288\r\nContent-Length: 4096\r\n\r\n";

const HEAD_C: &[u8] =
    b"HTTP/1.1 206 Partial Content\r\nDate: Sun, 06 Nov 1994 08:49:37 GMT\r\nETag: \"x\"\r\nCache-Control: max-age=60\r\nContent-Range: bytes 8192-12287/12288\r\nContent-Length: 4096\r\n\r\n";

const NEW_HEAD: &[u8] =
    b"HTTP/1.1 200 OK\r\nETag: \"y\"\r\nCache-Control: max-age=60\r\nContent-Length: 3\r\n\r\n";

const A_ASKED: &[Line<'static>] = &[
    Line::Woke(false),
    Line::Uses(b"polipo-cache"),
    Line::Listed,
    Line::Listens(8123),
    Line::Waits(&[], &[]),
    Line::Clock(T),
    Line::Waits(&[], &[]),
    Line::Of(1, Step::Opened),
    Line::Waits(&[1], &[]),
    Line::CanRead(1),
    Line::Heard(1, GET_A),
    Line::Of(1, Step::Taken(0, Decision::Fetch)),
    Line::Dialled(2, b"h", 80),
    Line::Waits(&[1], &[]),
    Line::Of(2, Step::Reached),
    Line::Waits(&[1, 2], &[2]),
    Line::CanWrite(2),
    Line::Asked(
        2,
        b"GET /b HTTP/1.1\r\nhost: h\r\nrange: bytes=0-4095\r\nvia: 1.1 polipo\r\n\r\n",
    ),
    Line::Waits(&[1, 2], &[]),
    Line::CanRead(2),
    Line::Got(2, HEAD_A),
    Line::Of(1, Step::Taken(0, Decision::Part(0, 4_096))),
    Line::Waits(&[1, 2], &[]),
    Line::CanRead(2),
];

const A_GOT: &[Line<'static>] = &[Line::Got(2, b""), Line::Fill(b'a', 4_096)];

const A_BYTE: &[Line<'static>] = &[Line::Got(2, b"a")];

const A_STREAMED: &[Line<'static>] = &[
    Line::Waits(&[1, 2], &[1]),
    Line::CanWrite(1),
    Line::Said(
        1,
        206,
        b"HTTP/1.1 206 Partial Content\r\netag: \"x\"\r\ndate: Sun, 06 Nov 1994 08:49:37 GMT\r\ncache-control: max-age=60\r\nvia: 1.1 polipo\r\ncontent-range: bytes 0-4095/12288\r\ncontent-length: 4096\r\nconnection: keep-alive\r\n\r\na",
    ),
    Line::Waits(&[1, 2], &[]),
    Line::CanRead(2),
    Line::Streamed(2, 1, b"a", 4_094),
    Line::Got(2, b"a"),
];

const A_SEALED: &[Line<'static>] = &[
    Line::Began(Op::Write(12_288, 4_096)),
    Line::Did(Op::Write(12_288, 4_096)),
    Line::Began(Op::Sync),
    Line::Did(Op::Sync),
    Line::Began(Op::Write(8_192, 1)),
    Line::Did(Op::Write(8_192, 1)),
    Line::Began(Op::Sync),
    Line::Did(Op::Sync),
    Line::Kept(12_288, 4_096),
    Line::Waits(&[1, 2], &[1]),
    Line::CanWrite(1),
];

const A_SAID: &[Line<'static>] = &[
    Line::Said(
        1,
        4_301,
        b"HTTP/1.1 206 Partial Content\r\netag: \"x\"\r\ndate: Sun, 06 Nov 1994 08:49:37 GMT\r\ncache-control: max-age=60\r\nvia: 1.1 polipo\r\ncontent-range: bytes 0-4095/12288\r\ncontent-length: 4096\r\nconnection: keep-alive\r\n\r\n",
    ),
    Line::Fill(b'a', 4_096),
];

const A_LAST: &[Line<'static>] = &[Line::Said(1, 1, b"a")];

/// What stands behind a hole is not kept on the disk.
const C_ASKED: &[Line<'static>] = &[
    Line::Waits(&[1, 2], &[]),
    Line::Of(3, Step::Opened),
    Line::Waits(&[1, 3, 2], &[]),
    Line::CanRead(3),
    Line::Heard(3, GET_C),
    Line::Of(3, Step::Taken(0, Decision::Part(8_192, 12_288))),
    Line::Waits(&[1, 3, 2], &[2]),
    Line::CanWrite(2),
    Line::Asked(
        2,
        b"GET /b HTTP/1.1\r\nhost: h\r\nrange: bytes=8192-12287\r\nif-range: \"x\"\r\nvia: 1.1 polipo\r\n\r\n",
    ),
    Line::Waits(&[1, 3, 2], &[]),
    Line::CanRead(2),
    Line::Got(2, HEAD_C),
    Line::Waits(&[1, 3, 2], &[]),
    Line::CanRead(2),
];

const C_SAID: &[Line<'static>] = &[
    Line::Got(2, b""),
    Line::Fill(b'c', 4_096),
    Line::Waits(&[1, 3, 2], &[3]),
    Line::CanWrite(3),
    Line::Said(
        3,
        4_305,
        b"HTTP/1.1 206 Partial Content\r\netag: \"x\"\r\ndate: Sun, 06 Nov 1994 08:49:37 GMT\r\ncache-control: max-age=60\r\nvia: 1.1 polipo\r\ncontent-range: bytes 8192-12287/12288\r\ncontent-length: 4096\r\nconnection: keep-alive\r\n\r\n",
    ),
    Line::Fill(b'c', 4_096),
];

const C_STREAMED: &[Line<'static>] = &[
    Line::Got(2, b"c"),
    Line::Waits(&[1, 3, 2], &[3]),
    Line::CanWrite(3),
    Line::Said(
        3,
        210,
        b"HTTP/1.1 206 Partial Content\r\netag: \"x\"\r\ndate: Sun, 06 Nov 1994 08:49:37 GMT\r\ncache-control: max-age=60\r\nvia: 1.1 polipo\r\ncontent-range: bytes 8192-12287/12288\r\ncontent-length: 4096\r\nconnection: keep-alive\r\n\r\nc",
    ),
    Line::Waits(&[1, 3, 2], &[]),
    Line::CanRead(2),
    Line::Streamed(2, 3, b"c", 4_094),
    Line::Got(2, b"c"),
    Line::Waits(&[1, 3, 2], &[3]),
    Line::CanWrite(3),
    Line::Said(3, 1, b"c"),
];

/// What is there is said to the client that wants the whole, and the rest is asked for.
const REST_ASKED: &[Line<'static>] = &[
    Line::Waits(&[1, 3, 2], &[]),
    Line::Of(4, Step::Opened),
    Line::Waits(&[1, 3, 4, 2], &[]),
    Line::CanRead(4),
    Line::Heard(4, GET_ALL),
    Line::Of(4, Step::Taken(0, Decision::Part(0, 12_288))),
    Line::Waits(&[1, 3, 4, 2], &[4]),
    Line::CanWrite(4),
    Line::Said(
        4,
        4_262,
        b"HTTP/1.1 200 OK\r\netag: \"x\"\r\ndate: Sun, 06 Nov 1994 08:49:37 GMT\r\ncache-control: max-age=60\r\nage: 0\r\nvia: 1.1 polipo\r\ncontent-length: 12288\r\nconnection: keep-alive\r\n\r\n",
    ),
    Line::Fill(b'a', 4_096),
    Line::Waits(&[1, 3, 4, 2], &[2]),
    Line::CanWrite(2),
    Line::Asked(
        2,
        b"GET /b HTTP/1.1\r\nhost: h\r\nrange: bytes=4096-8191\r\nif-range: \"x\"\r\nvia: 1.1 polipo\r\n\r\n",
    ),
    Line::Waits(&[1, 3, 4, 2], &[]),
    Line::CanRead(2),
];

/// The head of another version: the entry goes, and the client is cut, since no byte of that joins what it was said.
const REPLACED: &[Line<'static>] = &[
    Line::Got(2, NEW_HEAD),
    Line::Gone,
    Line::Began(Op::Remove),
    Line::Did(Op::Remove),
    Line::Of(4, Step::Cut(Cause::Superseded)),
    Line::Of(4, Step::Shut),
    Line::Waits(&[1, 3, 2], &[]),
    Line::CanRead(2),
];

const NEW_GOT: &[Line<'static>] = &[Line::Got(2, b"new")];

const NEW_BYTE: &[Line<'static>] = &[Line::Got(2, b"n")];

const NEW_BYTES: &[Line<'static>] = &[
    Line::Waits(&[1, 3, 2], &[]),
    Line::CanRead(2),
    Line::Got(2, b"ew"),
];

/// The next client is said the other version.
const NEW_SAID: &[Line<'static>] = &[
    Line::Began(Op::Write(12_288, 3)),
    Line::Did(Op::Write(12_288, 3)),
    Line::Began(Op::Sync),
    Line::Did(Op::Sync),
    Line::Began(Op::Write(8_192, 1)),
    Line::Did(Op::Write(8_192, 1)),
    Line::Began(Op::Sync),
    Line::Did(Op::Sync),
    Line::Kept(3, 3),
    Line::Waits(&[1, 3, 2], &[]),
    Line::Of(5, Step::Opened),
    Line::Waits(&[1, 3, 5, 2], &[]),
    Line::CanRead(5),
    Line::Heard(5, GET_ALL),
    Line::Of(5, Step::Taken(0, Decision::Hit(0, 3))),
    Line::Waits(&[1, 3, 5, 2], &[5]),
    Line::CanWrite(5),
    Line::Said(
        5,
        165,
        b"HTTP/1.1 200 OK\r\netag: \"y\"\r\ndate: Sun, 06 Nov 1994 08:49:37 GMT\r\ncache-control: max-age=60\r\nage: 0\r\nvia: 1.1 polipo\r\ncontent-length: 3\r\nconnection: keep-alive\r\n\r\nnew",
    ),
    Line::Waits(&[1, 3, 5, 2], &[]),
    Line::Stopped,
    Line::Of(1, Step::Shut),
    Line::Of(3, Step::Shut),
    Line::Of(5, Step::Shut),
    Line::Of(2, Step::Dropped),
];

const OTHER_VERSION: &[Told] = &[Told {
    name: "another version",
    words: ONE,
    pace: Pace::Whole,
    acts: &[IN_PARTS],
    lines: &[
        A_ASKED, A_GOT, DRAFTED, A_SEALED, A_SAID, C_ASKED, C_SAID, REST_ASKED, REPLACED, NEW_GOT,
        DRAFTED, NEW_SAID,
    ],
}];

const OTHER_VERSION_BYTEWISE: &[Told] = &[Told {
    name: "another version",
    words: ONE,
    pace: Pace::Bytewise,
    acts: &[IN_PARTS],
    lines: &[
        A_ASKED, A_BYTE, DRAFTED, A_STREAMED, A_SEALED, A_LAST, C_ASKED, C_STREAMED, REST_ASKED,
        REPLACED, NEW_BYTE, DRAFTED, NEW_BYTES, NEW_SAID,
    ],
}];

#[test]
fn the_log_of_a_page_that_another_version_replaces_is_just_this(
    rt: HostRuntime,
) -> Result<(), Fail> {
    says_nothing(&rt, unlike(rt.alloc(), OTHER_VERSION))?;
    says_nothing(&rt, unlike(rt.alloc(), OTHER_VERSION_BYTEWISE))
}
