// What is said: the interim answer, the head, and the body.
use crate::acts::{Act, Course, Trial, unlike, unlike_in_trials};
use crate::parts::Part;
use crate::saying::says_nothing;
use crate::talk::Reply;
use pp_text::OutOfMemory;
use std::test::Fail;

const HEAD: &[u8] = b"HTTP/1.1 200 OK\r\n\r\n";

// What is written before the body of a kept response of five bytes.

const NEW: &[u8] =
    b"HTTP/1.1 200 OK\r\netag: \"x\"\r\ndate: Sun, 06 Nov 1994 08:49:37 GMT\r\ncache-control: max-age=60\r\nvia: 1.1 polipo\r\ncontent-length: 5\r\nconnection: keep-alive\r\n\r\n";

const WHOLE: &[u8] =
    b"HTTP/1.1 200 OK\r\netag: \"x\"\r\ndate: Sun, 06 Nov 1994 08:49:37 GMT\r\ncache-control: max-age=60\r\nage: 10\r\nvia: 1.1 polipo\r\ncontent-length: 5\r\nconnection: keep-alive\r\n\r\n";

const PART: &[u8] =
    b"HTTP/1.1 206 Partial Content\r\netag: \"x\"\r\ndate: Sun, 06 Nov 1994 08:49:37 GMT\r\ncache-control: max-age=60\r\nage: 10\r\nvia: 1.1 polipo\r\ncontent-range: bytes 1-3/5\r\ncontent-length: 3\r\nconnection: keep-alive\r\n\r\n";

const ALL: &[u8] =
    b"HTTP/1.1 206 Partial Content\r\netag: \"x\"\r\ndate: Sun, 06 Nov 1994 08:49:37 GMT\r\ncache-control: max-age=60\r\nage: 10\r\nvia: 1.1 polipo\r\ncontent-range: bytes 0-4/5\r\ncontent-length: 5\r\nconnection: keep-alive\r\n\r\n";

const SPANS: &[Course<'static>] = &[
    Course {
        name: "a span is lent over the borders of chunks",
        acts: &[
            Act::Settle(9000),
            Act::Join(0, Part::Bytes(0, 9000)),
            Act::Hear(b"GET /a HTTP/1.1\r\nRange: bytes=4090-8199\r\n\r\n"),
            Act::Begin(HEAD, Reply::Instance(4090, 8200)),
            Act::Next(Some(4090)),
            Act::SayAll(20000),
            Act::Said(&[Part::Text(HEAD), Part::Bytes(4090, 8200)]),
            Act::Next(None),
            Act::Status(0),
        ],
    },
    Course {
        name: "a head and its body are said in one through windows that change",
        acts: &[
            Act::Settle(9000),
            Act::Join(0, Part::Bytes(0, 9000)),
            Act::Hear(b"GET /a HTTP/1.1\r\nRange: bytes=4090-8199\r\n\r\n"),
            Act::Begin(HEAD, Reply::Instance(4090, 8200)),
            Act::Say(18, 18),
            Act::Next(Some(4090)),
            Act::Say(4, 4),
            Act::Next(Some(4093)),
            Act::Say(4099, 4099),
            Act::Next(Some(8192)),
            Act::Say(0, 0),
            Act::Next(Some(8192)),
            Act::Say(20000, 8),
            Act::Next(None),
        ],
    },
    Course {
        name: "sixteen chunks are said at once",
        acts: &[
            Act::Settle(81920),
            Act::Join(0, Part::Bytes(0, 16384)),
            Act::Join(16384, Part::Bytes(16384, 32768)),
            Act::Join(32768, Part::Bytes(32768, 49152)),
            Act::Join(49152, Part::Bytes(49152, 65536)),
            Act::Join(65536, Part::Bytes(65536, 81920)),
            // From the first byte.
            Act::Hear(b"GET /a HTTP/1.1\r\n\r\n"),
            Act::Begin(HEAD, Reply::Instance(0, 81920)),
            Act::Say(100000, 65536),
            Act::Next(Some(65517)),
            Act::Say(100000, 16403),
            Act::Next(None),
            // From the last but five of a chunk.
            Act::Anew,
            Act::Hear(b"GET /a HTTP/1.1\r\n\r\n"),
            Act::Begin(HEAD, Reply::Instance(4090, 81920)),
            Act::Say(100000, 61465),
            Act::Next(Some(65536)),
            Act::Say(100000, 16384),
            Act::Next(None),
            // From the first of one, without a head.
            Act::Anew,
            Act::Hear(b"GET /a HTTP/1.1\r\n\r\n"),
            Act::Begin(b"", Reply::Instance(4096, 81920)),
            Act::Say(100000, 65536),
            Act::Next(Some(69632)),
            Act::Say(100000, 12288),
            Act::Next(None),
        ],
    },
    Course {
        name: "a span waits where its next byte is not in memory",
        acts: &[
            Act::Settle(9000),
            Act::Join(0, Part::Bytes(0, 100)),
            Act::Hear(b"GET /a HTTP/1.1\r\n\r\n"),
            Act::Begin(HEAD, Reply::Instance(0, 9000)),
            Act::SayAll(64),
            Act::Said(&[Part::Text(HEAD), Part::Bytes(0, 100)]),
            Act::Next(Some(100)),
            Act::Join(100, Part::Bytes(100, 9000)),
            Act::SayAll(1000),
            Act::Said(&[Part::Bytes(100, 9000)]),
            Act::Next(None),
        ],
    },
    Course {
        name: "a hole is waited for and what is behind it follows",
        acts: &[
            Act::Settle(12288),
            Act::Join(0, Part::Bytes(0, 4096)),
            Act::Join(8192, Part::Bytes(8192, 12288)),
            Act::Hear(b"GET http://h/b HTTP/1.1\r\nHost: h\r\n\r\n"),
            Act::Begin(HEAD, Reply::Instance(0, 12288)),
            Act::SayAll(20000),
            Act::Said(&[Part::Text(HEAD), Part::Bytes(0, 4096)]),
            Act::Next(Some(4096)),
            Act::Join(4096, Part::Bytes(4096, 8192)),
            Act::SayAll(20000),
            Act::Said(&[Part::Bytes(4096, 12288)]),
            Act::Status(0),
        ],
    },
    Course {
        name: "five bytes are said whole and in parts",
        acts: &[
            Act::Settle(5),
            Act::Join(0, Part::Text(b"hello")),
            Act::Hear(b"GET http://h/a HTTP/1.1\r\nHost: h\r\n\r\n"),
            Act::Begin(NEW, Reply::Instance(0, 5)),
            Act::Say(20000, 159),
            Act::Said(&[Part::Text(NEW), Part::Text(b"hello")]),
            Act::Status(0),
            Act::Anew,
            Act::Hear(b"GET http://h/a HTTP/1.1\r\nHost: h\r\n\r\n"),
            Act::Begin(WHOLE, Reply::Instance(0, 5)),
            Act::Say(20000, 168),
            Act::Said(&[Part::Text(WHOLE), Part::Text(b"hello")]),
            Act::Status(0),
            Act::Anew,
            Act::Hear(b"GET http://h/a HTTP/1.1\r\nHost: h\r\n\r\n"),
            Act::Begin(PART, Reply::Instance(1, 4)),
            Act::Say(20000, 207),
            Act::Said(&[Part::Text(PART), Part::Text(b"ell")]),
            Act::Status(0),
            Act::Anew,
            Act::Hear(b"GET http://h/a HTTP/1.1\r\nHost: h\r\n\r\n"),
            Act::Begin(ALL, Reply::Instance(0, 5)),
            Act::Say(20000, 209),
            Act::Said(&[Part::Text(ALL), Part::Text(b"hello")]),
            Act::Status(0),
            // To HEAD.
            Act::Anew,
            Act::Hear(b"GET http://h/a HTTP/1.1\r\nHost: h\r\n\r\n"),
            Act::Begin(WHOLE, Reply::Instance(5, 5)),
            Act::Say(20000, 163),
            Act::Said(&[Part::Text(WHOLE)]),
            Act::Status(0),
        ],
    },
    Course {
        name: "a body of no bytes ends with its head",
        acts: &[
            Act::Settle(0),
            Act::Hear(b"GET /a HTTP/1.1\r\n\r\nGET /b HTTP/1.1\r\n\r\n"),
            Act::Begin(HEAD, Reply::Instance(0, 0)),
            Act::Next(None),
            Act::SayAll(20000),
            Act::Said(&[Part::Text(HEAD)]),
            Act::At(b"/b"),
        ],
    },
    Course {
        name: "a head without a body ends the reply",
        acts: &[
            Act::Settle(9000),
            Act::Hear(b"HEAD /a HTTP/1.1\r\n\r\nGET /b HTTP/1.1\r\n\r\n"),
            Act::Begin(HEAD, Reply::Instance(0, 0)),
            Act::Next(None),
            Act::SayAll(5),
            Act::Said(&[Part::Text(HEAD)]),
            Act::At(b"/b"),
        ],
    },
];

const PIPES: &[Course<'static>] = &[
    Course {
        name: "the interim answer comes before the reply and begins none",
        acts: &[
            Act::Hear(b"POST /a HTTP/1.1\r\nContent-Length: 3\r\nExpect: 100-continue\r\n\r\n"),
            Act::Interim,
            Act::Say(12, 12),
            Act::HasBegun(false),
            Act::Begin(HEAD, Reply::Page),
            // What is offered does not reach past the interim answer.
            Act::Say(100, 13),
            Act::Say(100, 19),
            Act::Said(&[Part::Text(b"HTTP/1.1 100 Continue\r\n\r\nHTTP/1.1 200 OK\r\n\r\n")]),
            Act::Status(0),
        ],
    },
    Course {
        name: "a passed reply is what its pipe brings",
        acts: &[
            Act::Hear(b"GET /a HTTP/1.1\r\n\r\nGET /b HTTP/1.1\r\n\r\n"),
            Act::Pass(true),
            Act::Put(Part::Text(b"hello")),
            Act::Begin(HEAD, Reply::Passed),
            Act::SayAll(7),
            Act::Said(&[Part::Text(HEAD), Part::Text(b"5\r\nhello\r\n")]),
            Act::At(b"/a"),
            Act::Put(Part::Text(b"you")),
            Act::Finish,
            Act::SayAll(7),
            Act::Said(&[Part::Text(b"3\r\nyou\r\n0\r\n\r\n")]),
            Act::At(b"/b"),
        ],
    },
    Course {
        name: "a pipe is said in one where it wrapped",
        acts: &[
            Act::Hear(b"GET /a HTTP/1.1\r\n\r\n"),
            Act::Pass(false),
            Act::Put(Part::Bytes(0, 20000)),
            Act::Put(Part::Bytes(20000, 40000)),
            Act::Put(Part::Bytes(40000, 60000)),
            Act::Begin(HEAD, Reply::Passed),
            Act::Say(50019, 50019),
            Act::Said(&[Part::Text(HEAD), Part::Bytes(0, 50000)]),
            Act::Put(Part::Bytes(60000, 70000)),
            Act::SayAll(20480),
            Act::Said(&[Part::Bytes(50000, 70000)]),
        ],
    },
    Course {
        name: "a pipe that is finished empty ends its reply at the next call",
        acts: &[
            Act::Hear(b"GET /a HTTP/1.0\r\n\r\n"),
            Act::Pass(false),
            Act::Begin(HEAD, Reply::Passed),
            Act::SayAll(100),
            Act::Said(&[Part::Text(HEAD)]),
            Act::Finish,
            Act::At(b"/a"),
            Act::TakeNone,
            Act::Status(0),
        ],
    },
];

const WINDOWS: &[Trial<'static>] = &[
    Trial {
        name: "a page is said in odd pieces",
        from: 1,
        to: 101,
        before: &[],
        acts: &[
            Act::Anew,
            Act::Hear(b"GET /a HTTP/1.1\r\n\r\nGET /b HTTP/1.1\r\n\r\n"),
            Act::Begin(HEAD, Reply::Page),
            Act::HasBegun(true),
            Act::Next(None),
            Act::SayBy,
            Act::Said(&[Part::Text(HEAD)]),
            Act::HasBegun(false),
            Act::At(b"/b"),
        ],
    },
    Trial {
        name: "a head and its body are said in one through windows of any size",
        from: 1,
        to: 4131,
        before: &[Act::Settle(9000), Act::Join(0, Part::Bytes(0, 9000))],
        acts: &[
            Act::Anew,
            Act::Hear(b"GET /a HTTP/1.1\r\nRange: bytes=4090-8199\r\n\r\n"),
            Act::Begin(HEAD, Reply::Instance(4090, 8200)),
            Act::Next(Some(4090)),
            Act::SayBy,
            Act::Said(&[Part::Text(HEAD), Part::Bytes(4090, 8200)]),
            Act::Next(None),
            Act::Status(0),
        ],
    },
];

#[test]
fn replies_are_said_as_they_are_at_hand(rt: HostRuntime) -> Result<(), Fail> {
    says_nothing(&rt, unlike(rt.alloc(), SPANS))?;
    says_nothing(&rt, unlike(rt.alloc(), PIPES))
}

#[test]
fn replies_are_said_through_windows_of_any_size(rt: HostRuntime) -> Result<(), Fail> {
    says_nothing(&rt, unlike_in_trials(rt.alloc(), WINDOWS))
}
