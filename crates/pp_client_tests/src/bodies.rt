// Bodies of requests: heard, taken and dropped.
use crate::acts::{Act, Course, unlike};
use crate::saying::says_nothing;
use pp_text::OutOfMemory;
use std::test::Fail;

const BODIES: &[Course<'static>] = &[
    Course {
        name: "a body is taken in part and its rest is dropped",
        acts: &[
            Act::Hear(b"POST /a HTTP/1.1\r\nContent-Length: 10\r\n\r\n0123"),
            Act::At(b"/a"),
            Act::Body(b"0123"),
            Act::Room(16380),
            Act::TakeBody(3),
            Act::Body(b"3"),
            Act::Room(16383),
            Act::Hear(b"456"),
            Act::Body(b"3456"),
            Act::TakeBody(1),
            Act::DropBody,
            Act::Body(b""),
            Act::Room(16384),
            Act::At(b"/a"),
            Act::Hear(b"789GET /b HTTP/1.1\r\n\r\n"),
            Act::Body(b""),
            Act::Room(16365),
            Act::At(b"/a"),
            Act::Answer,
            Act::At(b"/b"),
            Act::Room(16384),
        ],
    },
    Course {
        name: "what follows a body is not lent with it",
        acts: &[
            Act::Hear(
                b"POST /a HTTP/1.1\r\nContent-Length: 2\r\n\r\nabPOST /b HTTP/1.1\r\nContent-Length: 2\r\n\r\ncd",
            ),
            Act::Body(b"ab"),
            Act::TakeBody(2),
            Act::Body(b""),
            Act::At(b"/a"),
            Act::Answer,
            Act::At(b"/b"),
            Act::Body(b"cd"),
        ],
    },
    Course {
        name: "a body that nobody read is dropped behind its reply",
        acts: &[
            Act::Hear(b"POST /a HTTP/1.1\r\nContent-Length: 40\r\n\r\nGET /x"),
            Act::Answer,
            Act::Status(0),
            Act::Hear(b" HTTP/1.1\r\n\r\n"),
            Act::Status(0),
            Act::Hear(b"GET /y HTTP/1.1\r\n\r\n01GE"),
            Act::Status(1),
            Act::Hear(b"T /b HTTP/1.1\r\n\r\n"),
            Act::At(b"/b"),
        ],
    },
    Course {
        name: "a long body goes through in pieces",
        acts: &[
            Act::Hear(b"PUT /a HTTP/1.1\r\nContent-Length: 204800\r\n\r\n"),
            Act::Stream(50, 198608),
            Act::BodyLen(6192),
            Act::Hear(b"GET /b HTTP/1.1\r\n\r\n"),
            Act::BodyLen(6192),
            Act::Answer,
            Act::At(b"/b"),
        ],
    },
];

#[test]
fn bodies_are_taken_or_dropped(rt: HostRuntime) -> Result<(), Fail> {
    says_nothing(&rt, unlike(rt.alloc(), BODIES))
}
