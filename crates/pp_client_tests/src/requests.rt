// What is current, by what was heard.
use crate::acts::{Act, Course, Trial, unlike, unlike_in_trials};
use crate::pipelined::Pieces;
use crate::saying::says_nothing;
use pp_text::OutOfMemory;
use std::test::Fail;

const REQUESTS: &[Course<'static>] = &[
    Course {
        name: "what stands is a request or refused with its status",
        acts: &[
            Act::Hear(b""),
            Act::Status(0),
            Act::Anew,
            Act::Hear(b"G"),
            Act::Status(1),
            Act::Anew,
            Act::Hear(b"GET /a HTTP/1.1\r\nHost: h\r\n"),
            Act::Status(1),
            // Empty lines may stand before the request line (RFC 2616, section 4.1).
            Act::Anew,
            Act::Hear(b"\r\n"),
            Act::Status(1),
            Act::Anew,
            Act::Hear(b"GET /a HTTP/1.1\r\nHost: h\r\n\r\n"),
            Act::Status(200),
            Act::Anew,
            Act::Hear(b"GET /a HTTP/2.0\r\n\r\n"),
            Act::Status(400),
            Act::Anew,
            Act::Hear(b"POST /a HTTP/1.1\r\nContent-Length: 3\r\nContent-Length: 3\r\n\r\n"),
            Act::Status(200),
            Act::Anew,
            Act::Hear(b"POST /a HTTP/1.1\r\nContent-Length: 3\r\nContent-Length: 4\r\n\r\n"),
            Act::Status(400),
            Act::Anew,
            Act::Hear(b"POST /a HTTP/1.1\r\nContent-Length: x\r\n\r\n"),
            Act::Status(400),
            // Section 3.6: identity is no coding.
            Act::Anew,
            Act::Hear(b"POST /a HTTP/1.1\r\nTransfer-Encoding: identity\r\n\r\n"),
            Act::Status(200),
            // Section 10.4.12.
            Act::Anew,
            Act::Hear(
                b"POST /a HTTP/1.1\r\nTransfer-Encoding: chunked\r\n\r\n2\r\nok\r\n0\r\n\r\n",
            ),
            Act::Status(411),
        ],
    },
    Course {
        name: "a head that fills the room is too long",
        acts: &[
            Act::Hear(b"GET /a HTTP/1.1\r\nA: "),
            Act::HearTimes(16256, b"a"),
            Act::Room(108),
            Act::Status(1),
            Act::HearTimes(108, b"a"),
            Act::Room(0),
            Act::Status(431),
            Act::Answer,
            Act::Room(16384),
            Act::Status(0),
        ],
    },
    Course {
        name: "a head has at most 102 lines",
        acts: &[
            Act::Hear(b"GET http://h/a HTTP/1.1\r\n"),
            Act::HearTimes(100, b"a: b\r\n"),
            Act::Status(1),
            Act::Hear(b"\r\n"),
            Act::Status(200),
            Act::Anew,
            Act::Hear(b"GET http://h/a HTTP/1.1\r\n"),
            Act::HearTimes(101, b"a: b\r\n"),
            Act::Status(431),
            Act::Hear(b"\r\n"),
            Act::Status(431),
        ],
    },
    Course {
        name: "behind what is no request none is read",
        acts: &[
            Act::Hear(b"POST /a HTTP/1.1\r\nTransfer-Encoding: chunked\r\n\r\n"),
            Act::Hear(b"GET /b HTTP/1.1\r\n\r\n"),
            Act::Status(411),
            Act::Answer,
            Act::Hear(b"GET /c HTTP/1.1\r\n\r\n"),
            Act::Status(0),
            Act::Anew,
            Act::Hear(b"POST /a HTTP/1.1\r\nContent-Length: x\r\n\r\n"),
            Act::Hear(b"GET /b HTTP/1.1\r\n\r\n"),
            Act::Status(400),
            Act::Answer,
            Act::Hear(b"GET /c HTTP/1.1\r\n\r\n"),
            Act::Status(0),
            Act::Anew,
            Act::Hear(b"no request\r\n"),
            Act::Hear(b"GET /b HTTP/1.1\r\n\r\n"),
            Act::Status(400),
            Act::Answer,
            Act::Hear(b"GET /c HTTP/1.1\r\n\r\n"),
            Act::Status(0),
        ],
    },
    Course {
        name: "pipelined requests are answered in their order in pieces of many sizes",
        acts: &[
            Act::Pipelined(Pieces::Sizes(&[1, 20, 300, 2, 7, 64, 19, 150])),
            Act::Status(0),
        ],
    },
];

const PIPELINED: &[Trial<'static>] = &[
    Trial {
        name: "pipelined requests are answered in their order wherever the bytes are cut",
        from: 0,
        to: 1000,
        before: &[],
        acts: &[Act::Anew, Act::PipelinedInTwo, Act::Status(0)],
    },
    Trial {
        name: "pipelined requests are answered in their order byte by byte and in pieces of any size",
        from: 1,
        to: 100,
        before: &[],
        acts: &[Act::Anew, Act::PipelinedBy, Act::Status(0)],
    },
];

#[test]
fn requests_are_read_in_their_order(rt: HostRuntime) -> Result<(), Fail> {
    says_nothing(&rt, unlike(rt.alloc(), REQUESTS))?;
    says_nothing(&rt, unlike_in_trials(rt.alloc(), PIPELINED))
}
