// Answers that bring nothing of what was asked for, three times (RFC 7233, section 4.2).
use crate::saying::says_nothing;
use pp_play::{Act, Exchange, Pace, Part, Step, T, Wanted, unlike_at};
use pp_world::{Cause, Decision};
use std::test::Fail;

/// The page /b has two chunks and five bytes: of a, of b, and "hello". Its first chunk is fetched, and then the whole is asked for.
const FIRST: &[u8] = b"GET http://h/b HTTP/1.1\r\nHost: h\r\nRange: bytes=0-4095\r\n\r\n";

const WHOLE: &[u8] = b"GET http://h/b HTTP/1.1\r\nHost: h\r\n\r\n";

const LAST_IF_HELD: &[u8] =
    b"GET http://h/b HTTP/1.1\r\nHost: h\r\nCache-Control: only-if-cached\r\nRange: bytes=8192-8196\r\n\r\n";

const FIRST_HEAD: &[u8] =
    b"HTTP/1.1 206 Partial Content\r\nDate: Sun, 06 Nov 1994 08:49:37 GMT\r\nETag: \"x\"\r\nCache-Control: max-age=60\r\nContent-Range: bytes 0-4095/8197\r\nContent-Length: 4096\r\n\r\n";

const SECOND_HEAD: &[u8] =
    b"HTTP/1.1 206 Partial Content\r\nDate: Sun, 06 Nov 1994 08:49:37 GMT\r\nETag: \"x\"\r\nCache-Control: max-age=60\r\nContent-Range: bytes 4096-8191/8197\r\nContent-Length: 4096\r\n\r\n";

const LAST: &[u8] =
    b"HTTP/1.1 206 Partial Content\r\nDate: Sun, 06 Nov 1994 08:49:37 GMT\r\nETag: \"x\"\r\nCache-Control: max-age=60\r\nContent-Range: bytes 8192-8196/8197\r\nContent-Length: 5\r\n\r\nhello";

const NO_SPAN: &[u8] =
    b"HTTP/1.1 206 Partial Content\r\nETag: \"x\"\r\nContent-Range: bytes 5-4/9\r\nContent-Length: 0\r\n\r\n";

/// What the origin is asked: for the first chunk, for all behind it, and for what is missing once the last bytes are there.
const ASK_FIRST: &[u8] =
    b"GET /b HTTP/1.1\r\nhost: h\r\nrange: bytes=0-4095\r\nvia: 1.1 polipo\r\n\r\n";

const ASK_REST: &[u8] =
    b"GET /b HTTP/1.1\r\nhost: h\r\nrange: bytes=4096-8196\r\nif-range: \"x\"\r\nvia: 1.1 polipo\r\n\r\n";

const ASK_SECOND: &[u8] =
    b"GET /b HTTP/1.1\r\nhost: h\r\nrange: bytes=4096-8191\r\nif-range: \"x\"\r\nvia: 1.1 polipo\r\n\r\n";

const WHOLE_REPLY_HEAD: &[u8] =
    b"HTTP/1.1 200 OK\r\netag: \"x\"\r\ndate: Sun, 06 Nov 1994 08:49:37 GMT\r\ncache-control: max-age=60\r\nage: 0\r\nvia: 1.1 polipo\r\ncontent-length: 8197\r\nconnection: keep-alive\r\n\r\n";

const LAST_REPLY: &[u8] =
    b"HTTP/1.1 206 Partial Content\r\netag: \"x\"\r\ndate: Sun, 06 Nov 1994 08:49:37 GMT\r\ncache-control: max-age=60\r\nage: 0\r\nvia: 1.1 polipo\r\ncontent-range: bytes 8192-8196/8197\r\ncontent-length: 5\r\nconnection: keep-alive\r\n\r\nhello";

/// The first chunk is there, a client has it of the whole, and the rest is asked for.
macro_rules! behind_the_first {
    ($($then:expr),*) => {
        &[
            Act::Tick(T),
            Act::Connect,
            Act::Say(1, FIRST),
            Act::Reach(2),
            Act::Answer(2, FIRST_HEAD),
            Act::Fill(2, b'a', 4_096),
            Act::Connect,
            Act::Say(3, WHOLE),
            $($then),*
        ]
    };
}

const USELESS: &[Exchange<'static>] = &[
    Exchange {
        name: "a span that ends before it begins: its client is cut",
        acts: behind_the_first!(
            Act::Answer(2, NO_SPAN),
            Act::Answer(2, NO_SPAN),
            Act::Answer(2, NO_SPAN)
        ),
        wanted: &[
            Wanted::Asked(2, &[ASK_FIRST, ASK_REST, ASK_REST, ASK_REST]),
            Wanted::Said(3, &[Part::Text(WHOLE_REPLY_HEAD), Part::Fill(b'a', 4_096)]),
            Wanted::Cut(3, Cause::Origin),
            Wanted::Count(Step::Dialled(80), 1),
        ],
    },
    Exchange {
        name: "another span: it is held, and its client is cut all the same",
        acts: behind_the_first!(
            Act::Answer(2, LAST),
            Act::Answer(2, LAST),
            Act::Connect,
            Act::Say(4, LAST_IF_HELD),
            Act::Answer(2, LAST)
        ),
        wanted: &[
            Wanted::Asked(2, &[ASK_FIRST, ASK_REST, ASK_SECOND, ASK_SECOND]),
            Wanted::Said(3, &[Part::Text(WHOLE_REPLY_HEAD), Part::Fill(b'a', 4_096)]),
            Wanted::Cut(3, Cause::Origin),
            Wanted::Taken(4, Decision::Hit(8_192, 8_197)),
            Wanted::Said(4, &[Part::Text(LAST_REPLY)]),
            Wanted::Count(Step::Dialled(80), 1),
        ],
    },
    Exchange {
        name: "another span twice, and then the one that was asked for: nobody is cut",
        acts: behind_the_first!(
            Act::Answer(2, LAST),
            Act::Answer(2, LAST),
            Act::Answer(2, SECOND_HEAD),
            Act::Fill(2, b'b', 4_096)
        ),
        wanted: &[
            Wanted::Asked(2, &[ASK_FIRST, ASK_REST, ASK_SECOND, ASK_SECOND]),
            Wanted::Said(
                3,
                &[
                    Part::Text(WHOLE_REPLY_HEAD),
                    Part::Fill(b'a', 4_096),
                    Part::Fill(b'b', 4_096),
                    Part::Text(b"hello"),
                ],
            ),
            Wanted::Count(Step::Cut(Cause::Origin), 0),
            Wanted::Count(Step::Dialled(80), 1),
        ],
    },
];

#[test]
fn three_answers_that_bring_nothing_cut_their_client(rt: HostRuntime) -> Result<(), Fail> {
    says_nothing(&rt, unlike_at(rt.alloc(), Pace::Whole, USELESS))
}
