// The course that is disturbed: of a page parts are asked for, then the whole while it is replaced by another, and then that.
//
// All clients come before anything is asked, so that they have the numbers 1 to 5, and connections to the origin those from 6 on.
// What the origin answers comes on the first connection that it has, and on a later one where that was lost.
use pp_play::{Act, Part, T};
use pp_world::Cause;

/// The words of the program, by which each chunk of the page is kept alone, or all of it at once. It reads a file of settings,
/// which is empty, and has the least memory that it may, so that it starts soon.
pub const ALONE: &[&str] = &[
    "-c",
    "polipo.conf",
    "hostConnections=4",
    "chunkLowMark=512",
    "chunkHighMark=512",
    "chunkCriticalMark=512",
    "diskRun=1",
];

pub const AT_ONCE: &[&str] = &[
    "-c",
    "polipo.conf",
    "hostConnections=4",
    "chunkLowMark=512",
    "chunkHighMark=512",
    "chunkCriticalMark=512",
    "diskRun=4",
];

/// The page /b has three chunks: one of a, one that is never seen, one of c. Then it is "new".
const GET_A: &[u8] = b"GET http://h/b HTTP/1.1\r\nHost: h\r\nRange: bytes=0-4095\r\n\r\n";

const GET_C: &[u8] = b"GET http://h/b HTTP/1.1\r\nHost: h\r\nRange: bytes=8192-12287\r\n\r\n";

const GET_ALL: &[u8] = b"GET http://h/b HTTP/1.1\r\nHost: h\r\n\r\n";

const HEAD_A: &[u8] =
    b"HTTP/1.1 206 Partial Content\r\nDate: Sun, 06 Nov 1994 08:49:37 GMT\r\nETag: \"x\"\r\nCache-Control: max-age=60\r\nContent-Range: bytes 0-4095/12288\r\nContent-Length: 4096\r\n\r\n";

const HEAD_C: &[u8] =
    b"HTTP/1.1 206 Partial Content\r\nDate: Sun, 06 Nov 1994 08:49:37 GMT\r\nETag: \"x\"\r\nCache-Control: max-age=60\r\nContent-Range: bytes 8192-12287/12288\r\nContent-Length: 4096\r\n\r\n";

const NEW: &[u8] =
    b"HTTP/1.1 200 OK\r\nETag: \"y\"\r\nCache-Control: max-age=60\r\nContent-Length: 3\r\n\r\nnew";

/// The connections to the origin.
const FIRST: u64 = 6;

const SECOND: u64 = 7;

const THIRD: u64 = 8;

pub const COURSE: &[Act<'static>] = &[
    Act::Tick(T),
    Act::Connect,
    Act::Connect,
    Act::Connect,
    Act::Connect,
    Act::Connect,
    // The first chunk.
    Act::Say(1, GET_A),
    Act::Reach(FIRST),
    Act::Answer(FIRST, HEAD_A),
    Act::Fill(FIRST, b'a', 4_096),
    Act::Reach(SECOND),
    Act::Answer(SECOND, HEAD_A),
    Act::Fill(SECOND, b'a', 4_096),
    // The third one.
    Act::Say(2, GET_C),
    Act::Reach(FIRST),
    Act::Answer(FIRST, HEAD_C),
    Act::Fill(FIRST, b'c', 4_096),
    Act::Reach(SECOND),
    Act::Answer(SECOND, HEAD_C),
    Act::Fill(SECOND, b'c', 4_096),
    // The whole, of which the second one is missing, and is there no more.
    Act::Say(3, GET_ALL),
    Act::Reach(FIRST),
    Act::Answer(FIRST, NEW),
    Act::Reach(SECOND),
    Act::Answer(SECOND, NEW),
    // What is there then, and once more.
    Act::Say(4, GET_ALL),
    Act::Answer(FIRST, NEW),
    Act::Reach(SECOND),
    Act::Answer(SECOND, NEW),
    Act::Say(5, GET_ALL),
    Act::Reach(SECOND),
    Act::Answer(SECOND, NEW),
    Act::Reach(THIRD),
    Act::Answer(THIRD, NEW),
];

/// The replies to who asked for it: no age is told where its own ask brought what it is said (RFC 2616, section 13.2.3).
const REPLY_HEAD_A: &[u8] =
    b"HTTP/1.1 206 Partial Content\r\netag: \"x\"\r\ndate: Sun, 06 Nov 1994 08:49:37 GMT\r\ncache-control: max-age=60\r\nvia: 1.1 polipo\r\ncontent-range: bytes 0-4095/12288\r\ncontent-length: 4096\r\nconnection: keep-alive\r\n\r\n";

const REPLY_HEAD_C: &[u8] =
    b"HTTP/1.1 206 Partial Content\r\netag: \"x\"\r\ndate: Sun, 06 Nov 1994 08:49:37 GMT\r\ncache-control: max-age=60\r\nvia: 1.1 polipo\r\ncontent-range: bytes 8192-12287/12288\r\ncontent-length: 4096\r\nconnection: keep-alive\r\n\r\n";

const REPLY_HEAD_ALL: &[u8] =
    b"HTTP/1.1 200 OK\r\netag: \"x\"\r\ndate: Sun, 06 Nov 1994 08:49:37 GMT\r\ncache-control: max-age=60\r\nage: 0\r\nvia: 1.1 polipo\r\ncontent-length: 12288\r\nconnection: keep-alive\r\n\r\n";

const REPLY_NEW: &[u8] =
    b"HTTP/1.1 200 OK\r\netag: \"y\"\r\ndate: Sun, 06 Nov 1994 08:49:37 GMT\r\ncache-control: max-age=60\r\nvia: 1.1 polipo\r\ncontent-length: 3\r\nconnection: keep-alive\r\n\r\nnew";

const REPLY_NEW_HELD: &[u8] =
    b"HTTP/1.1 200 OK\r\netag: \"y\"\r\ndate: Sun, 06 Nov 1994 08:49:37 GMT\r\ncache-control: max-age=60\r\nage: 0\r\nvia: 1.1 polipo\r\ncontent-length: 3\r\nconnection: keep-alive\r\n\r\nnew";

/// What a client may be said, and why it is cut behind that, if it is.
pub struct Reply {
    pub parts: &'static [Part<'static>],
    pub cause: Option<Cause>,
}

/// What this client may be said, and what else where memory is refused.
pub struct MaySay {
    pub client: u64,
    pub replies: &'static [Reply],
    pub scarce: &'static [Reply],
}

/// The first chunk of the page that is replaced, and no more of it: the two are never mixed.
const SUPERSEDED: Reply = Reply {
    parts: &[Part::Text(REPLY_HEAD_ALL), Part::Fill(b'a', 4_096)],
    cause: Some(Cause::Superseded),
};

/// What each client may be said, whatever fails once: an origin is asked three times, so nobody is told that it was lost. Who
/// asks for the whole when its first chunk never came waits, and gets what is there then.
pub const MAY_BE_SAID: &[MaySay] = &[
    MaySay {
        client: 1,
        replies: &[Reply {
            parts: &[Part::Text(REPLY_HEAD_A), Part::Fill(b'a', 4_096)],
            cause: None,
        }],
        scarce: &[],
    },
    MaySay {
        client: 2,
        replies: &[Reply {
            parts: &[Part::Text(REPLY_HEAD_C), Part::Fill(b'c', 4_096)],
            cause: None,
        }],
        scarce: &[],
    },
    MaySay {
        client: 3,
        replies: &[
            SUPERSEDED,
            Reply {
                parts: &[Part::Text(REPLY_NEW)],
                cause: None,
            },
        ],
        scarce: &[],
    },
    MaySay {
        client: 4,
        replies: &[
            Reply {
                parts: &[Part::Text(REPLY_NEW_HELD)],
                cause: None,
            },
            SUPERSEDED,
        ],
        // No memory was there to hold what the one before it had brought, so it is fetched once more.
        scarce: &[Reply {
            parts: &[Part::Text(REPLY_NEW)],
            cause: None,
        }],
    },
    MaySay {
        client: 5,
        replies: &[Reply {
            parts: &[Part::Text(REPLY_NEW_HELD)],
            cause: None,
        }],
        scarce: &[],
    },
];
