// Files under the names of entries that are none: they are left as they are, and each page is fetched as if there was nothing.
use crate::folders::{Bytes, File, Folder, Visit, unlike};
use crate::saying::says_nothing;
use pp_play::{ASK, ASK_B, GET, GET_B, REPLY_HELD};
use pp_world::{Decision, Name};
use std::test::Fail;

/// The MD5 digests of the keys `http://h/a` and `http://h/b`, in lower-case hexadecimal digits, and of the first in upper case.
pub(crate) const A_NAME: Name = *b"2ce7276502725c281e6d5ae4e55aed55";

const B_NAME: Name = *b"9eb7218839b91c098ab0e2d8c080c379";

const UPPER_NAME: Name = *b"2CE7276502725C281E6D5AE4E55AED55";

/// The heads of entries of these keys, with a body of five bytes.
pub(crate) const A_HEAD: &[u8] =
    b"HTTP/1.1 200 OK\r\netag: \"x\"\r\ndate: Sun, 06 Nov 1994 08:49:37 GMT\r\ncache-control: max-age=60\r\nX-Polipo-Location: http://h/a\r\nX-Polipo-Date: 784111777\r\nX-Polipo-Age: 0\r\nX-Polipo-Length: 5\r\nX-Polipo-Body-Offset: 12288\r\n\r\n";

pub(crate) const B_HEAD: &[u8] =
    b"HTTP/1.1 200 OK\r\netag: \"x\"\r\ndate: Sun, 06 Nov 1994 08:49:37 GMT\r\ncache-control: max-age=60\r\nX-Polipo-Location: http://h/b\r\nX-Polipo-Date: 784111777\r\nX-Polipo-Age: 0\r\nX-Polipo-Length: 5\r\nX-Polipo-Body-Offset: 12288\r\n\r\n";

pub(crate) const ONLY: &[u8] =
    b"GET http://h/a HTTP/1.1\r\nHost: h\r\nCache-Control: only-if-cached\r\n\r\n";

pub(crate) const ONLY_B: &[u8] =
    b"GET http://h/b HTTP/1.1\r\nHost: h\r\nCache-Control: only-if-cached\r\n\r\n";

pub(crate) const PAGE_504: &[u8] =
    b"HTTP/1.1 504 Gateway Timeout\r\ncontent-type: text/plain\r\ncontent-length: 20\r\nconnection: keep-alive\r\n\r\n504 Gateway Timeout\n";

pub(crate) const OTHER: &[u8] =
    b"HTTP/1.1 200 OK\r\ncache-control: no-store\r\nvia: 1.1 polipo\r\ncontent-length: 5\r\nconnection: keep-alive\r\n\r\nother";

const FOREIGN: &[Folder] = &[
    Folder {
        name: "the entry of another key",
        files: &[File {
            name: A_NAME,
            bytes: Bytes::Entry(B_HEAD, b"hello"),
        }],
    },
    Folder {
        name: "two entries under the names of each other",
        files: &[
            File {
                name: A_NAME,
                bytes: Bytes::Entry(B_HEAD, b"hello"),
            },
            File {
                name: B_NAME,
                bytes: Bytes::Entry(A_HEAD, b"hello"),
            },
        ],
    },
    Folder {
        name: "an empty file",
        files: &[File {
            name: A_NAME,
            bytes: Bytes::Text(b""),
        }],
    },
    Folder {
        name: "a file of five bytes",
        files: &[File {
            name: A_NAME,
            bytes: Bytes::Text(b"hello"),
        }],
    },
    Folder {
        name: "a head of zeros, the open gate of a chunk, and a body",
        files: &[File {
            name: A_NAME,
            bytes: Bytes::Entry(b"", b"hello"),
        }],
    },
    Folder {
        name: "a response as it came, and notes",
        files: &[
            File {
                name: A_NAME,
                bytes: Bytes::Text(
                    b"HTTP/1.1 200 OK\r\nETag: \"x\"\r\nCache-Control: max-age=60\r\nContent-Length: 5\r\n\r\nhello",
                ),
            },
            File {
                name: B_NAME,
                bytes: Bytes::Text(b"notes of my own\n"),
            },
        ],
    },
    Folder {
        name: "an entry that lacks its body, or all but its head",
        files: &[
            File {
                name: A_NAME,
                bytes: Bytes::Entry(A_HEAD, b"hell"),
            },
            File {
                name: B_NAME,
                bytes: Bytes::Text(B_HEAD),
            },
        ],
    },
    Folder {
        name: "an entry with a byte behind its body",
        files: &[File {
            name: A_NAME,
            bytes: Bytes::Entry(A_HEAD, b"hello!"),
        }],
    },
    Folder {
        name: "an entry under a name that none has",
        files: &[File {
            name: UPPER_NAME,
            bytes: Bytes::Entry(A_HEAD, b"hello"),
        }],
    },
];

/// Neither page is held: the origin is asked for it, without a condition.
const FETCHED: &[Visit] = &[
    Visit {
        request: GET,
        decision: Decision::Fetch,
        asked: ASK,
        said: OTHER,
    },
    Visit {
        request: GET_B,
        decision: Decision::Fetch,
        asked: ASK_B,
        said: OTHER,
    },
    Visit {
        request: ONLY,
        decision: Decision::Refuse(504),
        asked: b"",
        said: PAGE_504,
    },
    Visit {
        request: ONLY_B,
        decision: Decision::Refuse(504),
        asked: b"",
        said: PAGE_504,
    },
];

#[test]
fn a_file_that_is_no_entry_is_left_and_its_page_is_fetched(rt: HostRuntime) -> Result<(), Fail> {
    says_nothing(&rt, unlike(rt.alloc(), FOREIGN, FETCHED))
}

/// An entry beside a file that is none.
const BESIDE: &[Folder] = &[Folder {
    name: "an entry, and another of its key under another name",
    files: &[
        File {
            name: A_NAME,
            bytes: Bytes::Entry(A_HEAD, b"hello"),
        },
        File {
            name: B_NAME,
            bytes: Bytes::Entry(A_HEAD, b"other"),
        },
    ],
}];

const FOUND: &[Visit] = &[
    Visit {
        request: GET,
        decision: Decision::Hit(0, 5),
        asked: b"",
        said: REPLY_HELD,
    },
    Visit {
        request: ONLY,
        decision: Decision::Hit(0, 5),
        asked: b"",
        said: REPLY_HELD,
    },
    Visit {
        request: GET_B,
        decision: Decision::Fetch,
        asked: ASK_B,
        said: OTHER,
    },
    Visit {
        request: ONLY_B,
        decision: Decision::Refuse(504),
        asked: b"",
        said: PAGE_504,
    },
];

#[test]
fn an_entry_beside_a_file_that_is_none_is_found(rt: HostRuntime) -> Result<(), Fail> {
    says_nothing(&rt, unlike(rt.alloc(), BESIDE, FOUND))
}
