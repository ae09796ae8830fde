// Rows by key, the versions that they replaced, and their bytes in memory (RFC 7233, section 4.3).
use crate::saying::says_nothing;
use crate::steps::{Course, Step, unlike};
use std::test::Fail;

const A: &[u8] = b"http://h/a";

const B: &[u8] = b"http://h/b";

const X: &[u8] = b"\"x\"";

const Y: &[u8] = b"\"y\"";

const INSTANCES: &[Course<'static>] = &[
    Course {
        name: "a replaced version stays while it is followed",
        chunks: 512,
        steps: &[
            Step::Settle(A, X, 5),
            Step::Add(0, 0, b"first", 5, 0),
            Step::Follow(0),
            Step::Follow(0),
            Step::Settle(A, Y, 6),
            Step::Add(1, 0, b"second", 6, 0),
            Step::Current(A, Some(1)),
            Step::Rows(1),
            Step::Leave(0),
            Step::Piece(0, 0, b"first"),
            Step::Leave(0),
            Step::IsGone(0, true),
            Step::Piece(1, 0, b"second"),
        ],
    },
    Course {
        name: "a version that nobody follows is out at once",
        chunks: 512,
        steps: &[
            Step::Settle(A, X, 5),
            Step::Add(0, 0, b"first", 5, 0),
            Step::IsGone(0, false),
            Step::Settle(A, Y, 6),
            Step::IsGone(0, true),
            Step::Used(0),
            Step::Retire(B),
            Step::Current(A, Some(1)),
            Step::Retire(A),
            Step::Current(A, None),
            Step::Rows(0),
        ],
    },
    Course {
        name: "two lives in a slot are two instances",
        chunks: 512,
        steps: &[
            Step::Settle(A, X, 5),
            Step::Forget(0),
            Step::Settle(A, X, 5),
            Step::IsGone(0, true),
            Step::Current(A, Some(1)),
        ],
    },
    Course {
        name: "the idle row is the least recently used",
        chunks: 512,
        steps: &[
            Step::Idle(&[], None),
            Step::Settle(A, X, 5),
            Step::Settle(B, X, 5),
            Step::Idle(&[], Some(0)),
            Step::Mark(0),
            Step::Idle(&[], Some(1)),
            Step::Follow(1),
            Step::Idle(&[0], None),
        ],
    },
    Course {
        name: "bytes join where they begin a chunk or follow one in memory",
        chunks: 512,
        steps: &[
            Step::Settle(A, X, 9000),
            Step::AddMany(0, 0, 4096, 4096, 0),
            Step::AddMany(0, 8192, 808, 808, 0),
            Step::Add(0, 4100, b"gaps", 0, 4),
            Step::Add(0, 4000, b"held, then new", 0, 14),
            Step::Hole(0, 0, (4096, 8192)),
            Step::Hole(0, 5000, (5000, 8192)),
            Step::Hole(0, 8192, (9000, 9000)),
            Step::Hole(0, 9001, (9000, 9000)),
            Step::Piece(0, 8999, b"a"),
            Step::Piece(0, 4096, b""),
        ],
    },
    Course {
        name: "adding stops where no chunk is free",
        chunks: 512,
        steps: &[
            Step::Settle(A, X, 1 << 30),
            Step::Fill(0, 512),
            Step::Stop(0, 2097152),
            Step::Drop(0, 3),
            Step::Used(511),
            Step::Forget(0),
            Step::Used(0),
        ],
    },
    Course {
        name: "a touched chunk is the most recently used",
        chunks: 512,
        steps: &[
            Step::Settle(A, X, 5000),
            Step::Add(0, 4096, b"s", 1, 0),
            Step::Add(0, 0, b"first", 5, 0),
            Step::Oldest(0, 1),
            Step::Touch(0, 1),
            Step::Oldest(0, 0),
            Step::Add(0, 4097, b"econd", 5, 0),
            Step::Piece(0, 4096, b"second"),
            Step::Piece(0, 4097, b"econd"),
        ],
    },
    Course {
        name: "a refresh takes over what the response says anew",
        chunks: 512,
        steps: &[
            Step::Settle(A, X, 5),
            Step::Shown(0, &[(b"date", b"Sun, 06 Nov 1994 08:49:37 GMT")], 784111777),
            Step::Refresh(0, 784111780),
            Step::Shown(
                0,
                &[
                    (b"date", b"Sun, 06 Nov 1994 08:49:40 GMT"),
                    (b"cache-control", b"max-age=5"),
                ],
                784111780,
            ),
            Step::Current(A, Some(0)),
        ],
    },
];

#[test]
fn instances_are_settled_followed_and_filled(rt: HostRuntime) -> Result<(), Fail> {
    says_nothing(&rt, unlike(rt.alloc(), INSTANCES))
}
