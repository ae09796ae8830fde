// Which chunk goes.
use crate::saying::says_nothing;
use crate::steps::{Course, Step, unlike};
use std::test::Fail;

const A: &[u8] = b"http://h/a";

const X: &[u8] = b"\"x\"";

const EVICTIONS: &[Course<'static>] = &[
    Course {
        name: "a pinned chunk stays and others go until the floor",
        chunks: 4096,
        steps: &[
            Step::Settle(A, X, 12582912),
            Step::Fill(0, 3072),
            Step::Victims(0, 0, 2560, 512),
            Step::Used(2560),
            Step::Piece(0, 0, b"a"),
            Step::Piece(0, 4096, b""),
            Step::Piece(0, 2101248, b"a"),
        ],
    },
    Course {
        name: "the victim is the least recently used chunk",
        chunks: 512,
        steps: &[
            Step::Settle(A, X, 8192),
            Step::Add(0, 4096, b"a", 1, 0),
            Step::Add(0, 0, b"a", 1, 0),
            Step::Evict(0, 2, 2, None),
            Step::Evict(0, 1, 0, Some((0, 0))),
            Step::Evict(0, 1, 0, None),
            Step::Used(1),
        ],
    },
    Course {
        name: "what was used up and down 256 times is oldest at its end",
        chunks: 65536,
        steps: &[
            Step::Settle(A, b"\"v\"", 268435456),
            Step::Fill(0, 65536),
            Step::TouchUpAndDown(0, 65536, 128),
            Step::Oldest(0, 65535),
        ],
    },
];

#[test]
fn the_least_recently_used_chunk_goes(rt: HostRuntime) -> Result<(), Fail> {
    says_nothing(&rt, unlike(rt.alloc(), EVICTIONS))
}
