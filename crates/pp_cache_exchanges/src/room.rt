// Which chunks leave memory, and which stay: the least recently used go, but none that a client or an exchange needs next.
use crate::crowds::{Crowd, Run, unlike};
use crate::saying::says_nothing;
use std::test::Fail;

/// From 3,072 chunks on some go, until 2,560 are used. With those of the two pages there are 256 clients, as many as may be.
const CROWDS: &[Crowd] = &[
    Crowd {
        name: "chunks go once 3,072 are used, until 2,560 are",
        words: &["hostConnections=4", "pipelineAsks=1"],
        chunks: 2_816,
        followers: 254,
        apart: 2,
        more: 256,
        left: &[
            Run {
                first: 1,
                apart: 2,
                count: 254,
            },
            Run {
                first: 508,
                apart: 1,
                count: 258,
            },
        ],
    },
    Crowd {
        name: "none go while 3,071 are used",
        words: &["hostConnections=4", "pipelineAsks=1"],
        chunks: 2_816,
        followers: 254,
        apart: 2,
        more: 255,
        left: &[],
    },
];

#[test]
fn the_least_recently_used_chunks_go_that_nobody_needs_next(rt: HostRuntime) -> Result<(), Fail> {
    says_nothing(&rt, unlike(rt.alloc(), CROWDS))
}

/// The smallest memory, of 512 chunks: from 481 on some go, until 480 are used, so that what one read brings always fits.
const SMALLEST: &[&str] = &[
    "hostConnections=4",
    "pipelineAsks=1",
    "chunkLowMark=512",
    "chunkHighMark=512",
    "chunkCriticalMark=512",
];

const SMALL: &[Crowd] = &[
    Crowd {
        name: "none go while 480 are used",
        words: SMALLEST,
        chunks: 449,
        followers: 20,
        apart: 2,
        more: 31,
        left: &[],
    },
    Crowd {
        name: "one goes where 481 are",
        words: SMALLEST,
        chunks: 449,
        followers: 20,
        apart: 2,
        more: 32,
        left: &[Run {
            first: 1,
            apart: 1,
            count: 1,
        }],
    },
    Crowd {
        name: "those go that stand between the ones that are needed next",
        words: SMALLEST,
        chunks: 449,
        followers: 100,
        apart: 2,
        more: 63,
        left: &[Run {
            first: 1,
            apart: 2,
            count: 32,
        }],
    },
    Crowd {
        name: "those go that stand behind all that are needed next",
        words: SMALLEST,
        chunks: 449,
        followers: 254,
        apart: 1,
        more: 100,
        left: &[Run {
            first: 254,
            apart: 1,
            count: 69,
        }],
    },
];

#[test]
fn the_smallest_memory_keeps_what_is_needed_next(rt: HostRuntime) -> Result<(), Fail> {
    says_nothing(&rt, unlike(rt.alloc(), SMALL))
}
