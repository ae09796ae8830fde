// What is kept on the disk, and when.
use crate::saying::says_nothing;
use pp_play::{
    Act, Exchange, Filed, GET, HEAD, Op, Pace, Part, REPLY, RESPONSE, Step, T, Wanted, unlike_by,
    unlike_with,
};
use pp_world::{Cause, Decision};
use std::test::Fail;

/// Words by which each chunk is kept alone, or two at a time.
const ONE: &[&str] = &["hostConnections=4", "pipelineAsks=1", "diskRun=1"];

const TWO: &[&str] = &["hostConnections=4", "pipelineAsks=1", "diskRun=2"];

const BY_CHUNKS: &[Exchange<'static>] = &[
    Exchange {
        name: "a gate is opened once its chunk is synced",
        acts: &[
            Act::Tick(T),
            Act::Connect,
            Act::Say(1, GET),
            Act::Reach(2),
            Act::Answer(2, HEAD),
            Act::Answer(2, b"hello"),
        ],
        wanted: &[
            Wanted::Said(1, &[Part::Text(REPLY)]),
            Wanted::Filed(&[
                Filed::Woke(false),
                Filed::Did(Op::Draft(12_288)),
                Filed::Did(Op::SyncDraft),
                Filed::Did(Op::Publish),
                Filed::Did(Op::Write(12_288, 5)),
                Filed::Did(Op::Sync),
                Filed::Did(Op::Write(8_192, 1)),
                Filed::Did(Op::Sync),
                Filed::Kept(5, 5),
            ]),
        ],
    },
    Exchange {
        name: "a body without a byte has no entry",
        acts: &[
            Act::Tick(T),
            Act::Connect,
            Act::Say(1, GET),
            Act::Reach(2),
            Act::Answer(2, EMPTY_HEAD),
            Act::Connect,
            Act::Say(
                3,
                b"GET http://h/a HTTP/1.1\r\nHost: h\r\nRange: bytes=0-\r\n\r\n",
            ),
            Act::Connect,
            Act::Say(
                4,
                b"GET http://h/a HTTP/1.1\r\nHost: h\r\nRange: bytes=-5\r\n\r\n",
            ),
        ],
        wanted: &[
            Wanted::Count(Step::Dialled(80), 1),
            Wanted::Taken(3, Decision::Unsatisfiable),
            Wanted::Taken(4, Decision::Hit(0, 0)),
            Wanted::Filed(&[Filed::Woke(false)]),
        ],
    },
];

const EMPTY_HEAD: &[u8] =
    b"HTTP/1.1 200 OK\r\nDate: Sun, 06 Nov 1994 08:49:37 GMT\r\nETag: \"x\"\r\nCache-Control: max-age=60\r\nContent-Length: 0\r\n\r\n";

#[test]
fn a_gate_is_opened_once_its_chunk_is_synced(rt: HostRuntime) -> Result<(), Fail> {
    says_nothing(&rt, unlike_with(rt.alloc(), ONE, BY_CHUNKS))
}

/// The head of a response of three chunks.
const HEAD_3: &[u8] =
    b"HTTP/1.1 200 OK\r\nDate: Sun, 06 Nov 1994 08:49:37 GMT\r\nETag: \"x\"\r\nCache-Control: max-age=60\r\nContent-Length: 12288\r\n\r\n";

const BY_RUNS: &[Exchange<'static>] = &[Exchange {
    name: "a run is kept by two syncs",
    acts: &[
        Act::Tick(T),
        Act::Connect,
        Act::Say(1, GET),
        Act::Reach(2),
        Act::Answer(2, HEAD_3),
        Act::Fill(2, b'a', 4_096),
        Act::Fill(2, b'b', 4_096),
        Act::Fill(2, b'c', 4_096),
    ],
    wanted: &[Wanted::Filed(&[
        Filed::Woke(false),
        Filed::Did(Op::Draft(12_288)),
        Filed::Did(Op::SyncDraft),
        Filed::Did(Op::Publish),
        Filed::Did(Op::Write(12_288, 8_192)),
        Filed::Did(Op::Sync),
        Filed::Did(Op::Write(8_192, 2)),
        Filed::Did(Op::Sync),
        Filed::Kept(12_288, 8_192),
        Filed::Did(Op::Write(20_480, 4_096)),
        Filed::Did(Op::Sync),
        Filed::Did(Op::Write(8_194, 1)),
        Filed::Did(Op::Sync),
        Filed::Kept(12_288, 12_288),
    ])],
}];

#[test]
fn a_run_is_kept_by_two_syncs(rt: HostRuntime) -> Result<(), Fail> {
    says_nothing(&rt, unlike_with(rt.alloc(), TWO, BY_RUNS))
}

/// With 16 chunks a run.
const BY_LONG_RUNS: &[Exchange<'static>] = &[
    Exchange {
        name: "a body of one run is published whole",
        acts: &[
            Act::Tick(T),
            Act::Connect,
            Act::Say(1, GET),
            Act::Reach(2),
            Act::Answer(
                2,
                b"HTTP/1.1 200 OK\r\nETag: \"x\"\r\nCache-Control: max-age=60\r\nContent-Length: 65536\r\n\r\n",
            ),
            Act::Fill(2, b'a', 65_536),
        ],
        wanted: &[Wanted::Filed(&[
            Filed::Woke(false),
            Filed::Did(Op::Draft(12_288 + 65_536)),
            Filed::Did(Op::SyncDraft),
            Filed::Did(Op::Publish),
            Filed::Kept(65_536, 65_536),
        ])],
    },
    Exchange {
        name: "a body of one run whose next use must check it is not kept",
        acts: &[
            Act::Tick(T),
            Act::Connect,
            Act::Say(1, GET),
            Act::Reach(2),
            Act::Answer(
                2,
                b"HTTP/1.1 200 OK\r\nETag: \"x\"\r\nCache-Control: no-cache, max-age=60\r\nContent-Length: 65536\r\n\r\n",
            ),
            Act::Fill(2, b'a', 65_536),
        ],
        wanted: &[Wanted::Filed(&[Filed::Woke(false)])],
    },
    Exchange {
        name: "what is behind a run ends the body, which is kept though it has no lifetime",
        acts: &[
            Act::Tick(T),
            Act::Connect,
            Act::Say(1, GET),
            Act::Reach(2),
            Act::Answer(
                2,
                b"HTTP/1.1 200 OK\r\nETag: \"x\"\r\nContent-Length: 65636\r\n\r\n",
            ),
            Act::Fill(2, b'a', 65_636),
        ],
        wanted: &[Wanted::Filed(&[
            Filed::Woke(false),
            Filed::Did(Op::Draft(12_288)),
            Filed::Did(Op::SyncDraft),
            Filed::Did(Op::Publish),
            Filed::Did(Op::Write(12_288, 65_536)),
            Filed::Did(Op::Sync),
            Filed::Did(Op::Write(8_192, 16)),
            Filed::Did(Op::Sync),
            Filed::Kept(65_636, 65_536),
            Filed::Did(Op::Write(77_824, 100)),
            Filed::Did(Op::Sync),
            Filed::Did(Op::Write(8_208, 1)),
            Filed::Did(Op::Sync),
            Filed::Kept(65_636, 65_636),
        ])],
    },
    Exchange {
        name: "a fetch that was lost before its first run was full leaves no entry",
        acts: &[
            Act::Tick(T),
            Act::Connect,
            Act::Say(1, GET),
            Act::Reach(2),
            Act::Answer(
                2,
                b"HTTP/1.1 200 OK\r\nETag: \"x\"\r\nContent-Length: 300000\r\n\r\n",
            ),
            Act::Fill(2, b'a', 65_535),
            Act::End(2),
            Act::HangUp(1),
        ],
        wanted: &[Wanted::Filed(&[Filed::Woke(false)])],
    },
];

#[test]
fn a_body_of_one_run_is_published_whole(rt: HostRuntime) -> Result<(), Fail> {
    says_nothing(&rt, unlike_by(rt.alloc(), &[], Pace::Whole, BY_LONG_RUNS))
}

/// Of the longest body that an entry has, and of one that is longer by a byte.
const LONGEST: &[Exchange<'static>] = &[
    Exchange {
        name: "a body of 64 MiB is kept",
        acts: &[
            Act::Tick(T),
            Act::Connect,
            Act::Say(1, GET),
            Act::Reach(2),
            Act::Answer(
                2,
                b"HTTP/1.1 200 OK\r\nETag: \"x\"\r\nContent-Length: 67108864\r\n\r\n",
            ),
            Act::Fill(2, b'a', 4_096),
        ],
        wanted: &[Wanted::Filed(&[
            Filed::Woke(false),
            Filed::Did(Op::Draft(24_576)),
            Filed::Did(Op::SyncDraft),
            Filed::Did(Op::Publish),
            Filed::Did(Op::Write(24_576, 4_096)),
            Filed::Did(Op::Sync),
            Filed::Did(Op::Write(8_192, 1)),
            Filed::Did(Op::Sync),
            Filed::Kept(67_108_864, 4_096),
        ])],
    },
    Exchange {
        name: "a longer one is not",
        acts: &[
            Act::Tick(T),
            Act::Connect,
            Act::Say(1, GET),
            Act::Reach(2),
            Act::Answer(
                2,
                b"HTTP/1.1 200 OK\r\nETag: \"x\"\r\nContent-Length: 67108865\r\n\r\n",
            ),
            Act::Fill(2, b'a', 4_096),
        ],
        wanted: &[Wanted::Filed(&[Filed::Woke(false)])],
    },
];

#[test]
fn a_body_of_64_mib_is_kept_and_no_longer_one(rt: HostRuntime) -> Result<(), Fail> {
    says_nothing(&rt, unlike_with(rt.alloc(), ONE, LONGEST))
}

/// The page is fetched in parts, and what is missing is answered by another version.
const REPLACED: &[Exchange<'static>] = &[Exchange {
    name: "the entry of a version that was replaced goes",
    acts: &[
        Act::Tick(T),
        Act::Connect,
        Act::Say(
            1,
            b"GET http://h/a HTTP/1.1\r\nHost: h\r\nRange: bytes=0-4095\r\n\r\n",
        ),
        Act::Reach(2),
        Act::Answer(
            2,
            b"HTTP/1.1 206 Partial Content\r\nDate: Sun, 06 Nov 1994 08:49:37 GMT\r\nETag: \"x\"\r\nCache-Control: max-age=60\r\nContent-Range: bytes 0-4095/12288\r\nContent-Length: 4096\r\n\r\n",
        ),
        Act::Fill(2, b'a', 4_096),
        Act::Connect,
        Act::Say(
            3,
            b"GET http://h/a HTTP/1.1\r\nHost: h\r\nRange: bytes=8192-12287\r\n\r\n",
        ),
        Act::Answer(
            2,
            b"HTTP/1.1 206 Partial Content\r\nDate: Sun, 06 Nov 1994 08:49:37 GMT\r\nETag: \"x\"\r\nCache-Control: max-age=60\r\nContent-Range: bytes 8192-12287/12288\r\nContent-Length: 4096\r\n\r\n",
        ),
        Act::Fill(2, b'c', 4_096),
        Act::Connect,
        Act::Say(4, GET),
        Act::Answer(
            2,
            b"HTTP/1.1 200 OK\r\nETag: \"y\"\r\nCache-Control: max-age=60\r\nContent-Length: 3\r\n\r\nnew",
        ),
        Act::Connect,
        Act::Say(5, GET),
    ],
    wanted: &[
        Wanted::Cut(4, Cause::Superseded),
        Wanted::Taken(5, Decision::Hit(0, 3)),
        Wanted::Filed(&[
            Filed::Woke(false),
            Filed::Did(Op::Draft(12_288)),
            Filed::Did(Op::SyncDraft),
            Filed::Did(Op::Publish),
            Filed::Did(Op::Write(12_288, 4_096)),
            Filed::Did(Op::Sync),
            Filed::Did(Op::Write(8_192, 1)),
            Filed::Did(Op::Sync),
            Filed::Kept(12_288, 4_096),
            Filed::Gone,
            Filed::Did(Op::Remove),
            Filed::Did(Op::Draft(12_288)),
            Filed::Did(Op::SyncDraft),
            Filed::Did(Op::Publish),
            Filed::Did(Op::Write(12_288, 3)),
            Filed::Did(Op::Sync),
            Filed::Did(Op::Write(8_192, 1)),
            Filed::Did(Op::Sync),
            Filed::Kept(3, 3),
        ]),
    ],
}];

#[test]
fn the_entry_of_a_version_that_was_replaced_goes(rt: HostRuntime) -> Result<(), Fail> {
    says_nothing(&rt, unlike_with(rt.alloc(), ONE, REPLACED))
}

/// Calls: list, listen, read, dial, ask, read, draft, sync, publish, write, sync, write; where the head comes alone, one more
/// read before the draft.
const FAILING: &[Exchange<'static>] = &[
    Exchange {
        name: "where a gate cannot be written, the name is closed",
        acts: &[
            Act::Failing(&[12]),
            Act::Tick(T),
            Act::Connect,
            Act::Say(1, GET),
            Act::Reach(2),
            Act::Answer(2, RESPONSE),
            Act::Tick(T + 61),
            Act::Connect,
            Act::Say(3, GET),
            Act::Reach(4),
            Act::Answer(
                4,
                b"HTTP/1.1 200 OK\r\nETag: \"y\"\r\nContent-Length: 3\r\n\r\nnew",
            ),
        ],
        wanted: &[
            Wanted::Said(1, &[Part::Text(REPLY)]),
            Wanted::Taken(3, Decision::Hit(0, 3)),
            Wanted::Filed(&[
                Filed::Woke(false),
                Filed::Did(Op::Draft(12_288)),
                Filed::Did(Op::SyncDraft),
                Filed::Did(Op::Publish),
                Filed::Did(Op::Write(12_288, 5)),
                Filed::Did(Op::Sync),
                Filed::Failed(Op::Write(8_192, 1)),
                Filed::Gone,
            ]),
        ],
    },
    Exchange {
        name: "where it cannot be drafted, it is drafted again behind a tick, once more of it comes",
        acts: &[
            Act::Failing(&[8]),
            Act::Tick(T),
            Act::Connect,
            Act::Say(1, GET),
            Act::Reach(2),
            Act::Answer(2, HEAD_3),
            Act::Fill(2, b'a', 4_096),
            Act::Fill(2, b'b', 4_096),
            Act::Tick(T + 1),
            Act::Fill(2, b'c', 4_096),
        ],
        wanted: &[Wanted::Filed(&[
            Filed::Woke(false),
            Filed::Failed(Op::Draft(12_288)),
            Filed::Did(Op::Draft(12_288)),
            Filed::Did(Op::SyncDraft),
            Filed::Did(Op::Publish),
            Filed::Did(Op::Write(12_288, 4_096)),
            Filed::Did(Op::Sync),
            Filed::Did(Op::Write(8_192, 1)),
            Filed::Did(Op::Sync),
            Filed::Kept(12_288, 4_096),
            Filed::Did(Op::Write(16_384, 4_096)),
            Filed::Did(Op::Sync),
            Filed::Did(Op::Write(8_193, 1)),
            Filed::Did(Op::Sync),
            Filed::Kept(12_288, 8_192),
            Filed::Did(Op::Write(20_480, 4_096)),
            Filed::Did(Op::Sync),
            Filed::Did(Op::Write(8_194, 1)),
            Filed::Did(Op::Sync),
            Filed::Kept(12_288, 12_288),
        ])],
    },
];

/// The first of these where each byte comes alone, and is a read of its own.
const FAILING_BYTEWISE: &[Exchange<'static>] = &[Exchange {
    name: "where a gate cannot be written, the name is closed",
    acts: &[
        Act::Failing(&[168]),
        Act::Tick(T),
        Act::Connect,
        Act::Say(1, GET),
        Act::Reach(2),
        Act::Answer(2, RESPONSE),
        Act::Tick(T + 61),
        Act::Connect,
        Act::Say(3, GET),
        Act::Reach(4),
        Act::Answer(
            4,
            b"HTTP/1.1 200 OK\r\nETag: \"y\"\r\nContent-Length: 3\r\n\r\nnew",
        ),
    ],
    wanted: &[
        Wanted::Said(1, &[Part::Text(REPLY)]),
        Wanted::Said(
            3,
            &[Part::Text(
                b"HTTP/1.1 200 OK\r\netag: \"y\"\r\ndate: Sun, 06 Nov 1994 08:50:38 GMT\r\nvia: 1.1 polipo\r\ncontent-length: 3\r\nconnection: keep-alive\r\n\r\nnew",
            )],
        ),
        Wanted::Filed(&[
            Filed::Woke(false),
            Filed::Did(Op::Draft(12_288)),
            Filed::Did(Op::SyncDraft),
            Filed::Did(Op::Publish),
            Filed::Did(Op::Write(12_288, 5)),
            Filed::Did(Op::Sync),
            Filed::Failed(Op::Write(8_192, 1)),
            Filed::Gone,
        ]),
    ],
}];

#[test]
fn what_the_disk_cannot_do_no_client_sees(rt: HostRuntime) -> Result<(), Fail> {
    says_nothing(&rt, unlike_by(rt.alloc(), ONE, Pace::Whole, FAILING))?;
    says_nothing(
        &rt,
        unlike_by(rt.alloc(), ONE, Pace::Bytewise, FAILING_BYTEWISE),
    )
}
