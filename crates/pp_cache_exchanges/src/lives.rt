// From one life to the next: what was kept is there behind a crash.
use crate::saying::says_nothing;
use pp_play::{
    ASK, Act, Exchange, Filed, GET, Op, Pace, Part, REPLY, RESPONSE, Step, T, Wanted, unlike_by,
    unlike_with,
};
use pp_text::OutOfMemory;
use pp_world::Decision;
use std::alloc::Global;
use std::test::Fail;

/// Words by which bodies of 16 chunks are kept whole, and others by which each chunk is kept alone, or two at a time.
const SIXTEEN: &[&str] = &["hostConnections=4", "pipelineAsks=1"];

const ONE: &[&str] = &["hostConnections=4", "pipelineAsks=1", "diskRun=1"];

const TWO: &[&str] = &["hostConnections=4", "pipelineAsks=1", "diskRun=2"];

/// Of what a crash leaves in doubt, by the choice: all that was, all that was to be, and where it is torn each of both.
const OLD: u64 = 0;

const NEW: u64 = 1;

const TORN: u64 = 1 << 63;

/// By these a byte that is in doubt alone is left as 7, or as 1.
const LEAVES_7: u64 = 71;

const LEAVES_1: u64 = 342;

/// Two lives: acts before a crash and behind it.
struct Behind {
    /// What is left of what was in doubt, one after the other.
    choices: &'static [u64],
    /// The crash comes as this operation begins, or at the end.
    crash: Option<Op>,
    before: &'static [Act<'static>],
    after: &'static [Act<'static>],
    wanted: &'static [Wanted<'static>],
}

/// Plays lives with these words, and says what was not as wanted, or nothing.
fn unlike_behind(alloc: Global, words: &[&str], all: &[Behind]) -> Result<String, OutOfMemory> {
    for behind in all {
        for choice in behind.choices {
            let said = unlike_by_choice(alloc, words, behind, *choice)?;
            if !said.is_empty() {
                return Ok(format!(in alloc; "choice {choice}: {said}")?);
            }
        }
    }
    Ok(String::new(alloc))
}

fn unlike_by_choice(
    alloc: Global,
    words: &[&str],
    behind: &Behind,
    choice: u64,
) -> Result<String, OutOfMemory> {
    let mut acts = Vec::from_slice(alloc, behind.before)?;
    acts.extend_from_slice(&[Act::Crash(behind.crash, choice)])?;
    acts.extend_from_slice(behind.after)?;
    let exchange = Exchange {
        name: "behind a crash",
        acts: acts.as_slice(),
        wanted: behind.wanted,
    };
    unlike_with(alloc, words, &[exchange])
}

/// A page is fetched.
const FETCHED: &[Act<'static>] = &[
    Act::Tick(T),
    Act::Connect,
    Act::Say(1, GET),
    Act::Reach(2),
    Act::Answer(2, RESPONSE),
];

/// Ten seconds later it is asked for again.
const AGAIN: &[Act<'static>] = &[Act::Tick(T + 10), Act::Connect, Act::Say(3, GET)];

/// The same by a client that wants only what is kept.
const ONLY: &[u8] = b"GET http://h/a HTTP/1.1\r\nHost: h\r\nCache-Control: only-if-cached\r\n\r\n";

const ONLY_AGAIN: &[Act<'static>] = &[Act::Tick(T + 10), Act::Connect, Act::Say(3, ONLY)];

const REPLY_AGED: &[u8] =
    b"HTTP/1.1 200 OK\r\netag: \"x\"\r\ndate: Sun, 06 Nov 1994 08:49:37 GMT\r\ncache-control: max-age=60\r\nage: 10\r\nvia: 1.1 polipo\r\ncontent-length: 5\r\nconnection: keep-alive\r\n\r\nhello";

const PAGE_504: &[u8] =
    b"HTTP/1.1 504 Gateway Timeout\r\ncontent-type: text/plain\r\ncontent-length: 20\r\nconnection: keep-alive\r\n\r\n504 Gateway Timeout\n";

const SERVED: &[Behind] = &[Behind {
    choices: &[OLD, NEW, LEAVES_7, TORN, TORN + 1],
    crash: None,
    before: FETCHED,
    after: AGAIN,
    wanted: &[
        Wanted::Said(1, &[Part::Text(REPLY)]),
        Wanted::Said(3, &[Part::Text(REPLY_AGED)]),
        Wanted::Taken(3, Decision::Hit(0, 5)),
        Wanted::Count(Step::Dialled(80), 1),
        Wanted::Filed(&[
            Filed::Woke(false),
            Filed::Did(Op::Draft(12_293)),
            Filed::Did(Op::SyncDraft),
            Filed::Did(Op::Publish),
            Filed::Kept(5, 5),
            Filed::Woke(true),
            Filed::Loaded(0),
        ]),
    ],
}];

#[test]
fn what_was_kept_is_served_behind_a_crash(rt: HostRuntime) -> Result<(), Fail> {
    says_nothing(&rt, unlike_behind(rt.alloc(), SIXTEEN, SERVED))
}

/// It is fresh for a minute from its first date on, and checked then.
const CHECKED: &[Exchange<'static>] = &[Exchange {
    name: "what was kept is checked once it is stale",
    acts: &[
        Act::Tick(T),
        Act::Connect,
        Act::Say(1, GET),
        Act::Reach(2),
        Act::Answer(2, RESPONSE),
        Act::Crash(None, OLD),
        Act::Tick(T + 10),
        Act::Connect,
        Act::Say(3, GET),
        Act::Tick(T + 61),
        Act::Connect,
        Act::Say(4, GET),
        Act::Reach(5),
        Act::Answer(
            5,
            b"HTTP/1.1 304 Not Modified\r\nDate: Sun, 06 Nov 1994 08:50:38 GMT\r\nCache-Control: max-age=60\r\n\r\n",
        ),
    ],
    wanted: &[
        Wanted::Asked(2, &[ASK]),
        Wanted::Asked(
            5,
            &[b"GET /a HTTP/1.1\r\nhost: h\r\nif-none-match: \"x\"\r\nvia: 1.1 polipo\r\n\r\n"],
        ),
        Wanted::Taken(4, Decision::Validate),
        Wanted::Said(3, &[Part::Text(REPLY_AGED)]),
        Wanted::Said(
            4,
            &[Part::Text(
                b"HTTP/1.1 200 OK\r\netag: \"x\"\r\ndate: Sun, 06 Nov 1994 08:50:38 GMT\r\ncache-control: max-age=60\r\nage: 0\r\nvia: 1.1 polipo\r\ncontent-length: 5\r\nconnection: keep-alive\r\n\r\nhello",
            )],
        ),
        Wanted::Filed(&[
            Filed::Woke(false),
            Filed::Did(Op::Draft(12_293)),
            Filed::Did(Op::SyncDraft),
            Filed::Did(Op::Publish),
            Filed::Kept(5, 5),
            Filed::Woke(true),
            Filed::Loaded(0),
        ]),
    ],
}];

#[test]
fn what_was_kept_is_checked_once_it_is_stale(rt: HostRuntime) -> Result<(), Fail> {
    says_nothing(&rt, unlike_with(rt.alloc(), SIXTEEN, CHECKED))
}

/// Calls of the second life: list, read, length, read, listen, read, write, read.
const UNREAD: &[Exchange<'static>] = &[
    Exchange {
        name: "what cannot be read back is fetched again",
        acts: &[
            Act::Tick(T),
            Act::Connect,
            Act::Say(1, GET),
            Act::Reach(2),
            Act::Answer(2, RESPONSE),
            Act::Crash(None, OLD),
            Act::Failing(&[8]),
            Act::Tick(T + 10),
            Act::Connect,
            Act::Say(3, GET),
            Act::Reach(4),
            Act::Answer(
                4,
                b"HTTP/1.1 206 Partial Content\r\nETag: \"x\"\r\nContent-Range: bytes 0-4/5\r\nContent-Length: 5\r\n\r\nhello",
            ),
        ],
        wanted: &[
            Wanted::Said(3, &[Part::Text(REPLY_AGED)]),
            Wanted::Asked(
                4,
                &[
                    b"GET /a HTTP/1.1\r\nhost: h\r\nrange: bytes=0-4\r\nif-range: \"x\"\r\nvia: 1.1 polipo\r\n\r\n",
                ],
            ),
            Wanted::Filed(&[
                Filed::Woke(false),
                Filed::Did(Op::Draft(12_293)),
                Filed::Did(Op::SyncDraft),
                Filed::Did(Op::Publish),
                Filed::Kept(5, 5),
                Filed::Woke(true),
                Filed::Unread,
                Filed::Gone,
            ]),
        ],
    },
    Exchange {
        name: "an entry that cannot be read at the opening is none",
        acts: &[
            Act::Tick(T),
            Act::Connect,
            Act::Say(1, GET),
            Act::Reach(2),
            Act::Answer(2, RESPONSE),
            Act::Crash(None, OLD),
            Act::Failing(&[2]),
            Act::Tick(T + 10),
            Act::Connect,
            Act::Say(3, GET),
        ],
        wanted: &[
            Wanted::Taken(3, Decision::Fetch),
            Wanted::Filed(&[
                Filed::Woke(false),
                Filed::Did(Op::Draft(12_293)),
                Filed::Did(Op::SyncDraft),
                Filed::Did(Op::Publish),
                Filed::Kept(5, 5),
                Filed::Woke(true),
                Filed::Unread,
            ]),
        ],
    },
];

#[test]
fn what_cannot_be_read_back_is_fetched_again(rt: HostRuntime) -> Result<(), Fail> {
    says_nothing(&rt, unlike_by(rt.alloc(), SIXTEEN, Pace::Whole, UNREAD))
}

// ---- crashes while an entry is made

const DRAFTED: &[Behind] = &[Behind {
    choices: &[OLD, NEW, TORN],
    crash: Some(Op::Draft(12_288)),
    before: FETCHED,
    after: ONLY_AGAIN,
    wanted: &[
        Wanted::Said(3, &[Part::Text(PAGE_504)]),
        Wanted::Filed(&[
            Filed::Woke(false),
            Filed::Began(Op::Draft(12_288)),
            Filed::Woke(false),
        ]),
    ],
}];

#[test]
fn a_draft_is_no_entry(rt: HostRuntime) -> Result<(), Fail> {
    says_nothing(&rt, unlike_behind(rt.alloc(), ONE, DRAFTED))
}

const PUBLISHED: &[Behind] = &[
    Behind {
        choices: &[OLD],
        crash: Some(Op::Publish),
        before: FETCHED,
        after: ONLY_AGAIN,
        wanted: &[
            Wanted::Said(3, &[Part::Text(PAGE_504)]),
            Wanted::Taken(3, Decision::Refuse(504)),
            Wanted::Filed(&[
                Filed::Woke(false),
                Filed::Did(Op::Draft(12_288)),
                Filed::Did(Op::SyncDraft),
                Filed::Began(Op::Publish),
                Filed::Woke(false),
            ]),
        ],
    },
    Behind {
        choices: &[NEW],
        crash: Some(Op::Publish),
        before: FETCHED,
        after: ONLY_AGAIN,
        wanted: &[
            Wanted::Said(3, &[Part::Text(PAGE_504)]),
            Wanted::Taken(3, Decision::Refuse(504)),
            Wanted::Filed(&[
                Filed::Woke(false),
                Filed::Did(Op::Draft(12_288)),
                Filed::Did(Op::SyncDraft),
                Filed::Began(Op::Publish),
                Filed::Woke(true),
            ]),
        ],
    },
];

#[test]
fn an_entry_that_is_being_published_is_there_or_not(rt: HostRuntime) -> Result<(), Fail> {
    says_nothing(&rt, unlike_behind(rt.alloc(), ONE, PUBLISHED))
}

/// An entry of which nothing is kept yet: what is missing is asked for, and kept.
const EMPTY_ENTRY: &[Exchange<'static>] = &[Exchange {
    name: "an entry without a byte of its body goes on",
    acts: &[
        Act::Tick(T),
        Act::Connect,
        Act::Say(1, GET),
        Act::Reach(2),
        Act::Answer(2, RESPONSE),
        Act::Crash(Some(Op::Publish), NEW),
        Act::Tick(T + 10),
        Act::Connect,
        Act::Say(3, GET),
        Act::Reach(4),
        Act::Answer(
            4,
            b"HTTP/1.1 206 Partial Content\r\nETag: \"x\"\r\nContent-Range: bytes 0-4/5\r\nContent-Length: 5\r\n\r\nhello",
        ),
    ],
    wanted: &[
        Wanted::Taken(3, Decision::Part(0, 5)),
        Wanted::Asked(
            4,
            &[
                b"GET /a HTTP/1.1\r\nhost: h\r\nrange: bytes=0-4\r\nif-range: \"x\"\r\nvia: 1.1 polipo\r\n\r\n",
            ],
        ),
        Wanted::Filed(&[
            Filed::Woke(false),
            Filed::Did(Op::Draft(12_288)),
            Filed::Did(Op::SyncDraft),
            Filed::Began(Op::Publish),
            Filed::Woke(true),
            Filed::Did(Op::Write(12_288, 5)),
            Filed::Did(Op::Sync),
            Filed::Did(Op::Write(8_192, 1)),
            Filed::Did(Op::Sync),
            Filed::Kept(5, 5),
        ]),
    ],
}];

#[test]
fn an_entry_without_a_byte_of_its_body_goes_on(rt: HostRuntime) -> Result<(), Fail> {
    says_nothing(&rt, unlike_with(rt.alloc(), ONE, EMPTY_ENTRY))
}

// ---- crashes while chunks are sealed

/// A page of two chunks comes.
const TWO_CHUNKS: &[Act<'static>] = &[
    Act::Tick(T),
    Act::Connect,
    Act::Say(1, GET),
    Act::Reach(2),
    Act::Answer(
        2,
        b"HTTP/1.1 200 OK\r\nDate: Sun, 06 Nov 1994 08:49:37 GMT\r\nETag: \"x\"\r\nCache-Control: max-age=60\r\nContent-Length: 8192\r\n\r\n",
    ),
    Act::Fill(2, b'a', 4_096),
    Act::Fill(2, b'b', 4_096),
];

/// Its first chunk is asked for, and then the whole.
const FIRST_AND_ALL: &[Act<'static>] = &[
    Act::Tick(T + 10),
    Act::Connect,
    Act::Say(
        3,
        b"GET http://h/a HTTP/1.1\r\nHost: h\r\nCache-Control: only-if-cached\r\nRange: bytes=0-4095\r\n\r\n",
    ),
    Act::Connect,
    Act::Say(4, ONLY),
];

const FIRST_HEAD: &[u8] =
    b"HTTP/1.1 206 Partial Content\r\netag: \"x\"\r\ndate: Sun, 06 Nov 1994 08:49:37 GMT\r\ncache-control: max-age=60\r\nage: 10\r\nvia: 1.1 polipo\r\ncontent-range: bytes 0-4095/8192\r\ncontent-length: 4096\r\nconnection: keep-alive\r\n\r\n";

const ALL_HEAD: &[u8] =
    b"HTTP/1.1 200 OK\r\netag: \"x\"\r\ndate: Sun, 06 Nov 1994 08:49:37 GMT\r\ncache-control: max-age=60\r\nage: 10\r\nvia: 1.1 polipo\r\ncontent-length: 8192\r\nconnection: keep-alive\r\n\r\n";

const FIRST_SAID: Wanted<'static> = Wanted::Said(
    3,
    &[Part::Text(FIRST_HEAD), Part::Fill(b'a', 4_096)],
);

const ALL_SAID: Wanted<'static> = Wanted::Said(
    4,
    &[
        Part::Text(ALL_HEAD),
        Part::Fill(b'a', 4_096),
        Part::Fill(b'b', 4_096),
    ],
);

const ALL_REFUSED: Wanted<'static> = Wanted::Said(4, &[Part::Text(PAGE_504)]);

const WRITTEN: &[Behind] = &[Behind {
    choices: &[OLD, NEW, TORN],
    crash: Some(Op::Write(16_384, 4_096)),
    before: TWO_CHUNKS,
    after: FIRST_AND_ALL,
    wanted: &[
        FIRST_SAID,
        ALL_REFUSED,
        Wanted::Filed(&[
            Filed::Woke(false),
            Filed::Did(Op::Draft(12_288)),
            Filed::Did(Op::SyncDraft),
            Filed::Did(Op::Publish),
            Filed::Did(Op::Write(12_288, 4_096)),
            Filed::Did(Op::Sync),
            Filed::Did(Op::Write(8_192, 1)),
            Filed::Did(Op::Sync),
            Filed::Kept(8_192, 4_096),
            Filed::Began(Op::Write(16_384, 4_096)),
            Filed::Woke(true),
            Filed::Loaded(0),
        ]),
    ],
}];

#[test]
fn of_a_chunk_that_is_being_written_nothing_is_kept(rt: HostRuntime) -> Result<(), Fail> {
    says_nothing(&rt, unlike_behind(rt.alloc(), ONE, WRITTEN))
}

const OPENED: &[Behind] = &[
    Behind {
        choices: &[OLD, LEAVES_7, TORN],
        crash: Some(Op::Write(8_193, 1)),
        before: TWO_CHUNKS,
        after: FIRST_AND_ALL,
        wanted: &[
            FIRST_SAID,
            ALL_REFUSED,
            Wanted::Filed(&[
                Filed::Woke(false),
                Filed::Did(Op::Draft(12_288)),
                Filed::Did(Op::SyncDraft),
                Filed::Did(Op::Publish),
                Filed::Did(Op::Write(12_288, 4_096)),
                Filed::Did(Op::Sync),
                Filed::Did(Op::Write(8_192, 1)),
                Filed::Did(Op::Sync),
                Filed::Kept(8_192, 4_096),
                Filed::Did(Op::Write(16_384, 4_096)),
                Filed::Did(Op::Sync),
                Filed::Began(Op::Write(8_193, 1)),
                Filed::Woke(true),
                Filed::Loaded(0),
            ]),
        ],
    },
    Behind {
        choices: &[NEW, LEAVES_1, TORN + 1],
        crash: Some(Op::Write(8_193, 1)),
        before: TWO_CHUNKS,
        after: FIRST_AND_ALL,
        wanted: &[
            FIRST_SAID,
            ALL_SAID,
            Wanted::Filed(&[
                Filed::Woke(false),
                Filed::Did(Op::Draft(12_288)),
                Filed::Did(Op::SyncDraft),
                Filed::Did(Op::Publish),
                Filed::Did(Op::Write(12_288, 4_096)),
                Filed::Did(Op::Sync),
                Filed::Did(Op::Write(8_192, 1)),
                Filed::Did(Op::Sync),
                Filed::Kept(8_192, 4_096),
                Filed::Did(Op::Write(16_384, 4_096)),
                Filed::Did(Op::Sync),
                Filed::Began(Op::Write(8_193, 1)),
                Filed::Woke(true),
                Filed::Loaded(0),
                Filed::Loaded(1),
            ]),
        ],
    },
];

#[test]
fn a_chunk_is_kept_where_its_gate_is_open_behind_the_crash(rt: HostRuntime) -> Result<(), Fail> {
    says_nothing(&rt, unlike_behind(rt.alloc(), ONE, OPENED))
}

/// The gates of a run of two chunks are being opened.
const RUN_OPENED: &[Behind] = &[
    Behind {
        choices: &[OLD],
        crash: Some(Op::Write(8_192, 2)),
        before: THREE_CHUNKS,
        after: FIRST_TWO,
        wanted: &[
            Wanted::Said(3, &[Part::Text(PAGE_504)]),
            Wanted::Filed(&[
                Filed::Woke(false),
                Filed::Did(Op::Draft(12_288)),
                Filed::Did(Op::SyncDraft),
                Filed::Did(Op::Publish),
                Filed::Did(Op::Write(12_288, 8_192)),
                Filed::Did(Op::Sync),
                Filed::Began(Op::Write(8_192, 2)),
                Filed::Woke(true),
            ]),
        ],
    },
    Behind {
        choices: &[NEW],
        crash: Some(Op::Write(8_192, 2)),
        before: THREE_CHUNKS,
        after: FIRST_TWO,
        wanted: &[
            Wanted::Said(
                3,
                &[
                    Part::Text(FIRST_TWO_HEAD),
                    Part::Fill(b'a', 4_096),
                    Part::Fill(b'b', 4_096),
                ],
            ),
            Wanted::Filed(&[
                Filed::Woke(false),
                Filed::Did(Op::Draft(12_288)),
                Filed::Did(Op::SyncDraft),
                Filed::Did(Op::Publish),
                Filed::Did(Op::Write(12_288, 8_192)),
                Filed::Did(Op::Sync),
                Filed::Began(Op::Write(8_192, 2)),
                Filed::Woke(true),
                Filed::Loaded(0),
                Filed::Loaded(1),
            ]),
        ],
    },
];

#[test]
fn a_run_is_kept_where_its_gates_are_open_behind_the_crash(rt: HostRuntime) -> Result<(), Fail> {
    says_nothing(&rt, unlike_behind(rt.alloc(), TWO, RUN_OPENED))
}

/// A page of three chunks comes.
const THREE_CHUNKS: &[Act<'static>] = &[
    Act::Tick(T),
    Act::Connect,
    Act::Say(1, GET),
    Act::Reach(2),
    Act::Answer(
        2,
        b"HTTP/1.1 200 OK\r\nDate: Sun, 06 Nov 1994 08:49:37 GMT\r\nETag: \"x\"\r\nCache-Control: max-age=60\r\nContent-Length: 12288\r\n\r\n",
    ),
    Act::Fill(2, b'a', 4_096),
    Act::Fill(2, b'b', 4_096),
    Act::Fill(2, b'c', 4_096),
];

/// Two of its chunks are asked for.
const FIRST_TWO: &[Act<'static>] = &[
    Act::Tick(T + 10),
    Act::Connect,
    Act::Say(
        3,
        b"GET http://h/a HTTP/1.1\r\nHost: h\r\nCache-Control: only-if-cached\r\nRange: bytes=0-8191\r\n\r\n",
    ),
];

const FIRST_TWO_HEAD: &[u8] =
    b"HTTP/1.1 206 Partial Content\r\netag: \"x\"\r\ndate: Sun, 06 Nov 1994 08:49:37 GMT\r\ncache-control: max-age=60\r\nage: 10\r\nvia: 1.1 polipo\r\ncontent-range: bytes 0-8191/12288\r\ncontent-length: 8192\r\nconnection: keep-alive\r\n\r\n";

/// What a crash cut goes on from what is kept.
const GOES_ON: &[Exchange<'static>] = &[Exchange {
    name: "a body of which a front is kept goes on behind it",
    acts: &[
        Act::Tick(T),
        Act::Connect,
        Act::Say(1, GET),
        Act::Reach(2),
        Act::Answer(
            2,
            b"HTTP/1.1 200 OK\r\nDate: Sun, 06 Nov 1994 08:49:37 GMT\r\nETag: \"x\"\r\nCache-Control: max-age=60\r\nContent-Length: 8192\r\n\r\n",
        ),
        Act::Fill(2, b'a', 4_096),
        Act::Crash(None, OLD),
        Act::Tick(T + 10),
        Act::Connect,
        Act::Say(3, GET),
        Act::Reach(4),
        Act::Answer(
            4,
            b"HTTP/1.1 206 Partial Content\r\nETag: \"x\"\r\nContent-Range: bytes 4096-8191/8192\r\nContent-Length: 4096\r\n\r\n",
        ),
        Act::Fill(4, b'b', 4_096),
        Act::Crash(None, OLD),
        Act::Tick(T + 20),
        Act::Connect,
        Act::Say(5, ONLY),
    ],
    wanted: &[
        Wanted::Taken(3, Decision::Part(0, 8_192)),
        Wanted::Asked(
            4,
            &[
                b"GET /a HTTP/1.1\r\nhost: h\r\nrange: bytes=4096-8191\r\nif-range: \"x\"\r\nvia: 1.1 polipo\r\n\r\n",
            ],
        ),
        Wanted::Said(
            3,
            &[
                Part::Text(ALL_HEAD),
                Part::Fill(b'a', 4_096),
                Part::Fill(b'b', 4_096),
            ],
        ),
        Wanted::Taken(5, Decision::Hit(0, 8_192)),
        Wanted::Filed(&[
            Filed::Woke(false),
            Filed::Did(Op::Draft(12_288)),
            Filed::Did(Op::SyncDraft),
            Filed::Did(Op::Publish),
            Filed::Did(Op::Write(12_288, 4_096)),
            Filed::Did(Op::Sync),
            Filed::Did(Op::Write(8_192, 1)),
            Filed::Did(Op::Sync),
            Filed::Kept(8_192, 4_096),
            Filed::Woke(true),
            Filed::Loaded(0),
            Filed::Did(Op::Write(16_384, 4_096)),
            Filed::Did(Op::Sync),
            Filed::Did(Op::Write(8_193, 1)),
            Filed::Did(Op::Sync),
            Filed::Kept(8_192, 8_192),
            Filed::Woke(true),
            Filed::Loaded(0),
            Filed::Loaded(1),
        ]),
    ],
}];

#[test]
fn a_body_of_which_a_front_is_kept_goes_on_behind_it(rt: HostRuntime) -> Result<(), Fail> {
    says_nothing(&rt, unlike_with(rt.alloc(), ONE, GOES_ON))
}
