// The operations of one entry, and the file that they make.
use crate::acts::Act;
use crate::courses::{At, CRASH, Course, Crash, QUIET, unlike};
use crate::entries::{A, A_NAME, BESIDE, Body, Bytes, Entry, File, HELLO, THREE, TWO, TWO_AND_5};
use crate::format::Found;
use crate::given::TIMES;
use crate::saying::says_nothing;
use crate::steps::Step;
use std::test::Fail;

/// The longest body that is kept. Its first chunk is written down.
const LONGEST: &Entry = &Entry {
    name: A_NAME,
    key: A,
    head: b"",
    length: 67_108_864,
    body: Body::Noise,
};

const KEPT: &[Course<'static>] = &[
    Course {
        name: "an entry of 5 bytes is kept in seven operations, and told of as it was given",
        acts: &[
            Act::Fill(HELLO, true),
            Act::Did(
                HELLO,
                &[
                    Step::Draft(12_288),
                    Step::SyncDraft,
                    Step::Publish,
                    Step::Body(12_288, 0, 5),
                    Step::Sync,
                    Step::Gates(8192, &[1]),
                    Step::Sync,
                ],
            ),
            Act::Has(HELLO, 5, &TIMES),
            Act::Lacks(BESIDE, false),
        ],
        files: &[File {
            name: A_NAME,
            bytes: Bytes::Entry(HELLO, &[1]),
        }],
        ..QUIET
    },
    Course {
        name: "each chunk has its place and its gate, and is loaded as it was written",
        acts: &[
            Act::Fill(TWO, true),
            Act::Did(
                TWO,
                &[
                    Step::Draft(12_288),
                    Step::SyncDraft,
                    Step::Publish,
                    Step::Body(12_288, 0, 4096),
                    Step::Sync,
                    Step::Gates(8192, &[1]),
                    Step::Sync,
                    Step::Body(16_384, 4096, 8192),
                    Step::Sync,
                    Step::Gates(8193, &[1]),
                    Step::Sync,
                ],
            ),
            Act::Has(TWO, 8192, &TIMES),
            Act::Load(TWO, 2, None),
        ],
        ..QUIET
    },
    Course {
        name: "chunks that come together have their gates opened together",
        acts: &[
            Act::Keep(TWO, 0, Some(Ok(()))),
            Act::Extend(TWO, 8192, Some(Ok(8192))),
            Act::Did(
                TWO,
                &[
                    Step::Draft(12_288),
                    Step::SyncDraft,
                    Step::Publish,
                    Step::Body(12_288, 0, 8192),
                    Step::Sync,
                    Step::Gates(8192, &[1, 1]),
                    Step::Sync,
                ],
            ),
        ],
        ..QUIET
    },
    Course {
        name: "three chunks by runs of two are kept by four syncs behind the publishing",
        acts: &[
            Act::Keep(THREE, 0, Some(Ok(()))),
            Act::Extend(THREE, 8192, Some(Ok(8192))),
            Act::Extend(THREE, 12_288, Some(Ok(12_288))),
            Act::Did(
                THREE,
                &[
                    Step::Draft(12_288),
                    Step::SyncDraft,
                    Step::Publish,
                    Step::Body(12_288, 0, 8192),
                    Step::Sync,
                    Step::Gates(8192, &[1, 1]),
                    Step::Sync,
                    Step::Body(20_480, 8192, 12_288),
                    Step::Sync,
                    Step::Gates(8194, &[1]),
                    Step::Sync,
                ],
            ),
        ],
        // The write of the first gates is begun behind 14 happenings.
        crashes: &[
            Crash {
                of: THREE,
                at: At::Behind(&[14]),
                left: &[Found::Entry(0)],
                ..CRASH
            },
            Crash {
                of: THREE,
                at: At::Behind(&[14]),
                choices: &[1],
                left: &[Found::Entry(8192)],
                ..CRASH
            },
        ],
        ..QUIET
    },
    Course {
        name: "the end of a body stands behind its whole chunks",
        acts: &[
            Act::Keep(TWO_AND_5, 0, Some(Ok(()))),
            Act::Extend(TWO_AND_5, 8192, Some(Ok(8192))),
            Act::Extend(TWO_AND_5, 8197, Some(Ok(8197))),
            Act::Did(
                TWO_AND_5,
                &[
                    Step::Draft(12_288),
                    Step::SyncDraft,
                    Step::Publish,
                    Step::Body(12_288, 0, 8192),
                    Step::Sync,
                    Step::Gates(8192, &[1, 1]),
                    Step::Sync,
                    Step::Body(20_480, 8192, 8197),
                    Step::Sync,
                    Step::Gates(8194, &[1]),
                    Step::Sync,
                ],
            ),
            Act::Has(TWO_AND_5, 8197, &TIMES),
            Act::Load(TWO_AND_5, 1, Some(Ok(4096))),
            Act::Load(TWO_AND_5, 2, Some(Ok(5))),
            Act::Load(TWO_AND_5, 3, None),
        ],
        ..QUIET
    },
    Course {
        name: "the longest body has 16384 gates before it",
        acts: &[
            Act::Keep(LONGEST, 0, Some(Ok(()))),
            Act::Extend(LONGEST, 4096, Some(Ok(4096))),
            Act::Did(
                LONGEST,
                &[
                    Step::Draft(24_576),
                    Step::SyncDraft,
                    Step::Publish,
                    Step::Body(24_576, 0, 4096),
                    Step::Sync,
                    Step::Gates(8192, &[1]),
                    Step::Sync,
                ],
            ),
        ],
        ..QUIET
    },
];

#[test]
fn an_entry_is_kept_by_its_operations_alone(rt: HostRuntime) -> Result<(), Fail> {
    says_nothing(&rt, unlike(rt.alloc(), KEPT))
}

/// A body of no byte, or of one too many; a key with a blank; and a front that is longer than its body.
const EMPTY: &Entry = &Entry {
    name: A_NAME,
    key: A,
    head: b"",
    length: 0,
    body: Body::Noise,
};

const TOO_LONG: &Entry = &Entry {
    name: A_NAME,
    key: A,
    head: b"",
    length: 67_108_865,
    body: Body::Noise,
};

const BLANK: &Entry = &Entry {
    name: A_NAME,
    key: b"http://h/ a",
    head: b"",
    length: 5,
    body: Body::Noise,
};

const OVERFULL: &Entry = &Entry {
    name: A_NAME,
    key: A,
    head: b"",
    length: 5,
    body: Body::Text(b"hello!"),
};

const BARRED: &[Course<'static>] = &[Course {
    name: "what may not be asked for is not kept",
    acts: &[
        Act::Keep(EMPTY, 0, None),
        Act::Keep(TOO_LONG, 0, None),
        Act::Keep(BLANK, 0, None),
        Act::Keep(OVERFULL, 6, None),
        // Fronts that end within a chunk.
        Act::Keep(HELLO, 4, None),
        Act::Keep(TWO, 4095, None),
        Act::Happened(3),
        Act::Entries(0),
    ],
    ..QUIET
}];

#[test]
fn what_may_not_be_asked_for_is_not_kept(rt: HostRuntime) -> Result<(), Fail> {
    says_nothing(&rt, unlike(rt.alloc(), BARRED))
}
