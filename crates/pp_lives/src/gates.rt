// Open gates behind one that is not, in a folder that an earlier life left.
use crate::acts::Act;
use crate::courses::{At, CHOICES, CRASH, Course, Crash, QUIET, unlike};
use crate::entries::{A_NAME, Bytes, FIVE, File};
use crate::format::Found;
use crate::given::TIMES_READ;
use crate::saying::says_nothing;
use crate::steps::Step;
use std::test::Fail;

/// Of five gates, and the byte behind them.
const LEFT_ALONE: &[Course<'static>] = &[
    Course {
        name: "all are open",
        folder: &[File {
            name: A_NAME,
            bytes: Bytes::Entry(FIVE, &[1, 1, 1, 1, 1, 0]),
        }],
        acts: &[Act::Did(FIVE, &[]), Act::Has(FIVE, 20_480, &TIMES_READ)],
        files: &[File {
            name: A_NAME,
            bytes: Bytes::Entry(FIVE, &[1, 1, 1, 1, 1, 0]),
        }],
        ..QUIET
    },
    Course {
        name: "two are open",
        folder: &[File {
            name: A_NAME,
            bytes: Bytes::Entry(FIVE, &[1, 1, 0, 0, 0, 0]),
        }],
        acts: &[Act::Did(FIVE, &[]), Act::Has(FIVE, 8192, &TIMES_READ)],
        files: &[File {
            name: A_NAME,
            bytes: Bytes::Entry(FIVE, &[1, 1, 0, 0, 0, 0]),
        }],
        ..QUIET
    },
    Course {
        name: "each is another byte",
        folder: &[File {
            name: A_NAME,
            bytes: Bytes::Entry(FIVE, &[2, 3, 4, 5, 6, 7]),
        }],
        acts: &[Act::Did(FIVE, &[]), Act::Has(FIVE, 0, &TIMES_READ)],
        files: &[File {
            name: A_NAME,
            bytes: Bytes::Entry(FIVE, &[2, 3, 4, 5, 6, 7]),
        }],
        ..QUIET
    },
    Course {
        name: "what stands behind the gates of the body is none",
        folder: &[File {
            name: A_NAME,
            bytes: Bytes::Entry(FIVE, &[1, 1, 1, 1, 0, 1]),
        }],
        acts: &[Act::Did(FIVE, &[]), Act::Has(FIVE, 16_384, &TIMES_READ)],
        files: &[File {
            name: A_NAME,
            bytes: Bytes::Entry(FIVE, &[1, 1, 1, 1, 0, 1]),
        }],
        ..QUIET
    },
];

#[test]
fn gates_without_an_open_one_behind_one_that_is_not_are_left(rt: HostRuntime) -> Result<(), Fail> {
    says_nothing(&rt, unlike(rt.alloc(), LEFT_ALONE))
}

const CLOSED: &[Course<'static>] = &[
    Course {
        name: "two that are open stand behind one",
        folder: &[File {
            name: A_NAME,
            bytes: Bytes::Entry(FIVE, &[1, 0, 1, 1, 0, 0]),
        }],
        acts: &[
            Act::Did(FIVE, &[Step::Gates(8194, &[0, 0]), Step::Sync]),
            Act::Has(FIVE, 4096, &TIMES_READ),
        ],
        files: &[File {
            name: A_NAME,
            bytes: Bytes::Entry(FIVE, &[1, 0, 0, 0, 0, 0]),
        }],
        ..QUIET
    },
    Course {
        name: "four stand behind the first",
        folder: &[File {
            name: A_NAME,
            bytes: Bytes::Entry(FIVE, &[7, 1, 1, 1, 1, 1]),
        }],
        acts: &[
            Act::Did(FIVE, &[Step::Gates(8193, &[0, 0, 0, 0]), Step::Sync]),
            Act::Has(FIVE, 0, &TIMES_READ),
        ],
        files: &[File {
            name: A_NAME,
            bytes: Bytes::Entry(FIVE, &[7, 0, 0, 0, 0, 1]),
        }],
        ..QUIET
    },
    Course {
        name: "the last is open",
        folder: &[File {
            name: A_NAME,
            bytes: Bytes::Entry(FIVE, &[0, 0, 0, 0, 1, 1]),
        }],
        acts: &[
            Act::Did(FIVE, &[Step::Gates(8196, &[0]), Step::Sync]),
            Act::Has(FIVE, 0, &TIMES_READ),
        ],
        files: &[File {
            name: A_NAME,
            bytes: Bytes::Entry(FIVE, &[0, 0, 0, 0, 0, 1]),
        }],
        ..QUIET
    },
    Course {
        name: "each run of gates is written, and the file is synced once",
        folder: &[File {
            name: A_NAME,
            bytes: Bytes::Entry(FIVE, &[1, 255, 1, 2, 1, 0]),
        }],
        acts: &[
            Act::Did(
                FIVE,
                &[Step::Gates(8194, &[0]), Step::Gates(8196, &[0]), Step::Sync],
            ),
            Act::Has(FIVE, 4096, &TIMES_READ),
        ],
        files: &[File {
            name: A_NAME,
            bytes: Bytes::Entry(FIVE, &[1, 255, 0, 2, 0, 0]),
        }],
        ..QUIET
    },
    Course {
        name: "a crash while gates are closed leaves the same entry",
        folder: &[File {
            name: A_NAME,
            bytes: Bytes::Entry(FIVE, &[1, 0, 1, 0, 1]),
        }],
        acts: &[Act::Happened(9)],
        crashes: &[Crash {
            of: FIVE,
            at: At::Behind(&[1, 2, 3, 4, 5, 6, 7, 8, 9]),
            choices: CHOICES,
            left: &[Found::Entry(4096)],
            mends: None,
            ..CRASH
        }],
        ..QUIET
    },
];

#[test]
fn an_open_gate_behind_one_that_is_not_is_closed_and_nothing_else_is_written(
    rt: HostRuntime,
) -> Result<(), Fail> {
    says_nothing(&rt, unlike(rt.alloc(), CLOSED))
}
