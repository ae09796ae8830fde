// What the next life finds, at whatever moment the one before it ended.
use crate::acts::Act;
use crate::courses::{At, CHOICES, CRASH, Course, Crash, QUIET, TORN, unlike};
use crate::entries::{FOUR, TWO};
use crate::format::Found;
use crate::saying::says_nothing;
use crate::steps::Step;
use std::test::Fail;

/// The life wakes, roots and lists its folder; begins and does the three operations of the entry, the four of each chunk,
/// and the removal.
const ANY_MOMENT: &[Course<'static>] = &[Course {
    name: "the next life finds what the file says, and all that was acknowledged, and goes on from there",
    acts: &[
        Act::Fill(TWO, true),
        Act::Withdraw(TWO, Some(Ok(()))),
        Act::Happened(27),
    ],
    crashes: &[
        Crash {
            at: At::Behind(&[0, 1, 2, 3, 4, 5, 6, 7]),
            choices: CHOICES,
            left: &[Found::Nothing],
            ..CRASH
        },
        Crash {
            at: At::Behind(&[8]),
            choices: CHOICES,
            left: &[Found::Nothing, Found::Entry(0)],
            ..CRASH
        },
        Crash {
            at: At::Behind(&[9, 10, 11, 12, 13]),
            choices: CHOICES,
            left: &[Found::Entry(0)],
            ..CRASH
        },
        Crash {
            at: At::Behind(&[14, 15, 16]),
            choices: CHOICES,
            left: &[Found::Entry(0), Found::Entry(4096)],
            ..CRASH
        },
        Crash {
            at: At::Behind(&[17, 18, 19, 20, 21]),
            choices: CHOICES,
            left: &[Found::Entry(4096)],
            ..CRASH
        },
        Crash {
            at: At::Behind(&[22, 23, 24]),
            choices: CHOICES,
            left: &[Found::Entry(4096), Found::Entry(8192)],
            ..CRASH
        },
        Crash {
            at: At::Behind(&[25]),
            choices: CHOICES,
            left: &[Found::Entry(8192)],
            ..CRASH
        },
        Crash {
            at: At::Behind(&[26]),
            choices: CHOICES,
            left: &[Found::Entry(8192), Found::Nothing],
            ..CRASH
        },
        Crash {
            at: At::Behind(&[27]),
            choices: CHOICES,
            left: &[Found::Nothing],
            ..CRASH
        },
    ],
    ..QUIET
}];

#[test]
fn the_next_life_finds_what_the_file_says_and_all_that_was_acknowledged(
    rt: HostRuntime,
) -> Result<(), Fail> {
    says_nothing(&rt, unlike(rt.alloc(), ANY_MOMENT))
}

/// All chunks of an entry are kept at once, and a crash comes within the write of their gates.
const TORN_APART: &[Course<'static>] = &[Course {
    name: "gates that were torn apart are closed before the entry counts",
    acts: &[
        Act::Keep(FOUR, 0, Some(Ok(()))),
        Act::Extend(FOUR, 16_384, Some(Ok(16_384))),
        Act::Did(
            FOUR,
            &[
                Step::Draft(12_288),
                Step::SyncDraft,
                Step::Publish,
                Step::Body(12_288, 0, 16_384),
                Step::Sync,
                Step::Gates(8192, &[1, 1, 1, 1]),
                Step::Sync,
            ],
        ),
    ],
    crashes: &[
        Crash {
            of: FOUR,
            at: At::Behind(&[14]),
            left: &[Found::Entry(0)],
            gates: &[0, 0, 0, 0],
            ..CRASH
        },
        Crash {
            of: FOUR,
            at: At::Behind(&[14]),
            choices: &[1],
            left: &[Found::Entry(16_384)],
            gates: &[1, 1, 1, 1],
            ..CRASH
        },
        // Each run of gates is written, and the file is synced once.
        Crash {
            of: FOUR,
            at: At::Behind(&[14]),
            choices: &[TORN],
            left: &[Found::Entry(0)],
            gates: &[0, 1, 0, 1],
            mends: Some(&[Step::Gates(8193, &[0]), Step::Gates(8195, &[0]), Step::Sync]),
            ..CRASH
        },
        Crash {
            of: FOUR,
            at: At::Behind(&[14]),
            choices: &[TORN + 5],
            left: &[Found::Entry(4096)],
            gates: &[1, 0, 1, 1],
            mends: Some(&[Step::Gates(8194, &[0, 0]), Step::Sync]),
            ..CRASH
        },
        Crash {
            of: FOUR,
            at: At::Behind(&[14]),
            choices: &[TORN + 19],
            left: &[Found::Entry(8192)],
            gates: &[1, 1, 0, 1],
            mends: Some(&[Step::Gates(8195, &[0]), Step::Sync]),
            ..CRASH
        },
        Crash {
            of: FOUR,
            at: At::Behind(&[14]),
            choices: &[TORN + 6],
            left: &[Found::Entry(0)],
            gates: &[0, 1, 1, 0],
            mends: Some(&[Step::Gates(8193, &[0, 0]), Step::Sync]),
            ..CRASH
        },
    ],
    ..QUIET
}];

#[test]
fn gates_that_were_torn_apart_are_closed_before_the_entry_counts(
    rt: HostRuntime,
) -> Result<(), Fail> {
    says_nothing(&rt, unlike(rt.alloc(), TORN_APART))
}
