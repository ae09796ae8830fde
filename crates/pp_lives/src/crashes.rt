// A crash within an operation of an entry of two chunks.
use crate::acts::Act;
use crate::courses::{At, CHOICES, CRASH, Course, Crash, QUIET, unlike};
use crate::entries::TWO;
use crate::format::Found;
use crate::saying::says_nothing;
use std::test::Fail;

// The life woke, and rooted and listed its folder. Then come the draft, its sync and the publishing, and for each chunk its
// write and sync, and those of its gate: the n-th operation is begun behind 3 + 2n - 1 happenings.

const WITHIN: &[Course<'static>] = &[Course {
    name: "an operation did what it was to do, or not",
    acts: &[Act::Fill(TWO, true), Act::Happened(25)],
    crashes: &[
        // The sync of the draft.
        Crash {
            at: At::Behind(&[6]),
            choices: &[1],
            left: &[Found::Nothing],
            ..CRASH
        },
        // The publishing. The first value of the generator is even by the choice 2, and odd by 3.
        Crash {
            at: At::Behind(&[8]),
            choices: &[0, 2],
            left: &[Found::Nothing],
            ..CRASH
        },
        Crash {
            at: At::Behind(&[8]),
            choices: &[1, 3],
            left: &[Found::Entry(0)],
            ..CRASH
        },
        // The write of the first chunk.
        Crash {
            at: At::Behind(&[10]),
            choices: &[1],
            left: &[Found::Entry(0)],
            ..CRASH
        },
        // And of its gate.
        Crash {
            at: At::Behind(&[14]),
            choices: &[1],
            left: &[Found::Entry(4096)],
            ..CRASH
        },
        // By any choice the draft is no entry, and what was sealed stands.
        Crash {
            at: At::Behind(&[4]),
            choices: CHOICES,
            left: &[Found::Nothing],
            ..CRASH
        },
        Crash {
            at: At::Behind(&[18]),
            choices: CHOICES,
            left: &[Found::Entry(4096)],
            ..CRASH
        },
    ],
    ..QUIET
}];

#[test]
fn a_crash_within_an_operation_leaves_what_it_was_to_do_or_not(
    rt: HostRuntime,
) -> Result<(), Fail> {
    says_nothing(&rt, unlike(rt.alloc(), WITHIN))
}

/// The gate of the second chunk: as it was, as it was to be, and the low byte of the generator's first value.
const TORN: &[Course<'static>] = &[Course {
    name: "a torn gate vouches for its chunk where it is one",
    acts: &[Act::Fill(TWO, true)],
    crashes: &[
        Crash {
            at: At::Behind(&[22]),
            left: &[Found::Entry(4096)],
            gates: &[1, 0x00],
            ..CRASH
        },
        Crash {
            at: At::Behind(&[22]),
            choices: &[1],
            left: &[Found::Entry(8192)],
            gates: &[1, 0x01],
            ..CRASH
        },
        Crash {
            at: At::Behind(&[22]),
            choices: &[2],
            left: &[Found::Entry(4096)],
            gates: &[1, 0xec],
            ..CRASH
        },
        Crash {
            at: At::Behind(&[22]),
            choices: &[71],
            left: &[Found::Entry(4096)],
            gates: &[1, 0x07],
            ..CRASH
        },
        Crash {
            at: At::Behind(&[22]),
            choices: &[342],
            left: &[Found::Entry(8192)],
            gates: &[1, 0x01],
            ..CRASH
        },
        Crash {
            at: At::Behind(&[22]),
            choices: &[82],
            left: &[Found::Entry(4096)],
            gates: &[1, 0x00],
            ..CRASH
        },
        Crash {
            at: At::Behind(&[22]),
            choices: &[116],
            left: &[Found::Entry(4096)],
            gates: &[1, 0x02],
            ..CRASH
        },
        Crash {
            at: At::Behind(&[22]),
            choices: &[3],
            left: &[Found::Entry(4096)],
            gates: &[1, 0x03],
            ..CRASH
        },
        Crash {
            at: At::Behind(&[22]),
            choices: &[354],
            left: &[Found::Entry(4096)],
            gates: &[1, 0x11],
            ..CRASH
        },
        Crash {
            at: At::Behind(&[22]),
            choices: &[325],
            left: &[Found::Entry(4096)],
            gates: &[1, 0x80],
            ..CRASH
        },
        Crash {
            at: At::Behind(&[22]),
            choices: &[99],
            left: &[Found::Entry(4096)],
            gates: &[1, 0x81],
            ..CRASH
        },
        Crash {
            at: At::Behind(&[22]),
            choices: &[48],
            left: &[Found::Entry(4096)],
            gates: &[1, 0xfe],
            ..CRASH
        },
        Crash {
            at: At::Behind(&[22]),
            choices: &[308],
            left: &[Found::Entry(4096)],
            gates: &[1, 0xff],
            ..CRASH
        },
    ],
    ..QUIET
}];

#[test]
fn a_torn_gate_vouches_for_its_chunk_where_it_is_one(rt: HostRuntime) -> Result<(), Fail> {
    says_nothing(&rt, unlike(rt.alloc(), TORN))
}
