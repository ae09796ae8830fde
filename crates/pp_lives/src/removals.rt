// An entry that is withdrawn.
use crate::acts::Act;
use crate::courses::{At, CRASH, Course, Crash, QUIET, unlike};
use crate::entries::{HELLO, OTHER};
use crate::format::Found;
use crate::saying::says_nothing;
use pp_world::DiskFault;
use std::test::Fail;

const REMOVALS: &[Course<'static>] = &[
    Course {
        name: "a crash within a removal leaves the whole entry or none",
        acts: &[
            Act::Fill(HELLO, true),
            Act::Withdraw(HELLO, Some(Ok(()))),
            Act::Withdraw(HELLO, None),
            Act::Lacks(HELLO, false),
            Act::Entries(0),
            Act::Happened(19),
        ],
        // The removal is begun behind 18 happenings and done behind 19. The first value of the generator is even by the choice
        // 2, and odd by 3.
        crashes: &[
            Crash {
                of: HELLO,
                at: At::Behind(&[17]),
                choices: &[0, 1],
                left: &[Found::Entry(5)],
                ..CRASH
            },
            Crash {
                of: HELLO,
                at: At::Behind(&[18]),
                choices: &[0, 2],
                left: &[Found::Entry(5)],
                ..CRASH
            },
            Crash {
                of: HELLO,
                at: At::Behind(&[18]),
                choices: &[1, 3],
                left: &[Found::Nothing],
                ..CRASH
            },
            Crash {
                of: HELLO,
                at: At::Behind(&[19]),
                choices: &[0, 1, 2],
                left: &[Found::Nothing],
                ..CRASH
            },
        ],
        ..QUIET
    },
    Course {
        name: "a removal that fails may bring the entry back",
        // Behind the listing, and the seven calls that keep the entry.
        failing: &[&[9]],
        acts: &[
            Act::Fill(HELLO, true),
            Act::Withdraw(HELLO, Some(Err(DiskFault))),
            Act::Lacks(HELLO, true),
        ],
        crashes: &[
            Crash {
                of: HELLO,
                choices: &[0],
                left: &[Found::Entry(5)],
                ..CRASH
            },
            Crash {
                of: HELLO,
                choices: &[1],
                left: &[Found::Nothing],
                ..CRASH
            },
        ],
        ..QUIET
    },
    Course {
        name: "a name that was freed takes a new entry",
        acts: &[
            Act::Fill(HELLO, true),
            Act::Withdraw(HELLO, Some(Ok(()))),
            Act::Fill(OTHER, true),
        ],
        crashes: &[Crash {
            of: OTHER,
            left: &[Found::Entry(6)],
            ..CRASH
        }],
        ..QUIET
    },
];

#[test]
fn an_entry_is_withdrawn_whole(rt: HostRuntime) -> Result<(), Fail> {
    says_nothing(&rt, unlike(rt.alloc(), REMOVALS))
}
