// An entry that is published with its body.
use crate::acts::Act;
use crate::courses::{At, CHOICES, CRASH, Course, Crash, QUIET, TORN, unlike};
use crate::entries::{A_NAME, Bytes, File, TWO};
use crate::format::Found;
use crate::given::TIMES;
use crate::saying::says_nothing;
use crate::steps::Step;
use std::test::Fail;

const OPERATIONS: &[Step] = &[Step::Draft(20_480), Step::SyncDraft, Step::Publish];

// The life woke, and rooted and listed its folder; the draft, its sync and the publishing are begun and done. The first value
// of the generator is even by the choice 2 and by 2^63 + 1, and odd by 3 and by 2^63.

const WHOLE: &[Course<'static>] = &[
    Course {
        name: "a whole entry is kept in three operations, and a crash behind each happening of it leaves the whole entry or none",
        acts: &[
            Act::Keep(TWO, 8192, Some(Ok(()))),
            Act::Did(TWO, OPERATIONS),
            Act::Happened(9),
            Act::Has(TWO, 8192, &TIMES),
        ],
        files: &[File {
            name: A_NAME,
            bytes: Bytes::Entry(TWO, &[1, 1]),
        }],
        crashes: &[
            Crash {
                at: At::Behind(&[0, 1, 2, 3, 4, 5, 6, 7]),
                choices: CHOICES,
                left: &[Found::Nothing],
                ..CRASH
            },
            Crash {
                at: At::Behind(&[8]),
                choices: &[0, 2, TORN + 1],
                left: &[Found::Nothing],
                ..CRASH
            },
            Crash {
                at: At::Behind(&[8]),
                choices: &[1, 3, TORN],
                left: &[Found::Entry(8192)],
                ..CRASH
            },
            Crash {
                at: At::Behind(&[9]),
                choices: CHOICES,
                left: &[Found::Entry(8192)],
                ..CRASH
            },
        ],
        ..QUIET
    },
    Course {
        name: "in the place of another file a crash leaves that one or the whole entry",
        folder: &[File {
            name: A_NAME,
            bytes: Bytes::Text(b"notes of my own"),
        }],
        acts: &[
            Act::Keep(TWO, 8192, Some(Ok(()))),
            Act::Did(TWO, OPERATIONS),
        ],
        crashes: &[
            Crash {
                at: At::Behind(&[1, 2, 3, 4, 5, 6, 7]),
                choices: CHOICES,
                left: &[Found::Other],
                ..CRASH
            },
            Crash {
                at: At::Behind(&[8]),
                choices: &[0, 2, TORN + 1],
                left: &[Found::Other],
                ..CRASH
            },
            Crash {
                at: At::Behind(&[8]),
                choices: &[1, 3, TORN],
                left: &[Found::Entry(8192)],
                ..CRASH
            },
            Crash {
                at: At::Behind(&[9]),
                choices: CHOICES,
                left: &[Found::Entry(8192)],
                ..CRASH
            },
        ],
        ..QUIET
    },
    Course {
        name: "the rest is kept behind the chunk that was published",
        acts: &[
            Act::Keep(TWO, 4096, Some(Ok(()))),
            Act::Has(TWO, 4096, &TIMES),
            Act::Fill(TWO, true),
            Act::Did(
                TWO,
                &[
                    Step::Draft(16_384),
                    Step::SyncDraft,
                    Step::Publish,
                    Step::Body(16_384, 4096, 8192),
                    Step::Sync,
                    Step::Gates(8193, &[1]),
                    Step::Sync,
                ],
            ),
            Act::Has(TWO, 8192, &TIMES),
        ],
        ..QUIET
    },
];

#[test]
fn an_entry_is_published_with_its_body(rt: HostRuntime) -> Result<(), Fail> {
    says_nothing(&rt, unlike(rt.alloc(), WHOLE))
}
