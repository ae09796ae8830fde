// Operations and reads that fail, beside an entry that is kept.
use crate::acts::Act;
use crate::courses::{CRASH, Course, Crash, QUIET, image_of, unlike};
use crate::entries::{A_NAME, B_NAME, BESIDE, Bytes, File, HELLO, TWO, noise};
use crate::format::Found;
use crate::given::{TIMES, TIMES_READ};
use crate::life::{Morning, Opened};
use crate::saying::says_nothing;
use pp_memworld::MemWorld;
use pp_recover::RecoverFault;
use pp_store::{KeepFault, LoadFault};
use pp_text::OutOfMemory;
use pp_world::{DiskFault, Happening};
use std::alloc::Global;
use std::test::Fail;

// The folder is listed by the first call, and the entry beside kept by eleven more. Then come the draft, its sync and the
// publishing; the chunk and its sync; its gate, and the sync of that.

const KEEPING: &[Course<'static>] = &[
    Course {
        name: "a gate that is not written closes the name, and nothing more is done with the file",
        failing: &[&[18]],
        is_beside: true,
        acts: &[
            Act::Keep(HELLO, 0, Some(Ok(()))),
            Act::Extend(HELLO, 5, Some(Err(DiskFault))),
            Act::Lacks(HELLO, true),
            Act::Entries(1),
            Act::Happened(37),
            Act::Keep(HELLO, 0, Some(Err(KeepFault::Closed))),
            Act::Extend(HELLO, 5, None),
            Act::Happened(37),
        ],
        crashes: &[
            Crash {
                of: HELLO,
                choices: &[0],
                left: &[Found::Entry(0)],
                ..CRASH
            },
            Crash {
                of: HELLO,
                choices: &[1],
                left: &[Found::Entry(5)],
                ..CRASH
            },
        ],
        ..QUIET
    },
    Course {
        name: "whichever operation fails, the other entry is as before, and the next life takes the name",
        failing: &[&[15], &[16], &[17], &[18], &[19]],
        is_beside: true,
        acts: &[
            Act::Fill(HELLO, false),
            Act::Lacks(HELLO, true),
            Act::Entries(1),
            Act::Has(BESIDE, 8192, &TIMES),
        ],
        crashes: &[Crash {
            of: HELLO,
            choices: &[0, 1],
            left: &[Found::Nothing, Found::Entry(0), Found::Entry(5)],
            ..CRASH
        }],
        ..QUIET
    },
    Course {
        name: "an entry is asked for again where its draft or the sync of that failed, since no name was touched",
        failing: &[&[13], &[14]],
        is_beside: true,
        acts: &[
            Act::Keep(HELLO, 0, Some(Err(KeepFault::NoDraft))),
            Act::Lacks(HELLO, false),
            Act::Entries(1),
            Act::Fill(HELLO, true),
            Act::Has(HELLO, 5, &TIMES),
        ],
        ..QUIET
    },
    Course {
        name: "a read that fails loses its entry alone",
        failing: &[&[20]],
        is_beside: true,
        acts: &[
            Act::Fill(HELLO, true),
            Act::Load(HELLO, 0, Some(Err(LoadFault::DiskFault))),
            Act::Lacks(HELLO, true),
            Act::Entries(1),
            Act::Has(BESIDE, 8192, &TIMES),
        ],
        ..QUIET
    },
    Course {
        name: "a removal that fails loses its entry alone",
        failing: &[&[20]],
        is_beside: true,
        acts: &[
            Act::Fill(HELLO, true),
            Act::Withdraw(HELLO, Some(Err(DiskFault))),
            Act::Lacks(HELLO, true),
            Act::Entries(1),
            Act::Has(BESIDE, 8192, &TIMES),
        ],
        ..QUIET
    },
];

#[test]
fn a_call_that_fails_closes_its_name_alone(rt: HostRuntime) -> Result<(), Fail> {
    says_nothing(&rt, unlike(rt.alloc(), KEEPING))
}

/// Two entries, in each of which a gate is to be closed.
const STRAYS: &[File] = &[
    File {
        name: A_NAME,
        bytes: Bytes::Entry(TWO, &[0, 1]),
    },
    File {
        name: B_NAME,
        bytes: Bytes::Entry(BESIDE, &[0, 1]),
    },
];

// The folder is listed; of each file the head block is read, its length asked for, its gates are read, the one that is to be
// closed is written, and the file is synced.

const OPENING: &[Course<'static>] = &[
    Course {
        name: "of the first file",
        folder: STRAYS,
        failing: &[&[2], &[3], &[4], &[5], &[6]],
        acts: &[
            Act::Lacks(TWO, true),
            Act::Has(BESIDE, 0, &TIMES_READ),
            Act::Entries(1),
            Act::Fill(BESIDE, true),
        ],
        ..QUIET
    },
    Course {
        name: "of the second",
        folder: STRAYS,
        failing: &[&[7], &[8], &[9], &[10], &[11]],
        acts: &[
            Act::Lacks(BESIDE, true),
            Act::Has(TWO, 0, &TIMES_READ),
            Act::Entries(1),
        ],
        ..QUIET
    },
    Course {
        name: "behind both",
        folder: STRAYS,
        failing: &[&[12]],
        acts: &[
            Act::Has(TWO, 0, &TIMES_READ),
            Act::Has(BESIDE, 0, &TIMES_READ),
            Act::Entries(2),
        ],
        ..QUIET
    },
];

#[test]
fn a_fault_while_a_file_is_looked_at_closes_its_name_alone(rt: HostRuntime) -> Result<(), Fail> {
    says_nothing(&rt, unlike(rt.alloc(), OPENING))
}

/// Whether the folder is refused where its listing fails, and nothing else is done.
fn is_refused(alloc: Global) -> Result<bool, OutOfMemory> {
    let image = image_of(alloc, &noise(99), STRAYS)?;
    match Morning::over(alloc, image, &[1])?.open(alloc) {
        Opened::Refused(fault, world) => {
            Ok(fault == RecoverFault::DiskFault && is_just_unlisted(&world))
        }
        Opened::Life(_) => Ok(false),
    }
}

fn is_just_unlisted(world: &MemWorld) -> bool {
    matches!(
        world.log(),
        Some([
            Happening::Woke(_),
            Happening::Rooted(_),
            Happening::Listed(false)
        ])
    )
}

#[test]
fn a_folder_that_is_not_listed_is_not_an_empty_one(rt: HostRuntime) -> Result<(), Fail> {
    assert!(rt; is_refused(rt.alloc())?);
    Ok(())
}
