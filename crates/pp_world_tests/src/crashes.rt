// Crashes: what each choice leaves.
use crate::calls::{Call, Gives};
use crate::lives::{Life, unlike};
use crate::outcome::settled;
use std::test::Fail;

/// From this choice on a crash tears.
const TORN: u64 = 1 << 63;

// Behind Woke stand a Began and a Did of each operation. The first value of the generator is even by the choice 2 and by
// 2^63 + 1, and odd by 3 and by 2^63.

const IN_DOUBT: &[Life<'static>] = &[
    Life {
        name: "a crash in a publish leaves the old file or the new",
        files: &[(b'a', b"old")],
        failing: &[],
        calls: &[
            (Call::Draft(b"new!"), Gives::Done),
            (Call::SyncDraft, Gives::Done),
            (Call::Publish(b'a'), Gives::Done),
        ],
        told: None,
        left: &[
            (&[(2, 1)], b"old"),
            (&[(5, 0)], b"old"),
            (&[(5, 1)], b"old"),
            (&[(6, 0)], b"old"),
            (&[(6, 1)], b"new!"),
            (&[(6, 2)], b"old"),
            (&[(6, 3)], b"new!"),
            (&[(6, TORN + 1)], b"old"),
            (&[(6, TORN)], b"new!"),
            (&[(7, 0)], b"new!"),
            (&[(7, 1)], b"new!"),
            (&[(7, TORN + 1)], b"new!"),
        ],
    },
    Life {
        name: "of three files in doubt a crash leaves any",
        files: &[(b'a', b"old")],
        failing: &[3, 6],
        calls: &[
            (Call::Draft(b"new!"), Gives::Done),
            (Call::SyncDraft, Gives::Done),
            (Call::Publish(b'a'), Gives::Fault),
            (Call::Draft(b"newer"), Gives::Done),
            (Call::SyncDraft, Gives::Done),
            (Call::Publish(b'a'), Gives::Fault),
        ],
        told: None,
        left: &[
            (&[(13, 0)], b"old"),
            (&[(13, 1)], b"newer"),
            (&[(13, 2)], b"old"),
            (&[(13, 3)], b"newer"),
            (&[(13, TORN)], b"old"),
            (&[(13, TORN + 204)], b"new!"),
            (&[(13, TORN + 30)], b"newer"),
        ],
    },
    Life {
        name: "a failed operation stays in doubt for the rest of the life, and what a crash left is at rest",
        files: &[(b'a', b"hello")],
        failing: &[1],
        calls: &[
            (Call::Remove(b'a'), Gives::Fault),
            (Call::Sync(b'a'), Gives::Done),
        ],
        told: None,
        left: &[
            (&[(5, 0)], b"hello"),
            (&[(5, 1)], b""),
            (&[(5, 0), (6, 1)], b"hello"),
        ],
    },
];

#[test]
fn a_crash_leaves_one_of_the_files_in_doubt(rt: HostRuntime) -> Result<(), Fail> {
    settled(rt.alloc(), unlike(rt.alloc(), IN_DOUBT))
}

const LOOSE: &[Life<'static>] = &[
    Life {
        name: "a draft that is published without a sync may lose its bytes",
        files: &[(b'a', b"old")],
        failing: &[],
        calls: &[
            (Call::Draft(b"new!"), Gives::Done),
            (Call::Publish(b'a'), Gives::Done),
        ],
        told: None,
        left: &[
            (&[(5, 0)], b""),
            (&[(5, 1)], b"new!"),
            (&[(5, 2)], &[236, 170, 136, 88]),
        ],
    },
    Life {
        name: "a write that was not synced may leave other bytes",
        files: &[(b'a', b"hello")],
        failing: &[],
        calls: &[
            (Call::Write(b'a', 1, b"iya"), Gives::Done),
            (Call::Sync(b'a'), Gives::Done),
        ],
        told: None,
        left: &[
            (&[(1, 1)], b"hello"),
            (&[(2, 0)], b"hello"),
            (&[(2, 1)], b"hiyao"),
            (&[(2, 71)], &[b'h', 7, 127, 15, b'o']),
            (&[(3, 0)], b"hello"),
            (&[(3, 1)], b"hiyao"),
            (&[(4, 0)], b"hello"),
            (&[(5, 0)], b"hiyao"),
            (&[(5, 1)], b"hiyao"),
            (&[(5, 71)], b"hiyao"),
            (&[(5, TORN)], b"hiyao"),
        ],
    },
    Life {
        name: "old bytes are those of the last sync",
        files: &[(b'a', b"aaaa")],
        failing: &[],
        calls: &[
            (Call::Write(b'a', 1, b"bb"), Gives::Done),
            (Call::Write(b'a', 2, b"cc"), Gives::Done),
            (Call::Sync(b'a'), Gives::Done),
            (Call::Write(b'a', 3, b"d"), Gives::Done),
        ],
        told: None,
        left: &[
            (&[(5, 0)], b"aaaa"),
            (&[(5, 1)], b"abcc"),
            (&[(4, 1)], b"abcc"),
            (&[(9, 0)], b"abcc"),
            (&[(9, 1)], b"abcd"),
        ],
    },
    Life {
        name: "gates that were not synced are torn: a front of them is open, or some of them",
        files: &[(b'a', b"0000body")],
        failing: &[],
        calls: &[(Call::Write(b'a', 0, b"1111"), Gives::Done)],
        told: None,
        left: &[
            (&[(3, TORN + 3)], b"1100body"),
            (&[(3, TORN + 1)], b"1000body"),
            (&[(3, TORN)], b"0101body"),
        ],
    },
    Life {
        name: "a chunk that was not synced is half old and half new",
        files: &[(b'a', b"oldoldol")],
        failing: &[],
        calls: &[(Call::Write(b'a', 0, b"newnewne"), Gives::Done)],
        told: None,
        left: &[
            (&[(3, TORN + 565)], b"newnldol"),
            (&[(3, TORN + 357)], b"oldoewne"),
        ],
    },
    Life {
        name: "a file ends between its synced length and its greatest end",
        files: &[(b'a', b"hi")],
        failing: &[],
        calls: &[(Call::Write(b'a', 2, b" you"), Gives::Done)],
        told: None,
        left: &[
            (&[(2, 0)], b"hi"),
            (&[(2, 1)], b"hi you"),
            (&[(2, 2)], &[b'h', b'i', 236, 170, 136, 88]),
            (&[(2, TORN + 15)], b"hi "),
            (&[(2, TORN + 7)], b"hi y"),
            (&[(3, 0)], b"hi"),
            (&[(3, 1)], b"hi you"),
            (&[(3, 2)], &[b'h', b'i', 236, 170, 136, 88]),
            (&[(3, TORN + 4)], b"hi"),
            (&[(3, TORN)], b"hi "),
            (&[(3, TORN + 1)], b"hi yo"),
        ],
    },
];

#[test]
fn a_crash_leaves_of_what_is_loose_what_its_choice_says(rt: HostRuntime) -> Result<(), Fail> {
    settled(rt.alloc(), unlike(rt.alloc(), LOOSE))
}

const NOT_MENDED: &[Life<'static>] = &[
    Life {
        name: "a failed sync is not mended by another",
        files: &[(b'a', b"hello")],
        failing: &[2],
        calls: &[
            (Call::Write(b'a', 1, b"iya"), Gives::Done),
            (Call::Sync(b'a'), Gives::Fault),
            (Call::Sync(b'a'), Gives::Done),
        ],
        told: None,
        left: &[(&[(7, 0)], b"hello"), (&[(7, 1)], b"hiyao")],
    },
    Life {
        name: "a write behind a failed sync is not settled either",
        files: &[(b'a', b"hello")],
        failing: &[1],
        calls: &[
            (Call::Sync(b'a'), Gives::Fault),
            (Call::Write(b'a', 1, b"iya"), Gives::Done),
            (Call::Sync(b'a'), Gives::Done),
        ],
        told: None,
        left: &[(&[(7, 0)], b"hello")],
    },
    Life {
        name: "nor is one behind a read that failed",
        files: &[(b'a', b"hello")],
        failing: &[1],
        calls: &[
            (Call::Length(b'a'), Gives::Fault),
            (Call::Write(b'a', 1, b"iya"), Gives::Done),
            (Call::Sync(b'a'), Gives::Done),
        ],
        told: None,
        left: &[(&[(6, 0)], b"hello")],
    },
    Life {
        name: "a failed sync of another name costs nothing",
        files: &[(b'a', b"hello")],
        failing: &[1],
        calls: &[
            (Call::Sync(b'0'), Gives::Fault),
            (Call::Write(b'a', 1, b"iya"), Gives::Done),
            (Call::Sync(b'a'), Gives::Done),
        ],
        told: None,
        left: &[(&[(7, 0)], b"hiyao")],
    },
];

#[test]
fn a_failed_sync_is_not_mended_by_another(rt: HostRuntime) -> Result<(), Fail> {
    settled(rt.alloc(), unlike(rt.alloc(), NOT_MENDED))
}
