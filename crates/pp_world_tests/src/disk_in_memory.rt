// The disk in memory, call by call: what reads and listings give, what is told, and which calls fail.
use crate::calls::{Call, Gives};
use crate::lives::{Life, not_failing, unlike};
use crate::outcome::settled;
use std::test::Fail;

const ONE: &[(u8, &[u8])] = &[(b'a', b"hello")];

const LIVES: &[Life<'static>] = &[
    Life {
        name: "a draft is published, and read under its name",
        files: &[],
        failing: &[],
        calls: &[
            (Call::Root(b"folder"), Gives::Done),
            (Call::Publish(b'a'), Gives::Barred),
            (Call::Length(b'a'), Gives::Length(0)),
            (Call::Draft(b"gone"), Gives::Done),
            (Call::Draft(b"hello"), Gives::Done),
            (Call::SyncDraft, Gives::Done),
            (Call::Publish(b'a'), Gives::Done),
            (Call::Publish(b'0'), Gives::Barred),
            (Call::Whole(b'a'), Gives::Bytes(b"hello")),
            (Call::Whole(b'0'), Gives::Bytes(b"")),
            (Call::Read(b'a', 1, 3), Gives::Bytes(b"ell")),
            (Call::Read(b'a', 4, 3), Gives::Bytes(b"o")),
            (Call::Read(b'a', 5, 3), Gives::Bytes(b"")),
            (Call::Read(b'a', u64::MAX, 3), Gives::Bytes(b"")),
            (Call::Names, Gives::Names(b"a")),
        ],
        told: Some(&[
            "Woke", "Rooted", "Began", "Did", "Began", "Did", "Began", "Did", "Began", "Did",
            "Listed",
        ]),
        left: &[],
    },
    Life {
        name: "a write goes over the file from its offset on, which the file reaches",
        files: ONE,
        failing: &[],
        calls: &[
            (Call::Write(b'a', 3, b"p!!"), Gives::Done),
            (Call::Whole(b'a'), Gives::Bytes(b"help!!")),
            (Call::Write(b'a', 0, b"y"), Gives::Done),
            (Call::Write(b'a', 6, b"?"), Gives::Done),
            (Call::Whole(b'a'), Gives::Bytes(b"yelp!!?")),
            (Call::Write(b'a', 8, b"far"), Gives::Barred),
            (Call::Write(b'0', 0, b"none"), Gives::Barred),
            (Call::Sync(b'a'), Gives::Done),
            (Call::Sync(b'0'), Gives::Done),
            (Call::Whole(b'a'), Gives::Bytes(b"yelp!!?")),
        ],
        told: None,
        left: &[],
    },
    Life {
        name: "a removed file has no bytes and no name",
        files: ONE,
        failing: &[],
        calls: &[
            (Call::Names, Gives::Names(b"a")),
            (Call::Remove(b'a'), Gives::Done),
            (Call::Whole(b'a'), Gives::Bytes(b"")),
            (Call::Names, Gives::Names(b"")),
            (Call::Remove(b'0'), Gives::Done),
        ],
        told: None,
        left: &[],
    },
    Life {
        name: "names of lower hexadecimal digits are listed in order",
        files: &[
            (b'f', b"1"),
            (b'g', b"2"),
            (b'9', b""),
            (b'A', b"3"),
            (b'0', b"4"),
        ],
        failing: &[],
        calls: &[
            (Call::Names, Gives::Names(b"09f")),
            (Call::Whole(b'A'), Gives::Bytes(b"3")),
        ],
        told: None,
        left: &[],
    },
    Life {
        name: "a failed publish takes the draft, and nothing may be written under a name in doubt",
        files: ONE,
        failing: &[3, 5],
        calls: &[
            (Call::Draft(b"new"), Gives::Done),
            (Call::SyncDraft, Gives::Done),
            (Call::Publish(b'a'), Gives::Fault),
            (Call::Publish(b'a'), Gives::Barred),
            (Call::Write(b'a', 0, b"w"), Gives::Barred),
            (Call::Draft(b"next"), Gives::Done),
            (Call::Draft(b"lost"), Gives::Fault),
            (Call::Publish(b'a'), Gives::Barred),
        ],
        told: None,
        left: &[],
    },
    Life {
        name: "a failed sync of the draft takes it, and a sync behind it brings none back",
        files: ONE,
        failing: &[2],
        calls: &[
            (Call::Draft(b"new"), Gives::Done),
            (Call::SyncDraft, Gives::Fault),
            (Call::Publish(b'a'), Gives::Barred),
            (Call::SyncDraft, Gives::Done),
            (Call::Publish(b'a'), Gives::Barred),
            (Call::Whole(b'a'), Gives::Bytes(b"hello")),
        ],
        told: None,
        left: &[],
    },
];

#[test]
fn the_calls_on_the_disk_give_what_the_log_says(rt: HostRuntime) -> Result<(), Fail> {
    settled(rt.alloc(), unlike(rt.alloc(), LIVES))
}

/// A call that fails, and all that is told of its life.
const FAILING: &[(Call<'static>, &[&str])] = &[
    (
        Call::Names,
        &["Woke", "Rooted", "Began", "Did", "Unlisted", "Listed"],
    ),
    (
        Call::Length(b'a'),
        &["Woke", "Rooted", "Began", "Did", "Unread", "Listed"],
    ),
    (
        Call::Read(b'a', 0, 8),
        &["Woke", "Rooted", "Began", "Did", "Unread", "Listed"],
    ),
    (
        Call::Draft(b"new"),
        &[
            "Woke", "Rooted", "Began", "Did", "Began", "Failed", "Listed",
        ],
    ),
    (
        Call::SyncDraft,
        &[
            "Woke", "Rooted", "Began", "Did", "Began", "Failed", "Listed",
        ],
    ),
    (
        Call::Publish(b'a'),
        &[
            "Woke", "Rooted", "Began", "Did", "Began", "Failed", "Listed",
        ],
    ),
    (
        Call::Write(b'a', 0, b"w"),
        &[
            "Woke", "Rooted", "Began", "Did", "Began", "Failed", "Listed",
        ],
    ),
    (
        Call::Sync(b'a'),
        &[
            "Woke", "Rooted", "Began", "Did", "Began", "Failed", "Listed",
        ],
    ),
    (
        Call::Remove(b'a'),
        &[
            "Woke", "Rooted", "Began", "Did", "Began", "Failed", "Listed",
        ],
    ),
];

#[test]
fn a_call_fails_by_its_number_and_does_nothing(rt: HostRuntime) -> Result<(), Fail> {
    settled(rt.alloc(), not_failing(rt.alloc(), FAILING))
}
