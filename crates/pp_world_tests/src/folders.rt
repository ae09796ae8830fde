// Real folders, call by call, each course in one of its own.
use crate::calls::{Call, Gives};
use crate::folder_acts::{Act, Course, unlike};
use crate::outcome::settled;
use std::test::Fail;

const FOLDERS: &[Course<'static>] = &[
    Course {
        name: "a folder is made, but none above it, and it is the user's alone",
        acts: &[
            Act::Call(Call::Root(b"disk_root"), Gives::Done),
            Act::Mode("disk_root", 0o700),
            Act::Call(Call::Names, Gives::Names(b"")),
            Act::Call(Call::Root(b"disk_root/above/below"), Gives::Done),
            Act::Call(Call::Names, Gives::Fault),
            Act::Put("disk_root/file", b""),
            Act::Call(Call::Root(b"disk_root/file"), Gives::Done),
            Act::Call(Call::Names, Gives::Fault),
            Act::Clear("disk_root"),
        ],
    },
    Course {
        name: "a second program is refused",
        acts: &[
            Act::Call(Call::Root(b"disk_lock"), Gives::Done),
            Act::Second(Call::Root(b"disk_lock"), Gives::Done),
            Act::Second(Call::Names, Gives::Fault),
            Act::Second(Call::Draft(b"text"), Gives::Fault),
            Act::Call(Call::Draft(b"text"), Gives::Done),
            Act::Ends,
            Act::Second(Call::Root(b"disk_lock"), Gives::Done),
            Act::Second(Call::Draft(b"text"), Gives::Done),
            Act::Clear("disk_lock"),
        ],
    },
    Course {
        name: "names are those of 32 digits, in order, and of files",
        acts: &[
            Act::Call(Call::Root(b"disk_names"), Gives::Done),
            Act::Put("disk_names/ffffffffffffffffffffffffffffffff", b""),
            Act::Put("disk_names/aaaaaaaaaaaaaaaaaaaaaaaaaaaaaaaa", b""),
            Act::Put("disk_names/AAAAAAAAAAAAAAAAAAAAAAAAAAAAAAAA", b""),
            Act::Put("disk_names/aaaaaaaaaaaaaaaaaaaaaaaaaaaaaaa", b""),
            Act::Put("disk_names/aaaaaaaaaaaaaaaagaaaaaaaaaaaaaaa", b""),
            Act::Put("disk_names/draft", b""),
            Act::Make("disk_names/00000000000000000000000000000000"),
            Act::Call(Call::Names, Gives::Names(b"af")),
            Act::Clear("disk_names"),
        ],
    },
    Course {
        name: "a folder that is moved is left, and none is taken in its place",
        acts: &[
            Act::Call(Call::Root(b"disk_moved"), Gives::Done),
            Act::Tick,
            Act::Call(Call::Draft(b"text"), Gives::Done),
            Act::Move("disk_moved", "disk_moved_away"),
            Act::Make("disk_moved"),
            Act::Tick,
            Act::Call(Call::Draft(b"more"), Gives::Fault),
            Act::Call(Call::Names, Gives::Fault),
            Act::Call(Call::Length(b'a'), Gives::Fault),
            Act::Has("disk_moved_away/draft", b"text"),
            Act::Clear("disk_moved"),
            Act::Clear("disk_moved_away"),
        ],
    },
    Course {
        name: "without a folder every call fails",
        acts: &[
            Act::Call(Call::Names, Gives::Fault),
            Act::Call(Call::Length(b'a'), Gives::Fault),
            Act::Call(Call::Read(b'a', 0, 3), Gives::Fault),
            Act::Call(Call::Draft(b"text"), Gives::Fault),
            Act::Call(Call::SyncDraft, Gives::Fault),
            Act::Call(Call::Publish(b'a'), Gives::Fault),
            Act::Call(Call::Write(b'a', 0, b"text"), Gives::Fault),
            Act::Call(Call::Sync(b'a'), Gives::Fault),
            Act::Call(Call::Remove(b'a'), Gives::Fault),
        ],
    },
];

#[test]
fn a_folder_is_one_program_s(rt: HostRuntime) -> Result<(), Fail> {
    settled(rt.alloc(), unlike(&rt, FOLDERS))
}

const FILES: &[Course<'static>] = &[
    Course {
        name: "a file is as long as it is, and 0 where there is none",
        acts: &[
            Act::Call(Call::Root(b"disk_length"), Gives::Done),
            Act::Put("disk_length/aaaaaaaaaaaaaaaaaaaaaaaaaaaaaaaa", b"12345"),
            Act::Call(Call::Length(b'a'), Gives::Length(5)),
            Act::Call(Call::Length(b'f'), Gives::Length(0)),
            Act::Clear("disk_length"),
        ],
    },
    Course {
        name: "a file is read as far as it and the buffer go",
        acts: &[
            Act::Call(Call::Root(b"disk_read"), Gives::Done),
            Act::Put("disk_read/aaaaaaaaaaaaaaaaaaaaaaaaaaaaaaaa", b"12345"),
            Act::Call(Call::Read(b'a', 0, 3), Gives::Bytes(b"123")),
            Act::Call(Call::Read(b'a', 3, 3), Gives::Bytes(b"45")),
            Act::Call(Call::Read(b'a', 9, 3), Gives::Bytes(b"")),
            Act::Call(Call::Read(b'f', 0, 3), Gives::Bytes(b"")),
            Act::Make("disk_read/ffffffffffffffffffffffffffffffff"),
            Act::Call(Call::Read(b'f', 0, 3), Gives::Fault),
            Act::Clear("disk_read"),
        ],
    },
    Course {
        name: "a draft holds the last bytes, and becomes the file, which is the user's alone",
        acts: &[
            Act::Call(Call::Root(b"disk_draft"), Gives::Done),
            Act::Call(Call::SyncDraft, Gives::Fault),
            Act::Call(Call::Draft(b"a longer draft"), Gives::Done),
            Act::Call(Call::Draft(b"a draft"), Gives::Done),
            Act::Call(Call::SyncDraft, Gives::Done),
            Act::Call(Call::Length(b'a'), Gives::Length(0)),
            Act::Call(Call::Publish(b'a'), Gives::Done),
            Act::Call(Call::Whole(b'a'), Gives::Bytes(b"a draft")),
            Act::Call(Call::Publish(b'a'), Gives::Fault),
            Act::Mode("disk_draft/aaaaaaaaaaaaaaaaaaaaaaaaaaaaaaaa", 0o600),
            Act::Clear("disk_draft"),
        ],
    },
    Course {
        name: "a draft of an earlier program is none",
        acts: &[
            Act::Call(Call::Root(b"disk_left"), Gives::Done),
            Act::Call(Call::Draft(b"text"), Gives::Done),
            Act::Ends,
            Act::Call(Call::Root(b"disk_left"), Gives::Done),
            Act::Call(Call::SyncDraft, Gives::Fault),
            Act::Call(Call::Publish(b'a'), Gives::Fault),
            Act::Clear("disk_left"),
        ],
    },
    Course {
        name: "bytes are written over a file that is there",
        acts: &[
            Act::Call(Call::Root(b"disk_write"), Gives::Done),
            Act::Put("disk_write/aaaaaaaaaaaaaaaaaaaaaaaaaaaaaaaa", b"12345"),
            Act::Call(Call::Write(b'a', 3, b"xyz"), Gives::Done),
            Act::Call(Call::Sync(b'a'), Gives::Done),
            Act::Call(Call::Whole(b'a'), Gives::Bytes(b"123xyz")),
            Act::Call(Call::Write(b'f', 0, b"xyz"), Gives::Fault),
            Act::Call(Call::Sync(b'f'), Gives::Fault),
            Act::Call(Call::Length(b'f'), Gives::Length(0)),
            Act::Clear("disk_write"),
        ],
    },
    Course {
        name: "a file is removed, and one that is not there is no fault",
        acts: &[
            Act::Call(Call::Root(b"disk_remove"), Gives::Done),
            Act::Put("disk_remove/aaaaaaaaaaaaaaaaaaaaaaaaaaaaaaaa", b"12345"),
            Act::Call(Call::Remove(b'a'), Gives::Done),
            Act::Call(Call::Names, Gives::Names(b"")),
            Act::Call(Call::Remove(b'a'), Gives::Done),
            Act::Clear("disk_remove"),
            Act::Call(Call::Names, Gives::Fault),
        ],
    },
];

#[test]
fn files_are_what_the_calls_left_of_them(rt: HostRuntime) -> Result<(), Fail> {
    settled(rt.alloc(), unlike(&rt, FILES))
}

const HANDLES: &[Course<'static>] = &[
    Course {
        name: "what was written is written on and synced by one handle, from the draft on",
        acts: &[
            Act::Call(Call::Root(b"disk_handle"), Gives::Done),
            Act::Call(Call::Draft(b"12345"), Gives::Done),
            Act::Call(Call::SyncDraft, Gives::Done),
            Act::Call(Call::Publish(b'a'), Gives::Done),
            Act::Call(Call::Write(b'a', 0, b"AB"), Gives::Done),
            Act::Move(
                "disk_handle/aaaaaaaaaaaaaaaaaaaaaaaaaaaaaaaa",
                "disk_handle/aside",
            ),
            Act::Call(Call::Write(b'a', 3, b"CD"), Gives::Done),
            Act::Call(Call::Sync(b'a'), Gives::Done),
            Act::Has("disk_handle/aside", b"AB3CD"),
            Act::Clear("disk_handle"),
        ],
    },
    Course {
        name: "a file that was not written by this program is written by one handle too",
        acts: &[
            Act::Call(Call::Root(b"disk_again"), Gives::Done),
            Act::Put("disk_again/aaaaaaaaaaaaaaaaaaaaaaaaaaaaaaaa", b"12345"),
            Act::Call(Call::Write(b'a', 0, b"AB"), Gives::Done),
            Act::Move(
                "disk_again/aaaaaaaaaaaaaaaaaaaaaaaaaaaaaaaa",
                "disk_again/aside",
            ),
            Act::Call(Call::Write(b'a', 3, b"CD"), Gives::Done),
            Act::Call(Call::Sync(b'a'), Gives::Done),
            Act::Has("disk_again/aside", b"AB3CD"),
            Act::Clear("disk_again"),
        ],
    },
    Course {
        name: "the pieces of a file are read by one handle, until another file stands there",
        acts: &[
            Act::Call(Call::Root(b"disk_pieces"), Gives::Done),
            Act::Put("disk_pieces/aaaaaaaaaaaaaaaaaaaaaaaaaaaaaaaa", b"12345"),
            Act::Call(Call::Read(b'a', 0, 2), Gives::Bytes(b"12")),
            Act::Move(
                "disk_pieces/aaaaaaaaaaaaaaaaaaaaaaaaaaaaaaaa",
                "disk_pieces/aside",
            ),
            Act::Call(Call::Read(b'a', 2, 3), Gives::Bytes(b"345")),
            Act::Call(Call::Draft(b"new"), Gives::Done),
            Act::Call(Call::SyncDraft, Gives::Done),
            Act::Call(Call::Publish(b'a'), Gives::Done),
            Act::Call(Call::Read(b'a', 0, 5), Gives::Bytes(b"new")),
            Act::Call(Call::Remove(b'a'), Gives::Done),
            Act::Call(Call::Read(b'a', 0, 5), Gives::Bytes(b"")),
            Act::Clear("disk_pieces"),
        ],
    },
    Course {
        name: "what one handle wrote is read by another",
        acts: &[
            Act::Call(Call::Root(b"disk_both"), Gives::Done),
            Act::Call(Call::Draft(b"12345"), Gives::Done),
            Act::Call(Call::SyncDraft, Gives::Done),
            Act::Call(Call::Publish(b'a'), Gives::Done),
            Act::Call(Call::Read(b'a', 0, 5), Gives::Bytes(b"12345")),
            Act::Call(Call::Write(b'a', 1, b"xy"), Gives::Done),
            Act::Call(Call::Read(b'a', 0, 5), Gives::Bytes(b"1xy45")),
            Act::Call(Call::Whole(b'a'), Gives::Bytes(b"1xy45")),
            Act::Clear("disk_both"),
        ],
    },
];

#[test]
fn a_file_is_synced_by_the_handle_that_wrote_it(rt: HostRuntime) -> Result<(), Fail> {
    settled(rt.alloc(), unlike(&rt, HANDLES))
}
