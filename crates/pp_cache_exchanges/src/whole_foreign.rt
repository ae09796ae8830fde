// Whole logs, happening by happening, over a folder where the entry of another key has the name of a page.
use crate::folders::{ANSWER, Bytes, File, has_just, image_of};
use crate::foreign::{A_HEAD, A_NAME, B_HEAD, ONLY, ONLY_B, OTHER, PAGE_504};
use crate::lines::{Line, ONE, Told, unlike_log};
use crate::saying::says_nothing;
use crate::whole_lives::{AGAIN, AGAIN_LINES, AGAIN_SAID, LOADED};
use crate::whole_log::{
    ANSWERED, ASKED, BUT_LAST, DRAFTED, FIRST_BYTE, GOT, SAID, SAID_LAST, SEALED, STOPPED, WRITTEN,
};
use pp_play::{ASK, ASK_B, Act, GET, GET_B, Pace, Played, Step, T, joined_acts, play_over};
use pp_text::OutOfMemory;
use pp_world::{Decision, Happening};
use std::alloc::Global;
use std::test::Fail;

/// What is told over a folder: the files with which the first life begins, and those with which the next does.
struct Over {
    found: &'static [File],
    left: &'static [File],
    told: Told,
}

/// Where a log has other lines than these, or a life begins over other files: nothing is said where none does.
fn unlike_over(alloc: Global, all: &[Over]) -> Result<String, OutOfMemory> {
    for over in all {
        let played = played(alloc, over)?;
        let said = unlike_log(alloc, &over.told, played.log())?;
        if !said.is_empty() {
            return Ok(said);
        }
        if !has_files(alloc, over, played.log())? {
            let (name, pace) = (over.told.name, over.told.pace);
            return Ok(format!(in alloc; "{name}, {pace:?}: the files of a life")?);
        }
    }
    Ok(String::new(alloc))
}

fn played(alloc: Global, over: &Over) -> Result<Played, OutOfMemory> {
    let acts = joined_acts(alloc, over.told.acts)?;
    let image = image_of(alloc, over.found)?;
    play_over(
        alloc,
        over.told.words,
        over.told.pace,
        image,
        acts.as_slice(),
        &[],
    )
}

/// Whether each life begins over just its files.
fn has_files(alloc: Global, over: &Over, log: &[Happening]) -> Result<bool, OutOfMemory> {
    let mut files = over.found;
    for happening in log {
        if let Happening::Woke(image) = happening {
            if !has_just(alloc, image, files)? {
                return Ok(false);
            }
            files = over.left;
        }
    }
    Ok(true)
}

const ENTRY_OF_B: &[File] = &[File {
    name: A_NAME,
    bytes: Bytes::Entry(B_HEAD, b"hello"),
}];

/// Nothing is held of page /a: its origin is asked, without a condition.
const A_ASKED: &[Line<'static>] = &[
    Line::Woke(true),
    Line::Uses(b"polipo-cache"),
    Line::Listed,
    Line::Listens(8123),
    Line::Waits(&[], &[]),
    Line::Clock(T),
    Line::Waits(&[], &[]),
    Line::Of(1, Step::Opened),
    Line::Waits(&[1], &[]),
    Line::CanRead(1),
    Line::Heard(1, GET),
    Line::Of(1, Step::Taken(0, Decision::Fetch)),
    Line::Dialled(2, b"h", 80),
    Line::Waits(&[1], &[]),
    Line::Of(2, Step::Reached),
    Line::Waits(&[1, 2], &[2]),
    Line::CanWrite(2),
    Line::Asked(2, ASK),
    Line::Waits(&[1, 2], &[]),
    Line::CanRead(2),
];

// ---- what is fetched may not be stored, and the file stays

const BOTH: &[Act<'static>] = &[
    Act::Answer(2, ANSWER),
    Act::Connect,
    Act::Say(3, GET_B),
    Act::Answer(2, ANSWER),
];

const ANSWER_HEAD: &[u8] =
    b"HTTP/1.1 200 OK\r\nCache-Control: no-store\r\nContent-Length: 5\r\n\r\n";

const OTHER_HEAD: &[u8] =
    b"HTTP/1.1 200 OK\r\ncache-control: no-store\r\nvia: 1.1 polipo\r\ncontent-length: 5\r\nconnection: keep-alive\r\n\r\n";

const A_PASSED: &[Line<'static>] = &[
    Line::Got(2, ANSWER),
    Line::Of(1, Step::Taken(0, Decision::Relay)),
    Line::Waits(&[1, 2], &[1]),
    Line::CanWrite(1),
    Line::Said(1, 109, OTHER),
];

/// The same where every byte comes alone: the head is passed once it is there.
const A_STREAMED: &[Line<'static>] = &[
    Line::Got(2, ANSWER_HEAD),
    Line::Of(1, Step::Taken(0, Decision::Relay)),
    Line::Waits(&[1, 2], &[1]),
    Line::CanWrite(1),
    Line::Said(1, 104, OTHER_HEAD),
    Line::Waits(&[1, 2], &[]),
    Line::CanRead(2),
    Line::Streamed(2, 1, b"othe", 1),
    Line::Got(2, b"r"),
    Line::Waits(&[1, 2], &[1]),
    Line::CanWrite(1),
    Line::Said(1, 1, b"r"),
];

/// Nothing is held of page /b either, though the entry is its own: it stands under another name.
const B_ASKED: &[Line<'static>] = &[
    Line::Waits(&[1, 2], &[]),
    Line::Of(3, Step::Opened),
    Line::Waits(&[1, 3, 2], &[]),
    Line::CanRead(3),
    Line::Heard(3, GET_B),
    Line::Of(3, Step::Taken(0, Decision::Fetch)),
    Line::Waits(&[1, 3, 2], &[2]),
    Line::CanWrite(2),
    Line::Asked(2, ASK_B),
    Line::Waits(&[1, 3, 2], &[]),
    Line::CanRead(2),
];

const B_PASSED: &[Line<'static>] = &[
    Line::Got(2, ANSWER),
    Line::Of(3, Step::Taken(0, Decision::Relay)),
    Line::Waits(&[1, 3, 2], &[3]),
    Line::CanWrite(3),
    Line::Said(3, 109, OTHER),
];

const B_STREAMED: &[Line<'static>] = &[
    Line::Got(2, ANSWER_HEAD),
    Line::Of(3, Step::Taken(0, Decision::Relay)),
    Line::Waits(&[1, 3, 2], &[3]),
    Line::CanWrite(3),
    Line::Said(3, 104, OTHER_HEAD),
    Line::Waits(&[1, 3, 2], &[]),
    Line::CanRead(2),
    Line::Streamed(2, 3, b"othe", 1),
    Line::Got(2, b"r"),
    Line::Waits(&[1, 3, 2], &[3]),
    Line::CanWrite(3),
    Line::Said(3, 1, b"r"),
];

const BOTH_STOPPED: &[Line<'static>] = &[
    Line::Waits(&[1, 3, 2], &[]),
    Line::Stopped,
    Line::Of(1, Step::Shut),
    Line::Of(3, Step::Shut),
    Line::Of(2, Step::Dropped),
];

/// In the next life too nothing is held of either.
const ONLY_BOTH: &[Act<'static>] = &[
    Act::Crash(None, 0),
    Act::Tick(T + 10),
    Act::Connect,
    Act::Say(4, ONLY),
    Act::Connect,
    Act::Say(5, ONLY_B),
];

const NEITHER: &[Line<'static>] = &[
    Line::Woke(true),
    Line::Uses(b"polipo-cache"),
    Line::Listed,
    Line::Listens(8123),
    Line::Waits(&[], &[]),
    Line::Clock(T + 10),
    Line::Waits(&[], &[]),
    Line::Of(4, Step::Opened),
    Line::Waits(&[4], &[]),
    Line::CanRead(4),
    Line::Heard(4, ONLY),
    Line::Of(4, Step::Taken(0, Decision::Refuse(504))),
    Line::Waits(&[4], &[4]),
    Line::CanWrite(4),
    Line::Said(4, 122, PAGE_504),
    Line::Waits(&[4], &[]),
    Line::Of(5, Step::Opened),
    Line::Waits(&[4, 5], &[]),
    Line::CanRead(5),
    Line::Heard(5, ONLY_B),
    Line::Of(5, Step::Taken(0, Decision::Refuse(504))),
    Line::Waits(&[4, 5], &[5]),
    Line::CanWrite(5),
    Line::Said(5, 122, PAGE_504),
    Line::Waits(&[4, 5], &[]),
    Line::Stopped,
    Line::Of(4, Step::Shut),
    Line::Of(5, Step::Shut),
];

const LEFT: &[Over] = &[
    Over {
        found: ENTRY_OF_B,
        left: ENTRY_OF_B,
        told: Told {
            name: "the entry of another key",
            words: ONE,
            pace: Pace::Whole,
            acts: &[ASKED, BOTH, ONLY_BOTH],
            lines: &[A_ASKED, A_PASSED, B_ASKED, B_PASSED, BOTH_STOPPED, NEITHER],
        },
    },
    Over {
        found: ENTRY_OF_B,
        left: ENTRY_OF_B,
        told: Told {
            name: "the entry of another key",
            words: ONE,
            pace: Pace::Bytewise,
            acts: &[ASKED, BOTH, ONLY_BOTH],
            lines: &[
                A_ASKED,
                A_STREAMED,
                B_ASKED,
                B_STREAMED,
                BOTH_STOPPED,
                NEITHER,
            ],
        },
    },
];

#[test]
fn the_log_over_an_entry_of_another_key_is_just_this(rt: HostRuntime) -> Result<(), Fail> {
    says_nothing(&rt, unlike_over(rt.alloc(), LEFT))
}

// ---- what is fetched is kept, in the place of the file

const ENTRY_OF_A: &[File] = &[File {
    name: A_NAME,
    bytes: Bytes::Entry(A_HEAD, b"hello"),
}];

const HELD: &[Line<'static>] = &[Line::Stopped, Line::Of(3, Step::Shut)];

const REPLACED: &[Over] = &[
    Over {
        found: ENTRY_OF_B,
        left: ENTRY_OF_A,
        told: Told {
            name: "an entry in the place of another key's",
            words: ONE,
            pace: Pace::Whole,
            acts: &[ASKED, ANSWERED, AGAIN, AGAIN_SAID],
            lines: &[
                A_ASKED,
                GOT,
                DRAFTED,
                WRITTEN,
                SEALED,
                SAID,
                STOPPED,
                AGAIN_LINES,
                LOADED,
                HELD,
            ],
        },
    },
    Over {
        found: ENTRY_OF_B,
        left: ENTRY_OF_A,
        told: Told {
            name: "an entry in the place of another key's",
            words: ONE,
            pace: Pace::Bytewise,
            acts: &[ASKED, ANSWERED, AGAIN, AGAIN_SAID],
            lines: &[
                A_ASKED,
                FIRST_BYTE,
                DRAFTED,
                BUT_LAST,
                WRITTEN,
                SEALED,
                SAID_LAST,
                STOPPED,
                AGAIN_LINES,
                LOADED,
                HELD,
            ],
        },
    },
];

#[test]
fn the_log_of_an_entry_in_the_place_of_another_is_just_this(rt: HostRuntime) -> Result<(), Fail> {
    says_nothing(&rt, unlike_over(rt.alloc(), REPLACED))
}
