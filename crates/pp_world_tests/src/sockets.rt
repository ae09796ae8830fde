// Real sockets on free ports of 127.0.0.1, course by course.
use crate::outcome::settled;
use crate::scene::{Act, Course, unlike};
use pp_world::{Got, WireFault};
use std::test::Fail;

const CLIENTS: &[Course<'static>] = &[
    Course {
        name: "the clock is the first event, and comes each second",
        acts: &[Act::Seconds],
    },
    Course {
        name: "printing and noting change nothing",
        acts: &[
            Act::Print(b"polipo: a complaint\n"),
            Act::Print(b"a line\n"),
            Act::Note,
        ],
    },
    Course {
        name: "a port that is taken is refused",
        acts: &[Act::ListenInVain, Act::Listen],
    },
    Course {
        name: "who is not allowed is closed, and is no client",
        acts: &[Act::ListenForOther, Act::IsTurnedAway, Act::IsTurnedAway],
    },
    Course {
        name: "a client is read, answered and closed",
        acts: &[
            Act::Listen,
            Act::Join,
            Act::Says(0, b"hello"),
            Act::Readable(0),
            Act::Reads(0, Ok(Got::Bytes(5)), b"hello"),
            Act::Reads(0, Ok(Got::NotYet), b""),
            Act::Writable(0),
            Act::Writes(0, b"well", Ok(4)),
            Act::Closes(0),
            Act::Hears(0, b"well"),
            Act::Hears(0, b""),
            Act::Reads(0, Err(WireFault), b""),
            Act::Writes(0, b"more", Err(WireFault)),
        ],
    },
    Course {
        name: "a client that closed its half gets its reply",
        acts: &[
            Act::Listen,
            Act::Join,
            Act::Says(0, b"ask"),
            Act::Shuts(0),
            Act::Readable(0),
            Act::Reads(0, Ok(Got::Bytes(3)), b"ask"),
            Act::Readable(0),
            Act::Reads(0, Ok(Got::End), b""),
            Act::Writable(0),
            Act::Writes(0, b"reply", Ok(5)),
            Act::Closes(0),
            Act::Hears(0, b"reply"),
            Act::Hears(0, b""),
        ],
    },
    Course {
        name: "clients are served in turn, and others accepted in between",
        acts: &[
            Act::Listen,
            Act::Join,
            Act::Join,
            Act::Says(0, b"one"),
            Act::Says(1, b"two"),
            Act::Fair(50, 0, 1),
            Act::AcceptedAmong(300, 0, 1),
        ],
    },
    Course {
        name: "the last page arrives whole, though the client sends on",
        acts: &[Act::Listen, Act::Join, Act::Page(0)],
    },
];

#[test]
fn clients_are_heard_and_answered(rt: HostRuntime) -> Result<(), Fail> {
    settled(rt.alloc(), unlike(&rt, CLIENTS))
}

const DIALS: &[Course<'static>] = &[Course {
    name: "a dial is reached, broken or refused",
    acts: &[
        Act::Origin,
        Act::Reach(b"127.0.0.1"),
        Act::Reach(b"localhost"),
        Act::OriginEnds,
        Act::Refused,
        Act::Unknown(b"no such name"),
        Act::Unknown(b"\xff"),
    ],
}];

#[test]
fn a_dial_is_reached_broken_or_refused(rt: HostRuntime) -> Result<(), Fail> {
    settled(rt.alloc(), unlike(&rt, DIALS))
}
