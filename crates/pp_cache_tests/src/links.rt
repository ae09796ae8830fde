// Connections that are open, and a caller over any wire.
use crate::office::{Course, Step, unlike};
use crate::saying::says_nothing;
use crate::wire::Call;
use pp_world::{Event, Got, WireFault};
use std::test::Fail;

const LINKS: &[Course<'static>] = &[
    Course {
        name: "a number that is not open is no call",
        steps: &[
            Step::Has(0, false),
            Step::Has(7, false),
            Step::Read(0, None, *b"...."),
            Step::Write(7, b"GET", None),
            Step::Close(u64::MAX),
            Step::Made(&[]),
        ],
    },
    Course {
        name: "an open one is read written and closed once",
        steps: &[
            Step::Next(false, Some(Event::Tick(784_111_777))),
            Step::Next(true, Some(Event::Accepted(1))),
            Step::Dial(80, Ok(2)),
            Step::Has(1, true),
            Step::Has(2, true),
            Step::Has(3, false),
            Step::Read(1, Some(Ok(Got::Bytes(1))), *b"a..."),
            Step::Write(2, b"GET", Some(Ok(3))),
            Step::Note,
            Step::Close(1),
            Step::Close(1),
            Step::Close(2),
            Step::Made(&[
                Call::Waited,
                Call::Waited,
                Call::Dialled(80),
                Call::Read(1),
                Call::Wrote(2, 3),
                Call::Noted,
                Call::Closed(1),
                Call::Closed(2),
            ]),
        ],
    },
    Course {
        name: "an empty buffer and no bytes are no call",
        steps: &[
            Step::Dial(80, Ok(1)),
            Step::Forget,
            Step::ReadNothing(1),
            Step::Write(1, b"", None),
            Step::Made(&[]),
        ],
    },
    Course {
        name: "a dial that fails opens nothing",
        steps: &[
            Step::Dial(1, Err(WireFault)),
            Step::Has(0, false),
            Step::Has(1, false),
            Step::Dial(80, Ok(1)),
            Step::Made(&[Call::Dialled(1), Call::Dialled(80)]),
        ],
    },
    Course {
        name: "whoever comes when all are open is closed at once",
        steps: &[
            Step::AcceptAll,
            Step::Has(1, true),
            Step::Has(512, true),
            Step::Forget,
            Step::Next(true, None),
            Step::Has(513, false),
            Step::Dial(80, Err(WireFault)),
            Step::Close(7),
            Step::Dial(80, Ok(514)),
            Step::Next(true, None),
            Step::Made(&[
                Call::Waited,
                Call::Closed(513),
                Call::Closed(7),
                Call::Dialled(80),
                Call::Waited,
                Call::Closed(515),
            ]),
        ],
    },
    Course {
        name: "a caller names any number",
        steps: &[
            // Clients 1 and 3, each with an origin of its own.
            Step::Turn(true),
            Step::Turn(true),
            Step::Turn(false),
            Step::Forget,
            Step::Answer(Event::Readable(4)),
            Step::Answer(Event::Readable(3)),
            Step::Answer(Event::Readable(3)),
            Step::Answer(Event::Broken(4)),
            Step::Answer(Event::Writable(4)),
            Step::Made(&[
                Call::Read(4),
                Call::Wrote(4, 1),
                Call::Read(3),
                Call::Closed(3),
                Call::Closed(4),
            ]),
            Step::Has(1, true),
            Step::Has(2, true),
            Step::Has(3, false),
            Step::Has(4, false),
        ],
    },
];

#[test]
fn connections_are_open_until_they_are_closed(rt: HostRuntime) -> Result<(), Fail> {
    says_nothing(&rt, unlike(rt.alloc(), LINKS))
}
