// The wire in memory: scripts played turn by turn.
use crate::outcome::settled;
use crate::scripts::Hint;
use crate::turns::{Course, Turn, unlike};
use pp_world::{Event, Got, WireFault};
use std::test::Fail;

const EVENTS: &[Course<'static>] = &[
    Course {
        name: "a world without cues stops at once",
        hints: &[],
        site: &[],
        failing: &[],
        config: b"",
        turns: &[
            Turn::Next(false, &[], &[], Event::Stop),
            Turn::Told(&["Woke", "Waits", "Stopped"]),
        ],
    },
    Course {
        name: "cues are reported in order",
        hints: &[
            Hint::Tick(784_111_777),
            Hint::Connect,
            Hint::Connect,
            Hint::Say(0, b"b"),
            Hint::Say(1, b"a"),
            Hint::Window(1, 0),
            Hint::Window(2, 0),
            Hint::Say(9, b"nobody"),
            Hint::HangUp(1),
            Hint::Stop,
        ],
        site: &[],
        failing: &[],
        config: b"",
        turns: &[
            Turn::Next(false, &[], &[], Event::Tick(784_111_777)),
            Turn::Next(true, &[], &[], Event::Accepted(1)),
            Turn::Next(true, &[1], &[1], Event::Writable(1)),
            Turn::Next(true, &[1], &[], Event::Accepted(2)),
            Turn::Next(true, &[2, 1], &[2, 1], Event::Writable(1)),
            Turn::Next(true, &[2], &[], Event::Readable(2)),
            Turn::Next(true, &[1], &[2, 1], Event::Writable(1)),
            Turn::Next(true, &[1], &[], Event::Readable(1)),
            Turn::Next(true, &[2, 1], &[2, 1], Event::Readable(1)),
            Turn::Next(false, &[], &[], Event::Stop),
            Turn::Next(true, &[2, 1], &[2, 1], Event::Readable(1)),
            Turn::Next(true, &[], &[2, 1], Event::Stop),
            Turn::Read(1, 8, Some(Ok(Got::Bytes(1)))),
            Turn::Read(1, 8, Some(Ok(Got::End))),
            Turn::Read(1, 8, Some(Ok(Got::End))),
            Turn::Read(2, 8, Some(Ok(Got::Bytes(1)))),
            Turn::Read(2, 8, Some(Ok(Got::NotYet))),
            Turn::Read(9, 8, None),
            Turn::Next(true, &[2, 1], &[], Event::Stop),
        ],
    },
    Course {
        name: "a dialled connection is reached, answers and ends",
        hints: &[
            Hint::Reach(1),
            Hint::Answer(1, b"HTTP"),
            Hint::End(1),
            Hint::Refuse(2),
            Hint::Reach(2),
        ],
        site: &[],
        failing: &[],
        config: b"",
        turns: &[
            Turn::Dial(b"h", 80, Ok(1)),
            Turn::Next(false, &[1], &[], Event::Reached(1)),
            Turn::Read(1, 2, Some(Ok(Got::NotYet))),
            Turn::Next(false, &[1], &[], Event::Readable(1)),
            Turn::Found(1, 2, b"HT"),
            Turn::Next(false, &[1], &[], Event::Readable(1)),
            Turn::Found(1, 2, b"TP"),
            Turn::Next(false, &[1], &[], Event::Readable(1)),
            Turn::Read(1, 2, Some(Ok(Got::End))),
            Turn::Dial(b"h", 80, Ok(2)),
            Turn::Next(false, &[1], &[], Event::Broken(2)),
            Turn::Close(2, true),
            Turn::Close(1, true),
            Turn::Next(false, &[], &[], Event::Stop),
            Turn::Told(&[
                "Woke", "Dialled", "Waits", "Reached", "NoneYet", "Waits", "CanRead", "Got",
                "Waits", "CanRead", "Got", "Waits", "CanRead", "Ended", "Dialled", "Waits",
                "Broke", "Dropped", "Dropped", "Waits", "Stopped",
            ]),
        ],
    },
    Course {
        name: "a window lets a front through, and a break fails once",
        hints: &[
            Hint::Connect,
            Hint::Window(0, 3),
            Hint::Tick(1),
            Hint::Break(1),
            Hint::Stop,
        ],
        site: &[],
        failing: &[],
        config: b"",
        turns: &[
            Turn::Next(true, &[], &[], Event::Accepted(1)),
            Turn::Next(false, &[], &[], Event::Tick(1)),
            Turn::Write(1, b"hello", Some(Ok(3))),
            Turn::Write(1, b"lo", Some(Ok(0))),
            Turn::Next(false, &[], &[1], Event::Stop),
            Turn::Next(false, &[1], &[1], Event::Readable(1)),
            Turn::Write(1, b"lo", Some(Err(WireFault))),
            Turn::Write(1, b"lo", Some(Ok(0))),
            Turn::Close(1, true),
            Turn::Told(&[
                "Woke", "Waits", "Opened", "Waits", "Clock", "Said", "Said", "Waits", "Stopped",
                "Waits", "CanRead", "HungUp", "Said", "Shut",
            ]),
        ],
    },
];

#[test]
fn what_comes_is_reported_read_and_told(rt: HostRuntime) -> Result<(), Fail> {
    settled(rt.alloc(), unlike(rt.alloc(), EVENTS))
}

const CALLS: &[Course<'static>] = &[
    Course {
        name: "the calls of these numbers fail, and no others",
        hints: &[],
        site: &[],
        failing: &[1, 3, 4, 6, 8],
        config: b"proxyPort = 1",
        turns: &[
            Turn::Listen(8123, Err(WireFault)),
            Turn::Listen(8123, Ok(())),
            Turn::Config(None),
            Turn::Dial(b"h", 80, Err(WireFault)),
            Turn::Dial(b"h", 80, Ok(1)),
            Turn::Read(1, 2, Some(Err(WireFault))),
            Turn::Read(1, 2, Some(Ok(Got::NotYet))),
            Turn::Write(1, b"GET", Some(Err(WireFault))),
            Turn::Write(1, b"GET", Some(Ok(3))),
            Turn::Config(Some(b"proxyPort = 1")),
            Turn::Note,
            Turn::Print(b"polipo: out of memory\n"),
            Turn::Told(&[
                "Woke",
                "Listens",
                "Listens",
                "Configured",
                "Undialled",
                "Dialled",
                "Broke",
                "NoneYet",
                "Broke",
                "Asked",
                "Configured",
                "Noted",
                "Printed",
            ]),
        ],
    },
    Course {
        name: "the log goes on in the next life, without the connections of the old one, whose numbers are not given again",
        hints: &[],
        site: &[],
        failing: &[],
        config: b"proxyPort = 1",
        turns: &[
            Turn::Dial(b"h", 80, Ok(1)),
            Turn::Dial(b"h", 80, Ok(2)),
            Turn::Print(b"a line"),
            Turn::Crash(5, &[], false),
            Turn::Crash(2, &[1], true),
            Turn::Told(&["Woke", "Dialled", "Woke"]),
            Turn::IsOpen(1, false),
            Turn::Dial(b"h", 80, Err(WireFault)),
            Turn::Dial(b"h", 80, Ok(2)),
            Turn::Read(2, 8, Some(Ok(Got::NotYet))),
            Turn::Config(Some(b"proxyPort = 1")),
            Turn::ToldDial(1, 1, 80),
        ],
    },
];

#[test]
fn calls_fail_by_their_numbers_and_a_life_goes_on(rt: HostRuntime) -> Result<(), Fail> {
    settled(rt.alloc(), unlike(rt.alloc(), CALLS))
}

const WHOLE: &[u8] =
    b"HTTP/1.1 200 OK\r\nETag: \"v\"\r\nCache-Control: max-age=3600\r\nContent-Length: 10\r\n\r\n0123456789";

const MIDDLE: &[u8] =
    b"HTTP/1.1 206 Partial Content\r\nETag: \"v\"\r\nCache-Control: max-age=3600\r\nContent-Range: bytes 2-4/10\r\nContent-Length: 3\r\n\r\n234";

const LAST: &[u8] =
    b"HTTP/1.1 206 Partial Content\r\nETag: \"v\"\r\nCache-Control: max-age=3600\r\nContent-Range: bytes 7-9/10\r\nContent-Length: 3\r\n\r\n789";

const UNMODIFIED: &[u8] = b"HTTP/1.1 304 Not Modified\r\nETag: \"v\"\r\n\r\n";

const UNKNOWN: &[u8] = b"HTTP/1.1 404 Not Found\r\nContent-Length: 0\r\n\r\n";

const PAGES: &[Course<'static>] = &[Course {
    name: "the origin of a page answers each whole ask",
    hints: &[],
    site: &[(b"h", b"/a", b"\"v\"", b"0123456789")],
    failing: &[],
    config: b"",
    turns: &[
        Turn::Dial(b"h", 80, Ok(1)),
        Turn::Next(false, &[1], &[], Event::Reached(1)),
        Turn::Ask(1, b"GET /a HTTP/1.1\r\nhost: h\r\n\r\n", WHOLE),
        Turn::Ask(1, b"GET /a HTTP/1.1\r\nRange:bytes=2-4\r\n\r\n", MIDDLE),
        Turn::Ask(1, b"GET /a HTTP/1.1\r\nrange: bytes=7-\r\n\r\n", LAST),
        Turn::Ask(1, b"GET /a HTTP/1.1\r\nrange: bytes=7-99\r\n\r\n", LAST),
        Turn::Ask(1, b"GET /a HTTP/1.1\r\nrange: bytes=10-\r\n\r\n", WHOLE),
        Turn::Ask(1, b"GET /a HTTP/1.1\r\nrange: bytes=4-2\r\n\r\n", WHOLE),
        Turn::Ask(
            1,
            b"GET /a HTTP/1.1\r\nrange: bytes=2-4\r\nif-range: \"v\"\r\n\r\n",
            MIDDLE,
        ),
        Turn::Ask(
            1,
            b"GET /a HTTP/1.1\r\nrange: bytes=2-4\r\nif-range: \"w\"\r\n\r\n",
            WHOLE,
        ),
        Turn::Ask(
            1,
            b"GET /a HTTP/1.1\r\nif-none-match: \"v\"\r\n\r\n",
            UNMODIFIED,
        ),
        Turn::Ask(1, b"GET /a HTTP/1.1\r\nif-none-match: \"w\"\r\n\r\n", WHOLE),
        Turn::Ask(1, b"GET /b HTTP/1.1\r\n\r\n", UNKNOWN),
        Turn::Ask(
            1,
            b"POST /a HTTP/1.1\r\ncontent-length: 3\r\n\r\nabc",
            UNKNOWN,
        ),
    ],
}];

#[test]
fn the_origin_of_a_page_answers_each_whole_ask(rt: HostRuntime) -> Result<(), Fail> {
    settled(rt.alloc(), unlike(rt.alloc(), PAGES))
}
