// Worked lines: which exchange waits, and which response of a connection comes next (RFC 2616, section
// 8.1.2.2: "A server MUST send its responses to those requests in the same order that the requests were
// received").
use crate::exchanges::{Act, Course, TEXT, unlike};
use crate::saying::says_nothing;
use pp_objects::ObjectId;
use std::test::Fail;

const A: &[u8] = b"http://h/a";

const B: &[u8] = b"http://h/b";

const ID: ObjectId = ObjectId { slot: 3, life: 9 };

const LINES: &[Course<'static>] = &[
    Course {
        name: "a line has the order in which places were got",
        acts: &[
            Act::Begin(7, A, Some(0)),
            Act::Begin(7, A, Some(1)),
            Act::Begin(7, A, Some(2)),
            Act::Begin(7, A, Some(3)),
            Act::Waiting(None, Some(0)),
            Act::Waiting(Some(0), Some(1)),
            Act::Place(1, 50),
            Act::Place(0, 50),
            Act::Place(3, 51),
            Act::Line(50, [Some(1), Some(0), None]),
            Act::Line(51, [Some(3), None, None]),
            Act::Line(52, [None, None, None]),
            Act::Waiting(None, Some(2)),
            Act::Waiting(Some(2), None),
            // The connection is gone: its exchanges wait again, in the order of their beginnings.
            Act::Unplace(1),
            Act::Unplace(0),
            Act::Waiting(None, Some(0)),
            Act::Waiting(Some(0), Some(1)),
            Act::Waiting(Some(1), Some(2)),
            Act::Waiting(Some(2), None),
            Act::Place(0, 51),
            Act::Line(51, [Some(3), Some(0), None]),
            Act::Over(3),
            Act::Over(2),
            Act::Line(51, [Some(0), None, None]),
            Act::Len(2),
            Act::Waiting(None, Some(1)),
            Act::BeginPass(8, B, Some(4)),
        ],
    },
    Course {
        name: "the 33rd exchange of a host waits for the first line with room",
        acts: &[
            Act::BeginMany(33),
            Act::PlaceMany(32),
            Act::Waiting(None, Some(32)),
            Act::Line(51, [Some(1), Some(5), Some(9)]),
            Act::LineAt(51, 7, Some(29)),
            Act::LineAt(51, 8, None),
            // The response to the first of a line is whole.
            Act::Over(1),
            Act::Place(32, 51),
            Act::Waiting(None, None),
            Act::Line(51, [Some(5), Some(9), Some(13)]),
            Act::LineAt(51, 6, Some(29)),
            Act::LineAt(51, 7, Some(32)),
            Act::LineAt(50, 7, Some(28)),
        ],
    },
    Course {
        name: "a body is bound and comes",
        acts: &[
            Act::Begin(7, A, Some(0)),
            Act::BeginPass(8, B, Some(1)),
            Act::Place(0, 50),
            Act::Place(1, 50),
            Act::Bind(0, Some((ID, 0, 12, false))),
            Act::ToCome(0, Some(12)),
            Act::Come(0, 5, true),
            Act::Come(0, 8, false),
            Act::BoundTo(0, Some((ID, 5, 12, false))),
            Act::Is(0, Some(7), Some(50), true),
            Act::AskedBy(7, Some(0)),
            Act::AskedBy(9, None),
            Act::Leave(0),
            Act::AskedBy(7, None),
            Act::Bind(1, None),
            Act::ToCome(1, None),
            Act::Key(1, Some(B)),
            Act::Over(1),
            Act::Key(1, None),
            Act::IsOver(1),
        ],
    },
    Course {
        name: "an errand goes with its exchange",
        acts: &[
            Act::Begin(7, A, Some(0)),
            Act::Begin(7, A, Some(1)),
            Act::Begin(7, A, Some(2)),
            Act::Place(1, 50),
            Act::Ask(0, 10, true),
            Act::Ask(1, 11, true),
            Act::Ask(3, 13, false),
            Act::Asked([Some((0, 10)), Some((2, 0)), Some((1, 11))]),
            Act::Place(0, 50),
            Act::Asked([Some((2, 0)), Some((1, 11)), Some((0, 10))]),
            Act::Over(1),
            Act::IsOver(1),
            Act::Asked([Some((2, 0)), Some((0, 10)), None]),
        ],
    },
    Course {
        name: "a text stands with its exchange",
        acts: &[
            Act::Begin(7, A, Some(0)),
            Act::Text(0, Some(false)),
            Act::Place(0, 50),
            Act::Ask(0, TEXT.len() - 1, true),
            Act::Text(0, Some(false)),
            Act::Ask(0, TEXT.len(), true),
            Act::Leave(0),
            Act::Text(0, Some(true)),
            Act::Over(0),
            Act::IsOver(0),
        ],
    },
    Course {
        name: "there is room for 1024 exchanges",
        acts: &[
            Act::BeginMany(1024),
            Act::Begin(1, b"http://h/", None),
            Act::Over(500),
            Act::Begin(1, b"http://h/", Some(1024)),
            Act::Waiting(Some(499), Some(501)),
        ],
    },
];

#[test]
fn exchanges_are_asked_and_answered_in_line(rt: HostRuntime) -> Result<(), Fail> {
    says_nothing(&rt, unlike(rt.alloc(), LINES))
}
