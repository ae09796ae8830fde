// A request, a response that is kept, and what is made of them.
use crate::saying::{says_nothing, told};
use pp_fresh::{
    Directives, Times, age, allows_guess, date_of, lifetime, may_store, ready, times_of,
};
use pp_head::{HeadState, KeptHead, RequestHead, ResponseHead, Scratch, read_response};
use pp_plan::{Begun, PlanRow, decide, fetch_range, is_near, need, span};
use pp_text::OutOfMemory;
use pp_valid::{
    ContentRange, Tag, TagState, Version, accepts_only_identity, body_length, if_range_holds,
    matches_none, names_other_tag, not_modified_since, read_content_range, tag_of, version_of,
};
use pp_world::Decision;
use std::alloc::Global;
use std::test::Fail;

/// `Sun, 06 Nov 1994 08:49:37 GMT`, when the response came.
const CAME: u64 = 784_111_777;

const KEY: &[u8] = b"http://h/a";

/// What is known of a response to a request, ten seconds after it came.
#[derive(Clone, Copy, PartialEq, Eq)]
struct Found {
    /// The length of its version.
    length: Option<u64>,
    /// The length that it tells of its body.
    told: Option<u64>,
    times: Times,
    age: u64,
    lifetime: u64,
    max_age: Option<u64>,
    date: Option<u64>,
    may_store: bool,
    is_ready: bool,
    /// It has a strong tag.
    is_strong: bool,
    /// It has another tag than `"x"`.
    is_other: bool,
    /// It has the tag that the request names in If-None-Match.
    is_named: Option<bool>,
    /// It is not modified since the date that the request names.
    is_unmodified: bool,
    /// The Range of the request counts for it.
    is_ranged: bool,
    range: Option<ContentRange>,
    decision: Decision,
    span: (u64, u64),
    fetched: Option<(u64, Option<u64>)>,
}

const TAGGED: &[u8] =
    b"HTTP/1.1 200 OK\r\nDate: Sun, 06 Nov 1994 08:49:37 GMT\r\nETag: \"x\"\r\nLast-Modified: Sat, 05 Nov 1994 08:49:37 GMT\r\nCache-Control: max-age=60\r\nContent-Length: 5\r\n\r\n";

const TIMES: Times = Times {
    request: CAME - 1,
    response: CAME,
    initial: 1,
    may_guess: true,
};

const WHOLE: Found = Found {
    length: Some(5),
    told: Some(5),
    times: TIMES,
    age: 11,
    lifetime: 60,
    max_age: Some(60),
    date: Some(CAME),
    may_store: true,
    is_ready: true,
    is_strong: true,
    is_other: false,
    is_named: None,
    is_unmodified: false,
    is_ranged: true,
    range: None,
    decision: Decision::Hit(0, 5),
    span: (0, 5),
    fetched: None,
};

const ROWS: &[Row<'static>] = &[
    Row::Found(b"GET http://h/a HTTP/1.1\r\n\r\n", TAGGED, WHOLE),
    Row::Found(
        b"GET http://h/a HTTP/1.1\r\nRange: bytes=1-3\r\nIf-Range: \"x\"\r\n\r\n",
        TAGGED,
        Found {
            decision: Decision::Hit(1, 4),
            span: (1, 4),
            ..WHOLE
        },
    ),
    Row::Found(
        b"GET http://h/a HTTP/1.1\r\nIf-None-Match: \"x\"\r\nIf-Modified-Since: Sun, 06 Nov 1994 08:49:37 GMT\r\n\r\n",
        TAGGED,
        Found {
            is_named: Some(true),
            is_unmodified: true,
            decision: Decision::NotModified,
            ..WHOLE
        },
    ),
    Row::Found(
        b"GET http://h/a HTTP/1.1\r\nCookie: a=b\r\nRange: bytes=2-\r\nCache-Control: no-cache\r\n\r\n",
        b"HTTP/1.1 206 Partial Content\r\nETag: \"x\"\r\nLast-Modified: Sat, 05 Nov 1994 08:49:37 GMT\r\nContent-Range: bytes 2-6/9\r\nContent-Length: 5\r\n\r\n",
        Found {
            length: Some(9),
            times: Times {
                may_guess: false,
                ..TIMES
            },
            lifetime: 0,
            max_age: None,
            date: None,
            is_ready: false,
            range: Some(ContentRange::Span(2, 6, 9)),
            decision: Decision::Validate,
            span: (2, 5),
            fetched: Some((0, None)),
            ..WHOLE
        },
    ),
    Row::Found(
        b"GET http://h/a HTTP/1.1\r\nAccept-Encoding: gzip\r\n\r\n",
        b"HTTP/1.1 200 OK\r\nETag: W/\"y\"\r\nCache-Control: private, max-age=60\r\nContent-Encoding: gzip\r\nContent-Length: 5\r\n\r\n",
        Found {
            length: None,
            date: None,
            may_store: false,
            is_ready: false,
            is_strong: false,
            is_other: true,
            decision: Decision::Validate,
            ..WHOLE
        },
    ),
    Row::Need((5000, 5100), (4196, 8192), Some((4196, 5100))),
    Row::Need((6, 10), (7, 10), None),
    Row::IsNear(0, 1048576, true),
    Row::IsNear(0, 1048577, false),
];

fn judged(request: &[u8], response: &[u8]) -> Option<Found> {
    let mut kept = KeptHead::new();
    kept.read(request);
    let HeadState::Whole(request) = kept.show(request) else {
        return None;
    };
    let mut scratch = Scratch::new();
    let HeadState::Whole(response) = read_response(response, &mut scratch) else {
        return None;
    };
    judged_by(&request, response)
}

fn judged_by(request: &RequestHead<'_, '_>, response: ResponseHead<'_, '_>) -> Option<Found> {
    let tag = Tag::read(b"\"x\"")?;
    let version = Version { tag, length: 5 };
    let allows_guess = allows_guess(KEY, &request.fields);
    let accepts_only_identity = accepts_only_identity(&request.fields);
    let times = times_of(&response.fields, CAME - 1, CAME, allows_guess);
    let known = version_of(&response.fields, response.status, accepts_only_identity);
    let row = PlanRow {
        version: &version,
        fields: response.fields,
        times,
        held: true,
    };
    let now = CAME + 10;
    Some(Found {
        length: known.map(|version| version.length),
        told: body_length(&row.fields),
        times,
        age: age(&times, now),
        lifetime: lifetime(&row.fields, &times),
        max_age: Directives::read(&row.fields).max_age,
        date: date_of(b"date", &row.fields),
        may_store: may_store(&row.fields),
        is_ready: ready(&request.fields, &row.fields, &times, now),
        is_strong: matches!(tag_of(&row.fields), TagState::Strong(_)),
        is_other: names_other_tag(&row.fields, &tag),
        is_named: matches_none(&request.fields, &tag),
        is_unmodified: not_modified_since(&request.fields, &row.fields),
        is_ranged: if_range_holds(&request.fields, &tag),
        range: read_content_range(&row.fields),
        decision: decide(request, Some(&row), Begun::Nothing, now),
        span: span(request, &version),
        fetched: fetch_range(request),
    })
}

/// What is found of a request and a response.
enum Row<'a> {
    Found(&'a [u8], &'a [u8], Found),
    /// What of the bytes between two offsets is needed, where this span is a hole.
    Need((u64, u64), (u64, u64), Option<(u64, u64)>),
    IsNear(u64, u64, bool),
}

fn is_met(row: &Row<'_>) -> bool {
    match row {
        Row::Found(request, response, wanted) => judged(request, response) == Some(*wanted),
        Row::Need((from, to), hole, wanted) => *from < *to && need(*from, *to, *hole) == *wanted,
        Row::IsNear(from, to, wanted) => is_near(*from, *to) == *wanted,
    }
}

fn unlike(alloc: Global, rows: &[Row<'_>]) -> Result<String, OutOfMemory> {
    told(alloc, "heads", rows.iter().position(|row| !is_met(row)))
}

#[test]
fn a_response_answers_a_request_as_its_fields_say(rt: HostRuntime) -> Result<(), Fail> {
    says_nothing(&rt, unlike(rt.alloc(), ROWS))
}
