// The bodies of messages, and the pipe of a passed one.
use crate::saying::{says_nothing, told};
use arrayvec::ArrayVec;
use pp_framing::{
    BodyRule, BodyState, Decoder, Ending, FramingFault, ResponseFault, request_rule, rule,
};
use pp_pass::Pass;
use pp_text::{FieldSpan, Fields, OutOfMemory};
use std::alloc::Global;
use std::test::Fail;

/// A rule, a text, and what it is: its data, the state, and what the end of the connection makes of it.
struct Body<'a> {
    rule: BodyRule,
    text: &'a [u8],
    data: &'a [u8],
    state: BodyState,
    ending: Ending,
}

type Data = ArrayVec<u8, 64>;

/// Feeds bytes up to the end of the body.
fn feed_all(decoder: &mut Decoder, bytes: &[u8], data: &mut Data) {
    let mut used = 0;
    for _turn in 0..bytes.len() {
        if decoder.state() != BodyState::Going {
            break;
        }
        let rest = &bytes[used..];
        let fed = decoder.feed(rest);
        let _ = data.try_extend_from_slice(&rest[fed.body.0..fed.body.1]);
        used += fed.used;
    }
}

/// Whether the text is that body where it comes in two pieces, cut behind so many bytes.
fn is_body(body: &Body<'_>, cut: usize) -> bool {
    let (first, second) = body.text.split_at(cut.min(body.text.len()));
    let mut decoder = Decoder::new(body.rule);
    let mut data = Data::new();
    feed_all(&mut decoder, first, &mut data);
    feed_all(&mut decoder, second, &mut data);
    data.as_slice() == body.data && decoder.state() == body.state && decoder.end() == body.ending
}

/// No text has more than 64 bytes.
fn is_body_however_cut(body: &Body<'_>) -> bool {
    for cut in 0..64 {
        if !is_body(body, cut) {
            return false;
        }
    }
    true
}

fn unlike_bodies(alloc: Global, rows: &[Body<'_>]) -> Result<String, OutOfMemory> {
    told(
        alloc,
        "bodies",
        rows.iter().position(|body| !is_body_however_cut(body)),
    )
}

const HEAD: &[u8] = b"Content-Length: 5\r\nTransfer-Encoding: Identity, chunked\r\n";

const SPANS: [FieldSpan; 2] = [
    FieldSpan {
        name_from: 0,
        name_to: 14,
        value_from: 16,
        value_to: 17,
    },
    FieldSpan {
        name_from: 19,
        name_to: 36,
        value_from: 38,
        value_to: 55,
    },
];

/// How a body is delimited, by the first so many of these fields.
enum Rule {
    /// In the response of this status, to HEAD or not.
    Response(usize, bool, u16, Result<BodyRule, ResponseFault>),
    Request(usize, Result<BodyRule, FramingFault>),
}

fn is_delimited(row: &Rule) -> bool {
    match row {
        Rule::Response(count, is_head, status, wanted) => {
            rule(*is_head, *status, &fields(*count)) == *wanted
        }
        Rule::Request(count, wanted) => request_rule(&fields(*count)) == *wanted,
    }
}

fn fields(count: usize) -> Fields<'static, 'static> {
    if count == 1 {
        Fields::new(HEAD, &SPANS[..1])
    } else {
        Fields::new(HEAD, &SPANS)
    }
}

fn unlike_rules(alloc: Global, rows: &[Rule]) -> Result<String, OutOfMemory> {
    told(
        alloc,
        "rules",
        rows.iter().position(|row| !is_delimited(row)),
    )
}

/// What is done with a pipe, and what it holds then.
enum Piped<'a> {
    /// In the chunked coding or not.
    Start(bool),
    Put(&'a [u8]),
    Finish,
    Offer(&'a [u8]),
    Took(usize),
    /// It has less room than so many bytes.
    HasLessRoom(usize),
}

fn is_piped(pass: &mut Pass, act: &Piped<'_>) -> bool {
    match act {
        Piped::Start(is_chunked) => start(pass, *is_chunked),
        Piped::Put(bytes) => put(pass, bytes),
        Piped::Finish => finish(pass),
        Piped::Offer(wanted) => pass.offer() == *wanted,
        Piped::Took(n) => took(pass, *n),
        Piped::HasLessRoom(room) => pass.room() < *room,
    }
}

fn start(pass: &mut Pass, is_chunked: bool) -> bool {
    pass.start(is_chunked);
    true
}

fn put(pass: &mut Pass, bytes: &[u8]) -> bool {
    if pass.finished() || bytes.is_empty() || bytes.len() > pass.room() {
        return false;
    }
    pass.put(bytes);
    true
}

fn finish(pass: &mut Pass) -> bool {
    if pass.finished() {
        return false;
    }
    pass.finish();
    true
}

fn took(pass: &mut Pass, n: usize) -> bool {
    if n > pass.offer().len() {
        return false;
    }
    pass.took(n);
    true
}

fn unlike_piped(alloc: Global, acts: &[Piped<'_>]) -> Result<String, OutOfMemory> {
    let mut pass = Pass::new(alloc)?;
    for (place, act) in acts.iter().enumerate() {
        if !is_piped(&mut pass, act) {
            return Ok(told(alloc, "piped", Some(place))?);
        }
    }
    Ok(String::new(alloc))
}

const BODIES: &[Body<'static>] = &[
    Body {
        rule: BodyRule::Empty,
        text: b"HTTP",
        data: b"",
        state: BodyState::Done,
        ending: Ending::Whole,
    },
    Body {
        rule: BodyRule::Length(5),
        text: b"helloHTTP",
        data: b"hello",
        state: BodyState::Done,
        ending: Ending::Whole,
    },
    Body {
        rule: BodyRule::Length(10),
        text: b"1234567",
        data: b"1234567",
        state: BodyState::Going,
        ending: Ending::Short,
    },
    Body {
        rule: BodyRule::ToEnd,
        text: b"hello",
        data: b"hello",
        state: BodyState::Going,
        ending: Ending::Whole,
    },
    Body {
        rule: BodyRule::Chunked,
        text: b"2\nab\n0b;x=\"y\"\r\n0123456789a\r\n00 \t\r\nA: b\n\n5",
        data: b"ab0123456789a",
        state: BodyState::Done,
        ending: Ending::Whole,
    },
    Body {
        rule: BodyRule::Chunked,
        text: b"5\r\nhello5\r\n",
        data: b"hello",
        state: BodyState::Bad,
        ending: Ending::Short,
    },
];

/// Chunks count before a length, and a request has none.
const RULES: &[Rule] = &[
    Rule::Response(2, false, 200, Ok(BodyRule::Chunked)),
    Rule::Response(2, true, 200, Ok(BodyRule::Empty)),
    Rule::Response(2, false, 99, Err(ResponseFault::NoStatus)),
    Rule::Request(2, Err(FramingFault::OtherCoding)),
    Rule::Response(1, false, 200, Ok(BodyRule::Length(5))),
    Rule::Request(1, Ok(BodyRule::Length(5))),
];

/// Each put is a chunk, and what is taken is the front.
const PIPED: &[Piped<'static>] = &[
    Piped::Start(false),
    Piped::Put(b"hello"),
    Piped::Put(b"0123456789abcdef"),
    Piped::Finish,
    Piped::Offer(b"hello0123456789abcdef"),
    Piped::Took(8),
    Piped::Offer(b"3456789abcdef"),
    Piped::HasLessRoom(65536),
    Piped::Start(true),
    Piped::Put(b"hello"),
    Piped::Put(b"0123456789abcdef"),
    Piped::Finish,
    Piped::Offer(b"5\r\nhello\r\n10\r\n0123456789abcdef\r\n0\r\n\r\n"),
    Piped::Took(8),
    Piped::Offer(b"\r\n10\r\n0123456789abcdef\r\n0\r\n\r\n"),
    Piped::HasLessRoom(65536),
];

#[test]
fn bodies_are_delimited_and_passed_on(rt: HostRuntime) -> Result<(), Fail> {
    says_nothing(&rt, unlike_bodies(rt.alloc(), BODIES))?;
    says_nothing(&rt, unlike_rules(rt.alloc(), RULES))?;
    says_nothing(&rt, unlike_piped(rt.alloc(), PIPED))
}
