// What is replied, and whether the connection goes on.
ghost use Rattle.std.specs.Prelude.{◌≡◌};
ghost use Rattle.std.specs.Bool.{OnTrue};
ghost use Rattle.pp_reply.specs.Kept.{CanShow};
ghost use Rattle.pp_reply.specs.Texts.{has_page};

use crate::saying::{says_nothing, told};
use arrayvec::ArrayVec;
use pp_framing::{BodyRule, request_rule, rule};
use pp_head::{HeadState, KeptHead, Scratch, read_response};
use pp_reply::{
    CONTINUE, KeptReply, KeptView, ReplyKind, TEXT_LEN, is_end_known, is_kept_open, wants_interim,
    write_kept_reply, write_reply,
};
use pp_text::OutOfMemory;
use std::alloc::Global;
use std::test::Fail;

/// What is replied where this response came.
#[derive(Clone, Copy)]
enum Shown {
    /// It is passed to a client of this minor version.
    Passed(u8),
    /// A page with this status.
    Refused(u16),
    /// It is kept, of so many bytes and with this age.
    Kept(KeptReply, u64, Option<u64>),
}

type Text = ArrayVec<u8, TEXT_LEN>;

fn can_show(shows: KeptReply, length: u64) -> bool
    ensures { OnTrue result (CanShow shows length) }
{
    match shows {
        KeptReply::Part(from, to) => from < to && to <= length,
        KeptReply::Whole | KeptReply::Head | KeptReply::NotModified | KeptReply::Unsatisfiable =>
            true,
    }
}

fn is_known(status: u16) -> bool
    ensures { result ≡ has_page status }
{
    status == 400
        || status == 411
        || status == 431
        || status == 500
        || status == 502
        || status == 504
}

fn refuse(status: u16, out: &mut Text) -> bool {
    let kind = ReplyKind::Refusal(status, false);
    if !is_known(status) {
        return false;
    }
    write_reply(&kind, None, b"polipo", true, out);
    true
}

fn pass(received: &[u8], minor: u8, out: &mut Text) -> bool {
    let mut scratch = Scratch::new();
    let HeadState::Whole(head) = read_response(received, &mut scratch) else {
        return false;
    };
    let Ok(rule) = rule(false, head.status, &head.fields) else {
        return false;
    };
    let kind = ReplyKind::Passed(rule, minor, false);
    write_reply(&kind, Some(&head), b"polipo", true, out);
    true
}

#[tactic(auto, using(pp_reply::proofs::KeptLemmas::lines_len))]
fn show(received: &[u8], shows: KeptReply, length: u64, age: Option<u64>, out: &mut Text) -> bool {
    let mut scratch = Scratch::new();
    let HeadState::Whole(head) = read_response(received, &mut scratch) else {
        return false;
    };
    if !can_show(shows, length) {
        return false;
    }
    let kept = KeptView {
        fields: head.fields,
        length,
        age,
    };
    write_kept_reply(&shows, &kept, b"polipo", true, out);
    true
}

fn reply(received: &[u8], shown: Shown, out: &mut Text) -> bool {
    match shown {
        Shown::Passed(minor) => pass(received, minor, out),
        Shown::Refused(status) => refuse(status, out),
        Shown::Kept(shows, length, age) => show(received, shows, length, age, out),
    }
}

/// What is replied.
enum Row<'a> {
    /// To this response: the text before the body.
    Text(&'a [u8], Shown, &'a [u8]),
    /// Whether the connection of this request goes on, and whether it waits for the interim answer. None where it is refused.
    Wishes(&'a [u8], Option<(bool, bool)>),
    /// Whether a client of this minor version knows where a body of this rule ends.
    IsEndKnown(BodyRule, u8, bool),
    Interim(&'a [u8]),
}

fn is_met(out: &mut Text, row: &Row<'_>) -> bool {
    match row {
        Row::Text(received, shown, wanted) => is_replied(received, *shown, wanted, out),
        Row::Wishes(received, wanted) => wishes(received) == *wanted,
        Row::IsEndKnown(rule, minor, wanted) => is_end_known(*rule, *minor) == *wanted,
        Row::Interim(wanted) => CONTINUE == *wanted,
    }
}

fn is_replied(received: &[u8], shown: Shown, wanted: &[u8], out: &mut Text) -> bool {
    reply(received, shown, out) && out.as_slice() == wanted
}

fn wishes(received: &[u8]) -> Option<(bool, bool)> {
    let mut kept = KeptHead::new();
    kept.read(received);
    let HeadState::Whole(head) = kept.show(received) else {
        return None;
    };
    let Ok(rule) = request_rule(&head.fields) else {
        return None;
    };
    Some((
        is_kept_open(head.minor, &head.fields),
        wants_interim(head.minor, rule, &head.fields),
    ))
}

fn unlike(alloc: Global, rows: &[Row<'_>]) -> Result<String, OutOfMemory> {
    let mut out = ArrayVec::new();
    for (place, row) in rows.iter().enumerate() {
        if !is_met(&mut out, row) {
            return told(alloc, "replies", Some(place));
        }
    }
    told(alloc, "replies", None)
}

/// A reply is a passed response, a page, or what is kept.
const REPLIES: &[Row<'static>] = &[
    Row::Text(
        b"HTTP/1.1 200 OK\r\nServer: o\r\nConnection: X-A\r\nx-a: 1\r\nContent-Length: 005\r\n\r\n",
        Shown::Passed(1),
        b"HTTP/1.1 200 OK\r\nserver: o\r\nvia: 1.1 polipo\r\ncontent-length: 5\r\nconnection: keep-alive\r\n\r\n",
    ),
    Row::Text(
        b"HTTP/1.1 200 OK\r\nTransfer-Encoding: chunked\r\n\r\n",
        Shown::Passed(0),
        b"HTTP/1.1 200 OK\r\nvia: 1.1 polipo\r\nconnection: close\r\n\r\n",
    ),
    Row::Text(
        b"",
        Shown::Refused(502),
        b"HTTP/1.1 502 Bad Gateway\r\ncontent-type: text/plain\r\ncontent-length: 16\r\nconnection: keep-alive\r\n\r\n502 Bad Gateway\n",
    ),
    Row::Text(
        b"HTTP/1.1 200 OK\r\netag: \"x\"\r\n\r\n",
        Shown::Kept(KeptReply::Part(1, 4), 5, Some(10)),
        b"HTTP/1.1 206 Partial Content\r\netag: \"x\"\r\nage: 10\r\nvia: 1.1 polipo\r\ncontent-range: bytes 1-3/5\r\ncontent-length: 3\r\nconnection: keep-alive\r\n\r\n",
    ),
    Row::Text(
        b"HTTP/1.1 200 OK\r\netag: \"x\"\r\nserver: o\r\n\r\n",
        Shown::Kept(KeptReply::NotModified, 5, None),
        b"HTTP/1.1 304 Not Modified\r\netag: \"x\"\r\nvia: 1.1 polipo\r\nconnection: keep-alive\r\n\r\n",
    ),
    Row::Text(
        b"HTTP/1.1 200 OK\r\n\r\n",
        Shown::Kept(KeptReply::Unsatisfiable, 5, None),
        b"HTTP/1.1 416 Requested Range Not Satisfiable\r\ncontent-range: bytes */5\r\ncontent-type: text/plain\r\ncontent-length: 36\r\nconnection: keep-alive\r\n\r\n416 Requested Range Not Satisfiable\n",
    ),
    // A connection goes on as its version and fields say.
    Row::Wishes(b"GET / HTTP/1.0\r\n\r\n", Some((false, false))),
    Row::Wishes(
        b"POST / HTTP/1.1\r\nExpect: 100-Continue\r\nContent-Length: 5\r\n\r\n",
        Some((true, true)),
    ),
    Row::Wishes(
        b"POST / HTTP/1.1\r\nTransfer-Encoding: chunked\r\n\r\n",
        None,
    ),
    Row::IsEndKnown(BodyRule::Chunked, 1, true),
    Row::IsEndKnown(BodyRule::ToEnd, 0, false),
    Row::Interim(b"HTTP/1.1 100 Continue\r\n\r\n"),
];

#[test]
fn replies_are_those_of_their_requests(rt: HostRuntime) -> Result<(), Fail> {
    says_nothing(&rt, unlike(rt.alloc(), REPLIES))
}
