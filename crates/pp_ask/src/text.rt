// The text of an ask.
ghost use Rattle.std.specs.Prelude.{◌≡◌, ◌<◌, ◌≤◌, ◌↔◌, [], length, is_ok, IsTrue, OnOk, OnErr};
ghost use Rattle.pp_head.specs.Shown.{shown_request};
ghost use Rattle.pp_target.specs.Key.{IsPlaceIn, key_in};
ghost use Rattle.pp_text.specs.Fields.{field_at};
ghost use Rattle.pp_ask.specs.Puts.{IsPut};
ghost use Rattle.pp_ask.specs.Texts.{ask_text, asked_lines, front, goes_on, host_line, is_conditional, is_left_out, is_of_hole, is_passed, is_written_anew, request_line};

use crate::kind::{AskKind, method, put_kind};
use crate::lines::{ASK_LEN, TooLong, put, put_field, put_number, put_via};
use arrayvec::ArrayVec;
use pp_head::RequestHead;
use pp_target::Place;
use pp_text::{Fields, is_forwarded, same};

/// Writes an ask for this key over what `out` holds: of the kind, for this request of a client, and
/// under the name of this proxy. Where the text would not fit, `out` is left empty.
pub fn write_ask(
    kind: &AskKind<'_>,
    request: &RequestHead<'_, '_>,
    key: &[u8],
    place: &Place,
    name: &[u8],
    out: &mut ArrayVec<u8, ASK_LEN>,
) -> Result<(), TooLong>
    requires { IsPlaceIn key.now place.now }
    ensures text { OnOk result (out.new.items ≡ ask_text kind.now (shown_request request.now) (key_in key.now place.now) name.now) }
    ensures fits { IsTrue (is_ok result) ↔ (length (ask_text kind.now (shown_request request.now) (key_in key.now place.now) name.now) ≤ ASK_LEN) }
    ensures empty { OnErr result (out.new.items ≡ []) }
{
    out.clear();
    match put_ask(kind, request, key, place, name, out) {
        Ok(()) => {
            prove!(out.len() <= ASK_LEN);
            Ok(())
        }
        Err(TooLong) => {
            out.clear();
            Err(TooLong)
        }
    }
}

fn put_ask(
    kind: &AskKind<'_>,
    request: &RequestHead<'_, '_>,
    key: &[u8],
    place: &Place,
    name: &[u8],
    out: &mut ArrayVec<u8, ASK_LEN>,
) -> Result<(), TooLong>
    requires { IsPlaceIn key.now place.now }
    ensures { IsPut (ask_text kind.now (shown_request request.now) (key_in key.now place.now) name.now) out.old.items out.new.items result }
{
    put_front(method(kind, request.method), key, place, out)?;
    put_fields(kind, &request.fields, out)?;
    put_kind(kind, &request.fields, out)?;
    put_via(name, out)?;
    put(b"\r\n", out)
}

/// Writes the request line and the Host line.
fn put_front(
    method: &[u8],
    key: &[u8],
    place: &Place,
    out: &mut ArrayVec<u8, ASK_LEN>,
) -> Result<(), TooLong>
    requires { IsPlaceIn key.now place.now }
    ensures { IsPut (front method.now (key_in key.now place.now)) out.old.items out.new.items result }
{
    let host = &key[place.host.0..place.host.1];
    let path = &key[place.path..];
    put_request_line(method, path, out)?;
    put_host(host, place.port, out)
}

fn put_request_line(
    method: &[u8],
    path: &[u8],
    out: &mut ArrayVec<u8, ASK_LEN>,
) -> Result<(), TooLong>
    ensures { IsPut (request_line method.now path.now) out.old.items out.new.items result }
{
    put(method, out)?;
    put(b" ", out)?;
    put(path, out)?;
    put(b" HTTP/1.1\r\n", out)
}

fn put_host(host: &[u8], port: u16, out: &mut ArrayVec<u8, ASK_LEN>) -> Result<(), TooLong>
    ensures { IsPut (host_line host.now port) out.old.items out.new.items result }
{
    put(b"host: ", out)?;
    put(host, out)?;
    if port != 80 {
        put(b":", out)?;
        put_number(u64::from(port), out)?;
    }
    put(b"\r\n", out)
}

/// Writes the fields of the client that go on.
fn put_fields(
    kind: &AskKind<'_>,
    fields: &Fields<'_, '_>,
    out: &mut ArrayVec<u8, ASK_LEN>,
) -> Result<(), TooLong>
    ensures { IsPut (asked_lines kind.now fields.now) out.old.items out.new.items result }
{
    for index in 0..fields.len() {
        if goes_on(kind, fields, index) {
            put_field(fields.name(index), fields.value(index), out)?;
        }
    }
    Ok(())
}

fn goes_on(kind: &AskKind<'_>, fields: &Fields<'_, '_>, index: usize) -> bool
    requires { index < length fields.now }
    ensures { result ≡ goes_on kind.now fields.now (field_at fields.now index) }
{
    let name = fields.name(index);
    let is_own = is_written_anew(name) || is_left_out(kind, name);
    is_forwarded(fields, index) && !is_own
}

/// Fields that do not go on in an ask of this kind: what the client asks of its own copy, and where
/// bytes of a version are asked for, the codings that it takes.
fn is_left_out(kind: &AskKind<'_>, name: &[u8]) -> bool
    ensures { result ≡ is_left_out kind.now (name.now, []) }
{
    let is_of_client = !is_passed(kind) && is_conditional(name);
    is_of_client || (is_of_hole(kind) && same(b"accept-encoding", name))
}

/// Fields that an ask has of its own, or never.
fn is_written_anew(name: &[u8]) -> bool
    ensures { result ≡ is_written_anew (name.now, []) }
{
    same(b"host", name) || same(b"expect", name) || same(b"content-length", name)
}

/// Fields that ask for a part, or for a version other than the one that the client has.
fn is_conditional(name: &[u8]) -> bool
    ensures { result ≡ is_conditional (name.now, []) }
{
    let is_range = same(b"range", name) || same(b"if-range", name);
    is_range || same(b"if-none-match", name) || same(b"if-modified-since", name)
}

fn is_passed(kind: &AskKind<'_>) -> bool
    ensures { result ≡ is_passed kind.now }
{
    match *kind {
        AskKind::Whole | AskKind::Range(_, _) | AskKind::Hole(_, _, _) | AskKind::Check(_) => false,
        AskKind::Pass => true,
    }
}

fn is_of_hole(kind: &AskKind<'_>) -> bool
    ensures { result ≡ is_of_hole kind.now }
{
    match *kind {
        AskKind::Whole | AskKind::Range(_, _) | AskKind::Check(_) | AskKind::Pass => false,
        AskKind::Hole(_, _, _) => true,
    }
}
