// Replies that are made from a kept response.
ghost use Rattle.std.specs.Prelude.{◌≡◌, ◌+◌, ◌-◌, ◌≤◌, ◌<◌, ◌++◌, [], filter, length, codes};
ghost use Rattle.pp_text.specs.Lines.{lines_of};
ghost use Rattle.pp_reply.specs.Texts.{connection_line, crlf};
ghost use Rattle.pp_reply.specs.Kept.{age_line, byte_range_resp, content_range_line, is_described as describes, kept_reply, not_modified_head, part_head, unsatisfiable_page, unsatisfied_range, whole_head, CanShow, IsSpanWithin, KeepsLineLimits};

use crate::lines::{
    TEXT_LEN, put, put_connection, put_field, put_length, put_line, put_number, put_via,
};
use arrayvec::ArrayVec;
use pp_text::{Fields, same};

/// What a reply shows of a kept response.
#[derive(Clone, Copy, Debug, PartialEq, Eq)]
pub enum KeptReply {
    /// All of its body: a 200.
    Whole,
    /// Its bytes from the first offset up to, and without, the second: a 206, even where these are
    /// all that there are.
    Part(u64, u64),
    /// What a reply to HEAD shows: a 200 without its body.
    Head,
    /// That the client has it: a 304.
    NotModified,
    /// That no byte of its body is in the range that was asked: a 416, with its page.
    Unsatisfiable,
}

/// What is kept of a response, as far as a reply shows it.
#[derive(Drop)]
pub struct KeptView<'a, 's> {
    pub fields: Fields<'a, 's>,
    /// The bytes of the whole body.
    pub length: u64,
    /// Its age in seconds, where it is told.
    pub age: Option<u64>,
}

/// Writes what stands before the body of a reply from a kept response, over what `out` holds: of a
/// range that is not satisfied the whole page. The name is that of this proxy, and `keep` whether
/// the client's connection goes on.
pub fn write_kept_reply(
    shows: &KeptReply,
    kept: &KeptView<'_, '_>,
    name: &[u8],
    keep: bool,
    out: &mut ArrayVec<u8, TEXT_LEN>,
)
    requires shown { CanShow shows.now kept.now.length }
    requires limits { KeepsLineLimits kept.now.fields }
    requires name { length name.now ≤ 64 }
    ensures { out.new.items ≡ kept_reply shows.now kept.now.length kept.now.fields kept.now.age name.now keep }
{
    out.clear();
    match *shows {
        KeptReply::Whole | KeptReply::Head => put_whole(kept, name, keep, out),
        KeptReply::Part(from, to) => put_part(from, to, kept, name, keep, out),
        KeptReply::NotModified => put_not_modified(kept, name, keep, out),
        KeptReply::Unsatisfiable => put_unsatisfiable(kept.length, keep, out),
    }
}

fn put_whole(kept: &KeptView<'_, '_>, name: &[u8], keep: bool, out: &mut ArrayVec<u8, TEXT_LEN>)
    requires limits { KeepsLineLimits kept.now.fields }
    requires name { length name.now ≤ 64 }
    requires room { length out.old.items + 19000 ≤ TEXT_LEN }
    ensures { out.new.items ≡ out.old.items ++ whole_head kept.now.length kept.now.fields kept.now.age name.now keep }
{
    put_title(b"200 OK", out);
    put_all(&kept.fields, out);
    put_age(kept.age, out);
    put_via(name, out);
    put_length(kept.length, out);
    put_end(keep, out);
}

fn put_part(
    from: u64,
    to: u64,
    kept: &KeptView<'_, '_>,
    name: &[u8],
    keep: bool,
    out: &mut ArrayVec<u8, TEXT_LEN>,
)
    requires span { IsSpanWithin from to kept.now.length }
    requires limits { KeepsLineLimits kept.now.fields }
    requires name { length name.now ≤ 64 }
    requires room { length out.old.items + 19000 ≤ TEXT_LEN }
    ensures { out.new.items ≡ out.old.items ++ part_head from to kept.now.length kept.now.fields kept.now.age name.now keep }
{
    put_title(b"206 Partial Content", out);
    put_all(&kept.fields, out);
    put_age(kept.age, out);
    put_via(name, out);
    put_span(from, to, kept.length, out);
    put_length(to - from, out);
    put_end(keep, out);
}

fn put_not_modified(
    kept: &KeptView<'_, '_>,
    name: &[u8],
    keep: bool,
    out: &mut ArrayVec<u8, TEXT_LEN>,
)
    requires limits { KeepsLineLimits kept.now.fields }
    requires name { length name.now ≤ 64 }
    requires room { length out.old.items + 19000 ≤ TEXT_LEN }
    ensures { out.new.items ≡ out.old.items ++ not_modified_head kept.now.fields kept.now.age name.now keep }
{
    put_title(b"304 Not Modified", out);
    put_described(&kept.fields, out);
    put_age(kept.age, out);
    put_via(name, out);
    put_end(keep, out);
}

fn put_unsatisfiable(n: u64, keep: bool, out: &mut ArrayVec<u8, TEXT_LEN>)
    requires { length out.old.items + 300 ≤ TEXT_LEN }
    ensures { out.new.items ≡ out.old.items ++ unsatisfiable_page n keep }
{
    let title: &[u8] = b"416 Requested Range Not Satisfiable";
    put_title(title, out);
    put_unsatisfied(n, out);
    put_line(b"content-type", b"text/plain", out);
    put_length(title.len() as u64 + 1, out);
    put_end(keep, out);
    put(title, out);
    put(b"\n", out);
}

fn put_title(title: &[u8], out: &mut ArrayVec<u8, TEXT_LEN>)
    requires { length out.old.items + length title.now + 11 ≤ TEXT_LEN }
    ensures { out.new.items ≡ out.old.items ++ (codes "HTTP/1.1 " ++ title.now ++ crlf) }
{
    put(b"HTTP/1.1 ", out);
    put(title, out);
    put(b"\r\n", out);
}

/// Writes the lines of all fields.
fn put_all(fields: &Fields<'_, '_>, out: &mut ArrayVec<u8, TEXT_LEN>)
    requires { length out.old.items + length (lines_of fields.now) ≤ TEXT_LEN }
    ensures { out.new.items ≡ out.old.items ++ lines_of fields.now }
{
    for index in 0..fields.len() {
        put_field(fields.name(index), fields.value(index), out);
    }
}

/// Writes the lines of the fields that a 304 has.
fn put_described(fields: &Fields<'_, '_>, out: &mut ArrayVec<u8, TEXT_LEN>)
    requires { length out.old.items + length (lines_of fields.now) ≤ TEXT_LEN }
    ensures text { out.new.items ≡ out.old.items ++ lines_of (filter describes fields.now) }
    ensures len { length out.new.items ≤ length out.old.items + length (lines_of fields.now) }
{
    for index in 0..fields.len() {
        if is_described(fields.name(index)) {
            put_field(fields.name(index), fields.value(index), out);
        }
    }
}

fn is_described(name: &[u8]) -> bool
    ensures { result ≡ describes (name.now, []) }
{
    same(b"etag", name)
        || same(b"content-location", name)
        || same(b"date", name)
        || same(b"expires", name)
        || same(b"cache-control", name)
}

fn put_age(age: Option<u64>, out: &mut ArrayVec<u8, TEXT_LEN>)
    requires { length out.old.items + 27 ≤ TEXT_LEN }
    ensures line { out.new.items ≡ out.old.items ++ age_line age }
    ensures len { length out.new.items ≤ length out.old.items + 27 }
{
    if let Some(seconds) = age {
        put(b"age", out);
        put(b": ", out);
        put_number(seconds, out);
        put(b"\r\n", out);
    }
}

/// Writes which bytes a part has, of how many.
fn put_span(from: u64, to: u64, n: u64, out: &mut ArrayVec<u8, TEXT_LEN>)
    requires some { from < to }
    requires room { length out.old.items + 90 ≤ TEXT_LEN }
    ensures line { out.new.items ≡ out.old.items ++ content_range_line (byte_range_resp from to n) }
    ensures len { length out.new.items ≤ length out.old.items + 90 }
{
    put(b"content-range: bytes ", out);
    put_number(from, out);
    put(b"-", out);
    put_number(to - 1, out);
    put(b"/", out);
    put_number(n, out);
    put(b"\r\n", out);
}

/// Writes that none of so many bytes was in the range.
fn put_unsatisfied(n: u64, out: &mut ArrayVec<u8, TEXT_LEN>)
    requires room { length out.old.items + 50 ≤ TEXT_LEN }
    ensures line { out.new.items ≡ out.old.items ++ content_range_line (unsatisfied_range n) }
    ensures len { length out.new.items ≤ length out.old.items + 50 }
{
    put(b"content-range: bytes */", out);
    put_number(n, out);
    put(b"\r\n", out);
}

fn put_end(keep: bool, out: &mut ArrayVec<u8, TEXT_LEN>)
    requires { length out.old.items + 26 ≤ TEXT_LEN }
    ensures text { out.new.items ≡ out.old.items ++ connection_line keep ++ crlf }
    ensures len { length out.new.items ≤ length out.old.items + 26 }
{
    put_connection(keep, out);
    put(b"\r\n", out);
}
