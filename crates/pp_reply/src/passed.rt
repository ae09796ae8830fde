// The head of a passed response.
ghost use Rattle.std.specs.Prelude.{◌≡◌, ◌+◌, ◌≤◌, ◌<◌, ◌==◌, ◌&&◌, ◌||◌, ◌++◌, length, sum_by};
ghost use Rattle.pp_text.specs.Fields.{field_at};
ghost use Rattle.pp_head.specs.Agreement.{field_len};
ghost use Rattle.pp_head.specs.Shown.{shown_response};
ghost use Rattle.pp_reply.specs.Keeping.{is_end_known as knows_end};
ghost use Rattle.pp_reply.specs.Texts.{passed_head, passed_lines, goes_on, framing_line, received_length, status_line, KeepsHeadLimits};

use crate::keeping::is_end_known;
use crate::lines::{
    TEXT_LEN, put, put_connection, put_field, put_length, put_line, put_number, put_via,
};
use arrayvec::ArrayVec;
use pp_framing::BodyRule;
use pp_head::ResponseHead;
use pp_text::{Fields, is_forwarded, read_u64, same};

/// Who asked for a response, and how.
#[derive(Clone, Copy, Debug)]
pub struct Asker {
    /// The minor version of its request.
    pub minor: u8,
    /// Whether it asked HEAD.
    pub head_asked: bool,
    /// Whether its connection may go on.
    pub keep: bool,
}

/// Writes the head of a passed response, whose body is delimited so, under the name of this proxy.
pub fn put_passed_head(
    response: &ResponseHead<'_, '_>,
    rule: BodyRule,
    asker: Asker,
    name: &[u8],
    out: &mut ArrayVec<u8, TEXT_LEN>,
)
    requires limits { KeepsHeadLimits (shown_response response.now) }
    requires name { length name.now ≤ 64 }
    requires room { length out.old.items + 17000 ≤ TEXT_LEN }
    ensures { out.new.items ≡ out.old.items ++ passed_head (shown_response response.now) rule asker.minor asker.head_asked name.now asker.keep }
{
    put_status(response, out);
    put_fields(&response.fields, out);
    put_via(name, out);
    let is_described = is_described(asker.head_asked, response.status);
    put_framing(rule, asker.minor, is_described, &response.fields, out);
    put_connection(is_kept(asker.keep, rule, asker.minor), out);
    put(b"\r\n", out);
}

/// Whether the response has no body, but the length that it would have.
fn is_described(head_asked: bool, status: u16) -> bool
    ensures { result ≡ (head_asked || (status == 304)) }
{
    head_asked || status == 304
}

/// Whether the connection goes on behind the reply.
fn is_kept(keep: bool, rule: BodyRule, minor: u8) -> bool
    ensures { result ≡ (keep && knows_end rule minor) }
{
    keep && is_end_known(rule, minor)
}

fn put_status(response: &ResponseHead<'_, '_>, out: &mut ArrayVec<u8, TEXT_LEN>)
    requires { length out.old.items + length response.now.reason.now + 32 ≤ TEXT_LEN }
    ensures text { out.new.items ≡ out.old.items ++ status_line (shown_response response.now) }
    ensures len { length out.new.items ≤ length out.old.items + length response.now.reason.now + 32 }
{
    put(b"HTTP/1.1 ", out);
    put_number(u64::from(response.status), out);
    put(b" ", out);
    put(response.reason, out);
    put(b"\r\n", out);
}

/// Writes the lines of the fields that go on.
fn put_fields(fields: &Fields<'_, '_>, out: &mut ArrayVec<u8, TEXT_LEN>)
    requires few { length fields.now ≤ 100 }
    requires room { length out.old.items + sum_by field_len fields.now + 200 ≤ TEXT_LEN }
    ensures text { out.new.items ≡ out.old.items ++ passed_lines fields.now }
    ensures len { length out.new.items ≤ length out.old.items + sum_by field_len fields.now + 200 }
{
    for index in 0..fields.len() {
        if is_passed(fields, index) {
            put_field(fields.name(index), fields.value(index), out);
        }
    }
}

fn is_passed(fields: &Fields<'_, '_>, index: usize) -> bool
    requires { index < length fields.now }
    ensures { result ≡ goes_on fields.now (field_at fields.now index) }
{
    is_forwarded(fields, index) && !same(b"content-length", fields.name(index))
}

/// Writes the line that tells where the body ends, where one does.
fn put_framing(
    rule: BodyRule,
    minor: u8,
    is_described: bool,
    fields: &Fields<'_, '_>,
    out: &mut ArrayVec<u8, TEXT_LEN>,
)
    requires { length out.old.items + 40 ≤ TEXT_LEN }
    ensures line { out.new.items ≡ out.old.items ++ framing_line rule minor is_described fields.now }
    ensures len { length out.new.items ≤ length out.old.items + 40 }
{
    match rule {
        BodyRule::Empty => {
            if is_described {
                if let Some(n) = length_received(fields) {
                    put_length(n, out);
                }
            }
        }
        BodyRule::Length(n) => put_length(n, out),
        BodyRule::Chunked | BodyRule::ToEnd => {
            if minor != 0 {
                put_line(b"transfer-encoding", b"chunked", out);
            }
        }
    }
}

/// The length that the response gives its body, where no coding makes it void.
fn length_received(fields: &Fields<'_, '_>) -> Option<u64>
    ensures { result ≡ received_length fields.now }
{
    if fields.has(b"transfer-encoding") {
        return None;
    }
    read_u64(fields.first(b"content-length")?)
}
