// The text of a head block.
ghost use Rattle.std.specs.Prelude.{◌≡◌, ◌≤◌, ◌^◌, [], take, length};
ghost use Rattle.pp_text.specs.Lines.{lines_of};
ghost use Rattle.pp_entry.specs.Puts.{IsHeadPut, IsPut};
ghost use Rattle.pp_entry.specs.Texts.{body_at, head_text, own_lines};

use crate::lines::{HEAD_LEN, TooLong, put, put_field, put_number_line, put_text_line};
use arrayvec::ArrayVec;
use pp_fresh::Times;
use pp_text::Fields;

/// The most fields that are kept of a response: a head has 100, and five are this proxy's own.
pub(crate) const MAX_KEPT: usize = 95;

/// Writes the text of a head block, with the first so many of the fields.
pub(crate) fn put_head(
    key: &[u8],
    n: u64,
    fields: &Fields<'_, '_>,
    count: usize,
    times: &Times,
    out: &mut ArrayVec<u8, HEAD_LEN>,
) -> Result<(), TooLong>
    requires empty { out.old.items ≡ [] }
    requires within { count ≤ length fields.now }
    requires sized { n ≤ 2 ^ 26 }
    ensures { IsHeadPut (take count fields.now) (head_text key.now n (take count fields.now) times.now) out.new.items result }
{
    if count > MAX_KEPT {
        return Err(TooLong);
    }
    match put_text(key, n, fields, count, times, out) {
        Ok(()) => {
            prove!(out.len() <= HEAD_LEN);
            Ok(())
        }
        Err(TooLong) => Err(TooLong),
    }
}

#[tactic(auto, unfolding(crate::specs::Texts::head_text))]
fn put_text(
    key: &[u8],
    n: u64,
    fields: &Fields<'_, '_>,
    count: usize,
    times: &Times,
    out: &mut ArrayVec<u8, HEAD_LEN>,
) -> Result<(), TooLong>
    requires within { count ≤ length fields.now }
    requires sized { n ≤ 2 ^ 26 }
    ensures { IsPut (head_text key.now n (take count fields.now) times.now) out.old.items out.new.items result }
{
    put(b"HTTP/1.1 200 OK\r\n", out)?;
    put_fields(fields, count, out)?;
    put_own(key, n, times, out)?;
    put(b"\r\n", out)
}

/// Writes the lines of the first so many fields.
fn put_fields(
    fields: &Fields<'_, '_>,
    count: usize,
    out: &mut ArrayVec<u8, HEAD_LEN>,
) -> Result<(), TooLong>
    requires { count ≤ length fields.now }
    ensures { IsPut (lines_of (take count fields.now)) out.old.items out.new.items result }
{
    for index in 0..count {
        put_field(fields.name(index), fields.value(index), out)?;
    }
    Ok(())
}

/// Writes the lines of this proxy's own.
#[tactic(auto, unfolding(crate::specs::Texts::own_lines))]
fn put_own(
    key: &[u8],
    n: u64,
    times: &Times,
    out: &mut ArrayVec<u8, HEAD_LEN>,
) -> Result<(), TooLong>
    requires { n ≤ 2 ^ 26 }
    ensures { IsPut (own_lines key.now n times.now) out.old.items out.new.items result }
{
    put_text_line(b"X-Polipo-Location", key, out)?;
    put_number_line(b"X-Polipo-Date", times.response, out)?;
    put_number_line(b"X-Polipo-Age", times.initial, out)?;
    put_number_line(b"X-Polipo-Length", n, out)?;
    put_number_line(b"X-Polipo-Body-Offset", body_at(n), out)
}

/// Where a body of so many bytes stands in its file, as an offset in bytes.
#[tactic(auto, unfolding(crate::specs::Texts::body_at))]
pub fn body_at(n: u64) -> u64
    requires { n ≤ 2 ^ 26 }
    ensures { result ≡ body_at n }
{
    let chunks = (n + 4095) / 4096;
    8192 + (chunks + 4095) / 4096 * 4096
}
