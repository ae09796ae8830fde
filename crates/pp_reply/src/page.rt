// The pages of the proxy's own.
ghost use Rattle.std.specs.Prelude.{◌≡◌, ◌+◌, ◌≤◌, ◌++◌, ◌&&◌, not, length, IsTrue};
ghost use Rattle.pp_reply.specs.Texts.{page, page_head, page_body, title_of, has_page, is_last as ends_with};

use crate::lines::{TEXT_LEN, put, put_connection, put_length, put_line};
use arrayvec::ArrayVec;

/// Writes the page of a refusal.
pub fn put_page(status: u16, head_asked: bool, keep: bool, out: &mut ArrayVec<u8, TEXT_LEN>)
    requires known { IsTrue (has_page status) }
    requires room { length out.old.items + 300 ≤ TEXT_LEN }
    ensures { out.new.items ≡ out.old.items ++ page status head_asked keep }
{
    let title = title_of_page(status);
    put_page_head(title, is_kept(keep, status), out);
    put_page_body(title, head_asked, out);
}

fn put_page_head(title: &[u8], keep: bool, out: &mut ArrayVec<u8, TEXT_LEN>)
    requires short { length title.now ≤ 40 }
    requires room { length out.old.items + 250 ≤ TEXT_LEN }
    ensures head { out.new.items ≡ out.old.items ++ page_head title.now keep }
    ensures len { length out.new.items ≤ length out.old.items + 250 }
{
    put(b"HTTP/1.1 ", out);
    put(title, out);
    put(b"\r\n", out);
    put_line(b"content-type", b"text/plain", out);
    put_length(title.len() as u64 + 1, out);
    put_connection(keep, out);
    put(b"\r\n", out);
}

fn put_page_body(title: &[u8], head_asked: bool, out: &mut ArrayVec<u8, TEXT_LEN>)
    requires { length out.old.items + length title.now + 1 ≤ TEXT_LEN }
    ensures { out.new.items ≡ out.old.items ++ page_body title.now head_asked }
{
    if !head_asked {
        put(title, out);
        put(b"\n", out);
    }
}

/// Whether the connection goes on behind this page.
fn is_kept(keep: bool, status: u16) -> bool
    ensures { result ≡ (keep && not (ends_with status)) }
{
    keep && !is_last(status)
}

/// The status and the reason, as they stand in the status line.
fn title_of_page(status: u16) -> &'static [u8]
    requires { IsTrue (has_page status) }
    ensures value { result.now ≡ title_of status }
    ensures short { length result.now ≤ 40 }
{
    match status {
        400 => b"400 Bad Request",
        411 => b"411 Length Required",
        431 => b"431 Request Header Fields Too Large",
        500 => b"500 Internal Server Error",
        502 => b"502 Bad Gateway",
        _ => b"504 Gateway Timeout",
    }
}

/// No request is read behind one that was refused so.
fn is_last(status: u16) -> bool
    ensures { result ≡ ends_with status }
{
    status == 400 || status == 411 || status == 431
}
