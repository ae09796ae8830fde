// What the origin of a page answers to an ask (the forms of RFC 2616, sections 4 to 6).
ghost use Rattle.std.specs.Prelude.{◌≡◌, ◌<◌, ◌≤◌, ◌+◌, length, IfSome};

use crate::Page;
use crate::fields::{field, fields_of};
use http_header::HeaderMap;
use itoa::Buffer;
use pp_text::{OutOfMemory, read_u64};
use std::alloc::Global;

const NOT_FOUND: &[u8] = b"HTTP/1.1 404 Not Found\r\nContent-Length: 0\r\n\r\n";

/// Answers each whole ask at the front of `asked`, and leaves what is not whole yet.
pub(crate) fn answer_all(
    alloc: Global,
    site: &[Page],
    host: &[u8],
    asked: &mut Vec<u8>,
    answers: &mut Vec<u8>,
) -> Result<(), OutOfMemory> {
    for _ in 0..asked.len() {
        let Some(head_len) = head_len(asked.as_slice()) else {
            break;
        };
        let head = &asked.as_slice()[..head_len];
        let fields = fields_of(alloc, head)?;
        let ask_len = body_len(&fields).saturating_add(head_len);
        if ask_len > asked.len() {
            break;
        }
        answer(site, host, head, &fields, answers)?;
        asked.drain(..ask_len);
    }
    Ok(())
}

/// The length of an ask's body, by Content-Length.
fn body_len(fields: &HeaderMap) -> usize {
    match field(fields, "content-length") {
        Some(value) => read_u64(value).unwrap_or(0) as usize,
        None => 0,
    }
}

/// The length of the head at the front, with the empty line that ends it.
fn head_len(bytes: &[u8]) -> Option<usize>
    ensures { IfSome result (λ n. n ≤ length bytes.now) }
{
    for end in 4..bytes.len() + 1 {
        if &bytes[end - 4..end] == b"\r\n\r\n".as_slice() {
            return Some(end);
        }
    }
    None
}

/// What stands between the first two spaces, and before the first.
fn method_and_target(head: &[u8]) -> Option<(&[u8], &[u8])> {
    let method = head.iter().position(|b| *b == b' ')?;
    let rest = &head[method + 1..];
    let target = rest.iter().position(|b| *b == b' ')?;
    Some((&head[..method], &rest[..target]))
}

fn page_for<'a>(site: &'a [Page], host: &[u8], head: &[u8]) -> Option<&'a Page> {
    let (method, target) = method_and_target(head)?;
    if method != b"GET".as_slice() {
        return None;
    }
    site.iter().find(|page| page.host.as_slice() == host && page.path.as_slice() == target)
}

/// The span of a `bytes=a-b` or `bytes=a-` that begins within so many bytes, half-open.
fn span_of(range: &[u8], len: usize) -> Option<(usize, usize)>
    ensures { IfSome result (λ s. (s.0 < s.1) × (s.1 ≤ len)) }
{
    let range = range.strip_prefix(b"bytes=".as_slice())?;
    let dash = range.iter().position(|b| *b == b'-')?;
    let from = read_u64(&range[..dash])?;
    let last = match &range[dash + 1..] {
        [] => u64::MAX,
        text => read_u64(text)?,
    };
    if last < from || from >= len as u64 {
        return None;
    }
    let to = if last < len as u64 {
        last as usize + 1
    } else {
        len
    };
    Some((from as usize, to))
}

fn answer(
    site: &[Page],
    host: &[u8],
    head: &[u8],
    fields: &HeaderMap,
    answers: &mut Vec<u8>,
) -> Result<(), OutOfMemory> {
    let Some(page) = page_for(site, host, head) else {
        answers.extend_from_slice(NOT_FOUND)?;
        return Ok(());
    };
    let tag = page.tag.as_slice();
    if let Some((from, to)) = part_of(page, fields) {
        return answer_part(page, from, to, answers);
    }
    if field(fields, "if-none-match").is_some_and(|named| named == tag) {
        return answer_unchanged(tag, answers);
    }
    answer_whole(page, answers)
}

fn answer_unchanged(tag: &[u8], answers: &mut Vec<u8>) -> Result<(), OutOfMemory> {
    answers.extend_from_slice(b"HTTP/1.1 304 Not Modified\r\nETag: ")?;
    answers.extend_from_slice(tag)?;
    answers.extend_from_slice(b"\r\n\r\n")?;
    Ok(())
}

/// The span that is asked for, where the asker has no other version.
fn part_of(page: &Page, fields: &HeaderMap) -> Option<(usize, usize)>
    ensures { IfSome result (λ s. (s.0 < s.1) × (s.1 ≤ length page.now.body)) }
{
    let range = field(fields, "range")?;
    match field(fields, "if-range") {
        Some(named) if named != page.tag.as_slice() => None,
        Some(_) | None => span_of(range, page.body.as_slice().len()),
    }
}

fn answer_whole(page: &Page, answers: &mut Vec<u8>) -> Result<(), OutOfMemory> {
    let body = page.body.as_slice();
    answers.extend_from_slice(b"HTTP/1.1 200 OK\r\n")?;
    put_version(page, answers)?;
    put_length(body.len(), answers)?;
    answers.extend_from_slice(body)?;
    Ok(())
}

fn answer_part(
    page: &Page,
    from: usize,
    to: usize,
    answers: &mut Vec<u8>,
) -> Result<(), OutOfMemory>
    requires ordered { from < to }
    requires within { to ≤ length page.now.body }
{
    let body = page.body.as_slice();
    answers.extend_from_slice(b"HTTP/1.1 206 Partial Content\r\n")?;
    put_version(page, answers)?;
    answers.extend_from_slice(b"Content-Range: bytes ")?;
    put_number(from, answers)?;
    answers.extend_from_slice(b"-")?;
    put_number(to - 1, answers)?;
    answers.extend_from_slice(b"/")?;
    put_number(body.len(), answers)?;
    answers.extend_from_slice(b"\r\n")?;
    put_length(to - from, answers)?;
    answers.extend_from_slice(&body[from..to])?;
    Ok(())
}

fn put_version(page: &Page, answers: &mut Vec<u8>) -> Result<(), OutOfMemory> {
    answers.extend_from_slice(b"ETag: ")?;
    answers.extend_from_slice(page.tag.as_slice())?;
    answers.extend_from_slice(b"\r\nCache-Control: max-age=3600\r\n")?;
    Ok(())
}

/// The last field of a head, and the empty line.
fn put_length(len: usize, answers: &mut Vec<u8>) -> Result<(), OutOfMemory> {
    answers.extend_from_slice(b"Content-Length: ")?;
    put_number(len, answers)?;
    answers.extend_from_slice(b"\r\n\r\n")?;
    Ok(())
}

fn put_number(number: usize, answers: &mut Vec<u8>) -> Result<(), OutOfMemory> {
    let mut buffer = Buffer::new();
    answers.extend_from_slice(buffer.format(number).as_bytes())?;
    Ok(())
}
