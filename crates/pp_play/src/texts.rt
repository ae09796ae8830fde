// The texts that most exchanges are made of.
use crate::playing::Act;
use pp_text::OutOfMemory;
use std::alloc::Global;

/// When most exchanges begin: Sun, 06 Nov 1994 08:49:37 GMT.
pub const T: u64 = 784_111_777;

/// A plain request for the page /a of host h.
pub const GET: &[u8] = b"GET http://h/a HTTP/1.1\r\nHost: h\r\n\r\n";

/// What its origin is asked.
pub const ASK: &[u8] = b"GET /a HTTP/1.1\r\nhost: h\r\nvia: 1.1 polipo\r\n\r\n";

/// A plain response, which may be kept for a minute.
pub const RESPONSE: &[u8] =
    b"HTTP/1.1 200 OK\r\nDate: Sun, 06 Nov 1994 08:49:37 GMT\r\nETag: \"x\"\r\nCache-Control: max-age=60\r\nContent-Length: 5\r\n\r\nhello";

/// Its head, where that comes before the body "hello": so it decides before any byte of the body is there, at either pace.
pub const HEAD: &[u8] =
    b"HTTP/1.1 200 OK\r\nDate: Sun, 06 Nov 1994 08:49:37 GMT\r\nETag: \"x\"\r\nCache-Control: max-age=60\r\nContent-Length: 5\r\n\r\n";

/// The reply to the client that it was fetched for.
pub const REPLY: &[u8] =
    b"HTTP/1.1 200 OK\r\netag: \"x\"\r\ndate: Sun, 06 Nov 1994 08:49:37 GMT\r\ncache-control: max-age=60\r\nvia: 1.1 polipo\r\ncontent-length: 5\r\nconnection: keep-alive\r\n\r\nhello";

/// The reply to another request in that second, from what is held.
pub const REPLY_HELD: &[u8] =
    b"HTTP/1.1 200 OK\r\netag: \"x\"\r\ndate: Sun, 06 Nov 1994 08:49:37 GMT\r\ncache-control: max-age=60\r\nage: 0\r\nvia: 1.1 polipo\r\ncontent-length: 5\r\nconnection: keep-alive\r\n\r\nhello";

/// How the response is passed where it is none of the cache's own.
pub const PASSED: &[u8] =
    b"HTTP/1.1 200 OK\r\ndate: Sun, 06 Nov 1994 08:49:37 GMT\r\netag: \"x\"\r\ncache-control: max-age=60\r\nvia: 1.1 polipo\r\ncontent-length: 5\r\nconnection: keep-alive\r\n\r\nhello";

/// A plain request for another page of that host, its ask, a plain response, and the reply to the client that it was fetched
/// for: the response tells no date, so that of its receipt is told.
pub const GET_B: &[u8] = b"GET http://h/b HTTP/1.1\r\nHost: h\r\n\r\n";

pub const ASK_B: &[u8] = b"GET /b HTTP/1.1\r\nhost: h\r\nvia: 1.1 polipo\r\n\r\n";

pub const RESPONSE_B: &[u8] = b"HTTP/1.1 200 OK\r\nETag: \"y\"\r\nContent-Length: 3\r\n\r\nbye";

/// The head of that response, where it comes before the body "bye".
pub const HEAD_B: &[u8] = b"HTTP/1.1 200 OK\r\nETag: \"y\"\r\nContent-Length: 3\r\n\r\n";

pub const REPLY_B: &[u8] =
    b"HTTP/1.1 200 OK\r\netag: \"y\"\r\ndate: Sun, 06 Nov 1994 08:49:37 GMT\r\nvia: 1.1 polipo\r\ncontent-length: 3\r\nconnection: keep-alive\r\n\r\nbye";

pub const PAGE_400: &[u8] =
    b"HTTP/1.1 400 Bad Request\r\ncontent-type: text/plain\r\ncontent-length: 16\r\nconnection: close\r\n\r\n400 Bad Request\n";

pub const PAGE_411: &[u8] =
    b"HTTP/1.1 411 Length Required\r\ncontent-type: text/plain\r\ncontent-length: 20\r\nconnection: close\r\n\r\n411 Length Required\n";

pub const PAGE_431: &[u8] =
    b"HTTP/1.1 431 Request Header Fields Too Large\r\ncontent-type: text/plain\r\ncontent-length: 36\r\nconnection: close\r\n\r\n431 Request Header Fields Too Large\n";

pub const PAGE_502: &[u8] =
    b"HTTP/1.1 502 Bad Gateway\r\ncontent-type: text/plain\r\ncontent-length: 16\r\nconnection: keep-alive\r\n\r\n502 Bad Gateway\n";

/// These texts, one behind the other.
pub fn joined(alloc: Global, texts: &[&[u8]]) -> Result<Vec<u8>, OutOfMemory> {
    let mut joined = Vec::new(alloc);
    for text in texts {
        joined.extend_from_slice(text)?;
    }
    Ok(joined)
}

/// A text, and so many times another behind it.
pub fn with_repeated(
    alloc: Global,
    text: &[u8],
    times: u64,
    repeated: &[u8],
) -> Result<Vec<u8>, OutOfMemory> {
    let mut whole = Vec::from_slice(alloc, text)?;
    for _ in 0..times {
        whole.extend_from_slice(repeated)?;
    }
    Ok(whole)
}

/// So many clients for each of these requests, which connect and say it, and then these acts.
pub fn asking<'a>(
    alloc: Global,
    requests: &[&'a [u8]],
    times: u64,
    then: &[Act<'a>],
) -> Result<Vec<Act<'a>>, OutOfMemory> {
    let mut acts = Vec::new(alloc);
    for request in requests {
        for _ in 0..times {
            acts.extend_from_slice(&[Act::Connect, Act::Say(0, request)])?;
        }
    }
    acts.extend_from_slice(then)?;
    Ok(acts)
}

/// These acts, one list behind the other.
pub fn joined_acts<'a>(alloc: Global, parts: &[&[Act<'a>]]) -> Result<Vec<Act<'a>>, OutOfMemory> {
    let mut acts = Vec::new(alloc);
    for part in parts {
        acts.extend_from_slice(part)?;
    }
    Ok(acts)
}
