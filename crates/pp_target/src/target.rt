// The key of a target, and where its parts stand in it.
ghost use Rattle.std.specs.Prelude.{◌≡◌, ◌⊎◌, ◌+◌, ◌<◌, ◌≤◌, [], ◌++◌, length, IfOk, IfErr, OnOk, OnErr, Err};
ghost use Rattle.arrayvec.specs.ArrayVec.{array_vec_len};
ghost use Rattle.pp_text.specs.Bytes.{lower};
ghost use Rattle.pp_target.specs.Absolute.{HasUriGrammar};
ghost use Rattle.pp_target.specs.Key.{IsPlaceIn, fitting, has_mark, is_host, host_in, key_at, key_from, key_from_parts, key_in, key_of, port_in, port_number, port_or_default, port_text, with_slash};
ghost use Rattle.pp_target.specs.Parsed.{IsSpelled, IsDue, parts_of};

use crate::absolute::parse;
use arrayvec::ArrayVec;
use http_uri::Uri;
use itoa::Buffer;
use pp_text::read_u64;
use std::alloc::Global;
use thiserror::Error;

/// Bytes that a key may have.
pub const KEY_ROOM: usize = 8192;

/// Where the parts of a key stand in it, as byte offsets.
#[derive(Clone, Copy, Debug, PartialEq, Eq)]
pub struct Place {
    /// The span of the host, which is in lower case: half-open.
    pub host: (usize, usize),
    /// The TCP port, 80 where the key names none.
    pub port: u16,
    /// Where path and query begin, which go to the key's end.
    pub path: usize,
}

/// Why a target has no key. Of several the first is answered.
#[derive(Clone, Copy, Debug, PartialEq, Eq, Error)]
pub enum TargetFault {
    /// It has no scheme and authority (RFC 2616, section 5.1.2).
    #[error("the target has no scheme and authority")]
    NotAbsolute,
    /// The scheme is not `http`, in any case (section 3.2.2).
    #[error("the target's scheme is not http")]
    NotHttp,
    /// The host is empty or above 255 bytes, or there is an `@` or a `[`.
    #[error("the target's host is not understood")]
    BadHost,
    /// What follows the colon is neither empty nor a number from 1 to 65535 (section 3.2.2).
    #[error("the target's port is not understood")]
    BadPort,
    /// The key would exceed 8,192 bytes.
    #[error("the target's key exceeds 8,192 bytes")]
    TooLong,
    /// Memory was asked for and not given.
    #[error("memory was asked for and not given")]
    OutOfMemory,
}

/// Writes the key of a target into `out`, and answers where its parts stand (RFC 2616, sections
/// 3.2.2, 3.2.3 and 5.1.2). What `out` held is gone; after a fault it is empty.
pub fn key(
    alloc: Global,
    target: &[u8],
    out: &mut ArrayVec<u8, KEY_ROOM>,
) -> Result<Place, TargetFault>
    ensures key { IfOk result (λ place. key_at target.now ≡ Ok (key_in out.new.items place)) }
    ensures place { IfOk result (IsPlaceIn out.new.items) }
    ensures fault { IfErr result (λ fault. (fault ≡ TargetFault.OutOfMemory) ⊎ (key_at target.now ≡ Err fault)) }
    ensures empty { OnErr result (out.new.items ≡ []) }
    ensures grammar { HasUriGrammar target.now }
{
    out.clear();
    let uri = parse(alloc, target)?;
    let written = write_uri(&uri, out);
    if written.is_err() {
        out.clear();
    }
    written
}

fn write_uri(uri: &Uri, out: &mut ArrayVec<u8, KEY_ROOM>) -> Result<Place, TargetFault>
    requires { out.old.items ≡ [] }
    ensures { IsDue (key_from (parts_of uri.now)) result out.new.items }
{
    let (Some(scheme), Some(authority), Some(path)) = (
        uri.scheme_str(),
        uri.authority(),
        uri.path_and_query(),
    ) else {
        return Err(TargetFault::NotAbsolute);
    };
    write_key(scheme, authority.as_str(), path.as_str(), out)
}

fn write_key(
    scheme: &str,
    authority: &str,
    path: &str,
    out: &mut ArrayVec<u8, KEY_ROOM>,
) -> Result<Place, TargetFault>
    requires { out.old.items ≡ [] }
    ensures { IsDue (key_from_parts scheme.now authority.now path.now) result out.new.items }
{
    if scheme != "http" {
        return Err(TargetFault::NotHttp);
    }
    if !is_host(authority) {
        return Err(TargetFault::BadHost);
    }
    let Some(port) = port_in(authority) else {
        return Err(TargetFault::BadPort);
    };
    write_parts(host_in(authority), port, path, out)
}

fn host_in(authority: &str) -> &str
    ensures { result.now ≡ host_in authority.now }
{
    match authority.split_once(':') {
        Some((host, _)) => host,
        None => authority,
    }
}

fn is_host(authority: &str) -> bool
    ensures { result ≡ is_host authority.now }
{
    let host = host_in(authority);
    let sized = !host.is_empty() && host.len() <= 255;
    sized && !has_mark(authority.as_bytes())
}

fn has_mark(authority: &[u8]) -> bool
    ensures { result ≡ has_mark authority.now }
{
    authority.iter().any(|b| *b == b'@' || *b == b'[')
}

fn port_in(authority: &str) -> Option<u16>
    ensures { result ≡ port_in authority.now }
{
    match authority.split_once(':') {
        Some((_, text)) if !text.is_empty() => port_number(text.as_bytes()),
        _ => Some(80),
    }
}

fn port_number(text: &[u8]) -> Option<u16>
    ensures { result ≡ port_number text.now }
{
    let n = read_u64(text)?;
    if 1 <= n && n <= 65535 {
        Some(n as u16)
    } else {
        None
    }
}

fn write_parts(
    host: &str,
    port: u16,
    path: &str,
    out: &mut ArrayVec<u8, KEY_ROOM>,
) -> Result<Place, TargetFault>
    requires { out.old.items ≡ [] }
    ensures ok { IfOk result (IsSpelled (key_of host.now port path.now) out.new.items) }
    ensures err { IfErr result (λ fault. fitting (key_of host.now port path.now) ≡ Err fault) }
{
    append(b"http://", out)?;
    let host_from = out.len();
    append_lower(host.as_bytes(), out)?;
    let host_to = out.len();
    append_port(port, out)?;
    let path_from = out.len();
    append_path(path.as_bytes(), out)?;
    Ok(Place {
        host: (host_from, host_to),
        port,
        path: path_from,
    })
}

fn append_port(port: u16, out: &mut ArrayVec<u8, KEY_ROOM>) -> Result<(), TargetFault>
    ensures ok { OnOk result (out.new.items ≡ out.old.items ++ port_text port) }
    ensures err { IfErr result (λ f. (f ≡ TargetFault.TooLong) × (8192 < array_vec_len out.old + length (port_text port))) }
{
    if port == 80 {
        return Ok(());
    }
    append(b":", out)?;
    let mut digits = Buffer::new();
    append(digits.format(port).as_bytes(), out)
}

fn append_path(path: &[u8], out: &mut ArrayVec<u8, KEY_ROOM>) -> Result<(), TargetFault>
    ensures ok { OnOk result (out.new.items ≡ out.old.items ++ with_slash path.now) }
    ensures room { OnOk result (array_vec_len out.old + length (with_slash path.now) ≤ 8192) }
    ensures err { IfErr result (λ f. (f ≡ TargetFault.TooLong) × (8192 < array_vec_len out.old + length (with_slash path.now))) }
{
    if path.first() != Some(&b'/') {
        append(b"/", out)?;
    }
    append(path, out)
}

fn append_lower(text: &[u8], out: &mut ArrayVec<u8, KEY_ROOM>) -> Result<(), TargetFault>
    ensures ok { OnOk result (out.new.items ≡ out.old.items ++ lower text.now) }
    ensures err { IfErr result (λ f. (f ≡ TargetFault.TooLong) × (8192 < array_vec_len out.old + length text.now)) }
{
    if out.remaining_capacity() < text.len() {
        return Err(TargetFault::TooLong);
    }
    for byte in text {
        out.push(byte.to_ascii_lowercase());
    }
    Ok(())
}

fn append(text: &[u8], out: &mut ArrayVec<u8, KEY_ROOM>) -> Result<(), TargetFault>
    ensures ok { OnOk result (out.new.items ≡ out.old.items ++ text.now) }
    ensures room { OnOk result (array_vec_len out.old + length text.now ≤ 8192) }
    ensures err { IfErr result (λ f. (f ≡ TargetFault.TooLong) × (8192 < array_vec_len out.old + length text.now)) }
{
    match out.try_extend_from_slice(text) {
        Ok(()) => Ok(()),
        Err(_) => Err(TargetFault::TooLong),
    }
}
