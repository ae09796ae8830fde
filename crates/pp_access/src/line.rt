// A line of the log.
ghost use Rattle.std.specs.Prelude.{◌≡◌, ◌++◌, ◌<◌, flat_map, decimal, OnOk};
ghost use Rattle.httpdate.specs.Date.{date_text};
ghost use Rattle.pp_access.specs.Lines.{address_text, counts_of, cut_text, escaped, front_of, hex_digit, is_plain, line_text, making_of, request_text, time_of, word_of};

use httpdate::HttpDate;
use itoa::Buffer;
use pp_world::Source;
use std::alloc::AllocError;

/// A reply that is over.
#[derive(Clone, Copy, Debug)]
pub struct Line<'a> {
    /// The client's address of IPv4, its first octet the highest.
    pub address: u32,
    /// When it was over.
    pub date: HttpDate,
    /// The first line of its request, without the line's end.
    pub request: &'a [u8],
    pub status: u16,
    /// Bytes of its body that were said.
    pub body_len: u64,
    pub source: Source,
    /// It ended before all of it was said.
    pub is_cut: bool,
    /// How long it took.
    pub millis: u64,
}

/// Writes the line behind the bytes of `out`, which holds a part of it where memory is refused.
pub fn put_line(line: &Line<'_>, out: &mut Vec<u8>) -> Result<(), AllocError>
    ensures { OnOk result (out.new.items ≡ out.old.items ++ line_text line.now) }
{
    put_front(line, out)?;
    put_request(line.request, out)?;
    put_counts(line, out)?;
    put_making(line, out)
}

#[tactic(auto, unfolding(crate::specs::Lines::front_of))]
fn put_front(line: &Line<'_>, out: &mut Vec<u8>) -> Result<(), AllocError>
    ensures { OnOk result (out.new.items ≡ out.old.items ++ front_of line.now) }
{
    put_address(line.address, out)?;
    out.extend_from_slice(b" - - [")?;
    put_time(&line.date, out)?;
    out.extend_from_slice(b"] \"")
}

#[tactic(auto, unfolding(crate::specs::Lines::counts_of))]
fn put_counts(line: &Line<'_>, out: &mut Vec<u8>) -> Result<(), AllocError>
    ensures { OnOk result (out.new.items ≡ out.old.items ++ counts_of line.now) }
{
    out.extend_from_slice(b"\" ")?;
    put_number(u64::from(line.status), out)?;
    out.extend_from_slice(b" ")?;
    put_number(line.body_len, out)?;
    out.extend_from_slice(b" ")
}

#[tactic(auto, unfolding(crate::specs::Lines::making_of))]
fn put_making(line: &Line<'_>, out: &mut Vec<u8>) -> Result<(), AllocError>
    ensures { OnOk result (out.new.items ≡ out.old.items ++ making_of line.now) }
{
    out.extend_from_slice(word_of(line.source))?;
    out.extend_from_slice(cut_text(line.is_cut))?;
    put_number(line.millis, out)?;
    out.extend_from_slice(b"\n")
}

#[tactic(auto, unfolding(crate::specs::Lines::address_text))]
fn put_address(address: u32, out: &mut Vec<u8>) -> Result<(), AllocError>
    ensures { OnOk result (out.new.items ≡ out.old.items ++ address_text address) }
{
    put_number(u64::from(address / (1 << 24)), out)?;
    out.extend_from_slice(b".")?;
    put_number(u64::from(address / (1 << 16) % 256), out)?;
    out.extend_from_slice(b".")?;
    put_number(u64::from(address / (1 << 8) % 256), out)?;
    out.extend_from_slice(b".")?;
    put_number(u64::from(address % 256), out)
}

#[tactic(auto, unfolding(crate::specs::Lines::time_of))]
fn put_time(date: &HttpDate, out: &mut Vec<u8>) -> Result<(), AllocError>
    ensures { OnOk result (out.new.items ≡ out.old.items ++ time_of (date_text date.now)) }
{
    let text = date.to_bytes();
    out.extend_from_slice(&text[5..7])?;
    out.extend_from_slice(b"/")?;
    out.extend_from_slice(&text[8..11])?;
    out.extend_from_slice(b"/")?;
    out.extend_from_slice(&text[12..16])?;
    out.extend_from_slice(b":")?;
    out.extend_from_slice(&text[17..25])?;
    out.extend_from_slice(b" +0000")
}

#[tactic(auto, unfolding(crate::specs::Lines::request_text))]
fn put_request(request: &[u8], out: &mut Vec<u8>) -> Result<(), AllocError>
    ensures { OnOk result (out.new.items ≡ out.old.items ++ request_text request.now) }
{
    if request.is_empty() {
        out.extend_from_slice(b"-")
    } else {
        put_escaped(request, out)
    }
}

fn put_escaped(bytes: &[u8], out: &mut Vec<u8>) -> Result<(), AllocError>
    ensures { OnOk result (out.new.items ≡ out.old.items ++ flat_map escaped bytes.now) }
{
    for byte in bytes {
        put_byte(*byte, out)?;
    }
    Ok(())
}

fn put_byte(byte: u8, out: &mut Vec<u8>) -> Result<(), AllocError>
    ensures { OnOk result (out.new.items ≡ out.old.items ++ escaped byte) }
{
    if byte == b'"' || byte == b'\\' {
        out.extend_from_slice(&[b'\\', byte])
    } else if is_plain(byte) {
        out.extend_from_slice(&[byte])
    } else {
        out.extend_from_slice(&[b'\\', b'x', hex_digit(byte / 16), hex_digit(byte % 16)])
    }
}

fn is_plain(byte: u8) -> bool
    ensures { result ≡ is_plain byte }
{
    32 <= byte && byte <= 126
}

fn hex_digit(n: u8) -> u8
    requires { n < 16 }
    ensures { result ≡ hex_digit n }
{
    b"0123456789abcdef"[usize::from(n)]
}

fn put_number(n: u64, out: &mut Vec<u8>) -> Result<(), AllocError>
    ensures { OnOk result (out.new.items ≡ out.old.items ++ decimal n) }
{
    let mut buffer = Buffer::new();
    out.extend_from_slice(buffer.format(n).as_bytes())
}

fn word_of(source: Source) -> &'static [u8]
    ensures { result.now ≡ word_of source }
{
    match source {
        Source::Hit => b"hit",
        Source::Part => b"part",
        Source::Checked => b"checked",
        Source::Fetched => b"fetched",
        Source::Passed => b"passed",
        Source::Refused => b"refused",
    }
}

fn cut_text(is_cut: bool) -> &'static [u8]
    ensures { result.now ≡ cut_text is_cut }
{
    if is_cut { b":cut " } else { b" " }
}
