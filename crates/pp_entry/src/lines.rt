// A text behind another, as far as there is room.
ghost use Rattle.std.specs.Prelude.{decimal};
ghost use Rattle.pp_text.specs.Bytes.{lower};
ghost use Rattle.pp_text.specs.Lines.{line_of};
ghost use Rattle.pp_entry.specs.Puts.{IsPut};
ghost use Rattle.pp_entry.specs.Texts.{own_line};

use arrayvec::ArrayVec;
use itoa::Buffer;
use thiserror::Error;

/// The bytes of a head block.
pub const HEAD_LEN: usize = 8192;

/// The text of an entry exceeds its head block, or has more than 95 kept fields.
#[derive(Clone, Copy, Debug, PartialEq, Eq, Error)]
#[error("an entry exceeds its head block")]
pub struct TooLong;

pub(crate) fn put(text: &[u8], out: &mut ArrayVec<u8, HEAD_LEN>) -> Result<(), TooLong>
    ensures { IsPut text.now out.old.items out.new.items result }
{
    match out.try_extend_from_slice(text) {
        Ok(()) => Ok(()),
        Err(_) => Err(TooLong),
    }
}

pub(crate) fn put_lower(text: &[u8], out: &mut ArrayVec<u8, HEAD_LEN>) -> Result<(), TooLong>
    ensures { IsPut (lower text.now) out.old.items out.new.items result }
{
    if out.remaining_capacity() < text.len() {
        return Err(TooLong);
    }
    for byte in text {
        out.push(byte.to_ascii_lowercase());
    }
    Ok(())
}

pub(crate) fn put_number(n: u64, out: &mut ArrayVec<u8, HEAD_LEN>) -> Result<(), TooLong>
    ensures { IsPut (decimal n) out.old.items out.new.items result }
{
    let mut digits = Buffer::new();
    put(digits.format(n).as_bytes(), out)
}

/// Writes the line of a kept field.
pub(crate) fn put_field(
    name: &[u8],
    value: &[u8],
    out: &mut ArrayVec<u8, HEAD_LEN>,
) -> Result<(), TooLong>
    ensures { IsPut (line_of (name.now, value.now)) out.old.items out.new.items result }
{
    put_lower(name, out)?;
    put(b": ", out)?;
    put(value, out)?;
    put(b"\r\n", out)
}

/// Writes a line of this proxy's own that has a text.
pub(crate) fn put_text_line(
    name: &[u8],
    value: &[u8],
    out: &mut ArrayVec<u8, HEAD_LEN>,
) -> Result<(), TooLong>
    ensures { IsPut (own_line name.now value.now) out.old.items out.new.items result }
{
    put(name, out)?;
    put(b": ", out)?;
    put(value, out)?;
    put(b"\r\n", out)
}

/// Writes a line of this proxy's own that has a number.
pub(crate) fn put_number_line(
    name: &[u8],
    n: u64,
    out: &mut ArrayVec<u8, HEAD_LEN>,
) -> Result<(), TooLong>
    ensures { IsPut (own_line name.now (decimal n)) out.old.items out.new.items result }
{
    put(name, out)?;
    put(b": ", out)?;
    put_number(n, out)?;
    put(b"\r\n", out)
}
