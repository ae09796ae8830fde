// A text behind another, as far as there is room.
ghost use Rattle.std.specs.Prelude.{◌++◌, decimal};
ghost use Rattle.pp_text.specs.Bytes.{lower};
ghost use Rattle.pp_ask.specs.Puts.{IsPut};
ghost use Rattle.pp_ask.specs.Texts.{field_line, line, via_line};

use arrayvec::ArrayVec;
use itoa::Buffer;
use thiserror::Error;

/// Room for the text of an ask, in bytes.
pub const ASK_LEN: usize = 16_384;

/// The text of an ask exceeds 16,384 bytes.
#[derive(Clone, Copy, Debug, PartialEq, Eq, Error)]
#[error("the text of an ask exceeds 16,384 bytes")]
pub struct TooLong;

pub fn put(text: &[u8], out: &mut ArrayVec<u8, ASK_LEN>) -> Result<(), TooLong>
    ensures { IsPut text.now out.old.items out.new.items result }
{
    match out.try_extend_from_slice(text) {
        Ok(()) => Ok(()),
        Err(_) => Err(TooLong),
    }
}

pub fn put_lower(text: &[u8], out: &mut ArrayVec<u8, ASK_LEN>) -> Result<(), TooLong>
    ensures { IsPut (lower text.now) out.old.items out.new.items result }
{
    if out.remaining_capacity() < text.len() {
        return Err(TooLong);
    }
    for byte in text {
        out.push(byte.to_ascii_lowercase());
    }
    Ok(())
}

pub fn put_number(n: u64, out: &mut ArrayVec<u8, ASK_LEN>) -> Result<(), TooLong>
    ensures { IsPut (decimal n) out.old.items out.new.items result }
{
    let mut digits = Buffer::new();
    put(digits.format(n).as_bytes(), out)
}

pub fn put_line(name: &[u8], value: &[u8], out: &mut ArrayVec<u8, ASK_LEN>) -> Result<(), TooLong>
    ensures { IsPut (line name.now value.now) out.old.items out.new.items result }
{
    put(name, out)?;
    put(b": ", out)?;
    put(value, out)?;
    put(b"\r\n", out)
}

/// Writes the line of a field of the client.
pub fn put_field(name: &[u8], value: &[u8], out: &mut ArrayVec<u8, ASK_LEN>) -> Result<(), TooLong>
    ensures { IsPut (field_line (name.now, value.now)) out.old.items out.new.items result }
{
    put_lower(name, out)?;
    put(b": ", out)?;
    put(value, out)?;
    put(b"\r\n", out)
}

pub fn put_via(name: &[u8], out: &mut ArrayVec<u8, ASK_LEN>) -> Result<(), TooLong>
    ensures { IsPut (via_line name.now) out.old.items out.new.items result }
{
    put(b"via: 1.1 ", out)?;
    put(name, out)?;
    put(b"\r\n", out)
}
