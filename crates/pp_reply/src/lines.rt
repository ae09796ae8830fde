// A text behind another.
ghost use Rattle.std.specs.Prelude.{◌≡◌, ◌+◌, ◌≤◌, ◌++◌, decimal, length};
ghost use Rattle.pp_text.specs.Bytes.{lower};
ghost use Rattle.pp_reply.specs.Texts.{line, field_line, length_line, connection_line, via_line};

use arrayvec::ArrayVec;
use pp_text::put_u64;

/// Room for the head of a reply, in bytes.
pub const TEXT_LEN: usize = 20_480;

pub fn put(bytes: &[u8], out: &mut ArrayVec<u8, TEXT_LEN>)
    requires { length out.old.items + length bytes.now ≤ TEXT_LEN }
    ensures { out.new.items ≡ out.old.items ++ bytes.now }
{
    let _ = out.try_extend_from_slice(bytes);
}

pub fn put_lower(bytes: &[u8], out: &mut ArrayVec<u8, TEXT_LEN>)
    requires { length out.old.items + length bytes.now ≤ TEXT_LEN }
    ensures { out.new.items ≡ out.old.items ++ lower bytes.now }
{
    for byte in bytes {
        let _ = out.try_push(byte.to_ascii_lowercase());
    }
}

pub fn put_number(n: u64, out: &mut ArrayVec<u8, TEXT_LEN>)
    requires { length out.old.items + 20 ≤ TEXT_LEN }
    ensures value { out.new.items ≡ out.old.items ++ decimal n }
    ensures len { length out.new.items ≤ length out.old.items + 20 }
{
    put_u64(n, out);
}

pub fn put_line(name: &[u8], value: &[u8], out: &mut ArrayVec<u8, TEXT_LEN>)
    requires { length out.old.items + length name.now + length value.now + 4 ≤ TEXT_LEN }
    ensures { out.new.items ≡ out.old.items ++ line name.now value.now }
{
    put(name, out);
    put(b": ", out);
    put(value, out);
    put(b"\r\n", out);
}

/// Writes the line of a received field.
pub fn put_field(name: &[u8], value: &[u8], out: &mut ArrayVec<u8, TEXT_LEN>)
    requires { length out.old.items + length name.now + length value.now + 4 ≤ TEXT_LEN }
    ensures { out.new.items ≡ out.old.items ++ field_line (name.now, value.now) }
{
    put_lower(name, out);
    put(b": ", out);
    put(value, out);
    put(b"\r\n", out);
}

pub fn put_length(n: u64, out: &mut ArrayVec<u8, TEXT_LEN>)
    requires { length out.old.items + 40 ≤ TEXT_LEN }
    ensures line { out.new.items ≡ out.old.items ++ length_line n }
    ensures len { length out.new.items ≤ length out.old.items + 40 }
{
    put(b"content-length", out);
    put(b": ", out);
    put_number(n, out);
    put(b"\r\n", out);
}

pub fn put_connection(keep: bool, out: &mut ArrayVec<u8, TEXT_LEN>)
    requires { length out.old.items + 24 ≤ TEXT_LEN }
    ensures line { out.new.items ≡ out.old.items ++ connection_line keep }
    ensures len { length out.new.items ≤ length out.old.items + 24 }
{
    if keep {
        put_line(b"connection", b"keep-alive", out);
    } else {
        put_line(b"connection", b"close", out);
    }
}

pub fn put_via(name: &[u8], out: &mut ArrayVec<u8, TEXT_LEN>)
    requires { length out.old.items + length name.now + 11 ≤ TEXT_LEN }
    ensures { out.new.items ≡ out.old.items ++ via_line name.now }
{
    put(b"via: 1.1 ", out);
    put(name, out);
    put(b"\r\n", out);
}
