// The chunked coding of a piece of data, written behind the bytes of a buffer.
ghost use Rattle.std.specs.Prelude.{◌≡◌, ◌+◌, ◌<◌, ◌≤◌, ◌++◌, false, length};
ghost use Rattle.std.specs.Fmt.{digits, digit_glyph};
ghost use Rattle.circular_buffer.specs.Buffer.{buffer};
ghost use Rattle.pp_pass.specs.Pipe.{chunk};

use circular_buffer::HeapCircularBuffer;

/// Adds bytes that fit.
pub fn put(held: &mut HeapCircularBuffer<u8>, bytes: &[u8])
    requires { length held.old.items + length bytes.now ≤ held.old.capacity }
    ensures { held.new ≡ buffer (held.old.items ++ bytes.now) held.old.capacity }
{
    held.fill_from_slice(bytes);
}

/// Adds data as one chunk.
pub fn put_chunk(held: &mut HeapCircularBuffer<u8>, bytes: &[u8])
    requires small { length bytes.now < 65536 }
    requires room { length held.old.items + length bytes.now + 8 ≤ held.old.capacity }
    ensures chunk { held.new ≡ buffer (held.old.items ++ chunk bytes.now) held.old.capacity }
    ensures short { length held.new.items ≤ length held.old.items + length bytes.now + 8 }
{
    put_size(held, bytes.len());
    put(held, b"\r\n");
    put(held, bytes);
    put(held, b"\r\n");
}

/// Adds a chunk's size.
fn put_size(held: &mut HeapCircularBuffer<u8>, size: usize)
    requires small { size < 65536 }
    requires room { length held.old.items + 4 ≤ held.old.capacity }
    ensures size { held.new ≡ buffer (held.old.items ++ digits 16 false size) held.old.capacity }
    ensures short { length held.new.items ≤ length held.old.items + 4 }
{
    let digits = [
        glyph(size / 4096),
        glyph(size / 256 % 16),
        glyph(size / 16 % 16),
        glyph(size % 16),
    ];
    if size < 16 {
        put(held, &digits[3..]);
    } else if size < 256 {
        put(held, &digits[2..]);
    } else if size < 4096 {
        put(held, &digits[1..]);
    } else {
        put(held, &digits);
    }
}

/// The hexadecimal digit of this value.
fn glyph(value: usize) -> u8
    requires { value < 16 }
    ensures { result ≡ digit_glyph false value }
{
    if value < 10 {
        b'0' + value as u8
    } else {
        b'a' + (value as u8 - 10)
    }
}
