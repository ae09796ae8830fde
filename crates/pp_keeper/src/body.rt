// The bodies of the entries, and their keys.
ghost use Rattle.std.specs.Prelude.{◌≡◌, ◌++◌, codes, decimal};

use arrayvec::ArrayVec;
use itoa::Buffer;

/// The bytes of a chunk of a body.
pub(crate) const CHUNK_LEN: u64 = 4096;

/// The bytes of the longest body that is kept.
pub(crate) const BODY_LEN: u64 = 67_108_864;

/// Its chunks.
pub(crate) const BODY_CHUNKS: u32 = 16_384;

/// The bytes of the body with this number repeat after so many.
const CYCLE: u64 = 251;

/// The byte of a body at an offset.
pub(crate) fn byte_at(number: u64, offset: u64) -> u8 {
    ((number % CYCLE * 31 + offset % CYCLE) % CYCLE) as u8
}

/// Fills `out` with the bytes of a body from an offset on.
pub(crate) fn put_body(number: u64, from: u64, out: &mut [u8]) {
    let mut offset = from;
    for byte in out.iter_mut() {
        *byte = byte_at(number, offset);
        offset = offset.wrapping_add(1);
    }
}

/// Whether these are the bytes of a body from an offset on.
pub(crate) fn is_body(number: u64, from: u64, bytes: &[u8]) -> bool {
    let mut offset = from;
    for byte in bytes {
        if *byte != byte_at(number, offset) {
            return false;
        }
        offset = offset.wrapping_add(1);
    }
    true
}

/// The key of the entry with this number.
pub(crate) fn key_of(number: u64) -> ArrayVec<u8, 32>
    ensures { result.items ≡ codes "http://h/" ++ decimal number }
{
    let mut key = ArrayVec::new();
    let mut buffer = Buffer::new();
    let _ = key.try_extend_from_slice(b"http://h/");
    let _ = key.try_extend_from_slice(buffer.format(number).as_bytes());
    key
}
