// Numbers written as decimal text (RFC 2616, section 2.2: 1*DIGIT).
ghost use Rattle.std.specs.Prelude.{◌≡◌, ◌+◌, ◌≤◌, ◌↔◌, ◌++◌, IsTrue, length, decimal};
ghost use Rattle.std.specs.Bool.{OnTrue, OnFalse};
ghost use Rattle.arrayvec.specs.ArrayVec.{array_vec_len};

use arrayvec::ArrayVec;
use itoa::Buffer;

/// Writes a number in decimal behind the bytes of `out`. False exactly where it does not fit, and
/// then `out` is as it was.
pub fn put_u64(n: u64, out: &mut ArrayVec<u8, 20480>) -> bool
    ensures fits { IsTrue result ↔ (length out.old.items + length (decimal n) ≤ 20480) }
    ensures written { OnTrue result (out.new.items ≡ out.old.items ++ decimal n) }
    ensures refused { OnFalse result (out.new ≡ out.old) }
{
    let mut buffer = Buffer::new();
    out.try_extend_from_slice(buffer.format(n).as_bytes())
        .is_ok()
}
