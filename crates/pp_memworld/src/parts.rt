// Parts of a slice, cut at places that may lie behind its end.
ghost use Rattle.std.specs.Prelude.{◌≡◌, ◌≤◌, length, take, drop};

/// The front of so many bytes, or all.
pub(crate) fn front_of(bytes: &[u8], len: usize) -> &[u8]
    ensures front { result.now ≡ take len bytes.now }
    ensures within { length result.now ≤ len }
{
    if len < bytes.len() {
        &bytes[..len]
    } else {
        bytes
    }
}

/// What stands from this offset on.
pub(crate) fn back_of(bytes: &[u8], from: usize) -> &[u8]
    ensures { result.now ≡ drop from bytes.now }
{
    if from < bytes.len() {
        &bytes[from..]
    } else {
        &[]
    }
}
