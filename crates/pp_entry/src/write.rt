// From an entry to its head block.
ghost use Rattle.std.specs.Prelude.{◌≡◌, ◌≤◌, ◌^◌, ◌↔◌, IsTrue, OnOk, OnErr, is_ok, length};
ghost use Rattle.pp_entry.specs.Texts.{fits, head_text, padded};

use crate::lines::{HEAD_LEN, TooLong};
use crate::text::put_head;
use arrayvec::ArrayVec;
use pp_fresh::Times;
use pp_text::Fields;
use pp_valid::Version;

/// Writes the head block of an entry over `out`: of this key, with these kept fields, whose names it
/// writes in lower case. Where the text does not fit, `out` stays as it was.
pub fn write_head(
    key: &[u8],
    version: &Version,
    fields: &Fields<'_, '_>,
    times: &Times,
    out: &mut [u8; HEAD_LEN],
) -> Result<(), TooLong>
    requires { version.now.length ≤ 2 ^ 26 }
    ensures text { OnOk result (out.new ≡ padded (head_text key.now version.now.length fields.now times.now)) }
    ensures fits { IsTrue (is_ok result) ↔ IsTrue (fits fields.now (head_text key.now version.now.length fields.now times.now)) }
    ensures same { OnErr result (out.new ≡ out.old) }
{
    let mut text = ArrayVec::new();
    put_head(key, version.length, fields, fields.len(), times, &mut text)?;
    *out = padded(&text);
    Ok(())
}

/// The text, and zeros behind it.
pub(crate) fn padded(text: &[u8]) -> [u8; HEAD_LEN]
    requires { length text.now ≤ 8192 }
    ensures { result ≡ padded text.now }
{
    let mut block = [0; HEAD_LEN];
    block[..text.len()].copy_from_slice(text);
    block
}
