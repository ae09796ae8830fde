// How much of a body is kept.
ghost use Rattle.std.specs.Prelude.{◌≡◌, ◌≤◌, ◌^◌};
ghost use Rattle.pp_entry.specs.Gates.{extent_of, has_extent, leading_open};

use crate::text::body_at;

/// The bytes of a chunk of a body.
const CHUNK_LEN: u64 = 4096;

/// The gate of a chunk that is kept.
const OPEN: u8 = 0x01;

/// How many bytes of a body of `n` bytes are kept, from the first on, by these gates: those of the
/// chunks whose gate is open, as is each gate before it.
pub fn extent(gates: &[u8], n: u64) -> u64
    ensures { result ≡ extent_of gates.now n }
{
    let kept = CHUNK_LEN.saturating_mul(leading_open(gates));
    if kept < n { kept } else { n }
}

/// How many gates are open before the first that is not.
fn leading_open(gates: &[u8]) -> u64
    ensures { result ≡ leading_open gates.now }
{
    gates.iter().take_while(|gate| **gate == OPEN).count() as u64
}

/// Whether a file of `len` bytes has these many of a body of `n` bytes, and nothing behind the body.
#[tactic(auto, unfolding(crate::specs::Texts::body_at))]
pub fn has_extent(n: u64, extent: u64, len: u64) -> bool
    requires sized { n ≤ 2 ^ 26 }
    requires within { extent ≤ n }
    ensures { result ≡ has_extent n extent len }
{
    let at = body_at(n);
    at + extent <= len && len <= at + n
}
