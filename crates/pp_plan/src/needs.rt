// Which bytes have to be asked for before a reply can go on.
ghost use Rattle.std.specs.Prelude.{◌≡◌, ◌<◌, ◌≤◌, IfSome};
ghost use Rattle.pp_plan.specs.Need.{IsForNext, is_near, need};

/// How far ahead of what an exchange brings next it is waited for: 256 chunks.
const NEAR: u64 = 256 * 4096;

/// The half-open span of offsets to ask for, so that a reply whose next byte is `next`, and which
/// ends before `to`, can go on.
///
/// `hole` is the first span of offsets that are not held from the front of next's chunk on, up to
/// the next chunk with a held offset; without one it is empty, at the length. None exactly where
/// `next` is held.
pub fn need(next: u64, to: u64, hole: (u64, u64)) -> Option<(u64, u64)>
    requires { next < to }
    ensures value { result ≡ need next to hole }
    ensures serves { next < hole.1 → IfSome result (IsForNext next to) }
{
    if next < hole.0 {
        return None;
    }
    Some((hole.0, hole.1.min(to)))
}

/// Whether an exchange that brings `from` next is waited for where this offset is wanted: it is at
/// most 256 chunks ahead. For what is farther a hole is asked.
pub fn is_near(from: u64, offset: u64) -> bool
    ensures { result ≡ is_near from offset }
{
    offset.saturating_sub(from) <= NEAR
}
