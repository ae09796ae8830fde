// The body of a reply, as it is lent: a span of an instance, or what a pipe holds.
ghost use Rattle.std.specs.Prelude.{◌≡◌, ◌↔◌, ◌≤◌, [], length, take, true, false, IfSome};
ghost use Rattle.pp_holes.specs.Places.{shown as chunks_in};
ghost use Rattle.pp_objects.specs.Agreement.{AllAgree};
ghost use Rattle.pp_objects.specs.Instances.{is_there};
ghost use Rattle.pp_client.specs.Replies.{IsBeginning, body_at_hand, body_left, is_body_said, next_in};

use crate::reply::Begin;
use pp_objects::Objects;
use pp_pass::Pass;
use pp_pool::Pool;

/// The first piece of what is at hand of a body.
pub(crate) fn first_piece<'a>(
    reply: Begin,
    pass: &'a Pass,
    objects: &'a Objects,
    pool: &'a Pool,
) -> &'a [u8]
    requires ordered { IsBeginning reply }
    requires agrees { AllAgree objects.now.instances pool.now.used }
    requires there { IfSome (next_in reply) (λ at. is_there at.0 objects.now.instances ≡ true) }
    ensures within { length result.now ≤ body_left reply pass.now }
    ensures front { result.now ≡ take (length result.now) (body_at_hand reply pass.now (chunks_in pool.now.used)) }
    ensures empty { (result.now ≡ []) ↔ (body_at_hand reply pass.now (chunks_in pool.now.used) ≡ []) }
{
    match reply {
        Begin::Page => &[],
        Begin::Instance(id, next, to) => {
            if next < to {
                front(objects.piece(pool, id, next), to - next)
            } else {
                &[]
            }
        }
        Begin::Passed => pass.offer(),
    }
}

/// The first so many bytes, or all.
pub(crate) fn front(bytes: &[u8], most: u64) -> &[u8]
    ensures { result.now ≡ take most bytes.now }
{
    if most < bytes.len() as u64 {
        &bytes[..most as usize]
    } else {
        bytes
    }
}

/// Whether all of a body was said.
pub(crate) fn is_body_said(reply: Begin, pass: &Pass) -> bool
    ensures { result ≡ is_body_said reply pass.now }
{
    match reply {
        Begin::Page => true,
        Begin::Instance(_, next, to) => to <= next,
        Begin::Passed => pass.finished() && pass.offer().is_empty(),
    }
}
