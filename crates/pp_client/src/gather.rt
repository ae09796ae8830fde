// What is at hand of a reply, in one piece, so that one write says it.
ghost use Rattle.std.specs.Prelude.{◌≡◌, ◌+◌, ◌-◌, ◌<◌, ◌≤◌, ◌++◌, length, take, true, IfSome};
ghost use Rattle.pp_holes.specs.Places.{shown as chunks_in};
ghost use Rattle.pp_objects.specs.Agreement.{AllAgree};
ghost use Rattle.pp_objects.specs.Instances.{is_there};
ghost use Rattle.pp_client.specs.Replies.{IsBeginning, body_at_hand, next_in, run_at_hand, span_at_hand};

use crate::reply::Begin;
use crate::span::front;
use arrayvec::ArrayVec;
use pp_objects::{ObjectId, Objects};
use pp_pass::Pass;
use pp_pool::Pool;

/// How many bytes are said at once.
pub const OFFER_LEN: usize = 65_536;

/// Memory for them.
pub type Room = ArrayVec<u8, OFFER_LEN>;

/// Bytes of a chunk.
const CHUNK_LEN: u64 = 4096;

/// Ours: the most chunks at a time.
const CHUNKS: u64 = 16;

/// A head or page, and behind it what is at hand of the body, as far as it fits into the room.
pub(crate) fn gather<'a>(
    text: &'a [u8],
    reply: Begin,
    pass: &'a Pass,
    objects: &'a Objects,
    pool: &'a Pool,
    room: &'a mut Room,
) -> &'a [u8]
    requires ordered { IsBeginning reply }
    requires agrees { AllAgree objects.now.instances pool.now.used }
    requires there { IfSome (next_in reply) (λ at. is_there at.0 objects.now.instances ≡ true) }
    ensures { result.now ≡ take OFFER_LEN (text.now ++ body_at_hand reply pass.now (chunks_in pool.now.used)) }
{
    if let Some(body) = lone_piece(reply, pass, objects, pool) {
        if body.is_empty() {
            return front(text, OFFER_LEN as u64);
        }
        if text.is_empty() {
            return front(body, OFFER_LEN as u64);
        }
    }
    room.clear();
    put(room, text);
    put_body(room, reply, pass, objects, pool);
    room.as_slice()
}

/// What is at hand of a body, where it lies in one piece.
fn lone_piece<'a>(
    reply: Begin,
    pass: &'a Pass,
    objects: &'a Objects,
    pool: &'a Pool,
) -> Option<&'a [u8]>
    requires ordered { IsBeginning reply }
    requires agrees { AllAgree objects.now.instances pool.now.used }
    requires there { IfSome (next_in reply) (λ at. is_there at.0 objects.now.instances ≡ true) }
    ensures { IfSome result (λ piece. piece.now ≡ body_at_hand reply pass.now (chunks_in pool.now.used)) }
{
    match reply {
        Begin::Page => Some(&[]),
        Begin::Instance(id, next, to) => {
            if next < to {
                lone_chunk(objects, pool, id, next, to)
            } else {
                Some(&[])
            }
        }
        Begin::Passed => {
            let (first, second) = pass.pieces();
            if second.is_empty() { Some(first) } else { None }
        }
    }
}

/// What is at hand of a span, where one chunk holds it.
fn lone_chunk<'a>(
    objects: &'a Objects,
    pool: &'a Pool,
    id: ObjectId,
    next: u64,
    to: u64,
) -> Option<&'a [u8]>
    requires some { next < to }
    requires agrees { AllAgree objects.now.instances pool.now.used }
    requires there { is_there id objects.now.instances ≡ true }
    ensures { IfSome result (λ piece. piece.now ≡ span_at_hand id next to (chunks_in pool.now.used)) }
{
    let piece = front(objects.piece(pool, id, next), to - next);
    let end = next + piece.len() as u64;
    if end == to {
        return Some(piece);
    }
    let behind = objects.piece(pool, id, end);
    if behind.is_empty() { Some(piece) } else { None }
}

/// Puts bytes behind those in the room, as far as they fit.
fn put(room: &mut Room, bytes: &[u8])
    ensures bytes { room.new.items ≡ take OFFER_LEN (room.old.items ++ bytes.now) }
    ensures within { length room.new.items ≤ OFFER_LEN }
{
    let left = room.remaining_capacity();
    put_all(room, front(bytes, left as u64));
}

/// Puts bytes behind those in the room, where they fit.
fn put_all(room: &mut Room, bytes: &[u8])
    requires { length room.old.items + length bytes.now ≤ OFFER_LEN }
    ensures { room.new.items ≡ room.old.items ++ bytes.now }
{
    let _ = room.try_extend_from_slice(bytes);
}

/// Puts what is at hand of a body there.
fn put_body(room: &mut Room, reply: Begin, pass: &Pass, objects: &Objects, pool: &Pool)
    requires within { length room.old.items ≤ OFFER_LEN }
    requires ordered { IsBeginning reply }
    requires agrees { AllAgree objects.now.instances pool.now.used }
    requires there { IfSome (next_in reply) (λ at. is_there at.0 objects.now.instances ≡ true) }
    ensures { room.new.items ≡ take OFFER_LEN (room.old.items ++ body_at_hand reply pass.now (chunks_in pool.now.used)) }
{
    match reply {
        Begin::Page => {}
        Begin::Instance(id, next, to) => {
            if next < to {
                put_run(room, objects, pool, id, next, to, CHUNKS);
            }
        }
        Begin::Passed => {
            let (first, second) = pass.pieces();
            put(room, first);
            put(room, second);
        }
    }
}

/// Puts a span of an instance there, as far as so many chunks hold it without a hole.
fn put_run(
    room: &mut Room,
    objects: &Objects,
    pool: &Pool,
    id: ObjectId,
    at: u64,
    to: u64,
    chunks: u64,
)
    requires within { length room.old.items ≤ OFFER_LEN }
    requires agrees { AllAgree objects.now.instances pool.now.used }
    requires there { is_there id objects.now.instances ≡ true }
    ensures { room.new.items ≡ take OFFER_LEN (room.old.items ++ take (to - at) (run_at_hand chunks id.slot at (chunks_in pool.now.used))) }
{
    if chunks == 0 {
        return;
    }
    let piece = front(objects.piece(pool, id, at), to.saturating_sub(at));
    put(room, piece);
    let filled = at % CHUNK_LEN + piece.len() as u64;
    if filled == CHUNK_LEN {
        put_run(
            room,
            objects,
            pool,
            id,
            at + piece.len() as u64,
            to,
            chunks - 1,
        );
    }
}
