// One client: the calls.
ghost use Rattle.std.specs.Prelude.{◌≡◌, ◌↔◌, ◌≤◌, ◌<◌, ◌++◌, ℕ, List, [], length, take, true, false, IfOk, IfSome};
ghost use Rattle.std.specs.Borrow.{sem};
ghost use Rattle.pp_holes.specs.Places.{shown as chunks_in};
ghost use Rattle.pp_objects.specs.Agreement.{AllAgree};
ghost use Rattle.pp_objects.specs.Instances.{is_there};
ghost use Rattle.pp_client.specs.Clients.{IsAnswerable, new_client, said_by};
ghost use Rattle.pp_client.specs.InOrder.{IsReadInOrder};
ghost use Rattle.pp_client.specs.Saying.{IsFrontOfLeft, IsSaidFirst};
ghost use Rattle.pp_client.specs.ClientLending.{LendsPass, LendsText};
ghost use Rattle.pp_client.specs.Replies.{IsBeginning, at_hand, has_begun, left_next, may_interim, next_byte, with_begun, with_interim};
ghost use Rattle.pp_client.specs.Requests.{answered, body_dropped, body_in, body_taken, current_of, heard_in, room_of};
ghost use Rattle.pp_client.specs.Shown.{shown};

use crate::current::Current;
use crate::gather::{OFFER_LEN, Room};
use crate::heard::Heard;
use crate::interim::Interim;
use crate::reply::{Begin, Reply, Stage};
use arrayvec::ArrayVec;
use pp_objects::{ObjectId, Objects};
use pp_pass::Pass;
use pp_pool::Pool;
use pp_reply::TEXT_LEN;
use pp_text::OutOfMemory;
use std::alloc::Global;
use std::marker::Model;

/// One client. Its requests are answered one after the other, in their order.
///
/// ```text
/// nothing, or more to come -> a request is current        its head was heard whole       [hear]
/// a request is current     -> its reply has begun         what it consists of is told    [begin]
/// its reply has begun      -> nothing, or the next one    all of the reply was said; what was
///                                                         not taken of the request's body
///                                                         is dropped                     [took]
/// ```
///
/// A reply that is passed may come to its end without a byte, where its pipe is finished when it is
/// empty: then `took(0)` is the call at which the next request stands.
#[derive(Drop)]
pub struct Client {
    id: u64,
    mark: u64,
    heard: Heard,
    reply: Reply,
}

impl Model for Client {
    ghost use Rattle.pp_client.specs.Clients.{Client as Side};

    ghost Value = { Side };

    ghost view = { λ c. record { id = c.id; mark = c.mark; heard = c.heard; reply = c.reply } };
}

impl Client {
    /// A client of this number, accepted in the second `now`. Takes all memory that it ever has.
    pub fn new(alloc: Global, id: u64, now: u64) -> Result<Client, OutOfMemory>
        ensures { IfOk result (λ c. c ≡ new_client id now) }
    {
        Ok(Client {
            id,
            mark: now,
            heard: Heard::new(alloc)?,
            reply: Reply::new(alloc)?,
        })
    }

    /// The number of its connection.
    pub fn id(&self) -> u64
        ensures { result ≡ self.now.id }
    {
        self.id
    }

    /// The second from which it counts as idle.
    pub fn mark(&self) -> u64
        ensures { result ≡ self.now.mark }
    {
        self.mark
    }

    /// From this second on it counts as idle.
    pub fn set_mark(&mut self, now: u64)
        ensures { self.new ≡ record self.old { mark = now } }
    {
        self.mark = now;
    }

    /// For how many more bytes of the client there is room: 16,384 less those that were heard and not
    /// taken. The whole head of the current request counts as taken.
    pub fn room(&self) -> usize
        ensures { result ≡ room_of self.now.heard }
    {
        self.heard.room()
    }

    /// The client sent these bytes.
    pub fn hear(&mut self, bytes: &[u8])
        requires { length bytes.now ≤ room_of self.old.heard }
        ensures heard { self.new ≡ record self.old { heard = heard_in bytes.now self.old.heard } }

        // What comes in two pieces is heard as what comes at once.
        ensures pieces { (more : List ℕ) → heard_in (bytes.now ++ more) self.old.heard ≡ heard_in more self.new.heard }
    {
        self.heard.hear(bytes);
    }

    /// The current request, or why there is none. Its head was read when it was heard.
    pub fn current(&self) -> Current<'_, '_>
        ensures value { shown result ≡ current_of self.now.heard }

        // Of `heard_in`, `current_of` and `answered`: the requests are those that were sent, in their order.
        ensures order { (n : ℕ) (sent : List ℕ) → IsReadInOrder n sent }
    {
        self.heard.current()
    }

    /// The heard bytes of the current request's body that were neither taken nor dropped.
    pub fn body(&self) -> &[u8]
        ensures { result.now ≡ body_in self.now.heard }
    {
        self.heard.body()
    }

    /// Takes the first of them.
    pub fn body_took(&mut self, n: usize)
        requires { n ≤ length (body_in self.old.heard) }
        ensures taken { self.new ≡ record self.old { heard = body_taken n self.old.heard } }

        // The request stays current, the next one is the same, and what comes later is heard as before.
        ensures current { current_of self.new.heard ≡ current_of self.old.heard }
        ensures next { answered self.new.heard ≡ answered self.old.heard }
        ensures later { (more : List ℕ) → heard_in more self.new.heard ≡ body_taken n (heard_in more self.old.heard) }
    {
        self.heard.body_took(n);
    }

    /// Nobody reads the rest of the current request's body: what was heard of it is dropped, and what
    /// comes of it will be.
    pub fn drop_body(&mut self)
        ensures dropped { self.new ≡ record self.old { heard = body_dropped self.old.heard } }

        // The request stays current, the next one is the same, and what comes of the body later is dropped.
        ensures current { current_of self.new.heard ≡ current_of self.old.heard }
        ensures next { answered self.new.heard ≡ answered self.old.heard }
        ensures later { (more : List ℕ) → 0 < length self.old.heard.head → heard_in more self.new.heard ≡ body_dropped (heard_in more self.old.heard) }
    {
        self.heard.drop_body();
    }

    /// Lends the client's own pass pipe.
    pub fn pass(&mut self) -> &mut Pass
        ensures same { result.now ≡ self.old.reply.pipe }
        ensures* writes_back { sem 𝓛 (LendsPass self.entry result) }
    {
        self.reply.pass()
    }

    /// Lends the head buffer, empty, before the reply to what is current begins.
    pub fn head_room(&mut self) -> &mut ArrayVec<u8, TEXT_LEN>
        requires { IsAnswerable self.old }
        ensures empty { result.now.items ≡ [] }
        ensures* writes_back { sem 𝓛 (LendsText self.entry result) }
    {
        self.reply.head_room()
    }

    /// The reply to what is current begins: what is in the head buffer, and then this.
    pub fn begin(&mut self, reply: Begin)
        requires current { IsAnswerable self.old }
        requires ordered { IsBeginning reply }
        ensures { self.new ≡ record self.old { reply = with_begun reply self.old.reply } }
    {
        self.reply.begin(reply);
    }

    /// Whether the reply to what is current has begun.
    pub fn has_begun(&self) -> bool
        ensures { result ≡ has_begun self.now.reply.stage }
    {
        self.reply.has_begun()
    }

    /// The first piece of what is left to be said and at hand, lent without a copy: the interim answer,
    /// else the head, else what the next chunk or the pass pipe holds of the body.
    pub fn offer<'a>(&'a self, objects: &'a Objects, pool: &'a Pool) -> &'a [u8]
        requires agrees { AllAgree objects.now.instances pool.now.used }
        requires there { IfSome (next_byte self.now.reply) (λ at. is_there at.0 objects.now.instances ≡ true) }
        ensures within { length result.now ≤ left_next self.now.reply }
        ensures front { result.now ≡ take (length result.now) (at_hand self.now.reply (chunks_in pool.now.used)) }
        ensures empty { (result.now ≡ []) ↔ (at_hand self.now.reply (chunks_in pool.now.used) ≡ []) }

        // It is the front of what is left, where the chunks hold bytes of the instance.
        ensures left { IsFrontOfLeft self.now.reply (chunks_in pool.now.used) }
    {
        self.reply.offer(objects, pool)
    }

    /// All that is left to be said and at hand, up to 65,536 bytes, in one piece: the interim answer, else the
    /// head, and behind it what is there of the body, over at most 16 chunks or all that the pass pipe holds.
    /// It is copied into the room only where it lies in several pieces.
    pub fn gather<'a>(
        &'a self,
        objects: &'a Objects,
        pool: &'a Pool,
        room: &'a mut Room,
    ) -> &'a [u8]
        requires agrees { AllAgree objects.now.instances pool.now.used }
        requires there { IfSome (next_byte self.now.reply) (λ at. is_there at.0 objects.now.instances ≡ true) }
        ensures within { length result.now ≤ left_next self.now.reply }
        ensures all { result.now ≡ take OFFER_LEN (at_hand self.now.reply (chunks_in pool.now.used)) }

        // It is the front of what is left, where the chunks hold bytes of the instance.
        ensures left { IsFrontOfLeft self.now.reply (chunks_in pool.now.used) }
    {
        self.reply.gather(objects, pool, room)
    }

    /// The client took so many bytes of what stands next: of the interim answer, else of the head, and
    /// behind it of the body. Where the reply was begun and all of it was said, its request is answered.
    pub fn took(&mut self, n: usize)
        requires { n ≤ left_next self.old.reply }
        ensures said { self.new ≡ said_by n self.old }

        // What was said is the front of what was left: the interim answer, then head and body.
        ensures first { IsSaidFirst n self.old.reply }
    {
        self.reply.took(n);
        if self.reply.is_said() {
            self.reply.end();
            self.heard.answer();
        }
    }

    /// Whether the interim answer may be said still: it was not given to the current request, and the reply
    /// to it has not begun.
    pub fn may_interim(&self) -> bool
        ensures { result ≡ may_interim self.now.reply }
    {
        self.reply.may_interim()
    }

    /// The interim answer is said before the reply to the current request, and begins no reply.
    pub fn interim(&mut self)
        requires { may_interim self.old.reply ≡ true }
        ensures { self.new ≡ record self.old { reply = with_interim self.old.reply } }
    {
        self.reply.interim();
    }

    /// The instance that the begun reply reads, and the next offset of it that is to be said. `None` exactly
    /// where no reply from an instance has begun, or all of its span was said.
    pub fn next_byte(&self) -> Option<(ObjectId, u64)>
        ensures { result ≡ next_byte self.now.reply }
    {
        self.reply.next_byte()
    }
}
