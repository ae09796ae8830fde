// The reply to the current request: what is left of it to be said.
ghost use Rattle.std.specs.Prelude.{◌≡◌, ◌↔◌, ◌≤◌, [], length, take, true, false, IfOk, IfSome};
ghost use Rattle.std.specs.Borrow.{sem};
ghost use Rattle.pp_holes.specs.Places.{shown as chunks_in};
ghost use Rattle.pp_objects.specs.Agreement.{AllAgree};
ghost use Rattle.pp_objects.specs.Instances.{is_there};
ghost use Rattle.pp_client.specs.Replies.{IsBeginning, at_hand, body_left, body_said, ended, has_begun, is_said, left_next, may_interim, next_byte, no_reply, said, with_begun, with_interim};
ghost use Rattle.pp_client.specs.Saying.{IsSaidFirst};
ghost use Rattle.pp_client.specs.ReplyLending.{LendsPass, LendsText};

use crate::buffer::Buffer;
use crate::gather::{OFFER_LEN, Room, gather};
use crate::interim::{Interim, last_of_continue};
use crate::span::{first_piece, is_body_said};
use arrayvec::ArrayVec;
use pp_objects::{ObjectId, Objects};
use pp_pass::Pass;
use pp_pool::Pool;
use pp_reply::{CONTINUE, TEXT_LEN};
use pp_text::OutOfMemory;
use std::alloc::Global;
use std::marker::Model;

/// What a reply consists of. Each has what stands in the head buffer first.
#[derive(Clone, Copy, Debug, PartialEq, Eq)]
pub enum Begin {
    /// That is all: a page, or a head without a body.
    Page,
    /// The bytes of an instance follow, from the first offset up to the second.
    Instance(ObjectId, u64, u64),
    /// What the pass pipe brings follows, until it is finished.
    Passed,
}

/// How far the reply to the current request is.
///
/// ```text
/// Due   -> Begun   what it consists of is told                   [begin]
/// Begun -> Due     all of it was said: the next request stands   [took]
/// ```
#[derive(Clone, Copy, Debug, PartialEq, Eq)]
pub(crate) enum Stage {
    /// None has begun.
    Due,
    /// What is in the head buffer comes next, and then the body. An instance's first offset is the next
    /// to be said.
    Begun(Begin),
}

/// The reply to the current request, its interim answer before it.
#[derive(Drop)]
pub(crate) struct Reply {
    interim: Interim,
    stage: Stage,
    // A head or page.
    text: Buffer,
    pass: Pass,
}

impl Model for Reply {
    ghost use Rattle.pp_client.specs.Replies.{Reply};

    ghost Value = { Reply };

    ghost use Rattle.pp_client.specs.InsideReply.{reply_as, IsSound};

    ghost view = { reply_as };

    ghost invariant = { IsSound };
}

impl Reply {
    /// None, and the memory for any.
    pub(crate) fn new(alloc: Global) -> Result<Reply, OutOfMemory>
        ensures { IfOk result (λ r. r ≡ no_reply) }
    {
        Ok(Reply {
            interim: Interim::Unasked,
            stage: Stage::Due,
            text: Buffer::new(alloc)?,
            pass: Pass::new(alloc)?,
        })
    }

    /// Lends the pass pipe.
    pub(crate) fn pass(&mut self) -> &mut Pass
        ensures same { result.now ≡ self.old.pipe }
        ensures* writes_back { sem 𝓛 (LendsPass self.entry result) }
    {
        &mut self.pass
    }

    /// Lends the head buffer, empty.
    pub(crate) fn head_room(&mut self) -> &mut ArrayVec<u8, TEXT_LEN>
        ensures empty { result.now.items ≡ [] }
        ensures* writes_back { sem 𝓛 (LendsText self.entry result) }
    {
        self.text.lend()
    }

    /// Whether the interim answer may be said still.
    pub(crate) fn may_interim(&self) -> bool
        ensures { result ≡ may_interim self.now }
    {
        self.interim.is_unasked() && matches!(self.stage, Stage::Due)
    }

    /// The interim answer is to be said.
    pub(crate) fn interim(&mut self)
        ensures { self.new ≡ with_interim self.old }
    {
        self.interim = Interim::Left(CONTINUE.len());
    }

    /// The reply begins.
    pub(crate) fn begin(&mut self, reply: Begin)
        requires { IsBeginning reply }
        ensures { self.new ≡ with_begun reply self.old }
    {
        self.stage = Stage::Begun(reply);
    }

    /// The first piece of what is at hand.
    pub(crate) fn offer<'a>(&'a self, objects: &'a Objects, pool: &'a Pool) -> &'a [u8]
        requires agrees { AllAgree objects.now.instances pool.now.used }
        requires there { IfSome (next_byte self.now) (λ at. is_there at.0 objects.now.instances ≡ true) }
        ensures within { length result.now ≤ left_next self.now }
        ensures front { result.now ≡ take (length result.now) (at_hand self.now (chunks_in pool.now.used)) }
        ensures empty { (result.now ≡ []) ↔ (at_hand self.now (chunks_in pool.now.used) ≡ []) }
    {
        let left = self.interim.left();
        if left > 0 {
            return last_of_continue(left);
        }
        match self.stage {
            Stage::Due => &[],
            Stage::Begun(reply) => {
                if self.text.len() > 0 {
                    self.text.as_slice()
                } else {
                    first_piece(reply, &self.pass, objects, pool)
                }
            }
        }
    }

    /// What is at hand, as far as it fits into the room, in one piece: copied there only where it lies in several.
    pub(crate) fn gather<'a>(
        &'a self,
        objects: &'a Objects,
        pool: &'a Pool,
        room: &'a mut Room,
    ) -> &'a [u8]
        requires agrees { AllAgree objects.now.instances pool.now.used }
        requires there { IfSome (next_byte self.now) (λ at. is_there at.0 objects.now.instances ≡ true) }
        ensures within { length result.now ≤ left_next self.now }
        ensures all { result.now ≡ take OFFER_LEN (at_hand self.now (chunks_in pool.now.used)) }
    {
        let before = self.interim.left();
        if before > 0 {
            return last_of_continue(before);
        }
        match self.stage {
            Stage::Due => &[],
            Stage::Begun(reply) => gather(
                self.text.as_slice(),
                reply,
                &self.pass,
                objects,
                pool,
                room,
            ),
        }
    }

    /// So many bytes of what stands next were said.
    pub(crate) fn took(&mut self, n: usize)
        requires { n ≤ left_next self.old }
        ensures said { self.new ≡ said n self.old }
        ensures first { IsSaidFirst n self.old }
    {
        let left = self.interim.left();
        if left > 0 {
            self.interim = Interim::Left(left - n);
            return;
        }
        if let Stage::Begun(reply) = self.stage {
            let of_body = n.saturating_sub(self.text.len());
            self.text.took(n);
            self.took_body(reply, of_body);
        }
    }

    /// So many bytes of the body were said.
    fn took_body(&mut self, reply: Begin, n: usize)
        requires within { n ≤ body_left reply self.old.pipe }
        requires ordered { IsBeginning reply }
        ensures { self.new ≡ body_said n reply self.old }
    {
        match reply {
            Begin::Page => {}
            Begin::Instance(id, next, to) => {
                self.stage = Stage::Begun(Begin::Instance(id, next + n as u64, to));
            }
            Begin::Passed => self.pass.took(n),
        }
    }

    /// The next offset of an instance that is to be said.
    pub(crate) fn next_byte(&self) -> Option<(ObjectId, u64)>
        ensures { result ≡ next_byte self.now }
    {
        match self.stage {
            Stage::Begun(Begin::Instance(id, next, to)) if next < to => Some((id, next)),
            _ => None,
        }
    }

    /// Whether a reply has begun.
    pub(crate) fn has_begun(&self) -> bool
        ensures { result ≡ has_begun self.now.stage }
    {
        match self.stage {
            Stage::Due => false,
            Stage::Begun(_) => true,
        }
    }

    /// Whether a reply was begun, and all of it was said.
    pub(crate) fn is_said(&self) -> bool
        ensures { result ≡ is_said self.now }
    {
        match self.stage {
            Stage::Due => false,
            Stage::Begun(reply) => self.interim.left() == 0
                && (self.text.len() == 0 && is_body_said(reply, &self.pass)),
        }
    }

    /// None has begun to the next request.
    pub(crate) fn end(&mut self)
        ensures { self.new ≡ ended self.old }
    {
        self.interim = Interim::Unasked;
        self.stage = Stage::Due;
        self.text.clear();
    }
}
