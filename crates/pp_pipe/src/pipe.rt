// A connection to an origin.
ghost use Rattle.std.specs.Prelude.{◌≡◌, ◌↔◌, ◌≤◌, ◌<◌, ℕ, true, List, [], ◌∷◌, ◌++◌, drop, length, count_by, option_map, IfOk, IfSome, IsErr, is_ok, not};
ghost use Rattle.std.specs.List.{concat, remove};
ghost use Rattle.pp_head.specs.Shown.{shown_response};
ghost use Rattle.pp_pipe.specs.Answers.{WasRead};
ghost use Rattle.pp_pipe.specs.Asks.{awaited, is_outstanding, max_asks};
ghost use Rattle.pp_pipe.specs.Feeding.{IsFed, IsUsed};
ghost use Rattle.pp_pipe.specs.Line.{answered, ended_with, is_begun_at, pushed_where, room_of, started, stepped, taken, withdrawn_where};
ghost use Rattle.pp_pipe.specs.Reading.{ending_at, head_in};
ghost use Rattle.pp_pipe.specs.Tale.{asks_behind, tale, told};
ghost use Rattle.pp_pipe.specs.Texts.{stray_of, texts_of};

use crate::answer::Answer;
use crate::asks::{Ask, MAX_ASKS, awaited, outstanding, take, total};
use crate::fate::Fate;
use crate::outgoing::{OUT_ROOM, Outgoing};
use crate::step::Step;
use arrayvec::ArrayVec;
use pp_framing::Ending;
use pp_head::{ResponseHead, Scratch};
use pp_text::OutOfMemory;
use std::alloc::Global;
use std::marker::Model;
use thiserror::Error;

/// As many asks are there as there may be.
#[derive(Clone, Copy, Debug, PartialEq, Eq, Error)]
#[error("the pipe has no room")]
pub struct Full;

/// A connection to an origin. Contracts see it as a `Line`.
#[derive(Drop)]
pub struct Pipe {
    id: u64,
    asks: ArrayVec<Ask, MAX_ASKS>,
    out: Outgoing,
    /// Bytes at the front of `out` that are of asks which were answered.
    stray: usize,
    answer: Answer,
    has_answered: bool,
    may_pipeline: bool,
}

impl Model for Pipe {
    ghost use Rattle.std.specs.Prelude.{◌≡◌, ◌+◌, ◌≤◌, length};
    ghost use Rattle.pp_pipe.specs.Asks.{out_room, total};
    ghost use Rattle.pp_pipe.specs.Line.{Line};

    ghost Value = { Line };

    ghost view = { λ p. record { id = p.id; out = p.out; stray = p.stray; asks = p.asks.items; reading = p.answer; has_answered = p.has_answered; may_pipeline = p.may_pipeline } };

    ghost invariant = { λ p. (p.stray + total p.asks.items ≡ length p.out) × (length p.out ≤ out_room) };
}

impl Pipe {
    /// The connection with this number, to which nothing was asked. Takes all memory that it ever has.
    pub fn new(alloc: Global, id: u64) -> Result<Pipe, OutOfMemory>
        ensures { IfOk result (λ p. p ≡ started id) }
    {
        Ok(Pipe {
            id,
            asks: ArrayVec::new(),
            out: Outgoing::new(alloc)?,
            stray: 0,
            answer: Answer::new(alloc)?,
            has_answered: false,
            may_pipeline: false,
        })
    }

    /// It is the connection with this number, to which nothing was asked.
    pub fn restart(&mut self, id: u64)
        ensures { self.new ≡ started id }
    {
        self.id = id;
        self.asks.clear();
        self.out.clear();
        self.stray = 0;
        self.answer.restart();
        self.has_answered = false;
        self.may_pipeline = false;
    }

    /// The number of the connection.
    pub fn id(&self) -> u64
        ensures { result ≡ self.now.id }
    {
        self.id
    }

    /// How many asks were pushed and neither withdrawn nor answered whole.
    pub fn asks(&self) -> usize
        ensures count { result ≡ length self.now.asks }
        ensures few { result ≤ max_asks }
    {
        self.asks.len()
    }

    /// How many of them may be answered: their text was taken whole.
    pub fn outstanding(&self) -> usize
        ensures count { result ≡ count_by is_outstanding self.now.asks }
        ensures few { result ≤ length self.now.asks }
    {
        outstanding(&self.asks)
    }

    /// Whether a whole final response of HTTP/1.1 without `close` came (RFC 2616, section 8.1.2.2:
    /// "Clients which assume persistent connections and pipeline immediately after connection
    /// establishment SHOULD be prepared to retry").
    pub fn may_pipeline(&self) -> bool
        ensures { result ≡ self.now.may_pipeline }
    {
        self.may_pipeline
    }

    /// Puts an ask behind the others, whose response is one to HEAD or to another method. `Full`
    /// exactly where 8 are there; then nothing changed.
    #[tactic(auto, using(crate::proofs::Splitting::push_texts))]
    pub fn push(&mut self, ask: &[u8], head_request: bool) -> Result<(), Full>
        requires { length ask.now ≤ room_of self.old }
        ensures full { IsErr result ↔ (length self.old.asks ≡ max_asks) }
        ensures line { self.new ≡ pushed_where (is_ok result) ask.now head_request self.old }
        ensures texts { IfOk result (λ _. texts_of self.new ≡ texts_of self.old ++ ask.now ∷ []) }
    {
        if self.asks.is_full() {
            return Err(Full);
        }
        self.asks.push(Ask {
            head_request,
            is_begun: false,
            text_left: ask.len(),
        });
        self.out.push(ask);
        Ok(())
    }

    /// What is to be written: the texts of the asks, as far as they were not taken.
    #[tactic(auto, using(crate::proofs::Splitting::out_texts))]
    pub fn out(&self) -> &[u8]
        ensures line { result.now ≡ self.now.out }
        ensures texts { result.now ≡ stray_of self.now ++ concat (texts_of self.now) }
    {
        self.out.as_slice()
    }

    /// The first so many bytes of that were written.
    pub fn took(&mut self, n: usize)
        requires { n ≤ length self.old.out }
        ensures { self.new ≡ taken n self.old }
    {
        self.out.take(n);
        let of_stray = n.min(self.stray);
        self.stray -= of_stray;
        take(&mut self.asks, n - of_stray);
    }

    /// How many bytes may be pushed: 131,072 less those that are to be written.
    pub fn room(&self) -> usize
        ensures { result ≡ room_of self.now }
    {
        OUT_ROOM - self.out.as_slice().len()
    }

    /// Takes an ask out, with what of it was to be written; `place` counts from the first that is not
    /// answered. False exactly where a byte of it was taken; then nothing changed.
    #[tactic(auto, using(crate::proofs::Splitting::withdraw_texts))]
    pub fn withdraw(&mut self, place: usize) -> bool
        requires { place < length self.old.asks }
        ensures answer { is_begun_at place self.old.asks ≡ Some (not result) }
        ensures line { self.new ≡ withdrawn_where result place self.old }
        ensures texts { result ≡ true → texts_of self.new ≡ remove (texts_of self.old) place }
    {
        if self.asks[place].is_begun {
            return false;
        }
        let from = self.stray + total(&self.asks[..place]);
        let to = self.stray + total(&self.asks[..place + 1]);
        self.out.cut(from, to);
        self.asks.remove(place);
        true
    }

    /// Reads what came, up to the next step, and answers how many of the bytes are used: a `Head` or
    /// a `Body` uses one at least, and `Idle` and `Bad` use all.
    ///
    /// What a step leaves of the bytes is to be fed again, up to `Idle`. Behind `Bad` all is `Bad`;
    /// behind a response that was the last on its connection, or behind its end, what comes is
    /// dropped.
    #[tactic(auto, using(crate::proofs::Using::uses, crate::proofs::Tales::tells, crate::proofs::Quiet::quiet))]
    pub fn feed(&mut self, bytes: &[u8]) -> (usize, Step)
        ensures within { result.0 ≤ length bytes.now }
        ensures uses { IsUsed result.1 (length bytes.now) result.0 }
        ensures fed { IsFed (awaited self.old.asks) self.old.reading bytes.now result.0 result.1 self.new.reading }
        ensures line { self.new ≡ stepped result.1 self.new.reading self.old }

        // However the bytes are cut: this step, and what the rest tells, is what they tell together.
        ensures tells { (more : List ℕ) → tale self.old.asks self.old.reading (bytes.now ++ more) ≡ told result.1 self.new.reading bytes.now (tale (asks_behind result.1 self.old.asks) self.new.reading (drop result.0 bytes.now ++ more)) }
        ensures quiet { result.1 ≡ Step.Idle → tale self.new.asks self.new.reading [] ≡ [] }
    {
        let fate = self.answer.fate();
        let (used, step) = self.answer.feed(bytes, awaited(&self.asks));
        match step {
            Step::End => self.note_answer(fate),
            Step::Head | Step::Body(..) | Step::Bad | Step::Idle => {}
        }
        (used, step)
    }

    /// The head of the response that comes. `None` exactly before a `Head` and after its `End`.
    pub fn head<'a, 's>(&'a self, scratch: &'s mut Scratch) -> Option<ResponseHead<'a, 's>>
        ensures head { option_map shown_response result ≡ head_in self.now.reading }
        ensures within { IfSome result (λ head. WasRead (shown_response head)) }
    {
        self.answer.head(scratch)
    }

    /// The connection ended, or broke where it is not clean. `Whole` exactly where that makes a
    /// response whole whose head came (RFC 2616, section 4.4).
    pub fn ended(&mut self, clean: bool) -> Ending
        ensures ending { result ≡ ending_at clean self.old.reading }
        ensures line { self.new ≡ ended_with result self.old }
    {
        let fate = self.answer.fate();
        let ending = self.answer.end(clean);
        match ending {
            Ending::Whole => self.note_answer(fate),
            Ending::Short => {}
        }
        ending
    }

    /// The response to the first ask is whole.
    fn note_answer(&mut self, fate: Fate)
        ensures { self.new ≡ answered fate self.old }
    {
        self.has_answered = true;
        self.may_pipeline = self.may_pipeline || fate == Fate::Pipelines;
        if let Some(ask) = self.asks.first() {
            self.stray += ask.text_left;
            self.asks.remove(0);
        }
    }
}
