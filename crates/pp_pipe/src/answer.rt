// Where in a response the bytes stand.
ghost use Rattle.std.specs.Prelude.{◌≡◌, ◌≤◌, true, [], length, IfOk, IfSome, option_map};
ghost use Rattle.pp_head.specs.Shown.{shown_response};
ghost use Rattle.pp_pipe.specs.Answers.{IsBefore, IsBeforeFed, IsBeforeTold, IsWithinFed, WasRead};
ghost use Rattle.pp_pipe.specs.Feeding.{IsFed};
ghost use Rattle.pp_pipe.specs.Reading.{Before, Closed, behind_it, ending_at, fate_in, head_in};

use crate::fate::Fate;
use crate::heading::{Heading, Opening};
use crate::run::next_run;
use crate::step::Step;
use pp_framing::{BodyState, Decoder, Ending};
use pp_head::{ResponseHead, Scratch};
use pp_text::OutOfMemory;
use std::alloc::Global;
use std::marker::Model;

/// What is read.
///
/// ```text
/// Head       -> Body           the head of a response came
/// Body       -> Head, Closed   the response is whole
/// Head, Body -> Broken         what came is no response
/// any        -> Closed         the connection ended
/// ```
#[derive(Drop)]
pub(crate) enum Stage {
    /// A head, or nothing yet.
    Head,
    /// The body of a response, and what becomes of the connection behind it.
    Body { decoder: Decoder, fate: Fate },
    /// Nothing more: what comes is dropped.
    Closed,
    /// Nothing more, behind what is no response.
    Broken,
}

/// The response that comes.
#[derive(Drop)]
pub(crate) struct Answer {
    /// What came of its head, or the whole of it while its body is read.
    heading: Heading,
    stage: Stage,
}

impl Model for Answer {
    ghost use Rattle.pp_pipe.specs.Reading.{Reading};
    ghost use Rattle.pp_pipe.specs.Answers.{IsKept, reading_of};

    ghost Value = { Reading };

    ghost view = { λ a. reading_of a.heading a.stage };

    ghost invariant = { λ a. IsKept a.heading a.stage };
}

impl Answer {
    /// None yet, and the room for any head.
    #[tactic(auto, using(crate::proofs::Fronts::none_read))]
    pub(crate) fn new(alloc: Global) -> Result<Answer, OutOfMemory>
        ensures { IfOk result (λ a. a ≡ Before []) }
    {
        Ok(Answer {
            heading: Heading::new(alloc)?,
            stage: Stage::Head,
        })
    }

    /// None yet.
    #[tactic(auto, using(crate::proofs::Fronts::none_read))]
    pub(crate) fn restart(&mut self)
        ensures { self.new ≡ Before [] }
    {
        self.heading.clear();
        self.stage = Stage::Head;
    }

    /// What becomes of the connection behind the response whose body is read.
    pub(crate) fn fate(&self) -> Fate
        ensures { result ≡ fate_in self.now }
    {
        match &self.stage {
            Stage::Body { fate, .. } => *fate,
            Stage::Head | Stage::Closed | Stage::Broken => Fate::Closes,
        }
    }

    /// The head of the response whose body is read.
    pub(crate) fn head<'a, 's>(&'a self, scratch: &'s mut Scratch) -> Option<ResponseHead<'a, 's>>
        ensures head { option_map shown_response result ≡ head_in self.now }
        ensures within { IfSome result (λ head. WasRead (shown_response head)) }
    {
        match &self.stage {
            Stage::Body { .. } => self.heading.show(scratch),
            Stage::Head | Stage::Closed | Stage::Broken => None,
        }
    }

    /// Reads on, up to the next step. The response is one to HEAD or to another method as `awaited`
    /// says, and where that is `None` none is to come.
    pub(crate) fn feed(&mut self, bytes: &[u8], awaited: Option<bool>) -> (usize, Step)
        ensures within { result.0 ≤ length bytes.now }
        ensures fed { IsFed awaited self.old bytes.now result.0 result.1 self.new }
    {
        match &self.stage {
            Stage::Head => self.feed_head(bytes, awaited),
            Stage::Body { .. } => self.feed_body(bytes),
            Stage::Closed => (bytes.len(), Step::Idle),
            Stage::Broken => (bytes.len(), Step::Bad),
        }
    }

    fn feed_head(&mut self, bytes: &[u8], awaited: Option<bool>) -> (usize, Step)
        requires { IsBefore self.old }
        ensures within { result.0 ≤ length bytes.now }
        ensures fed { IsBeforeFed awaited self.old bytes.now result.0 result.1 self.new }
    {
        if bytes.is_empty() {
            return (0, Step::Idle);
        }
        match awaited {
            Some(head_request) => self.open(bytes, head_request),
            None => {
                self.stage = Stage::Broken;
                (bytes.len(), Step::Bad)
            }
        }
    }

    /// Reads on in the heads up to that of a response.
    fn open(&mut self, bytes: &[u8], head_request: bool) -> (usize, Step)
        requires { IsBefore self.old }
        ensures within { result.0 ≤ length bytes.now }
        ensures told { IsBeforeTold head_request self.old bytes.now result.0 result.1 self.new }
    {
        match self.heading.read(bytes, head_request) {
            Opening::More => (bytes.len(), Step::Idle),
            Opening::NoResponse => {
                self.stage = Stage::Broken;
                (bytes.len(), Step::Bad)
            }
            Opening::Response(used, rule, fate) => {
                self.stage = Stage::Body {
                    decoder: Decoder::new(rule),
                    fate,
                };
                (used, Step::Head)
            }
        }
    }

    fn feed_body(&mut self, bytes: &[u8]) -> (usize, Step)
        ensures within { result.0 ≤ length bytes.now }
        ensures fed { IsWithinFed self.old bytes.now result.0 result.1 self.new }
    {
        let Stage::Body { decoder, fate } = &mut self.stage else {
            return (0, Step::Idle);
        };
        let fate = *fate;
        let run = next_run(decoder, bytes);
        if run.body.0 < run.body.1 {
            return (run.used, Step::Body(run.body.0, run.body.1));
        }
        match run.state {
            BodyState::Going => (run.used, Step::Idle),
            BodyState::Done => {
                self.leave(fate);
                (run.used, Step::End)
            }
            BodyState::Bad => {
                self.stage = Stage::Broken;
                (bytes.len(), Step::Bad)
            }
        }
    }

    /// The response is whole.
    #[tactic(auto, using(crate::proofs::Fronts::none_read))]
    fn leave(&mut self, fate: Fate)
        ensures { self.new ≡ behind_it fate }
    {
        self.heading.clear();
        self.stage = match fate {
            Fate::Closes => Stage::Closed,
            Fate::Stays | Fate::Pipelines => Stage::Head,
        };
    }

    /// The connection ended. What that makes of the response whose head came, where it ended clean.
    pub(crate) fn end(&mut self, clean: bool) -> Ending
        ensures ending { result ≡ ending_at clean self.old }
        ensures left { self.new ≡ Closed }
    {
        let ending = if clean { self.ending() } else { Ending::Short };
        self.stage = Stage::Closed;
        ending
    }

    fn ending(&self) -> Ending
        ensures { result ≡ ending_at true self.now }
    {
        match &self.stage {
            Stage::Body { decoder, .. } => decoder.end(),
            Stage::Head | Stage::Closed | Stage::Broken => Ending::Short,
        }
    }
}
