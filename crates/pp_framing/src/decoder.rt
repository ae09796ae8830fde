// One body under its rule, fed in pieces of any size.
ghost use Rattle.std.specs.Prelude.{◌≡◌, ◌≢◌, ℕ, ◌+◌, ◌-◌, ◌<◌, ◌≤◌, true, false, List, [], ◌++◌, length, drop, slice_range, min, IsTrue};
ghost use Rattle.pp_framing.specs.Body.{behind, Bad};
ghost use Rattle.pp_framing.specs.Places.{first_place, state_of, ending_of, is_framing, is_pause, is_unbounded, read_from};
ghost use Rattle.pp_framing.specs.Rules.{body_of, ending_in};
ghost use Rattle.pp_framing.specs.Sound.{IsSound};
ghost use Rattle.pp_framing.specs.declared.body.BodyRule.{BodyRule};
ghost use Rattle.pp_framing.specs.declared.body.BodyState.TheVariants.{Going};

use crate::body::{BodyRule, BodyState, Ending, Fed};
use crate::place::Place;
use std::marker::Model;

/// A reader of one body. Contracts see where in the body it is.
#[derive(Drop)]
pub struct Decoder {
    place: Place,
}

impl Model for Decoder {
    ghost use Rattle.pp_framing.specs.declared.place.Place.{Place};
    ghost use Rattle.pp_framing.specs.Sound.{IsSound};

    ghost Value = { Place };

    ghost view = { λ d. d.place };

    ghost invariant = { λ d. IsSound d.place };
}

impl Decoder {
    /// A decoder at the front of a body that is delimited so: it reads the bodies of the grammar.
    #[tactic(auto, using(crate::proofs::BodiesExact::bodies_exact))]
    pub fn new(rule: BodyRule) -> Decoder
        ensures place { result ≡ first_place rule }
        ensures exact { (text : List ℕ) → read_from result text ≡ body_of rule text }
        ensures bad { (text more : List ℕ) → (body_of rule text).outcome ≡ Bad → (body_of rule (text ++ more)).outcome ≡ Bad }
    {
        Decoder {
            place: Place::first(rule),
        }
    }

    /// What the bytes so far are.
    pub fn state(&self) -> BodyState
        ensures { result ≡ state_of self.now }
    {
        self.place.state()
    }

    /// Takes bytes of the body, from the front of these on: framing, and the run of data behind it.
    ///
    /// What it leaves of them is to be fed again, as long as the state is `Going`.
    pub fn feed(&mut self, bytes: &[u8]) -> Fed
        ensures order { result.body.0 ≤ result.body.1 }
        ensures within { (result.body.1 ≤ result.used) × (result.used ≤ length bytes.now) }
        ensures state { result.state ≡ state_of self.new }

        // Whatever comes behind these bytes: the body is the data that were taken and what the rest gives.
        ensures reads { (more : List ℕ) → read_from self.old (bytes.now ++ more) ≡ behind (slice_range bytes.now result.body.0 result.body.1) (read_from self.new (drop result.used bytes.now ++ more)) }

        // Whether the end of the connection ends the body stays as it was.
        ensures kind { is_unbounded self.new ≡ is_unbounded self.old }

        // Behind the end of a body, and behind what begins none, nothing is taken.
        ensures over { state_of self.old ≢ Going → result.used ≡ 0 }

        // It goes on, and stops before the end of the bytes only where a run of data or the body is over.
        ensures goes_on { state_of self.old ≡ Going → 0 < length bytes.now → 0 < result.used }
        ensures pauses { result.used < length bytes.now → IsTrue (is_pause self.new) }
    {
        let head = framing(self.place, bytes);
        let run = data_run(head.place, bytes.len() - head.used);
        self.place = run.place;
        Fed {
            used: head.used + run.used,
            body: (head.used, head.used + run.used),
            state: self.place.state(),
        }
    }

    /// What the end of the connection makes of the bytes so far.
    #[tactic(auto, using(crate::proofs::BodiesExact::endings_exact))]
    pub fn end(&self) -> Ending
        ensures place { result ≡ ending_of self.now }

        // In a body by this rule: what the end makes of a text that stands as these bytes do.
        ensures exact { (rule : BodyRule) → is_unbounded self.now ≡ is_unbounded (first_place rule) → result ≡ ending_in rule (read_from self.now []).outcome }
    {
        self.place.ending()
    }
}

/// So many bytes were taken, up to this place.
#[derive(Clone, Copy)]
struct Stretch {
    used: usize,
    place: Place,
}

/// The bytes of framing at the front.
#[tactic(auto, using(crate::proofs::DecoderLemmas::kinds))]
fn framing(start: Place, bytes: &[u8]) -> Stretch
    requires { IsSound start }
    ensures within { result.used ≤ length bytes.now }
    ensures sound { IsSound result.place }
    ensures reads { (more : List ℕ) → read_from start (bytes.now ++ more) ≡ read_from result.place (drop result.used bytes.now ++ more) }
    ensures goes_on { is_framing start ≡ true → 0 < length bytes.now → 0 < result.used }
    ensures same { is_framing start ≡ false → (result.place ≡ start) × (result.used ≡ 0) }
    ensures kind { is_unbounded result.place ≡ is_unbounded start }
    ensures ends { result.used < length bytes.now → is_framing result.place ≡ false }
{
    let mut place = start;
    for (used, byte) in bytes.iter().enumerate() {
        if !place.is_framing() {
            return Stretch { used, place };
        }
        place = place.next(*byte);
    }
    Stretch {
        used: bytes.len(),
        place,
    }
}

/// The run of data at a place, where so many bytes are there.
fn data_run(start: Place, there: usize) -> Stretch
    requires { IsSound start }
    ensures within { result.used ≤ there }
    ensures sound { IsSound result.place }
    ensures reads { (run more : List ℕ) → length run ≡ result.used → read_from start (run ++ more) ≡ behind run (read_from result.place more) }
    ensures goes_on { is_framing start ≡ false → state_of start ≡ Going → 0 < there → 0 < result.used }
    ensures over { state_of start ≢ Going → result.used ≡ 0 }
    ensures pauses { is_framing start ≡ false → result.used < there → IsTrue (is_pause result.place) }
    ensures kind { is_unbounded result.place ≡ is_unbounded start }
    ensures framing { is_framing start ≡ true → (result.used ≡ 0) × (result.place ≡ start) }
{
    match start {
        Place::Chunk { left } => {
            let run = least(left, there);
            let place = if run as u64 == left {
                Place::ChunkEnd
            } else {
                Place::Chunk {
                    left: left - run as u64,
                }
            };
            Stretch { used: run, place }
        }
        Place::Counted { left } => {
            let run = least(left, there);
            let place = if run as u64 == left {
                Place::Over
            } else {
                Place::Counted {
                    left: left - run as u64,
                }
            };
            Stretch { used: run, place }
        }
        Place::Unbounded => Stretch {
            used: there,
            place: start,
        },
        _ => Stretch {
            used: 0,
            place: start,
        },
    }
}

fn least(left: u64, there: usize) -> usize
    ensures { result ≡ min left there }
{
    if left < there as u64 {
        left as usize
    } else {
        there
    }
}
