// What the operator's log is told of decisions and of what exchanges brought (ours).
ghost use Rattle.std.specs.Prelude.{◌≡◌};
ghost use Rattle.pp_seats.specs.Accounts.{decided};
ghost use Rattle.pp_state.specs.Accounts.{accounts_at, brought_by, with_source};
ghost use Rattle.pp_state.specs.Bodies.{on_asker};
ghost use Rattle.pp_state.specs.Ends.{AreSeated, numbers_of};

use crate::state::State;
use pp_flow::{Aim, Exchange};
use pp_world::{Decision, Source};

impl State {
    /// This is decided for the request of the client at this place.
    #[tactic(auto, using(crate::proofs::PlacesLemmas::same_numbers))]
    pub fn account_for(&mut self, i: usize, decision: Decision)
        ensures is { self.new.seats.items ≡ accounts_at i (decided decision) self.old.seats.items }
        ensures numbers { numbers_of self.new.seats.items ≡ numbers_of self.old.seats.items }
        ensures rest { record self.new { seats = self.old.seats } ≡ self.old }
    {
        if let Some(seat) = self.seats.get_mut(i) {
            seat.account.decide(decision);
        }
    }

    /// The exchange of a request itself brought this. One of a follower brings the rest of what is there.
    pub fn account_brought(&mut self, e: &Exchange, source: Source)
        ensures seats { AreSeated self.old → self.new.seats.items ≡ brought_by e.now.aim e.now source self.old.seats.items }
        ensures numbers { numbers_of self.new.seats.items ≡ numbers_of self.old.seats.items }
        ensures rest { record self.new { seats = self.old.seats } ≡ self.old }
    {
        match e.aim {
            Aim::Own => self.account_with(e, source),
            Aim::Hole(_, _, _) | Aim::Pass => {}
        }
    }

    #[tactic(auto, using(crate::proofs::PlacesLemmas::changed_here, crate::proofs::PlacesLemmas::same_numbers))]
    fn account_with(&mut self, e: &Exchange, source: Source)
        ensures seats { AreSeated self.old → self.new.seats.items ≡ on_asker e.now (with_source source) self.old.seats.items }
        ensures numbers { numbers_of self.new.seats.items ≡ numbers_of self.old.seats.items }
        ensures rest { record self.new { seats = self.old.seats } ≡ self.old }
    {
        if let Some(i) = self.seat_for(e) {
            self.seats[i].account.bring(source);
        }
    }
}
