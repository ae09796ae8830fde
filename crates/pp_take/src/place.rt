// Step 6: what becomes of an exchange that gets no place (RFC 2616, section 8.1).
ghost use Rattle.std.specs.Prelude.{◌≡◌};
ghost use Rattle.pp_state.specs.Ends.{numbers_of, parts, AreSeated, KeepsRest};
ghost use Rattle.pp_take.specs.Unplaced.{asked_again_where, refused_dial};

use crate::filling::fill;
use pp_flow::Exchange;
use pp_state::State;

/// An attempt is lost: it is asked elsewhere; or it is over, and whoever waited for what it brings asks for itself.
pub fn refuse_dial(state: &mut State, e: &Exchange)
    ensures is { AreSeated state.old → parts state.new ≡ refused_dial state.old.is_stopped state.old.name.items state.old.awake.items e.now (parts state.old) }
    ensures numbers { numbers_of state.new.seats.items ≡ numbers_of state.old.seats.items }
    ensures rest { KeepsRest state.old state.new }
{
    state.lose_attempt(e);
    let may = state.may_ask_again(e.number);
    ask_again(state, may, e.number);
}

fn ask_again(state: &mut State, may: bool, number: u64)
    ensures is { parts state.new ≡ asked_again_where may state.old.is_stopped state.old.name.items state.old.awake.items number (parts state.old) }
    ensures numbers { numbers_of state.new.seats.items ≡ numbers_of state.old.seats.items }
    ensures rest { KeepsRest state.old state.new }
{
    if !may {
        state.end(number);
        fill(state);
    }
}
