// The next run of data of a body.
ghost use Rattle.std.specs.Prelude.{◌≡◌, ◌≤◌, length, slice_range};
ghost use Rattle.pp_framing.specs.Places.{state_of};
ghost use Rattle.pp_framing.specs.declared.body.BodyState.TheVariants.{Going};
ghost use Rattle.pp_pipe.specs.Feeding.{Continues};

use pp_framing::{BodyState, Decoder, Fed};

/// Takes bytes of a body up to the end of a run of data. Where none comes it takes framing up to
/// the body's end, or all of them.
pub(crate) fn next_run(decoder: &mut Decoder, bytes: &[u8]) -> Fed
    ensures order { result.body.0 ≤ result.body.1 }
    ensures within { (result.body.1 ≤ result.used) × (result.used ≤ length bytes.now) }
    ensures state { result.state ≡ state_of decoder.new }
    ensures body { Continues decoder.old bytes.now (slice_range bytes.now result.body.0 result.body.1) result.used decoder.new }
    ensures all { result.body.0 ≡ result.body.1 → result.state ≡ Going → result.used ≡ length bytes.now }
{
    let mut used = 0;
    while used < bytes.len() && decoder.state() == BodyState::Going {
        let fed = decoder.feed(&bytes[used..]);
        let body = (used + fed.body.0, used + fed.body.1);
        used += fed.used;
        if body.0 < body.1 {
            return Fed {
                used,
                body,
                state: fed.state,
            };
        }
    }
    Fed {
        used,
        body: (used, used),
        state: decoder.state(),
    }
}
