// The operator's log: a line for each reply that is over (ours). It is beside the log of happenings.
ghost use Rattle.std.specs.Prelude.{◌≡◌, ◌≤◌};
ghost use Rattle.pp_links.specs.Links.{IsLinked};
ghost use Rattle.pp_links.specs.Quiet.{GrowsQuietly};

use pp_links::Links;
use pp_seats::{Account, Seat};
use pp_world::{Replied, Wire};

/// The reply to this client is over, whole or cut: the operator is told of it. Where none has begun, there is nothing to
/// tell.
#[tactic(auto, using(crate::proofs::AccessLemmas::quiet_same, crate::proofs::AccessLemmas::linked_same))]
pub(crate) fn log_reply<W: Wire>(links: &Links, world: &mut W, seat: &Seat, is_cut: bool)
    requires { IsLinked (W.log world.old) (W.top world.old) links.now }
    ensures linked { IsLinked (W.log world.new) (W.top world.new) links.now }
    ensures quiet { GrowsQuietly (W.log world.old) (W.log world.new) }
    ensures told { W.log world.new ≡ W.log world.old }
    ensures top { W.top world.new ≡ W.top world.old }
    ensures faults { W.faults world.old ≤ W.faults world.new }
{
    match &seat.account {
        Account::Unkept | Account::Due(_) => {}
        Account::Begun(told) => world.log_reply(&Replied {
            client: seat.id(),
            request: told.line.as_slice(),
            status: told.status,
            body_len: told.body_len,
            source: told.source,
            is_cut,
        }),
    }
}
