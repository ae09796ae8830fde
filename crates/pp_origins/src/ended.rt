// Step 1: a connection to an origin that ended or broke (RFC 2616, sections 4.4 and 8.1.4).
ghost use Rattle.std.specs.Prelude.{◌≡◌, ◌≤◌, vec_capacity};
ghost use Rattle.std.specs.List.{find};
ghost use Rattle.pp_links.specs.Links.{IsLinked};
ghost use Rattle.pp_links.specs.Quiet.{GrowsQuietly};
ghost use Rattle.pp_peers.specs.Peers.{is_number};
ghost use Rattle.pp_desk.specs.Closings.{KeepsDesk, sides};
ghost use Rattle.pp_desk.specs.Replies.{EndsReplies};
ghost use Rattle.pp_origins.specs.Responses.{ended_by, ending_by, origin_gone, whole_where};
ghost use Rattle.pp_state.specs.Ends.{numbers_of, AreSeated};

use crate::responses::end_response;
use pp_desk::Desk;
use pp_framing::Ending;
use pp_links::Links;
use pp_peers::Peers;
use pp_world::Wire;

/// The origin ended, or its connection broke. A clean end may end a body (section 4.4).
pub fn gone<W: Wire>(desk: &mut Desk, links: &Links, world: &mut W, k: u64, is_clean: bool)
    requires { IsLinked (W.log world.old) (W.top world.old) links.now }
    ensures linked { IsLinked (W.log world.new) (W.top world.new) links.now }
    ensures quiet { GrowsQuietly (W.log world.old) (W.log world.new) }
    ensures told { W.log world.new ≡ W.log world.old }
    ensures is { AreSeated desk.old.state → EndsReplies desk.old.state.awake.items (origin_gone is_clean k (sides desk.old)) (sides desk.new) }
    ensures numbers { numbers_of desk.new.state.seats.items ≡ numbers_of desk.old.state.seats.items }
    ensures rest { KeepsDesk desk.old (record desk.new { «data» = desk.old.«data» }) }
    ensures room { vec_capacity desk.old.«data» ≤ vec_capacity desk.new.«data» }
    ensures top { W.top world.new ≡ W.top world.old }
    ensures faults { W.faults world.old ≤ W.faults world.new }
{
    desk.data.clear();
    lose_origin(desk, k, is_clean);
    desk.end_replies(links, world);
}

fn lose_origin(desk: &mut Desk, k: u64, is_clean: bool)
    ensures is { AreSeated desk.old.state → sides desk.new ≡ origin_gone is_clean k (sides desk.old) }
    ensures numbers { numbers_of desk.new.state.seats.items ≡ numbers_of desk.old.state.seats.items }
    ensures rest { KeepsDesk desk.old desk.new }
{
    let ending = end_pipe(&mut desk.peers, k, is_clean);
    end_where(desk, k, ending);
    desk.close_origin(k, true);
}

fn end_where(desk: &mut Desk, k: u64, ending: Ending)
    ensures is { AreSeated desk.old.state → sides desk.new ≡ whole_where ending k (sides desk.old) }
    ensures numbers { numbers_of desk.new.state.seats.items ≡ numbers_of desk.old.state.seats.items }
    ensures rest { KeepsDesk desk.old desk.new }
{
    match ending {
        Ending::Whole => end_response(desk, k),
        Ending::Short => {}
    }
}

/// The end of its connection may end a body.
fn end_pipe(peers: &mut Peers, k: u64, is_clean: bool) -> Ending
    ensures ending { result ≡ ending_by is_clean (find (is_number k) peers.old) }
    ensures peers { peers.new ≡ ended_by is_clean k (find (is_number k) peers.old) peers.old }
{
    match peers.pipe(k) {
        None => Ending::Short,
        Some(pipe) => pipe.ended(is_clean),
    }
}
