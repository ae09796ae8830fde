// Step 1: what a client sends and is said (RFC 2616, sections 5 and 6).
ghost use Rattle.std.specs.Prelude.{◌≡◌, ◌≤◌, ◌&&◌, is_some, nat_lt, take, IfOk, IfSome, length, slice_get};
ghost use Rattle.std.specs.Option.{option_and_then};
ghost use Rattle.pp_client.specs.Replies.{left_next};
ghost use Rattle.pp_client.specs.Requests.{room_of};
ghost use Rattle.pp_links.specs.Links.{IsLinked, has_link};
ghost use Rattle.pp_links.specs.Quiet.{GrowsQuietly};
ghost use Rattle.pp_desk.specs.Calls.{read_log};
ghost use Rattle.pp_desk.specs.Closings.{KeepsDesk, sides};
ghost use Rattle.pp_talk.specs.Talking.{Hears, IsFoundAt, IsReadAt, IsSaidTo, IsSaidWithin, IsWrittenAt, LooksAtWhere, Says, astray_behind, brings, heard_by, offered, said_as, told_at, used_chunks};
ghost use Rattle.pp_seats.specs.Said.{used_by};
ghost use Rattle.pp_seats.specs.Seats.{told_by};
ghost use Rattle.pp_state.specs.Ends.{changed_at, numbers_of, parts, AreSeated, KeepsRest};
ghost use Rattle.pp_world.specs.Log.{AppendsAll};
ghost use Rattle.pp_world.specs.Wire.{IsWithin};

use pp_cache::Cache;
use pp_client::{Client, Room};
use pp_desk::Desk;
use pp_links::Links;
use pp_seats::{Next, Seat};
use pp_state::State;
use pp_world::{Got, Wire, WireFault};

/// Reads from the client at this place; and replies that are over end.
#[tactic(auto, using(pp_links::proofs::QuietLemmas::quiet_then))]
pub fn hear<W: Wire>(desk: &mut Desk, links: &Links, world: &mut W, i: usize)
    requires { IsLinked (W.log world.old) (W.top world.old) links.now }
    ensures linked { IsLinked (W.log world.new) (W.top world.new) links.now }
    ensures quiet { GrowsQuietly (W.log world.old) (W.log world.new) }
    ensures is { AreSeated desk.old.state → Hears (length desk.old.buffer.items) i desk.old.state.awake.items links.now (sides desk.old) (sides desk.new) (W.log world.old) (W.log world.new) }
    ensures numbers { numbers_of desk.new.state.seats.items ≡ numbers_of desk.old.state.seats.items }
    ensures rest { KeepsDesk desk.old (record desk.new { buffer = desk.old.buffer }) }
    ensures long { length desk.new.buffer.items ≡ length desk.old.buffer.items }
    ensures top { W.top world.new ≡ W.top world.old }
    ensures faults { W.faults world.old ≤ W.faults world.new }
{
    take_in(desk, links, world, i);
    desk.end_replies(links, world);
}

#[tactic(auto, using(pp_links::proofs::QuietLemmas::quiet_none))]
fn take_in<W: Wire>(desk: &mut Desk, links: &Links, world: &mut W, i: usize)
    requires { IsLinked (W.log world.old) (W.top world.old) links.now }
    ensures linked { IsLinked (W.log world.new) (W.top world.new) links.now }
    ensures quiet { GrowsQuietly (W.log world.old) (W.log world.new) }
    ensures is { IsReadAt (slice_get desk.old.state.seats.items i) (length desk.old.buffer.items) i links.now (sides desk.old) (sides desk.new) (W.log world.old) (W.log world.new) }
    ensures numbers { numbers_of desk.new.state.seats.items ≡ numbers_of desk.old.state.seats.items }
    ensures rest { record desk.new { state = record desk.new.state { seats = desk.old.state.seats; is_astray = desk.old.state.is_astray }; buffer = desk.old.buffer } ≡ desk.old }
    ensures long { length desk.new.buffer.items ≡ length desk.old.buffer.items }
    ensures top { W.top world.new ≡ W.top world.old }
    ensures faults { W.faults world.old ≤ W.faults world.new }
{
    let Some(seat) = desk.state.seats.get(i) else {
        return;
    };
    let id = seat.id();
    let room = seat.client.room().min(desk.buffer.len());
    let found = read_front(links, world, id, &mut desk.buffer, room);
    take_found_at(&mut desk.state, i, &found, &desk.buffer[..room]);
}

/// Reads into the front of the buffer, of which so much is lent.
fn read_front<W: Wire>(
    links: &Links,
    world: &mut W,
    id: u64,
    buffer: &mut [u8],
    room: usize,
) -> Option<Result<Got, WireFault>>
    requires linked { IsLinked (W.log world.old) (W.top world.old) links.now }
    requires there { room ≤ length buffer.old }
    ensures linked { IsLinked (W.log world.new) (W.top world.new) links.now }
    ensures quiet { GrowsQuietly (W.log world.old) (W.log world.new) }
    ensures called { is_some result ≡ (has_link id links.now && nat_lt 0 room) }
    ensures told { AppendsAll (W.log world.old) (W.log world.new) (read_log id result (take room buffer.new)) }
    ensures within { IfSome result (λ r. IfOk r (IsWithin room)) }
    ensures top { W.top world.new ≡ W.top world.old }
    ensures faults { W.faults world.old ≤ W.faults world.new }
{
    let front = &mut buffer[..room];
    links.read(world, id, front)
}

/// Offers the client at this place what is in memory for it; and replies that are over end.
#[tactic(auto, using(pp_links::proofs::QuietLemmas::quiet_then))]
pub(crate) fn say<W: Wire>(desk: &mut Desk, links: &Links, world: &mut W, i: usize)
    requires { IsLinked (W.log world.old) (W.top world.old) links.now }
    ensures linked { IsLinked (W.log world.new) (W.top world.new) links.now }
    ensures quiet { GrowsQuietly (W.log world.old) (W.log world.new) }
    ensures is { AreSeated desk.old.state → Says i desk.old.state.awake.items links.now (sides desk.old) (sides desk.new) (W.log world.old) (W.log world.new) }
    ensures numbers { numbers_of desk.new.state.seats.items ≡ numbers_of desk.old.state.seats.items }
    ensures rest { KeepsDesk desk.old (record desk.new { room = desk.old.room }) }
    ensures top { W.top world.new ≡ W.top world.old }
    ensures faults { W.faults world.old ≤ W.faults world.new }
{
    write_to(desk, links, world, i);
    desk.end_replies(links, world);
}

#[tactic(auto, using(pp_links::proofs::QuietLemmas::quiet_none))]
fn write_to<W: Wire>(desk: &mut Desk, links: &Links, world: &mut W, i: usize)
    requires { IsLinked (W.log world.old) (W.top world.old) links.now }
    ensures linked { IsLinked (W.log world.new) (W.top world.new) links.now }
    ensures quiet { GrowsQuietly (W.log world.old) (W.log world.new) }
    ensures is { AreSeated desk.old.state → IsWrittenAt (slice_get desk.old.state.seats.items i) i links.now (sides desk.old) (sides desk.new) (W.log world.old) (W.log world.new) }
    ensures numbers { numbers_of desk.new.state.seats.items ≡ numbers_of desk.old.state.seats.items }
    ensures rest { KeepsDesk desk.old (record desk.new { room = desk.old.room }) }
    ensures top { W.top world.new ≡ W.top world.old }
    ensures faults { W.faults world.old ≤ W.faults world.new }
{
    let Some(seat) = desk.state.seats.get(i) else {
        return;
    };
    let bytes = offer(&desk.state.cache, &seat.client, &mut desk.room);
    let took = links.write(world, seat.id(), bytes);
    note_said(desk, i, &took);
}

/// Where it failed, the client is closed.
fn note_said(desk: &mut Desk, i: usize, took: &Option<Result<usize, WireFault>>)
    requires { IsSaidWithin took.now (slice_get desk.old.state.seats.items i) }
    ensures is { AreSeated desk.old.state → sides desk.new ≡ said_as took.now i (sides desk.old) }
    ensures numbers { numbers_of desk.new.state.seats.items ≡ numbers_of desk.old.state.seats.items }
    ensures rest { KeepsDesk desk.old desk.new }
{
    match took {
        Some(Ok(n)) => note_told(&mut desk.state, i, *n),
        Some(Err(_)) => desk.close_client(i),
        None => {}
    }
}

/// The client at this place sent what was found, and that is read as a request.
fn take_found_at(state: &mut State, i: usize, found: &Option<Result<Got, WireFault>>, front: &[u8])
    requires room { IfSome (slice_get state.old.seats.items i) (λ seat. length front.now ≤ room_of seat.client.heard) }
    requires within { IfSome found.now (λ r. IfOk r (IsWithin (length front.now))) }
    ensures is { IsFoundAt found.now front.now i state.old.seats.items state.new.seats.items }
    ensures numbers { numbers_of state.new.seats.items ≡ numbers_of state.old.seats.items }
    ensures astray { state.new.is_astray ≡ astray_behind (brings found.now) state.old.is_astray i state.new.seats.items }
    ensures rest { record state.new { seats = state.old.seats; is_astray = state.old.is_astray } ≡ state.old }
{
    note_found(&mut state.seats, i, found, front);
    look_where(state, brings(found), i);
}

#[tactic(auto, using(pp_state::proofs::PlacesLemmas::changed_here, pp_state::proofs::PlacesLemmas::same_numbers, pp_desk::proofs::ClosingLemmas::none_changed))]
fn note_found(seats: &mut [Seat], i: usize, found: &Option<Result<Got, WireFault>>, front: &[u8])
    requires room { IfSome (slice_get seats.old i) (λ seat. length front.now ≤ room_of seat.client.heard) }
    requires within { IfSome found.now (λ r. IfOk r (IsWithin (length front.now))) }
    ensures is { seats.new ≡ changed_at i (heard_by found.now front.now) seats.old }
    ensures numbers { numbers_of seats.new ≡ numbers_of seats.old }
{
    if i < seats.len() {
        take_found(&mut seats[i], found, front);
    }
}

/// What came stands at the front of what was read into.
fn take_found(seat: &mut Seat, found: &Option<Result<Got, WireFault>>, front: &[u8])
    requires room { length front.now ≤ room_of seat.old.client.heard }
    requires within { IfSome found.now (λ r. IfOk r (IsWithin (length front.now))) }
    ensures { seat.new ≡ heard_by found.now front.now seat.old }
{
    match found {
        Some(Ok(Got::Bytes(n))) => seat.client.hear(&front[..*n]),
        Some(Ok(Got::End)) | Some(Err(_)) => seat.has_hung_up = true,
        Some(Ok(Got::NotYet)) | None => {}
    }
}

fn brings(found: &Option<Result<Got, WireFault>>) -> bool
    ensures { result ≡ brings found.now }
{
    match found {
        Some(Ok(Got::Bytes(_))) => true,
        Some(Ok(Got::End | Got::NotYet)) | Some(Err(_)) | None => false,
    }
}

/// What the client sent is read as a request, where it sent anything.
fn look_where(state: &mut State, brings: bool, i: usize)
    ensures is { LooksAtWhere brings i state.old.seats.items state.new.seats.items }
    ensures numbers { numbers_of state.new.seats.items ≡ numbers_of state.old.seats.items }
    ensures astray { state.new.is_astray ≡ astray_behind brings state.old.is_astray i state.new.seats.items }
    ensures rest { record state.new { seats = state.old.seats; is_astray = state.old.is_astray } ≡ state.old }
{
    if brings {
        state.look(i);
    }
}

/// All that is at hand.
#[tactic(auto, using(crate::proofs::TalkingLemmas::offer_is))]
fn offer<'a>(cache: &'a Cache, client: &'a Client, room: &'a mut Room) -> &'a [u8]
    ensures within { length result.now ≤ left_next client.now.reply }
    ensures is { result.now ≡ offered client.now.reply cache.now }
{
    cache.gather(client, room)
}

/// So many bytes were said, and the chunks of them are the ones used last.
fn note_told(state: &mut State, i: usize, n: usize)
    requires { IsSaidTo n (slice_get state.old.seats.items i) }
    ensures is { parts state.new ≡ told_at i n (parts state.old) }
    ensures numbers { numbers_of state.new.seats.items ≡ numbers_of state.old.seats.items }
    ensures rest { KeepsRest state.old state.new }
{
    let used = used_at(&state.seats, i, n);
    note_took(&mut state.seats, i, n);
    use_chunks(&mut state.cache, &used);
}

fn used_at(seats: &[Seat], i: usize, n: usize) -> Option<Next>
    ensures { result ≡ option_and_then (used_by n) (slice_get seats.now i) }
{
    seats.get(i)?.used_by(n)
}

#[tactic(auto, using(pp_state::proofs::PlacesLemmas::changed_here, pp_state::proofs::PlacesLemmas::same_numbers, pp_desk::proofs::ClosingLemmas::none_changed))]
fn note_took(seats: &mut [Seat], i: usize, n: usize)
    requires { IsSaidTo n (slice_get seats.old i) }
    ensures is { seats.new ≡ changed_at i (told_by n) seats.old }
    ensures numbers { numbers_of seats.new ≡ numbers_of seats.old }
{
    if i < seats.len() {
        seats[i].took(n);
    }
}

fn use_chunks(cache: &mut Cache, used: &Option<Next>)
    ensures { cache.new ≡ used_chunks used.now cache.old }
{
    if let Some(used) = used {
        cache.touch(used.source, used.at, used.to);
    }
}
