// The steps of a turn.
ghost use Rattle.std.specs.Prelude.{◌≡◌, ◌≤◌, true, [], ◌∷◌, ◌++◌, is_some};
ghost use Rattle.pp_links.specs.Links.{IsLinked};
ghost use Rattle.pp_links.specs.Quiet.{GrowsQuietly};
ghost use Rattle.pp_shelf.specs.Steady.{GrowsSteadily};
ghost use Rattle.pp_desk.specs.Anything.{anything};
ghost use Rattle.pp_desk.specs.Closings.{KeepsDesk};
ghost use Rattle.pp_proxy.specs.Deciding.{DecidesAll, TurnsAway};
ghost use Rattle.pp_proxy.specs.Events.{TakesEvent};
ghost use Rattle.pp_proxy.specs.Moving.{moving, turning, LeadsOn};
ghost use Rattle.pp_proxy.specs.Rounds.{GoRounds, GoesRound, Serves};
ghost use Rattle.pp_proxy.specs.Settling.{GoesOn, Settles};
ghost use Rattle.pp_proxy.specs.Taking.{IsTaken, TakesDue, due_log, who_at};
ghost use Rattle.pp_state.specs.Ends.{numbers_of, parts, AreSeated, KeepsRest};
ghost use Rattle.pp_steps.specs.Evicting.{row_in_way, row_notes};
ghost use Rattle.pp_store.specs.Held.{Holds};
ghost use Rattle.pp_world.specs.Log.{AppendsAll, Told};
ghost use Rattle.pp_world.specs.declared.happening.Happening.TheVariants.{Noted};
ghost use Rattle.pp_world.specs.declared.note.Remark.TheVariants.{Taken};

use crate::event::handle;
use pp_desk::Desk;
use pp_due::first_due;
use pp_keeping::keep;
use pp_links::Links;
use pp_places::{drop_unseen, place};
use pp_seats::Due;
use pp_shelf::Shelf;
use pp_state::State;
use pp_steps::{begin_replies, give_way, leave_memory};
use pp_take::{afforded, fill, give_up_asks, take};
use pp_world::{Cause, Decision, Event, Note, Wire, World};

/// How often the steps behind the decisions are made in one turn at most: each round but the last decides.
const ROUNDS: u32 = 65_536;

/// Handles an event to its end.
#[tactic(auto, using(pp_desk::proofs::DiskLemmas::holds_quietly, pp_shelf::proofs::SteadyLemmas::steady_then, pp_shelf::proofs::SteadyLemmas::quiet_is_steady))]
pub(crate) fn take_event<W: World>(
    desk: &mut Desk,
    links: &mut Links,
    shelf: &mut Shelf,
    world: &mut W,
    event: Event,
)
    requires linked { IsLinked (W.log world.old) (W.top world.old) links.old }
    requires holds { Told (W.log world.old) (Holds anything shelf.old) }
    ensures linked { IsLinked (W.log world.new) (W.top world.new) links.new }
    ensures holds { Told (W.log world.new) (Holds anything shelf.new) }
    ensures steady { GrowsSteadily (W.log world.old) (W.log world.new) }
    ensures is { TakesEvent event (turning shelf.old desk.old links.old (W.top world.old) (W.log world.old) (W.faults world.old)) (turning shelf.new desk.new links.new (W.top world.new) (W.log world.new) (W.faults world.new)) }
    ensures faults { W.faults world.old ≤ W.faults world.new }
{
    handle(desk, links, shelf, world, event);
    desk.state.cache.bounds();
    desk.state.regain();
    leave_memory(&mut desk.state, links, world);
    give_up_asks(&mut desk.state);
    desk.state.cache.bounds();
    keep(desk, links, shelf, world);
    desk.state.cache.bounds();
    settle(desk, links, shelf, world);
    desk.state.cache.bounds();
}

/// Decides, and goes on with what was decided; at the end all is closed.
#[tactic(auto, using(pp_links::proofs::QuietLemmas::quiet_then, pp_links::proofs::QuietLemmas::quiet_none))]
fn settle<W: Wire>(desk: &mut Desk, links: &mut Links, shelf: &Shelf, world: &mut W)
    requires { IsLinked (W.log world.old) (W.top world.old) links.old }
    ensures linked { IsLinked (W.log world.new) (W.top world.new) links.new }
    ensures quiet { GrowsQuietly (W.log world.old) (W.log world.new) }
    ensures is { AreSeated desk.old.state → LeadsOn (Settles shelf.now) (moving desk.old links.old (W.top world.old)) (moving desk.new links.new (W.top world.new)) (W.log world.old) (W.log world.new) (W.faults world.old) (W.faults world.new) }
    ensures seated { AreSeated desk.old.state → AreSeated desk.new.state }
    ensures faults { W.faults world.old ≤ W.faults world.new }
{
    let _ = decide(desk, links, shelf, world);
    go_on(desk, links, shelf, world);
}

fn go_on<W: Wire>(desk: &mut Desk, links: &mut Links, shelf: &Shelf, world: &mut W)
    requires { IsLinked (W.log world.old) (W.top world.old) links.old }
    ensures linked { IsLinked (W.log world.new) (W.top world.new) links.new }
    ensures quiet { GrowsQuietly (W.log world.old) (W.log world.new) }
    ensures is { AreSeated desk.old.state → LeadsOn (GoesOn desk.old.state.is_stopped shelf.now) (moving desk.old links.old (W.top world.old)) (moving desk.new links.new (W.top world.new)) (W.log world.old) (W.log world.new) (W.faults world.old) (W.faults world.new) }
    ensures seated { AreSeated desk.old.state → AreSeated desk.new.state }
    ensures faults { W.faults world.old ≤ W.faults world.new }
{
    if desk.state.is_stopped {
        desk.close_over(links, world);
    } else {
        serve(desk, links, shelf, world);
    }
}

/// The steps behind the decisions, and then replies begin.
fn serve<W: Wire>(desk: &mut Desk, links: &mut Links, shelf: &Shelf, world: &mut W)
    requires { IsLinked (W.log world.old) (W.top world.old) links.old }
    ensures linked { IsLinked (W.log world.new) (W.top world.new) links.new }
    ensures quiet { GrowsQuietly (W.log world.old) (W.log world.new) }
    ensures is { AreSeated desk.old.state → LeadsOn (Serves shelf.now) (moving desk.old links.old (W.top world.old)) (moving desk.new links.new (W.top world.new)) (W.log world.old) (W.log world.new) (W.faults world.old) (W.faults world.new) }
    ensures seated { AreSeated desk.old.state → AreSeated desk.new.state }
    ensures faults { W.faults world.old ≤ W.faults world.new }
{
    go_rounds(desk, links, shelf, world);
    begin_replies(&mut desk.state);
}

/// As long as one decided anything. Where the last that may be did, this life goes astray.
#[tactic(auto, using(pp_links::proofs::QuietLemmas::quiet_then, pp_links::proofs::QuietLemmas::quiet_none))]
fn go_rounds<W: Wire>(desk: &mut Desk, links: &mut Links, shelf: &Shelf, world: &mut W)
    requires { IsLinked (W.log world.old) (W.top world.old) links.old }
    ensures linked { IsLinked (W.log world.new) (W.top world.new) links.new }
    ensures quiet { GrowsQuietly (W.log world.old) (W.log world.new) }
    ensures is { AreSeated desk.old.state → LeadsOn (GoRounds ROUNDS shelf.now true) (moving desk.old links.old (W.top world.old)) (moving desk.new links.new (W.top world.new)) (W.log world.old) (W.log world.new) (W.faults world.old) (W.faults world.new) }
    ensures seated { AreSeated desk.old.state → AreSeated desk.new.state }
    ensures faults { W.faults world.old ≤ W.faults world.new }
{
    let mut is_decided = true;
    for _round in 0..ROUNDS {
        if !is_decided {
            return;
        }
        is_decided = go_round(desk, links, shelf, world);
    }
    desk.state.note_more(is_decided);
}

/// What nobody will see is not read on, asks that bring nothing are given up, followers ask, connections that are
/// over are closed, exchanges get their places, and what that brings is decided. Whether anything was.
#[tactic(auto, using(pp_links::proofs::QuietLemmas::quiet_then, pp_links::proofs::QuietLemmas::quiet_none))]
fn go_round<W: Wire>(desk: &mut Desk, links: &mut Links, shelf: &Shelf, world: &mut W) -> bool
    requires { IsLinked (W.log world.old) (W.top world.old) links.old }
    ensures linked { IsLinked (W.log world.new) (W.top world.new) links.new }
    ensures quiet { GrowsQuietly (W.log world.old) (W.log world.new) }
    ensures is { AreSeated desk.old.state → LeadsOn (λ x log y. GoesRound shelf.now x log y result) (moving desk.old links.old (W.top world.old)) (moving desk.new links.new (W.top world.new)) (W.log world.old) (W.log world.new) (W.faults world.old) (W.faults world.new) }
    ensures seated { AreSeated desk.old.state → AreSeated desk.new.state }
    ensures faults { W.faults world.old ≤ W.faults world.new }
{
    drop_unseen(desk);
    give_up_asks(&mut desk.state);
    fill(&mut desk.state);
    desk.close_over(links, world);
    place(desk, links, world);
    decide(desk, links, shelf, world)
}

/// Takes what is due, one after the other. Whether anything was. Where as much was due as may be, this life goes astray.
#[tactic(auto, using(pp_links::proofs::QuietLemmas::quiet_then, pp_links::proofs::QuietLemmas::quiet_none))]
fn decide<W: Wire>(desk: &mut Desk, links: &mut Links, shelf: &Shelf, world: &mut W) -> bool
    requires { IsLinked (W.log world.old) (W.top world.old) links.old }
    ensures linked { IsLinked (W.log world.new) (W.top world.new) links.new }
    ensures quiet { GrowsQuietly (W.log world.old) (W.log world.new) }
    ensures is { AreSeated desk.old.state → LeadsOn (λ x log y. DecidesAll shelf.now x log y result) (moving desk.old links.old (W.top world.old)) (moving desk.new links.new (W.top world.new)) (W.log world.old) (W.log world.new) (W.faults world.old) (W.faults world.new) }
    ensures numbers { numbers_of desk.new.state.seats.items ≡ numbers_of desk.old.state.seats.items }
    ensures rest { KeepsDesk desk.old (record desk.new { turned_away = desk.old.turned_away }) }
    ensures faults { W.faults world.old ≤ W.faults world.new }
    ensures top { W.top world.new ≡ W.top world.old }
{
    let mut is_any = turn_away(desk, links, world);
    for _due in 0..ROUNDS {
        let Some((i, due)) = first_due(&mut desk.state, shelf) else {
            return is_any;
        };
        is_any = true;
        take_due(desk, links, world, i, due);
        desk.state.cache.bounds();
    }
    desk.state.is_astray = true;
    is_any
}

/// What is due to the client at this place is taken.
#[tactic(auto, using(pp_links::proofs::QuietLemmas::quiet_none, pp_desk::proofs::ShuttingLemmas::none_added))]
fn take_due<W: Wire>(desk: &mut Desk, links: &Links, world: &mut W, i: usize, due: Due)
    requires { IsLinked (W.log world.old) (W.top world.old) links.now }
    ensures linked { IsLinked (W.log world.new) (W.top world.new) links.now }
    ensures quiet { GrowsQuietly (W.log world.old) (W.log world.new) }
    ensures told { AppendsAll (W.log world.old) (W.log world.new) (λ l. due_log i due desk.old.state) }
    ensures is { AreSeated desk.old.state → TakesDue i due desk.old desk.new }
    ensures numbers { numbers_of desk.new.state.seats.items ≡ numbers_of desk.old.state.seats.items }
    ensures rest { KeepsDesk desk.old desk.new }
    ensures faults { W.faults world.old ≤ W.faults world.new }
    ensures top { W.top world.new ≡ W.top world.old }
{
    let Some((client, index)) = who_at(&desk.state, i) else {
        return;
    };
    match due {
        Due::Decide(decision) => {
            let decision = afforded(&desk.state, i, decision);
            take_decision(&mut desk.state, links, world, i, client, index, decision);
        }
        Due::CutOff(cause) => {
            links.note(world, &Note::Cut(client, cause));
            desk.close_client(i);
        }
    }
}

/// A client for whom there is no memory is cut.
#[tactic(auto, using(pp_links::proofs::QuietLemmas::quiet_then, pp_links::proofs::QuietLemmas::quiet_none))]
fn turn_away<W: Wire>(desk: &mut Desk, links: &mut Links, world: &mut W) -> bool
    requires { IsLinked (W.log world.old) (W.top world.old) links.old }
    ensures linked { IsLinked (W.log world.new) (W.top world.new) links.new }
    ensures quiet { GrowsQuietly (W.log world.old) (W.log world.new) }
    ensures answer { result ≡ is_some desk.old.turned_away }
    ensures is { LeadsOn TurnsAway (moving desk.old links.old (W.top world.old)) (moving desk.new links.new (W.top world.new)) (W.log world.old) (W.log world.new) (W.faults world.old) (W.faults world.new) }
    ensures faults { W.faults world.old ≤ W.faults world.new }
    ensures top { W.top world.new ≡ W.top world.old }
{
    match desk.turned_away {
        None => false,
        Some(client) => {
            desk.turned_away = None;
            links.note(world, &Note::Cut(client, Cause::Memory));
            links.close(world, client);
            true
        }
    }
}

/// The number of the client at this place, and that of its request.
fn who_at(state: &State, i: usize) -> Option<(u64, u64)>
    ensures { result ≡ who_at i state.entry.now }
{
    let seat = state.seats.get(i)?;
    Some((seat.id(), seat.index))
}

/// The row in its way leaves, the decision is noted and done, and attempts count anew for those whose next byte is held.
#[tactic(auto, using(pp_links::proofs::QuietLemmas::quiet_then))]
fn take_decision<W: Wire>(
    state: &mut State,
    links: &Links,
    world: &mut W,
    i: usize,
    client: u64,
    index: u64,
    decision: Decision,
)
    requires { IsLinked (W.log world.old) (W.top world.old) links.now }
    ensures linked { IsLinked (W.log world.new) (W.top world.new) links.now }
    ensures quiet { GrowsQuietly (W.log world.old) (W.log world.new) }
    ensures told { AppendsAll (W.log world.old) (W.log world.new) (λ l. row_notes (row_in_way decision i state.old) ++ Noted (Taken client index decision) ∷ []) }
    ensures is { IsTaken i decision state.old (parts state.new) }
    ensures numbers { numbers_of state.new.seats.items ≡ numbers_of state.old.seats.items }
    ensures rest { KeepsRest state.old state.new }
    ensures faults { W.faults world.old ≤ W.faults world.new }
    ensures top { W.top world.new ≡ W.top world.old }
{
    give_way(state, links, world, i, decision);
    links.note(world, &Note::Taken(client, index, decision));
    take(state, i, decision);
    state.regain();
}
