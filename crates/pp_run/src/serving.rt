// From settings to the end of serving.
ghost use Rattle.std.specs.Prelude.{◌≡◌, ◌≤◌, [], string_bytes};
ghost use Rattle.pp_conf.specs.Logs.{log_place, shown_place};
ghost use Rattle.pp_links.specs.Quiet.{GrowsBy};
ghost use Rattle.pp_desk.specs.Anything.{anything};
ghost use Rattle.pp_recover.specs.Opening.{IsFresh};
ghost use Rattle.pp_run.specs.Breaks.{BreaksOff, ShutsAs};
ghost use Rattle.pp_run.specs.Exits.{ListensAs, OpensOn, served_as};
ghost use Rattle.pp_run.specs.Lives.{HasLived, ListensAndTurns, Serving, outside};
ghost use Rattle.pp_proxy.specs.Awaiting.{standing};
ghost use Rattle.pp_proxy.specs.Opening.{IsOpened};
ghost use Rattle.pp_run.specs.Serving.{GoesUpTo, TurnsUpTo};
ghost use Rattle.pp_store.specs.Held.{Holds};
ghost use Rattle.pp_world.specs.Files.{Files};
ghost use Rattle.pp_world.specs.Log.{Told};

use crate::Exit;
use crate::lines::{NO_DISK_LINE, NO_MEMORY_LINE, no_listener_line};
use pp_conf::Conf;
use pp_proxy::{Proxy, Turn};
use pp_recover::RecoverFault;
use pp_shelf::Shelf;
use pp_world::{Door, World};
use std::alloc::Global;

/// Takes the proxy's memory, opens its folder, listens, and serves where it may.
pub(crate) fn open<W: World>(alloc: Global, conf: &Conf, world: &mut W) -> Exit
    requires { Told (W.log world.old) (λ l. (files : Files) × IsFresh files l) }
    ensures told { OpensOn [] conf.now.root conf.now.port conf.now.max_turns result (W.log world.old) (W.log world.new) (W.faults world.old) (W.faults world.new) }
    ensures lived { Serving result (HasLived conf.now result (outside (W.log world.old) (W.top world.old) (W.faults world.old)) (outside (W.log world.new) (W.top world.new) (W.faults world.new))) }
    ensures breaks { BreaksOff conf.now.root conf.now.port result (outside (W.log world.old) (W.top world.old) (W.faults world.old)) (outside (W.log world.new) (W.top world.new) (W.faults world.new)) }
{
    match Proxy::open(alloc, conf) {
        Ok(mut proxy) => open_folder(alloc, &mut proxy, conf, world),
        Err(_) => {
            world.print(NO_MEMORY_LINE.as_bytes());
            Exit::NoMemory
        }
    }
}

/// Opens the folder, listens, and serves where it may.
fn open_folder<W: World>(alloc: Global, proxy: &mut Proxy, conf: &Conf, world: &mut W) -> Exit
    requires opened { IsOpened conf.now proxy.old }
    requires fresh { Told (W.log world.old) (λ l. (files : Files) × IsFresh files l) }
    ensures told { OpensOn [] conf.now.root conf.now.port conf.now.max_turns result (W.log world.old) (W.log world.new) (W.faults world.old) (W.faults world.new) }
    ensures lived { Serving result (HasLived conf.now result (outside (W.log world.old) (W.top world.old) (W.faults world.old)) (outside (W.log world.new) (W.top world.new) (W.faults world.new))) }
    ensures breaks { BreaksOff conf.now.root conf.now.port result (outside (W.log world.old) (W.top world.old) (W.faults world.old)) (outside (W.log world.new) (W.top world.new) (W.faults world.new)) }
{
    match Shelf::open(alloc, world, conf.root.as_slice()) {
        Ok(mut shelf) => listen(proxy, &mut shelf, &door_of(conf), conf.max_turns, world),
        Err(RecoverFault::DiskFault) => {
            world.print(NO_DISK_LINE.as_bytes());
            Exit::NoDisk
        }
        Err(RecoverFault::OutOfMemory) => {
            world.print(NO_MEMORY_LINE.as_bytes());
            Exit::NoMemory
        }
    }
}

/// Where the settings say that clients are listened for.
fn door_of(conf: &Conf) -> Door<'_>
    ensures port { result.port ≡ conf.now.port }
    ensures address { result.address ≡ conf.now.address }
    ensures allowed { result.allowed.now ≡ conf.now.allowed.items }
    ensures log { shown_place result.access_log ≡ log_place (string_bytes conf.now.access_log) }
{
    Door {
        address: conf.address,
        port: conf.port,
        allowed: conf.allowed.as_slice(),
        access_log: conf.log_place(),
    }
}

/// Listens, and serves where it may.
fn listen<W: World>(
    proxy: &mut Proxy,
    shelf: &mut Shelf,
    door: &Door<'_>,
    most_turns: u64,
    world: &mut W,
) -> Exit
    requires links { proxy.old.links ≡ [] }
    requires holds { Told (W.log world.old) (Holds anything shelf.old) }
    ensures told { ListensAs door.now.port most_turns result (W.log world.old) (W.log world.new) (W.faults world.old) (W.faults world.new) }
    ensures turns { Serving result (ListensAndTurns door.now.port most_turns result shelf.old shelf.new proxy.old proxy.new (outside (W.log world.old) (W.top world.old) (W.faults world.old)) (outside (W.log world.new) (W.top world.new) (W.faults world.new))) }
    ensures shuts { ShutsAs door.now.port result (outside (W.log world.old) (W.top world.old) (W.faults world.old)) (outside (W.log world.new) (W.top world.new) (W.faults world.new)) }
{
    match world.listen(door) {
        Ok(()) => {
            serve(proxy, shelf, most_turns, world);
            served(proxy)
        }
        Err(_) => {
            world.print(no_listener_line(door.port).as_slice());
            Exit::NoListener
        }
    }
}

/// Whether it went astray.
fn served(proxy: &Proxy) -> Exit
    ensures { result ≡ served_as proxy.now.desk.state.is_astray }
{
    if proxy.is_astray() {
        Exit::ServedAstray
    } else {
        Exit::Served
    }
}

/// Makes turns until the world stops it, or for the most turns that there may be.
fn serve<W: World>(proxy: &mut Proxy, shelf: &mut Shelf, most_turns: u64, world: &mut W)
    requires links { proxy.old.links ≡ [] }
    requires holds { Told (W.log world.old) (Holds anything shelf.old) }
    ensures goes { GrowsBy [] (GoesUpTo most_turns) (W.log world.old) (W.log world.new) }
    ensures turns { TurnsUpTo most_turns (standing shelf.old proxy.old (W.top world.old) (W.log world.old) (W.faults world.old)) (standing shelf.new proxy.new (W.top world.new) (W.log world.new) (W.faults world.new)) }
    ensures faults { W.faults world.old ≤ W.faults world.new }
{
    for _turn in 0..most_turns {
        if let Turn::Stopped = proxy.turn(shelf, world) {
            return;
        }
    }
}
