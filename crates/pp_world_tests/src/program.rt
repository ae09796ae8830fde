// What a program over the system's sockets reports, reads and writes.
use crate::clients::{Clients, READ_LEN, bind, connect, count_read};
use crate::turns::wants;
use pp_net::NetWorld;
use pp_world::{AccessLog, AddressRange, Door, Event, Got, Wants, Wire, WireFault};

/// How many bytes the long page has, and how many more each client sends beside it.
const PAGE_LEN: usize = 100_000;

const MORE_LEN: usize = 5_000;

/// 127.0.0.1, from where these clients come, and another address.
pub const HERE: AddressRange = AddressRange {
    address: 0x7f00_0001,
    bits: 32,
};

pub const OTHER: AddressRange = AddressRange {
    address: 0x7f00_0002,
    bits: 32,
};

pub fn door(port: u16, allowed: &[AddressRange]) -> Door<'_> {
    Door {
        address: 0x7f00_0001,
        port,
        allowed,
        access_log: AccessLog::Nowhere,
    }
}

pub type World = NetWorld<HostRuntime>;

/// The first event that is no tick, within some seconds.
pub fn next_event(world: &mut World, wants: &Wants) -> Event {
    for _ in 0..10 {
        match world.next(wants) {
            Event::Tick(_) => {}
            event => return event,
        }
    }
    Event::Stop
}

pub fn is_next(world: &mut World, wants: &Wants, event: Event) -> bool {
    next_event(world, wants) == event
}

pub fn is_readable(world: &mut World, id: u64) -> bool {
    is_next(world, &wants(false, &[id], &[]), Event::Readable(id))
}

pub fn is_writable(world: &mut World, id: u64) -> bool {
    is_next(world, &wants(false, &[], &[id]), Event::Writable(id))
}

pub fn reads(world: &mut World, id: u64, got: Result<Got, WireFault>, bytes: &[u8]) -> bool {
    let mut buf = [0u8; READ_LEN];
    world.read(id, &mut buf) == got && buf.get(..bytes.len()) == Some(bytes)
}

pub fn writes(world: &mut World, id: u64, bytes: &[u8], taken: Result<usize, WireFault>) -> bool {
    !bytes.is_empty() && world.write(id, bytes) == taken
}

pub fn closes(world: &mut World, id: u64) -> bool {
    world.close(id);
    true
}

pub fn is_refused_a_port(rt: &HostRuntime, world: &mut World) -> bool {
    match bind(rt) {
        Some((_listener, port)) => world.listen(&door(port, &[HERE])) == Err(WireFault),
        None => false,
    }
}

pub fn is_turned_away(rt: &HostRuntime, world: &mut World, port: u16) -> bool {
    match connect(rt, port) {
        Some(mut client) => just_ticks(world) && count_read(&mut client, &mut [0; 1]) == Some(0),
        None => false,
    }
}

/// Whether the next two events are ticks, where clients may be accepted.
fn just_ticks(world: &mut World) -> bool {
    for _ in 0..2 {
        match world.next(&wants(true, &[], &[])) {
            Event::Tick(_) => {}
            _ => return false,
        }
    }
    true
}

pub fn is_refused(world: &mut World, port: u16) -> bool {
    match world.dial(b"127.0.0.1", port) {
        Ok(id) => is_next(world, &wants(false, &[], &[]), Event::Broken(id)),
        Err(WireFault) => true,
    }
}

/// Whether both are among the next four events, as those who can be read and as those who can be written.
pub fn reports_both(world: &mut World, a: u64, b: u64) -> bool {
    let both = wants(false, &[a, b], &[a, b]);
    let mut seen = [Event::Stop; 4];
    for event in seen.iter_mut() {
        *event = next_event(world, &both);
    }
    has_all(
        &seen,
        &[
            Event::Readable(a),
            Event::Readable(b),
            Event::Writable(a),
            Event::Writable(b),
        ],
    )
}

fn has_all(seen: &[Event], wanted: &[Event]) -> bool {
    for event in wanted {
        if !seen.contains(event) {
            return false;
        }
    }
    true
}

pub fn is_accepted(world: &mut World, times: usize, wants: &Wants) -> bool {
    for _ in 0..times {
        if let Event::Accepted(_) = next_event(world, wants) {
            return true;
        }
    }
    false
}

pub fn says_page(world: &mut World, clients: &mut Clients, client: usize) -> bool {
    let id = clients.number(client);
    if !clients.says(client, &[b'q'; MORE_LEN]) {
        return false;
    }
    let Some(heard) = writes_page(world, id, clients, client) else {
        return false;
    };
    world.close(id);
    let is_said = clients.says(client, &[b'q'; MORE_LEN]);
    let _ = world.next(&wants(false, &[], &[]));
    match clients.hears_to_the_end(client) {
        Some(rest) => is_said && heard.saturating_add(rest) == PAGE_LEN,
        None => false,
    }
}

/// How much of the page the client has by then, once all of it is written.
fn writes_page(world: &mut World, id: u64, clients: &mut Clients, client: usize) -> Option<usize> {
    let page = [b'p'; PAGE_LEN];
    let mut buf = [0u8; 1000];
    let mut said = 0usize;
    let mut heard = 0usize;
    for _ in 0..1000 {
        if said >= PAGE_LEN {
            return Some(heard);
        }
        if !is_writable(world, id) {
            return None;
        }
        said = said.saturating_add(world.write(id, &page[said..]).unwrap_or(0));
        heard = heard.saturating_add(clients.read(client, &mut buf)?);
    }
    None
}

pub fn ticks(world: &mut World) -> bool {
    let nothing = wants(false, &[], &[]);
    match (world.next(&nothing), world.next(&nothing)) {
        (Event::Tick(first), Event::Tick(second)) => second.checked_sub(first) == Some(1),
        _ => false,
    }
}
