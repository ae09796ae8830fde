// What clients, origins and a program do, act by act.
use crate::clients::{Clients, bind, connect};
use crate::outcome::Unlike;
use crate::program::{
    HERE, OTHER, World, closes, door, is_accepted, is_next, is_readable, is_refused,
    is_refused_a_port, is_turned_away, is_writable, next_event, reads, reports_both, says_page,
    ticks, writes,
};
use crate::turns::wants;
use pp_net::{NetFault, NetWorld};
use pp_world::{AddressRange, Cause, Event, Got, Note, Wire, WireFault};
use std::net::TcpListener;

/// What clients, origins and the program do. Clients and dialled connections go by their places, from 0 on.
#[derive(Clone, Copy)]
pub enum Act<'a> {
    /// The program listens.
    Listen,
    /// It may not, since the port is taken.
    ListenInVain,
    /// The program listens for another machine alone.
    ListenForOther,
    /// A client connects and is closed, and no event tells of it.
    IsTurnedAway,
    /// A client connects, and is accepted.
    Join,
    Says(usize, &'a [u8]),
    /// It sends no more.
    Shuts(usize),
    /// It reads these bytes, or the end where there are none.
    Hears(usize, &'a [u8]),
    /// The first event that is no tick, if these clients are waited for.
    Readable(usize),
    Writable(usize),
    /// The program reads.
    Reads(usize, Result<Got, WireFault>, &'a [u8]),
    Writes(usize, &'a [u8], Result<usize, WireFault>),
    Closes(usize),
    /// An origin listens, or ends.
    Origin,
    OriginEnds,
    /// It is dialled by this name, and reached.
    Reach(&'a [u8]),
    /// It is dialled, and refuses at once or later.
    Refused,
    /// Nobody has this name.
    Unknown(&'a [u8]),
    /// So often these clients, who can be read and written, are reported within four events.
    Fair(usize, usize, usize),
    /// Another connects, and is accepted among so many events of these.
    AcceptedAmong(usize, usize, usize),
    /// A client sends, is written a long page and closed, sends on, and has all of it.
    Page(usize),
    /// Two seconds begin, one behind the other.
    Seconds,
    Print(&'a [u8]),
    Note,
}

pub struct Course<'a> {
    pub name: &'a str,
    pub acts: &'a [Act<'a>],
}

/// A program, those who connect to it, and the origin that it dials.
#[derive(Drop)]
struct Scene {
    rt: HostRuntime,
    world: World,
    port: u16,
    clients: Clients,
    origin: Option<TcpListener>,
    origin_port: u16,
    last_dialled: u64,
}

impl Scene {
    fn new(rt: &HostRuntime) -> Result<Scene, NetFault> {
        Ok(Scene {
            rt: *rt,
            world: NetWorld::new(*rt)?,
            port: 0,
            clients: Clients::new(rt.alloc()),
            origin: None,
            origin_port: 0,
            last_dialled: 0,
        })
    }

    fn first_unmet(&mut self, acts: &[Act<'_>]) -> Option<usize> {
        for (place, act) in acts.iter().enumerate() {
            if !self.is_met(*act) {
                return Some(place);
            }
        }
        None
    }

    fn is_met(&mut self, act: Act<'_>) -> bool {
        match act {
            Act::Listen => self.listens_for(HERE),
            Act::ListenInVain => is_refused_a_port(&self.rt, &mut self.world),
            Act::ListenForOther => self.listens_for(OTHER),
            Act::IsTurnedAway => is_turned_away(&self.rt, &mut self.world, self.port),
            Act::Join => self.joins(),
            Act::Says(client, bytes) => self.clients.says(client, bytes),
            Act::Shuts(client) => self.clients.shuts(client),
            Act::Hears(client, bytes) => self.clients.hears(client, bytes),
            Act::Readable(client) => is_readable(&mut self.world, self.clients.number(client)),
            Act::Writable(client) => is_writable(&mut self.world, self.clients.number(client)),
            Act::Reads(client, got, bytes) => {
                reads(&mut self.world, self.clients.number(client), got, bytes)
            }
            Act::Writes(client, bytes, taken) => {
                writes(&mut self.world, self.clients.number(client), bytes, taken)
            }
            Act::Closes(client) => closes(&mut self.world, self.clients.number(client)),
            Act::Origin => self.origin_listens(),
            Act::OriginEnds => {
                self.origin = None;
                true
            }
            Act::Reach(host) => self.reaches(host),
            Act::Refused => is_refused(&mut self.world, self.origin_port),
            Act::Unknown(host) => self.world.dial(host, self.origin_port) == Err(WireFault),
            Act::Fair(times, one, other) => self.is_fair(times, one, other),
            Act::AcceptedAmong(times, one, other) => self.accepts_among(times, one, other),
            Act::Page(client) => says_page(&mut self.world, &mut self.clients, client),
            Act::Seconds => ticks(&mut self.world),
            Act::Print(bytes) => {
                self.world.print(bytes);
                true
            }
            Act::Note => {
                self.world.note(&Note::Cut(1, Cause::Idle));
                true
            }
        }
    }

    fn listens_for(&mut self, client: AddressRange) -> bool {
        match bind(&self.rt) {
            Some((listener, port)) => {
                // The port is free again.
                drop(listener);
                self.port = port;
                self.world.listen(&door(port, &[client])) == Ok(())
            }
            None => false,
        }
    }

    fn joins(&mut self) -> bool {
        let Some(client) = connect(&self.rt, self.port) else {
            return false;
        };
        match next_event(&mut self.world, &wants(true, &[], &[])) {
            Event::Accepted(id) => self.clients.join(client, id),
            _ => false,
        }
    }

    fn origin_listens(&mut self) -> bool {
        match bind(&self.rt) {
            Some((listener, port)) => {
                self.origin = Some(listener);
                self.origin_port = port;
                true
            }
            None => false,
        }
    }

    fn reaches(&mut self, host: &[u8]) -> bool {
        match self.world.dial(host, self.origin_port) {
            Ok(id) => {
                let is_above = self.last_dialled < id;
                self.last_dialled = id;
                is_above && is_next(&mut self.world, &wants(false, &[], &[]), Event::Reached(id))
            }
            Err(WireFault) => false,
        }
    }

    fn is_fair(&mut self, times: usize, one: usize, other: usize) -> bool {
        let (a, b) = (self.clients.number(one), self.clients.number(other));
        for _ in 0..times {
            if !reports_both(&mut self.world, a, b) {
                return false;
            }
        }
        true
    }

    fn accepts_among(&mut self, times: usize, one: usize, other: usize) -> bool {
        let (a, b) = (self.clients.number(one), self.clients.number(other));
        match connect(&self.rt, self.port) {
            Some(_client) => is_accepted(&mut self.world, times, &wants(true, &[a, b], &[a, b])),
            None => false,
        }
    }
}

/// The first of these courses that goes otherwise than it is written down.
pub fn unlike<'a>(rt: &HostRuntime, courses: &[Course<'a>]) -> Option<Unlike<'a>> {
    for course in courses {
        if let Some((part, place)) = part_unlike(rt, course.acts) {
            return Some(Unlike {
                course: course.name,
                part,
                place,
            });
        }
    }
    None
}

fn part_unlike(rt: &HostRuntime, acts: &[Act<'_>]) -> Option<(&'static str, usize)> {
    match Scene::new(rt) {
        Ok(mut scene) => Some(("act", scene.first_unmet(acts)?)),
        Err(_) => Some(("begin", 0)),
    }
}
