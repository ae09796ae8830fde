// Open connections and a world, what is done with them, and a caller over any wire.
ghost use Rattle.pp_links.specs.Links.{IsLinked};
ghost use Rattle.pp_links.specs.Quiet.{GrowsQuietly};
ghost use Rattle.pp_links.specs.Waits.{WaitsOnce};

use crate::saying::told;
use crate::wire::{Call, Counted};
use arrayvec::ArrayVec;
use pp_links::{Links, MAX_LINKS};
use pp_text::OutOfMemory;
use pp_world::{Cause, Event, Got, Note, Wants, Wire, WireFault};
use std::alloc::Global;
use std::marker::Model;

/// A call, and what it answers.
pub enum Step<'a> {
    /// Whether clients are accepted, and the event.
    Next(bool, Option<Event>),
    /// As many clients as there may be connections.
    AcceptAll,
    /// What is read, and the buffer of four bytes behind it.
    Read(u64, Option<Result<Got, WireFault>>, [u8; 4]),
    /// Into no buffer.
    ReadNothing(u64),
    Write(u64, &'a [u8], Option<Result<usize, WireFault>>),
    Dial(u16, Result<u64, WireFault>),
    Close(u64),
    Note,
    /// Whether it is open.
    Has(u64, bool),
    /// One wait of the caller, and what its event asks for.
    Turn(bool),
    /// What the caller does with an event.
    Answer(Event),
    /// The calls that were made of the world since this was last asked.
    Made(&'a [Call]),
    /// No longer.
    Forget,
}

/// Connections, and the world in which they are open.
#[derive(Drop)]
struct Office {
    links: Links,
    world: Counted,
}

impl Model for Office {
    ghost use Rattle.std.specs.Prelude.{List, None};
    ghost use Rattle.pp_links.specs.Links.{IsLinked, Link};

    ghost Value = { List Link };

    ghost view = { λ o. o.links };

    ghost invariant = { λ o. IsLinked None o.world.top o.links };
}

impl Office {
    fn new(alloc: Global) -> Result<Office, OutOfMemory> {
        Ok(Office {
            links: Links::new(alloc)?,
            world: Counted::new(),
        })
    }

    fn next(&mut self, accept: bool) -> Option<Event> {
        self.links.next(&mut self.world, &wants(accept))
    }

    fn accept_all(&mut self) -> bool {
        accept_all(&mut self.links, &mut self.world);
        true
    }

    /// Whether this is read, and stands in the buffer.
    fn reads(&mut self, id: u64, wanted: Option<Result<Got, WireFault>>, behind: [u8; 4]) -> bool {
        let mut buf = *b"....";
        let got = self.links.read(&mut self.world, id, &mut buf);
        got == wanted && buf == behind
    }

    fn reads_nothing(&mut self, id: u64) -> bool {
        self.links.read(&mut self.world, id, &mut []).is_none()
    }

    fn write(&mut self, id: u64, bytes: &[u8]) -> Option<Result<usize, WireFault>> {
        self.links.write(&mut self.world, id, bytes)
    }

    fn dial(&mut self, port: u16) -> Result<u64, WireFault> {
        self.links.dial(&mut self.world, b"h", port)
    }

    fn close(&mut self, id: u64) -> bool {
        self.links.close(&mut self.world, id);
        true
    }

    fn note(&mut self) -> bool {
        self.links.note(&mut self.world, &Note::Cut(1, Cause::Idle));
        true
    }

    fn turn(&mut self, accept: bool) -> bool {
        turn(&mut self.links, &mut self.world, &wants(accept));
        true
    }

    fn answer(&mut self, event: Event) -> bool {
        answer(&mut self.links, &mut self.world, event);
        true
    }

    /// Whether these calls were made since this was last asked.
    fn made(&mut self, calls: &[Call]) -> bool {
        let is_made = self.world.calls.as_slice() == calls;
        self.world.calls.clear();
        is_made
    }

    fn forget(&mut self) -> bool {
        self.world.calls.clear();
        true
    }

    /// Whether the call answers this.
    fn is_met(&mut self, step: &Step<'_>) -> bool {
        match step {
            Step::Next(accept, wanted) => self.next(*accept) == *wanted,
            Step::AcceptAll => self.accept_all(),
            Step::Read(id, wanted, behind) => self.reads(*id, *wanted, *behind),
            Step::ReadNothing(id) => self.reads_nothing(*id),
            Step::Write(id, bytes, wanted) => self.write(*id, bytes) == *wanted,
            Step::Dial(port, wanted) => self.dial(*port) == *wanted,
            Step::Close(id) => self.close(*id),
            Step::Note => self.note(),
            Step::Has(id, wanted) => self.links.has(*id) == *wanted,
            Step::Turn(accept) => self.turn(*accept),
            Step::Answer(event) => self.answer(*event),
            Step::Made(calls) => self.made(calls),
            Step::Forget => self.forget(),
        }
    }
}

pub struct Course<'a> {
    pub name: &'a str,
    pub steps: &'a [Step<'a>],
}

/// Where these courses go otherwise than wanted: nothing is said where none does.
pub fn unlike(alloc: Global, courses: &[Course<'_>]) -> Result<String, OutOfMemory> {
    for course in courses {
        let mut office = Office::new(alloc)?;
        for (place, step) in course.steps.iter().enumerate() {
            if !office.is_met(step) {
                return Ok(told(alloc, course.name, Some(place))?);
            }
        }
    }
    Ok(String::new(alloc))
}

/// Sends back what came on this connection, and closes it where it is over.
fn echo<W: Wire>(links: &mut Links, world: &mut W, id: u64)
    requires { IsLinked (W.log world.old) (W.top world.old) links.old }
    ensures linked { IsLinked (W.log world.new) (W.top world.new) links.new }
    ensures quiet { GrowsQuietly (W.log world.old) (W.log world.new) }
{
    let mut buf = [0; 4];
    match links.read(world, id, &mut buf) {
        Some(Ok(Got::Bytes(n))) => {
            let _ = links.write(world, id, &buf[..n]);
        }
        Some(Ok(Got::End)) | Some(Err(_)) => links.close(world, id),
        Some(Ok(Got::NotYet)) | None => {}
    }
}

/// Does what the event asks for. A client that comes has an origin dialled for it.
fn answer<W: Wire>(links: &mut Links, world: &mut W, event: Event)
    requires { IsLinked (W.log world.old) (W.top world.old) links.old }
    ensures linked { IsLinked (W.log world.new) (W.top world.new) links.new }
    ensures quiet { GrowsQuietly (W.log world.old) (W.log world.new) }
{
    match event {
        Event::Stop | Event::Tick(_) => {}
        Event::Accepted(_) => {
            let _ = links.dial(world, b"h", 80);
        }
        Event::Readable(id) | Event::Writable(id) => echo(links, world, id),
        Event::Reached(_) => {}
        Event::Broken(k) => links.close(world, k),
    }
}

/// A turn: one wait, and what its event asks for.
fn turn<W: Wire>(links: &mut Links, world: &mut W, wants: &Wants)
    requires { IsLinked (W.log world.old) (W.top world.old) links.old }
    ensures linked { IsLinked (W.log world.new) (W.top world.new) links.new }
    ensures turn { WaitsOnce wants.now (W.log world.old) (W.log world.new) }
{
    if let Some(event) = links.next(world, wants) {
        answer(links, world, event);
    }
}

fn wants(accept: bool) -> Wants {
    Wants {
        accept,
        read: ArrayVec::new(),
        write: ArrayVec::new(),
    }
}

/// Accepts as many clients as there may be connections.
fn accept_all<W: Wire>(links: &mut Links, world: &mut W)
    requires { IsLinked (W.log world.old) (W.top world.old) links.old }
    ensures { IsLinked (W.log world.new) (W.top world.new) links.new }
{
    for _ in 0..MAX_LINKS {
        let _ = links.next(world, &wants(true));
    }
}
