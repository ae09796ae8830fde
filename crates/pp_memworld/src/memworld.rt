// A world in memory, which plays a script and tells what happened.
ghost use Rattle.std.specs.Prelude.{◌≡◌, ◌<◌, ◌≤◌, ◌+◌, ◌-◌, ◌^◌, [], ◌∷◌, length, IfOk, IfSome, IsSome, Ok, Some};
ghost use Rattle.std.specs.Option.{option_copied};
ghost use Rattle.pp_world.specs.Connections.{is_open, side_of};
ghost use Rattle.pp_world.specs.Log.{Appends, Rises, Told};
ghost use Rattle.pp_world.specs.Wire.{IsWithin, by_side, event_happening, read_happening, top_after};
ghost use Rattle.pp_memworld.specs.MemWorld.{ChangesOnly, EndsStay, HasEnd, HasNoEnds, IsChosen, IsFound, NoEndLeaves, OneMoreCall, SameCalls, cannot_dial, configuration, end_at, faults_of, loses, told_log, top_number};
ghost use Rattle.pp_memworld.specs.Peer.{IsReadBy, IsWrittenBy};
ghost use Rattle.pp_memworld.specs.Record.{SameNumbers, Stays, Tells, one_more};
ghost use Rattle.pp_memworld.specs.Slots.{AreListed};
ghost use Rattle.pp_memworld.specs.Traffic.{NoneLeaves};

use crate::calls::Calls;
use crate::peer::Change;
use crate::record::Record;
use crate::traffic::{Interest, News, Traffic};
use crate::{Cue, Page, Script};
use pp_text::{Octets, OutOfMemory};
use pp_world::{Event, Got, Happening, Image, Logged, Wants};
use std::alloc::Global;

/// A world that plays a script, and tells its log until memory for that, or for its connections or
/// files, is refused.
#[derive(Drop)]
pub struct MemWorld {
    pub(crate) record: Record,
    pub(crate) traffic: Traffic,
    pub(crate) calls: Calls,
    pub(crate) script: Script,
    /// The place of the next cue.
    cue: usize,
    pub(crate) config: Octets,
}

impl MemWorld {
    /// A world at the begin of its first life, over a folder with these files, which `put_file`
    /// lists in the order of their names. The calls of `read`, `write`, `listen`, `dial` and
    /// `config`, and those of the disk but `root`, are numbered from 1 in the order in which they
    /// are made; those whose numbers are in `failing` fail, and do nothing but tell so.
    pub fn new(
        alloc: Global,
        script: Script,
        image: Image,
        failing: Vec<u64>,
    ) -> Result<MemWorld, OutOfMemory>
        requires listed { AreListed image }
        ensures told { IfOk result (λ w. told_log w ≡ Some (Happening.Woke image ∷ [])) }
        ensures faults { IfOk result (λ w. faults_of w ≡ 0) }
        ensures top { IfOk result (λ w. top_number w ≡ 0) }
        ensures failing { IfOk result (λ w. w.calls.failing.items ≡ failing.items) }
        ensures calls { IfOk result (λ w. w.calls.made ≡ 0) }
        ensures configuration { IfOk result (λ w. configuration w ≡ []) }
        ensures ends { IfOk result HasNoEnds }
    {
        let life = Record::new(alloc, Vec::new(alloc), 0, image)?;
        let config = Octets::empty(alloc);
        Ok(MemWorld::begin(alloc, life, script, failing, config))
    }

    /// A world at the begin of its script, with this record of its life.
    pub(crate) fn begin(
        alloc: Global,
        life: Record,
        script: Script,
        failing: Vec<u64>,
        config: Octets,
    ) -> MemWorld
        ensures life { result.record ≡ life }
        ensures failing { result.calls.failing.items ≡ failing.items }
        ensures calls { result.calls.made ≡ 0 }
        ensures configuration { configuration result ≡ config }
        ensures ends { HasNoEnds result }
    {
        MemWorld {
            record: life,
            traffic: Traffic::new(alloc),
            calls: Calls::new(failing),
            script,
            cue: 0,
            config,
        }
    }

    /// What happened so far, where it is told still.
    pub fn log(&self) -> Option<&[Happening]>
        ensures { option_copied result ≡ told_log self.now }
    {
        self.record.log()
    }

    /// Whether a connection of this number was accepted or dialled in this life and is not closed.
    pub fn is_open(&self, id: u64) -> bool
        ensures { Told (told_log self.now) (λ l. result ≡ is_open id l) }
    {
        self.record.side(id).is_some()
    }

    /// Sets the text of the configuration file. Without it, it is empty.
    pub fn set_config(&mut self, text: Octets)
        ensures configuration { configuration self.new ≡ text }
        ensures record { self.new.record ≡ self.old.record }
        ensures calls { self.new.calls ≡ self.old.calls }
        ensures ends { EndsStay self.old self.new }
    {
        self.config = text;
    }

    /// The first event that applies, in the order of `ready`, once so many cues were played as it
    /// takes. At their end it is Stop.
    pub(crate) fn choose(&mut self, wants: &Wants) -> Event
        ensures chosen { IsChosen wants.now self.old.record result }
        ensures stays { Stays self.old.record self.new.record }
        ensures calls { SameCalls self.old self.new }
        ensures none_leaves { NoEndLeaves self.old self.new }
    {
        for _ in self.cue..self.script.cues.len() {
            if let Some(event) = self.ready(wants) {
                return event;
            }
            if let Some(event) = self.play() {
                return event;
            }
        }
        match self.ready(wants) {
            Some(event) => event,
            None => Event::Stop,
        }
    }

    /// What can be reported before the next cue: what can be read, what can be written, a client
    /// that waits, what became of a dial.
    fn ready(&self, wants: &Wants) -> Option<Event>
        ensures { IfSome result (IsChosen wants.now self.now.record) }
    {
        if let Some(id) = self.traffic.lowest(wants.read.as_slice(), Interest::Read) {
            return Some(Event::Readable(id));
        }
        if let Some(id) = self.traffic.lowest(wants.write.as_slice(), Interest::Write) {
            return Some(Event::Writable(id));
        }
        if wants.accept && self.traffic.is_waiting() && self.record.top() < u64::MAX {
            return Some(Event::Accepted(self.record.top() + 1));
        }
        self.ready_dial()
    }

    fn ready_dial(&self) -> Option<Event>
        ensures { IfSome result (λ e. (w : Wants) → IsChosen w self.now.record e) }
    {
        let news = self.traffic.first_news()?;
        if !self.record.is_dialled(news.id()) {
            return None;
        }
        match news {
            News::Reached(id) => Some(Event::Reached(id)),
            News::Refused(id) => Some(Event::Broken(id)),
        }
    }

    /// Plays the next cue; Tick and Stop are events themselves.
    fn play(&mut self) -> Option<Event>
        ensures chosen { IfSome result (λ e. (w : Wants) (r : Record) → IsChosen w r e) }
        ensures stays { Stays self.old.record self.new.record }
        ensures calls { SameCalls self.old self.new }
        ensures none_leaves { NoEndLeaves self.old self.new }
    {
        if self.cue >= self.script.cues.len() {
            return Some(Event::Stop);
        }
        let cue = &self.script.cues[self.cue];
        self.cue += 1;
        match cue {
            Cue::Tick(seconds) => Some(Event::Tick(*seconds)),
            Cue::Stop => Some(Event::Stop),
            change => {
                let kept = bring(&mut self.traffic, &self.record, change);
                self.record.keep(kept);
                None
            }
        }
    }

    /// Tells an event that was chosen.
    pub(crate) fn tell_event(&mut self, wants: &Wants, event: Event)
        requires { IsChosen wants.now self.old.record event }
        ensures tells { Tells self.old.record self.new.record (event_happening event) }
        ensures top { self.new.record.top ≡ top_after self.old.record.top event }
        ensures faults { self.new.record.faults ≡ self.old.record.faults }
        ensures calls { SameCalls self.old self.new }
        ensures accepted { HasEnd event self.new }
        ensures none_leaves { NoEndLeaves self.old self.new }
    {
        let _ = wants;
        match event {
            Event::Stop => self.record.tell(Happening::Stopped),
            Event::Tick(seconds) => self.record.tell(Happening::Clock(seconds)),
            Event::Accepted(_) => self.accept(),
            Event::Readable(id) => self.record.tell(Happening::CanRead(id)),
            Event::Writable(id) => self.record.tell(Happening::CanWrite(id)),
            Event::Reached(id) => {
                self.traffic.forget_news();
                self.record.tell(Happening::Reached(id));
            }
            Event::Broken(id) => {
                self.traffic.forget_news();
                self.record.tell(Happening::Broke(id));
            }
        }
    }

    fn accept(&mut self)
        requires { self.old.record.top < 2 ^ 64 - 1 }
        ensures tells { Tells self.old.record self.new.record (Happening.Opened (self.old.record.top + 1)) }
        ensures top { self.new.record.top ≡ self.old.record.top + 1 }
        ensures faults { self.new.record.faults ≡ self.old.record.faults }
        ensures calls { SameCalls self.old self.new }
        ensures accepted { Told (told_log self.new) (λ l. IsSome (end_at (self.old.record.top + 1) self.new)) }
        ensures none_leaves { NoEndLeaves self.old self.new }
    {
        let id = self.record.accept();
        let kept = self.traffic.accept(id);
        self.record.keep(kept);
    }

    /// Whether the next read or write of this connection fails.
    pub(crate) fn loses(&self, id: u64) -> bool
        ensures { result ≡ loses id self.now }
    {
        self.calls.is_failing() || self.traffic.is_broken(id)
    }

    /// A read or write of this connection fails.
    pub(crate) fn lose(&mut self, id: u64)
        ensures told { Appends (told_log self.old) (told_log self.new) (λ l. by_side (side_of id l) (Happening.HungUp id) (Happening.Broke id)) }
        ensures faults { faults_of self.new ≡ one_more (faults_of self.old) }
        ensures rises { Rises (told_log self.new) (faults_of self.old) (faults_of self.new) }
        ensures never_falls { faults_of self.old ≤ faults_of self.new }
        ensures top { top_number self.new ≡ top_number self.old }
        ensures calls { OneMoreCall self.old self.new }
        ensures read { IsReadBy 0 (end_at id self.old) (end_at id self.new) }
        ensures written { IsWrittenBy 0 (end_at id self.old) (end_at id self.new) }
        ensures fault { IsFound id self.old self.new }
        ensures others { ChangesOnly id self.old self.new }
    {
        if !self.calls.is_failing() {
            self.traffic.mend(id);
        }
        self.calls.count();
        self.record.lose(id);
    }

    /// Tells what a read found, at the front of the buffer.
    pub(crate) fn tell_read(&mut self, id: u64, got: Got, buf: &[u8])
        requires { IsWithin (length buf.now) got }
        ensures told { Appends (told_log self.old) (told_log self.new) (read_happening id (Ok got) buf.now) }
        ensures same { SameNumbers self.old.record self.new.record }
        ensures calls { SameCalls self.old self.new }
        ensures ends { EndsStay self.old self.new }
    {
        match got {
            Got::Bytes(count) => self.record.hear(id, &buf[..count]),
            Got::End => self.record.end(id),
            Got::NotYet => self.record.tell(Happening::NoneYet(id)),
        }
    }

    /// Whether a dial fails.
    pub(crate) fn cannot_dial(&self) -> bool
        ensures { result ≡ cannot_dial self.now }
    {
        let is_last = self.record.top() >= u64::MAX;
        self.calls.is_failing() || is_last
    }
}

impl Logged for MemWorld {
    ghost log = { λ w. told_log w };

    ghost faults = { λ w. faults_of w };

    ghost top = { λ w. top_number w };
}

/// What a cue brings to the connections.
fn bring(traffic: &mut Traffic, sides: &Record, cue: &Cue) -> Result<(), OutOfMemory>
    ensures { NoneLeaves traffic.old.peers traffic.new.peers }
{
    match cue {
        Cue::Tick(_) | Cue::Stop => Ok(()),
        Cue::Connect => traffic.connect(),
        Cue::Say(id, bytes) | Cue::Answer(id, bytes) => {
            traffic.apply(*id, &Change::Sends(bytes.as_slice()))
        }
        Cue::HangUp(id) | Cue::End(id) => traffic.apply(*id, &Change::Ends),
        Cue::Window(id, room) => traffic.apply(*id, &Change::Window(*room)),
        Cue::Break(id) => traffic.apply(*id, &Change::Breaks),
        Cue::Reach(id) => report(traffic, sides, News::Reached(*id)),
        Cue::Refuse(id) => report(traffic, sides, News::Refused(*id)),
    }
}

fn report(traffic: &mut Traffic, sides: &Record, news: News) -> Result<(), OutOfMemory>
    ensures { traffic.new.peers ≡ traffic.old.peers }
{
    if sides.is_dialled(news.id()) {
        traffic.report(news)
    } else {
        Ok(())
    }
}
