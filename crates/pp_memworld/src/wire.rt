// The world in memory, as a Wire.
ghost use Rattle.std.specs.Prelude.{◌≡◌, ◌<◌, ◌≤◌, if◌then◌else◌, IsTrue, length, take, is_err, IfOk, OnErr, None, false};
ghost use Rattle.std.specs.Result.{result_unwrap_or};
ghost use Rattle.pp_world.specs.Connections.{IsOpen};
ghost use Rattle.pp_world.specs.Log.{Appends, AppendsAll, Rises, Told};
ghost use Rattle.pp_world.specs.Wire.{ConfigCause, IsNewNumber, IsNumbered, IsOnDialled, IsWithin, close_happening, config_happenings, dial_happening, is_wanted, listen_happening, note_happening, print_happening, read_happening, top_after, wait_happenings, write_happening};
ghost use Rattle.pp_memworld.specs.Calls.{call_number};
ghost use Rattle.pp_memworld.specs.MemWorld.{ChangesOnly, EndsStay, HasEnd, IsFound, Made, NoEndLeaves, OneMoreCall, SameCalls, cannot_dial, configuration, end_at, fails, faults_after, faults_of, is_broken, is_refused, is_unreadable, loses, read_count, told_log, top_number};
ghost use Rattle.pp_memworld.specs.Peer.{IsFresh, IsReadBy, IsWrittenBy, found, taken, unread};

use crate::parts::front_of;
use crate::{MemWorld, Page};
use pp_text::{Octets, OutOfMemory};
use pp_world::{
    CONFIG_READ_LEN, ConfigFault, Door, Event, Got, Happening, Note, Replied, Wants, Wire,
    WireFault,
};
use std::alloc::Global;

impl Wire for MemWorld {
    fn next(&mut self, wants: &Wants) -> Event
        ensures told { AppendsAll (told_log self.old) (told_log self.new) (λ l. wait_happenings wants.now result) }
        ensures wanted { IsTrue (is_wanted wants.now result) }
        ensures dialled { Told (told_log self.old) (IsOnDialled result) }
        ensures faults { faults_of self.new ≡ faults_of self.old }
        ensures number { IsNumbered (top_number self.old) result }
        ensures top { top_number self.new ≡ top_after (top_number self.old) result }
        ensures calls { SameCalls self.old self.new }
        ensures accepted { HasEnd result self.new }
        ensures none_leaves { NoEndLeaves self.old self.new }
    {
        let event = self.choose(wants);
        self.record.tell(Happening::Waits(wants.copy()));
        self.tell_event(wants, event);
        event
    }

    fn read(&mut self, id: u64, buf: &mut [u8]) -> Result<Got, WireFault>
        requires room { 0 < length buf.old }
        requires is_there { Told (told_log self.old) (IsOpen id) }
        ensures told { Appends (told_log self.old) (told_log self.new) (read_happening id result buf.new) }
        ensures within { IfOk result (IsWithin (length buf.new)) }
        ensures fails { is_err result ≡ loses id self.old }
        ensures found { IfOk result (λ got. got ≡ found (length buf.old) (end_at id self.old)) }
        ensures front { take (read_count result) buf.new ≡ take (read_count result) (unread (end_at id self.old)) }
        ensures read { IsReadBy (read_count result) (end_at id self.old) (end_at id self.new) }
        ensures fault { IsFound id self.old self.new }
        ensures others { ChangesOnly id self.old self.new }
        ensures faults { faults_of self.old ≤ faults_of self.new }
        ensures count { faults_of self.new ≡ faults_after (faults_of self.old) (is_err result) }
        ensures cause { OnErr result (Rises (told_log self.new) (faults_of self.old) (faults_of self.new)) }
        ensures top { top_number self.new ≡ top_number self.old }
        ensures calls { OneMoreCall self.old self.new }
    {
        if self.loses(id) {
            self.lose(id);
            return Err(WireFault);
        }
        self.calls.count();
        let got = self.traffic.take(id, buf);
        self.tell_read(id, got, buf);
        Ok(got)
    }

    fn write(&mut self, id: u64, bytes: &[u8]) -> Result<usize, WireFault>
        requires offered { 0 < length bytes.now }
        requires is_there { Told (told_log self.old) (IsOpen id) }
        ensures told { Appends (told_log self.old) (told_log self.new) (write_happening id bytes.now result) }
        ensures within { IfOk result (λ n. n ≤ length bytes.now) }
        ensures fails { is_err result ≡ loses id self.old }
        ensures taken { IfOk result (λ n. n ≡ taken (length bytes.now) (end_at id self.old)) }
        ensures written { IsWrittenBy (result_unwrap_or result 0) (end_at id self.old) (end_at id self.new) }
        ensures fault { IsFound id self.old self.new }
        ensures others { ChangesOnly id self.old self.new }
        ensures faults { faults_of self.old ≤ faults_of self.new }
        ensures count { faults_of self.new ≡ faults_after (faults_of self.old) (is_err result) }
        ensures cause { OnErr result (Rises (told_log self.new) (faults_of self.old) (faults_of self.new)) }
        ensures top { top_number self.new ≡ top_number self.old }
        ensures calls { OneMoreCall self.old self.new }
    {
        if self.loses(id) {
            self.lose(id);
            return Err(WireFault);
        }
        self.calls.count();
        let count = self.traffic.offer(id, bytes.len());
        let kept = self
            .traffic
            .answer(id, self.script.site.as_slice(), &bytes[..count]);
        self.record.keep(kept);
        self.record.say(id, bytes, count);
        Ok(count)
    }

    fn listen(&mut self, door: &Door<'_>) -> Result<(), WireFault>
        ensures told { Appends (told_log self.old) (told_log self.new) (λ l. listen_happening door.now.port result) }
        ensures fails { is_err result ≡ fails self.old }
        ensures faults { faults_of self.old ≤ faults_of self.new }
        ensures count { faults_of self.new ≡ faults_after (faults_of self.old) (is_err result) }
        ensures cause { OnErr result (Rises (told_log self.new) (faults_of self.old) (faults_of self.new)) }
        ensures top { top_number self.new ≡ top_number self.old }
        ensures calls { OneMoreCall self.old self.new }
        ensures ends { EndsStay self.old self.new }
    {
        let is_failing = self.calls.is_failing();
        self.calls.count();
        if is_failing {
            self.record.fail(Happening::Listens(door.port, false));
            return Err(WireFault);
        }
        self.record.tell(Happening::Listens(door.port, true));
        Ok(())
    }

    fn dial(&mut self, host: &[u8], port: u16) -> Result<u64, WireFault>
        ensures told { Appends (told_log self.old) (told_log self.new) (λ l. dial_happening host.now port result) }
        ensures number { IfOk result (IsNewNumber (top_number self.old)) }
        ensures fails { is_err result ≡ cannot_dial self.old }
        ensures faults { faults_of self.old ≤ faults_of self.new }
        ensures count { faults_of self.new ≡ faults_after (faults_of self.old) (is_err result) }
        ensures cause { OnErr result (Rises (told_log self.new) (faults_of self.old) (faults_of self.new)) }
        ensures top { top_number self.new ≡ result_unwrap_or result (top_number self.old) }
        ensures calls { OneMoreCall self.old self.new }
        ensures fresh { IfOk result (λ k. Told (told_log self.new) (λ l. IsFresh (end_at k self.new))) }
        ensures sound { IfOk result (λ k. Told (told_log self.new) (λ l. is_broken k self.new ≡ false)) }
        ensures others { IfOk result (λ k. ChangesOnly k self.old self.new) }
        ensures ends { OnErr result (EndsStay self.old self.new) }
    {
        let cannot = self.cannot_dial();
        self.calls.count();
        if cannot {
            self.record.refuse(host, port);
            return Err(WireFault);
        }
        let id = self.record.dial(host, port);
        let kept = self
            .traffic
            .dial(id, page_of(self.script.site.as_slice(), host));
        self.record.keep(kept);
        Ok(id)
    }

    fn close(&mut self, id: u64)
        requires is_there { Told (told_log self.old) (IsOpen id) }
        ensures told { Appends (told_log self.old) (told_log self.new) (close_happening id) }
        ensures faults { faults_of self.new ≡ faults_of self.old }
        ensures top { top_number self.new ≡ top_number self.old }
        ensures calls { SameCalls self.old self.new }
        ensures gone { end_at id self.new ≡ None }
        ensures others { ChangesOnly id self.old self.new }
    {
        self.traffic.close(id);
        self.record.close(id);
    }

    fn note(&mut self, note: &Note<'_>)
        ensures told { Appends (told_log self.old) (told_log self.new) (λ l. note_happening note.now) }
        ensures faults { faults_of self.new ≡ faults_of self.old }
        ensures top { top_number self.new ≡ top_number self.old }
        ensures calls { SameCalls self.old self.new }
        ensures ends { EndsStay self.old self.new }
    {
        self.record.note(note);
    }

    fn print(&mut self, bytes: &[u8])
        ensures told { Appends (told_log self.old) (told_log self.new) (λ l. print_happening bytes.now) }
        ensures faults { faults_of self.new ≡ faults_of self.old }
        ensures top { top_number self.new ≡ top_number self.old }
        ensures calls { SameCalls self.old self.new }
        ensures ends { EndsStay self.old self.new }
    {
        self.record.print(bytes);
    }

    /// The operator's log is kept nowhere.
    fn log_reply(&mut self, _reply: &Replied<'_>)
        ensures told { told_log self.new ≡ told_log self.old }
        ensures faults { faults_of self.new ≡ faults_of self.old }
        ensures top { top_number self.new ≡ top_number self.old }
        ensures calls { SameCalls self.old self.new }
        ensures ends { EndsStay self.old self.new }
    {}

    fn config(&mut self, alloc: Global, name: &str) -> Result<Octets, ConfigFault>
        ensures told { AppendsAll (told_log self.old) (told_log self.new) (λ l. config_happenings name.now result) }
        ensures text { IfOk result (λ text. text ≡ take CONFIG_READ_LEN (configuration self.old)) }
        ensures within { IfOk result (λ text. length text ≤ CONFIG_READ_LEN) }
        ensures fails { is_unreadable result ≡ fails self.old }
        ensures faults { faults_of self.old ≤ faults_of self.new }
        ensures count { faults_of self.new ≡ faults_after (faults_of self.old) (is_unreadable result) }
        ensures cause { ConfigCause (told_log self.new) (faults_of self.old) (faults_of self.new) result }
        ensures top { top_number self.new ≡ top_number self.old }
        ensures calls { Made (if is_refused result then self.old.calls.made else call_number self.old.calls.made) self.old self.new }
        ensures ends { EndsStay self.old self.new }
    {
        if self.calls.is_failing() {
            self.calls.count();
            self.record.misread(name.as_bytes());
            return Err(ConfigFault::Unreadable);
        }
        let Ok(text) = copy_front(alloc, self.config.as_slice()) else {
            return Err(ConfigFault::OutOfMemory);
        };
        self.calls.count();
        self.record.configure(name.as_bytes(), text.as_slice());
        Ok(text)
    }
}

/// As much of a configuration file as is read.
fn copy_front(alloc: Global, text: &[u8]) -> Result<Octets, OutOfMemory>
    ensures front { IfOk result (λ o. o ≡ take CONFIG_READ_LEN text.now) }
    ensures within { IfOk result (λ o. length o ≤ CONFIG_READ_LEN) }
{
    Octets::copy(alloc, front_of(text, CONFIG_READ_LEN))
}

/// The place of the first page of this host.
fn page_of(site: &[Page], host: &[u8]) -> Option<usize> {
    site.iter().position(|page| page.host.as_slice() == host)
}
