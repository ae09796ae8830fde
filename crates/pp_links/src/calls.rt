// The calls of the world, on connections that are open.
ghost use Rattle.std.specs.Prelude.{◌≡◌, ◌<◌, ◌≤◌, ◌&&◌, true, false, nat_lt, length, is_some, IfOk, IfSome, IfNone, OnErr, IsErr, IsTrue};
ghost use Rattle.std.specs.Result.{result_unwrap_or};
ghost use Rattle.pp_world.specs.declared.happening.Happening.TheVariants.{Dialled, Undialled};
ghost use Rattle.pp_world.specs.Log.{Appends, AppendsAll, Rises, Told};
ghost use Rattle.pp_world.specs.Wire.{IsNewNumber, IsNumbered, IsOnDialled, IsWithin, close_happening, is_wanted, note_happening, read_happening, top_after, wait_happenings, write_happening};
ghost use Rattle.pp_links.specs.Links.{IsLinked, has_link, links_with, max_links, without};
ghost use Rattle.pp_links.specs.Quiet.{GrowsQuietly};
ghost use Rattle.pp_links.specs.Waits.{TurnsAway, WaitsOnce, links_after, newcomer_of};

use crate::Links;
use pp_world::{Event, Got, Note, Side, Wants, Wire, WireFault};

impl Links {
    /// Waits for an event. A client for whom there is no room is closed at once, and then None is
    /// answered.
    pub fn next<W: Wire>(&mut self, world: &mut W, wants: &Wants) -> Option<Event>
        requires { IsLinked (W.log world.old) (W.top world.old) self.old }
        ensures linked { IsLinked (W.log world.new) (W.top world.new) self.new }
        ensures links { self.new ≡ links_after result self.old }
        ensures waits { WaitsOnce wants.now (W.log world.old) (W.log world.new) }
        ensures told { IfSome result (λ event. AppendsAll (W.log world.old) (W.log world.new) (λ l. wait_happenings wants.now event)) }
        ensures wanted { IfSome result (λ event. IsTrue (is_wanted wants.now event)) }
        ensures dialled { IfSome result (λ event. Told (W.log world.old) (IsOnDialled event)) }
        ensures number { IfSome result (IsNumbered (W.top world.old)) }
        ensures top { IfSome result (λ event. W.top world.new ≡ top_after (W.top world.old) event) }
        ensures none { IfNone result (TurnsAway (length self.old) wants.now (W.log world.old) (W.log world.new) (W.top world.old) (W.top world.new)) }
        ensures faults { W.faults world.old ≤ W.faults world.new }
    {
        let event = world.next(wants);
        let Some(c) = newcomer(event) else {
            return Some(event);
        };
        if self.is_full() {
            world.close(c);
            return None;
        }
        self.join(c, Side::Client);
        Some(event)
    }

    /// Reads what came, into the front of the buffer. None where the connection is not open or the
    /// buffer is empty, and then nothing happened.
    pub fn read<W: Wire>(
        &self,
        world: &mut W,
        id: u64,
        buf: &mut [u8],
    ) -> Option<Result<Got, WireFault>>
        requires { IsLinked (W.log world.old) (W.top world.old) self.now }
        ensures linked { IsLinked (W.log world.new) (W.top world.new) self.now }
        ensures quiet { GrowsQuietly (W.log world.old) (W.log world.new) }
        ensures answered { is_some result ≡ (has_link id self.now && nat_lt 0 (length buf.old)) }
        ensures none { IfNone result (world.new ≡ world.old) }
        ensures kept { IfNone result (buf.new ≡ buf.old) }
        ensures told { IfSome result (λ r. Appends (W.log world.old) (W.log world.new) (read_happening id r buf.new)) }
        ensures within { IfSome result (λ r. IfOk r (IsWithin (length buf.new))) }
        ensures cause { IfSome result (λ r. OnErr r (Rises (W.log world.new) (W.faults world.old) (W.faults world.new))) }
        ensures faults { W.faults world.old ≤ W.faults world.new }
        ensures top { W.top world.new ≡ W.top world.old }
    {
        if !self.has(id) || buf.is_empty() {
            return None;
        }
        Some(world.read(id, buf))
    }

    /// Offers bytes, and answers how many were taken. None where the connection is not open or there
    /// are no bytes, and then nothing happened.
    pub fn write<W: Wire>(
        &self,
        world: &mut W,
        id: u64,
        bytes: &[u8],
    ) -> Option<Result<usize, WireFault>>
        requires { IsLinked (W.log world.old) (W.top world.old) self.now }
        ensures linked { IsLinked (W.log world.new) (W.top world.new) self.now }
        ensures quiet { GrowsQuietly (W.log world.old) (W.log world.new) }
        ensures answered { is_some result ≡ (has_link id self.now && nat_lt 0 (length bytes.now)) }
        ensures none { IfNone result (world.new ≡ world.old) }
        ensures told { IfSome result (λ r. Appends (W.log world.old) (W.log world.new) (write_happening id bytes.now r)) }
        ensures within { IfSome result (λ r. IfOk r (λ n. n ≤ length bytes.now)) }
        ensures cause { IfSome result (λ r. OnErr r (Rises (W.log world.new) (W.faults world.old) (W.faults world.new))) }
        ensures faults { W.faults world.old ≤ W.faults world.new }
        ensures top { W.top world.new ≡ W.top world.old }
    {
        if !self.has(id) || bytes.is_empty() {
            return None;
        }
        Some(world.write(id, bytes))
    }

    /// Begins a connection to an origin, and answers its number. An error without a call where there
    /// is no room.
    pub fn dial<W: Wire>(&mut self, world: &mut W, host: &[u8], port: u16) -> Result<u64, WireFault>
        requires { IsLinked (W.log world.old) (W.top world.old) self.old }
        ensures linked { IsLinked (W.log world.new) (W.top world.new) self.new }
        ensures quiet { GrowsQuietly (W.log world.old) (W.log world.new) }
        ensures links { self.new ≡ links_with result self.old }
        ensures told { IfOk result (λ k. Appends (W.log world.old) (W.log world.new) (λ l. Dialled k host.now port)) }
        ensures number { IfOk result (IsNewNumber (W.top world.old)) }
        ensures full { max_links ≤ length self.old → IsErr result × (world.new ≡ world.old) }
        ensures refused { length self.old < max_links → OnErr result (Appends (W.log world.old) (W.log world.new) (λ l. Undialled host.now port)) }
        ensures cause { length self.old < max_links → OnErr result (Rises (W.log world.new) (W.faults world.old) (W.faults world.new)) }
        ensures faults { W.faults world.old ≤ W.faults world.new }
        ensures top { W.top world.new ≡ result_unwrap_or result (W.top world.old) }
    {
        if self.is_full() {
            return Err(WireFault);
        }
        let k = world.dial(host, port)?;
        self.join(k, Side::Origin);
        Ok(k)
    }

    /// Closes a connection. Nothing happens where it is not open.
    pub fn close<W: Wire>(&mut self, world: &mut W, id: u64)
        requires { IsLinked (W.log world.old) (W.top world.old) self.old }
        ensures linked { IsLinked (W.log world.new) (W.top world.new) self.new }
        ensures quiet { GrowsQuietly (W.log world.old) (W.log world.new) }
        ensures links { self.new ≡ without id self.old }
        ensures told { has_link id self.old ≡ true → Appends (W.log world.old) (W.log world.new) (close_happening id) }
        ensures none { has_link id self.old ≡ false → world.new ≡ world.old }
        ensures faults { W.faults world.old ≤ W.faults world.new }
        ensures top { W.top world.new ≡ W.top world.old }
    {
        if self.has(id) {
            world.close(id);
            self.leave(id);
        }
    }

    /// Puts a note on record.
    pub fn note<W: Wire>(&self, world: &mut W, note: &Note<'_>)
        requires { IsLinked (W.log world.old) (W.top world.old) self.now }
        ensures linked { IsLinked (W.log world.new) (W.top world.new) self.now }
        ensures quiet { GrowsQuietly (W.log world.old) (W.log world.new) }
        ensures told { Appends (W.log world.old) (W.log world.new) (λ l. note_happening note.now) }
        ensures faults { W.faults world.old ≤ W.faults world.new }
        ensures top { W.top world.new ≡ W.top world.old }
    {
        world.note(note);
    }
}

/// The client that was accepted.
fn newcomer(event: Event) -> Option<u64>
    ensures { result ≡ newcomer_of event }
{
    match event {
        Event::Accepted(c) => Some(c),
        Event::Stop | Event::Tick(_) => None,
        Event::Readable(_) | Event::Writable(_) => None,
        Event::Reached(_) | Event::Broken(_) => None,
    }
}
