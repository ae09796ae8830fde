// A world that tells no log, and puts down the calls that are made of it.
ghost use Rattle.std.specs.Prelude.{◌≡◌, None};

use arrayvec::ArrayVec;
use pp_text::Octets;
use pp_world::{ConfigFault, Door, Event, Got, Logged, Note, Replied, Wants, Wire, WireFault};
use std::alloc::Global;

/// A call on the outside.
#[derive(Clone, Copy, Debug, Default, PartialEq, Eq)]
pub enum Call {
    #[default]
    Waited,
    Read(u64),
    /// So many bytes were offered.
    Wrote(u64, usize),
    Dialled(u16),
    Closed(u64),
    Noted,
}

/// Clients come as long as they are wanted, and else the clock ticks. Connection 3 is broken, and
/// nobody answers at port 1.
#[derive(Drop)]
pub struct Counted {
    /// The first sixteen calls since these were last cleared.
    pub calls: ArrayVec<Call, 16>,
    faults: u64,
    top: u64,
}

impl Counted {
    pub fn new() -> Counted {
        Counted {
            calls: ArrayVec::new(),
            faults: 0,
            top: 0,
        }
    }
}

impl Logged for Counted {
    ghost log = { λ w. None };

    ghost faults = { λ w. w.faults };

    ghost top = { λ w. w.top };
}

impl Wire for Counted {
    fn next(&mut self, wants: &Wants) -> Event {
        let _ = self.calls.try_push(Call::Waited);
        if wants.accept && self.top < u64::MAX {
            self.top += 1;
            return Event::Accepted(self.top);
        }
        Event::Tick(784_111_777)
    }

    fn read(&mut self, id: u64, buf: &mut [u8]) -> Result<Got, WireFault> {
        let _ = self.calls.try_push(Call::Read(id));
        if id == 3 {
            self.faults = self.faults.saturating_add(1);
            return Err(WireFault);
        }
        buf[0] = b'a';
        Ok(Got::Bytes(1))
    }

    fn write(&mut self, id: u64, bytes: &[u8]) -> Result<usize, WireFault> {
        let _ = self.calls.try_push(Call::Wrote(id, bytes.len()));
        Ok(bytes.len())
    }

    fn listen(&mut self, _door: &Door<'_>) -> Result<(), WireFault> {
        Ok(())
    }

    fn dial(&mut self, _host: &[u8], port: u16) -> Result<u64, WireFault> {
        let _ = self.calls.try_push(Call::Dialled(port));
        if port == 1 || self.top == u64::MAX {
            self.faults = self.faults.saturating_add(1);
            return Err(WireFault);
        }
        self.top += 1;
        Ok(self.top)
    }

    fn close(&mut self, id: u64) {
        let _ = self.calls.try_push(Call::Closed(id));
    }

    fn note(&mut self, _note: &Note<'_>) {
        let _ = self.calls.try_push(Call::Noted);
    }

    fn log_reply(&mut self, _reply: &Replied<'_>) {}

    fn print(&mut self, _bytes: &[u8]) {}

    fn config(&mut self, alloc: Global, _name: &str) -> Result<Octets, ConfigFault> {
        Octets::copy(alloc, b"").map_err(|_| ConfigFault::OutOfMemory)
    }
}
