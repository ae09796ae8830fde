// In which directions a call on a socket need not wait, as far as the system has told.
//
// Reports come at edges only: what was told once is not told again before a call has found that it would
// wait. So it is kept here until then.
ghost use Rattle.std.specs.Prelude.{◌≡◌, ◌&&◌, ◌||◌, true, false, not, nat_lt};
ghost use Rattle.pp_net.specs.Readiness.{is_over, wakes_reader, wakes_writer};

use mio::event::Event as Report;

#[derive(Clone, Copy, Debug, PartialEq, Eq)]
pub struct Readiness {
    pub read: bool,
    pub write: bool,
    /// The peer sends no more, so that a short read does not mean that the next would wait.
    pub ended: bool,
}

impl Readiness {
    /// Nothing was told.
    pub const NONE: Readiness = Readiness {
        read: false,
        write: false,
        ended: false,
    };

    /// Both directions are tried before anything was told.
    pub const UNTRIED: Readiness = Readiness {
        read: true,
        write: true,
        ended: false,
    };

    pub fn hear(&mut self, report: &Report)
        ensures read { self.new.read ≡ (self.old.read || wakes_reader report.now) }
        ensures write { self.new.write ≡ (self.old.write || wakes_writer report.now) }
        ensures ended { self.new.ended ≡ (self.old.ended || is_over report.now) }
    {
        let is_over = report.is_error() || report.is_read_closed() || report.is_write_closed();
        self.read = self.read || report.is_readable() || is_over;
        self.write = self.write || report.is_writable() || is_over;
        self.ended = self.ended || is_over;
    }

    /// A read took `taken` bytes, with room for `room`.
    pub fn after_read(&mut self, taken: usize, room: usize)
        ensures { self.new ≡ record self.old { read = self.old.read && (self.old.ended || not (nat_lt taken room)) } }
    {
        if taken < room && !self.ended {
            self.read = false;
        }
    }

    /// A write took `taken` of `offered` bytes.
    pub fn after_write(&mut self, taken: usize, offered: usize)
        ensures { self.new ≡ record self.old { write = self.old.write && not (nat_lt taken offered) } }
    {
        if taken < offered {
            self.write = false;
        }
    }
}
