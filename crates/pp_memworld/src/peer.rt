// The other end of one connection: what it sent and is not read yet, and what it takes.
ghost use Rattle.std.specs.Prelude.{◌≡◌, ◌<◌, ◌≤◌, false, [], vec_len, length, take, Some};
ghost use Rattle.pp_world.specs.Wire.{IsWithin};

use crate::Page;
use crate::site::answer_all;
use pp_text::OutOfMemory;
use pp_world::Got;
use std::alloc::Global;

/// Whether the other end said that it will send no more.
#[derive(Clone, Copy, Debug, PartialEq, Eq)]
pub(crate) enum Ending {
    None,
    Unread,
    Read,
}

/// What a cue changes of the other end of a connection.
#[derive(Clone, Copy)]
pub(crate) enum Change<'a> {
    Sends(&'a [u8]),
    Ends,
    Breaks,
    Window(u64),
}

#[derive(Drop)]
pub(crate) struct Peer {
    /// What it sent: what is not read yet stands from `read` on.
    sent: Vec<u8>,
    read: usize,
    ending: Ending,
    /// How many bytes it takes still; without a window it takes all.
    window: Option<u64>,
    /// Whether the next read or write fails.
    is_broken: bool,
    /// The place in the site of the first page of this host, where its origin answers by itself.
    page: Option<usize>,
    /// The front of an ask that is not whole yet.
    asked: Vec<u8>,
    ghost within: { read ≤ vec_len sent },
}

impl Peer {
    ghost use Rattle.pp_memworld.specs.Peer.{IsFresh, IsReadBy, IsWrittenBy, count_of, found, found_in, is_over, taken, unread};

    pub(crate) fn new(alloc: Global, page: Option<usize>) -> Peer
        ensures fresh { IsFresh (Some result) }
        ensures broken { result.is_broken ≡ false }
    {
        Peer {
            sent: Vec::new(alloc),
            read: 0,
            ending: Ending::None,
            window: None,
            is_broken: false,
            page,
            asked: Vec::new(alloc),
        }
    }

    pub(crate) fn is_broken(&self) -> bool
        ensures { result ≡ self.now.is_broken }
    {
        self.is_broken
    }

    /// Whether a read finds bytes, an end that it did not find before, or a fault.
    pub(crate) fn is_readable(&self) -> bool {
        self.read < self.sent.len() || self.ending == Ending::Unread || self.is_broken
    }

    pub(crate) fn is_writable(&self) -> bool {
        self.window != Some(0)
    }

    pub(crate) fn apply(&mut self, change: &Change<'_>) -> Result<(), OutOfMemory> {
        match change {
            Change::Sends(bytes) => return self.send(bytes),
            Change::Ends => self.end(),
            Change::Breaks => self.is_broken = true,
            Change::Window(room) => self.window = Some(*room),
        }
        Ok(())
    }

    /// The fault was found.
    pub(crate) fn mend(&mut self)
        ensures stays { IsReadBy 0 (Some self.old) (Some self.new) }
        ensures mended { self.new.is_broken ≡ false }
    {
        self.is_broken = false;
    }

    fn send(&mut self, bytes: &[u8]) -> Result<(), OutOfMemory>
        ensures sent { IsWrittenBy 0 (Some self.old) (Some self.new) }
        ensures broken { self.new.is_broken ≡ self.old.is_broken }
    {
        self.sent.extend_from_slice(bytes)?;
        Ok(())
    }

    fn end(&mut self) {
        if self.ending == Ending::None {
            self.ending = Ending::Unread;
        }
    }

    /// Reads the front of what is unread.
    pub(crate) fn take(&mut self, buf: &mut [u8]) -> Got
        requires { 0 < length buf.old }
        ensures found { result ≡ found (length buf.old) (Some self.old) }
        ensures within { IsWithin (length buf.new) result }
        ensures front { take (count_of result) buf.new ≡ take (count_of result) (unread (Some self.old)) }
        ensures read { IsReadBy (count_of result) (Some self.old) (Some self.new) }
        ensures broken { self.new.is_broken ≡ self.old.is_broken }
    {
        let unread = self.sent.len() - self.read;
        if unread == 0 {
            return self.take_end();
        }
        let count = unread.min(buf.len());
        let front = &mut buf[..count];
        front.copy_from_slice(&self.sent[self.read..self.read + count]);
        self.read += count;
        if self.read == self.sent.len() {
            self.sent.clear();
            self.read = 0;
        }
        Got::Bytes(count)
    }

    fn take_end(&mut self) -> Got
        ensures found { result ≡ found_in 0 [] (is_over self.old.ending) }
        ensures read { IsReadBy 0 (Some self.old) (Some self.new) }
        ensures broken { self.new.is_broken ≡ self.old.is_broken }
    {
        match self.ending {
            Ending::None => Got::NotYet,
            Ending::Unread | Ending::Read => {
                self.ending = Ending::Read;
                Got::End
            }
        }
    }

    /// How many of so many bytes it takes.
    pub(crate) fn accept(&mut self, offered: usize) -> usize
        ensures taken { result ≡ taken offered (Some self.old) }
        ensures within { result ≤ offered }
        ensures written { IsWrittenBy result (Some self.old) (Some self.new) }
        ensures unread { unread (Some self.new) ≡ unread (Some self.old) }
        ensures broken { self.new.is_broken ≡ self.old.is_broken }
    {
        match self.window {
            None => offered,
            Some(room) => {
                let count = room.min(offered as u64);
                self.window = Some(room - count);
                count as usize
            }
        }
    }

    /// An origin of the site answers what it was asked.
    pub(crate) fn answer(
        &mut self,
        alloc: Global,
        site: &[Page],
        bytes: &[u8],
    ) -> Result<(), OutOfMemory>
        ensures answered { IsWrittenBy 0 (Some self.old) (Some self.new) }
        ensures broken { self.new.is_broken ≡ self.old.is_broken }
    {
        let Some(page) = self.page else {
            return Ok(());
        };
        if page >= site.len() {
            return Ok(());
        }
        self.asked.extend_from_slice(bytes)?;
        let mut answers = Vec::new(alloc);
        answer_all(
            alloc,
            site,
            site[page].host.as_slice(),
            &mut self.asked,
            &mut answers,
        )?;
        self.send(answers.as_slice())
    }
}
