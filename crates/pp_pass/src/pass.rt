// A bounded pipe: bytes go out in the order in which they went in.
ghost use Rattle.std.specs.Prelude.{◌≡◌, ◌↔◌, ◌<◌, ◌≤◌, ◌++◌, [], false, length, take, IfOk};
ghost use Rattle.pp_pass.specs.Pipe.{started, room_of, with_data, finished as finished_of, without_first};

use crate::spelling::{put, put_chunk};
use circular_buffer::HeapCircularBuffer;
use pp_text::OutOfMemory;
use std::alloc::Global;
use std::marker::Model;

/// How many bytes the pipe holds.
pub const PIPE_LEN: usize = 65_536;
/// What a chunk and the last chunk have beside the data: at most four digits and a `0`, and four
/// line ends.
const CODING_LEN: usize = 13;

/// The bytes of a body on their way to a client.
#[derive(Drop)]
pub struct Pass {
    held: HeapCircularBuffer<u8>,
    is_coded: bool,
    is_finished: bool,
}

impl Model for Pass {
    ghost use Rattle.std.specs.Prelude.{◌≡◌, ◌+◌, ◌≤◌, true, false, length};
    ghost use Rattle.pp_pass.specs.Pipe.{Pipe};
    ghost use Rattle.pp_pass.specs.Holds.{HoldsLastChunk};

    ghost Value = { Pipe };

    ghost view = { λ p. record { bytes = p.held.items; is_coded = p.is_coded; is_finished = p.is_finished } };

    ghost invariant = { λ p. HoldsLastChunk p.held p.is_coded p.is_finished };
}

impl Pass {
    /// An empty pipe of 65,536 bytes, for a body that is not coded.
    pub fn new(alloc: Global) -> Result<Pass, OutOfMemory>
        ensures { IfOk result (λ pass. pass ≡ started false) }
    {
        Ok(Pass {
            held: HeapCircularBuffer::with_capacity(alloc, PIPE_LEN)?,
            is_coded: false,
            is_finished: false,
        })
    }

    /// Empties the pipe and begins a body, which goes in as chunks where `chunked`.
    pub fn start(&mut self, chunked: bool)
        ensures { self.new ≡ started chunked }
    {
        self.held.clear();
        self.is_coded = chunked;
        self.is_finished = false;
    }

    /// How many bytes of data may be put in.
    pub fn room(&self) -> usize
        ensures { result ≡ room_of self.now }
    {
        let free = PIPE_LEN - self.held.len();
        if self.is_coded {
            free.saturating_sub(CODING_LEN)
        } else {
            free
        }
    }

    /// Puts data in, as one chunk where chunks are spelled.
    pub fn put(&mut self, bytes: &[u8])
        requires some { 0 < length bytes.now }
        requires room { length bytes.now ≤ room_of self.old }
        requires unfinished { self.old.is_finished ≡ false }
        ensures { self.new ≡ with_data bytes.now self.old }
    {
        if self.is_coded {
            put_chunk(&mut self.held, bytes);
        } else {
            put(&mut self.held, bytes);
        }
    }

    /// Ends the body, with the last chunk where chunks are spelled.
    pub fn finish(&mut self)
        requires { self.old.is_finished ≡ false }
        ensures { self.new ≡ finished_of self.old }
    {
        if self.is_coded {
            put(&mut self.held, b"0\r\n\r\n");
        }
        self.is_finished = true;
    }

    /// Whether the body that was begun last was ended.
    pub fn finished(&self) -> bool
        ensures { result ≡ self.now.is_finished }
    {
        self.is_finished
    }

    /// Bytes that are to be taken next; none exactly where the pipe is empty.
    pub fn offer(&self) -> &[u8]
        ensures front { result.now ≡ take (length result.now) self.now.bytes }
        ensures empty { (result.now ≡ []) ↔ (self.now.bytes ≡ []) }
    {
        let (first, _) = self.pieces();
        first
    }

    /// All bytes, in two pieces, as they are to be taken; the first is empty exactly where the pipe is.
    pub fn pieces(&self) -> (&[u8], &[u8])
        ensures all { result.0.now ++ result.1.now ≡ self.now.bytes }
        ensures empty { (result.0.now ≡ []) ↔ (self.now.bytes ≡ []) }
    {
        let (front, back) = self.held.as_slices();
        if front.is_empty() {
            (back, front)
        } else {
            (front, back)
        }
    }

    /// Takes the first bytes out.
    pub fn took(&mut self, n: usize)
        requires { n ≤ length self.old.bytes }
        ensures { self.new ≡ without_first n self.old }
    {
        self.held.truncate_front(self.held.len() - n);
    }
}
