// The handle of a used chunk, which contracts see as the chunk's number.
use std::marker::Model;

/// A used chunk of one pool, to be given back once.
///
/// It can be neither copied nor made outside of this crate, so who holds it has the chunk alone.
#[derive(Drop)]
pub struct ChunkId {
    pub(crate) number: u32,
}

impl Model for ChunkId {
    ghost use Rattle.std.specs.Prelude.{ℕ};

    ghost Value = { ℕ };

    ghost view = { λ c. c.number };
}
