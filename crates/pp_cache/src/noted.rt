// Keys of rows that left memory in this turn, in room that is there from the beginning.
ghost use Rattle.std.specs.Prelude.{◌≡◌, ◌≤◌, ◌<◌, false, [], length, option_copied, slice_get, vec_capacity, IfNone, IfOk, IfSome};
ghost use Rattle.pp_cache.specs.Notes.{has_noted, keys_of, noted_by, unnoted, IsFirst};

use arrayvec::ArrayVec;
use pp_target::KEY_ROOM;
use pp_text::OutOfMemory;
use std::alloc::Global;
use std::marker::Model;

/// The most rows that leave memory in a turn: a read brings at most 8 responses, and each may make one leave and be
/// refused one.
const MOST: usize = 16;

/// Keys, each once, in the order in which they came in.
#[derive(Drop)]
pub struct Noted {
    keys: Vec<Box<ArrayVec<u8, KEY_ROOM>>>,
    spare: Vec<Box<ArrayVec<u8, KEY_ROOM>>>,
}

impl Model for Noted {
    ghost use Rattle.std.specs.Prelude.{ℕ, ◌≡◌, ◌+◌, ◌≤◌, List, length, vec_capacity};
    ghost use Rattle.pp_cache.specs.Notes.{keys_of};

    ghost Value = { List (List ℕ) };

    ghost view = { λ n. keys_of n.keys.items };

    ghost invariant = { λ n. (length n.keys.items + length n.spare.items ≡ 16) × (16 ≤ vec_capacity n.keys) × (16 ≤ vec_capacity n.spare) };
}

impl Noted {
    /// None, and the room for all.
    pub fn new(alloc: Global) -> Result<Noted, OutOfMemory>
        ensures { IfOk result (λ noted. noted ≡ []) }
    {
        let keys = Vec::with_capacity(alloc, MOST)?;
        let spare = rooms(alloc)?;
        Ok(Noted { keys, spare })
    }

    /// How many there are.
    pub fn len(&self) -> usize
        ensures { result ≡ length self.now }
    {
        self.keys.len()
    }

    /// The key at this place.
    pub fn get(&self, place: usize) -> Option<&[u8]>
        ensures { option_copied result ≡ slice_get self.now place }
    {
        if place < self.keys.len() {
            Some(self.keys[place].as_slice())
        } else {
            None
        }
    }

    /// Whether this key is noted.
    pub fn has(&self, key: &[u8]) -> bool
        ensures { result ≡ has_noted key.now self.now }
    {
        place_of(&self.keys, key).is_some()
    }

    /// Notes a key, where it is not noted yet.
    pub fn note(&mut self, key: &[u8])
        ensures { self.new ≡ noted_by key.now self.old }
    {
        if self.has(key) || key.len() > KEY_ROOM {
            return;
        }
        if let Some(mut room) = self.spare.pop() {
            room.clear();
            let _ = room.try_extend_from_slice(key);
            self.keys.push_reserved(room);
        }
    }

    /// Forgets a key.
    pub fn forget(&mut self, key: &[u8])
        ensures { self.new ≡ unnoted key.now self.old }
    {
        if let Some(place) = place_of(&self.keys, key) {
            let room = self.keys.remove(place);
            self.spare.push_reserved(room);
        }
    }

    /// Forgets all.
    pub fn clear(&mut self)
        ensures { self.new ≡ [] }
    {
        for _key in 0..MOST {
            if let Some(room) = self.keys.pop() {
                self.spare.push_reserved(room);
            }
        }
    }
}

/// Room for as many keys as there may be.
fn rooms(alloc: Global) -> Result<Vec<Box<ArrayVec<u8, KEY_ROOM>>>, OutOfMemory>
    ensures len { IfOk result (λ v. length v.items ≡ 16) }
    ensures room { IfOk result (λ v. 16 ≤ vec_capacity v) }
{
    let mut rooms = Vec::with_capacity(alloc, MOST)?;
    for _key in 0..MOST {
        match Box::new(alloc, ArrayVec::new()) {
            Ok(room) => rooms.push_reserved(room),
            Err(_) => return Err(OutOfMemory),
        }
    }
    Ok(rooms)
}

/// Where the key stands.
fn place_of(keys: &[Box<ArrayVec<u8, KEY_ROOM>>], key: &[u8]) -> Option<usize>
    ensures some { IfSome result (IsFirst key.now (keys_of keys.now)) }
    ensures none { IfNone result (has_noted key.now (keys_of keys.now) ≡ false) }
{
    for place in 0..keys.len() {
        if key == keys[place].as_slice() {
            return Some(place);
        }
    }
    None
}
