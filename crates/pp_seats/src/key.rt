// Owned keys (RFC 2616, sections 3.2.2, 3.2.3 and 5.1.2).
ghost use Rattle.std.specs.Prelude.{◌≡◌, ◌⊎◌, IfOk, IfErr};
ghost use Rattle.pp_target.specs.Key.{IsPlaceIn, key_at, key_in};

use arrayvec::ArrayVec;
use pp_target::{Place, TargetFault, key};
use std::alloc::Global;

/// What a target names: a text, and where host, port and path stand in it.
#[derive(Drop)]
pub struct Key {
    text: Vec<u8>,
    place: Place,
    ghost within: { IsPlaceIn text.items place },
}

impl Key {
    /// The key of a target, or the first fault that applies.
    pub fn at(alloc: Global, target: &[u8]) -> Result<Key, TargetFault>
        ensures key { IfOk result (λ k. key_at target.now ≡ Ok (key_in k.text.items k.place)) }
        ensures fault { IfErr result (λ fault. (fault ≡ TargetFault.OutOfMemory) ⊎ (key_at target.now ≡ Err fault)) }
    {
        let mut text = ArrayVec::new();
        let place = key(alloc, target, &mut text)?;
        let Ok(text) = Vec::from_slice(alloc, text.as_slice()) else {
            return Err(TargetFault::OutOfMemory);
        };
        Ok(Key { text, place })
    }

    /// The key as it is spelled.
    pub fn text(&self) -> &[u8]
        ensures { result.now ≡ self.now.text.items }
    {
        self.text.as_slice()
    }

    /// Where its parts stand in its text.
    pub fn place(&self) -> &Place
        ensures place { result.now ≡ self.now.place }
        ensures within { IsPlaceIn self.now.text.items result.now }
    {
        &self.place
    }
}
