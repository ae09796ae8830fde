// The connections that are open.
ghost use Rattle.std.specs.Prelude.{◌≡◌, ◌≤◌, ◌<◌, ◌++◌, ◌∷◌, [], length, nat_le, IfOk, vec_capacity};
ghost use Rattle.std.specs.List.{filter};
ghost use Rattle.pp_links.specs.Links.{has_link, is_other, without};

use pp_text::OutOfMemory;
use pp_world::Side;
use std::alloc::Global;
use std::marker::Model;

/// The most connections at once.
pub const MAX_LINKS: usize = 512;

/// The connections that are open, each once, with whose it is.
#[derive(Drop)]
pub struct Links {
    /// In the order in which they were opened.
    links: Vec<(u64, Side)>,
}

impl Model for Links {
    ghost use Rattle.std.specs.Prelude.{◌≤◌, List, length, vec_capacity};
    ghost use Rattle.pp_links.specs.Links.{Link};

    ghost Value = { List Link };

    ghost view = { λ l. l.links.items };

    ghost invariant = { λ l. (length l.links.items ≤ 512) × (512 ≤ vec_capacity l.links) };
}

impl Links {
    /// None, and the memory of all that there may be.
    pub fn new(alloc: Global) -> Result<Links, OutOfMemory>
        ensures { IfOk result (λ l. l ≡ []) }
    {
        let links = Vec::with_capacity(alloc, MAX_LINKS)?;
        Ok(Links { links })
    }

    /// Whether the connection with this number is open.
    pub fn has(&self, id: u64) -> bool
        ensures { result ≡ has_link id self.now }
    {
        self.links.iter().any(|link| link.0 == id)
    }

    /// Whether there is no room for another.
    pub(crate) fn is_full(&self) -> bool
        ensures { result ≡ nat_le 512 (length self.now) }
    {
        self.links.len() >= MAX_LINKS
    }

    /// Puts one behind the others.
    pub(crate) fn join(&mut self, id: u64, side: Side)
        requires { length self.old < 512 }
        ensures { self.new ≡ self.old ++ (id, side) ∷ [] }
    {
        self.links.push_reserved((id, side));
    }

    /// Takes the one with this number out, where it is there.
    pub(crate) fn leave(&mut self, id: u64)
        ensures { self.new ≡ without id self.old }
    {
        take_out(&mut self.links, id);
    }
}

fn take_out(links: &mut Vec<(u64, Side)>, id: u64)
    ensures items { links.new.items ≡ without id links.old.items }
    ensures fewer { length links.new.items ≤ length links.old.items }
    ensures capacity { vec_capacity links.new ≡ vec_capacity links.old }
{
    links.retain(|link| link.0 != id);
}
