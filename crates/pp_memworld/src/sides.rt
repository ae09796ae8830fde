// What is told of a connection, by whose it is.
ghost use Rattle.std.specs.Prelude.{◌≡◌};
ghost use Rattle.pp_world.specs.Wire.{by_side};
ghost use Rattle.pp_memworld.specs.Keeping.{KeepsFiles};
ghost use Rattle.pp_memworld.specs.Sides.{KeepsConnections};

use pp_text::Octets;
use pp_world::{Happening, Side};

pub(crate) fn heard(side: Option<Side>, id: u64, bytes: Octets) -> Happening
    ensures is { result ≡ by_side side (Happening.Heard id bytes) (Happening.Got id bytes) }
    ensures keeps { KeepsConnections result }
    ensures files { KeepsFiles result }
{
    match side {
        Some(Side::Client) => Happening::Heard(id, bytes),
        Some(Side::Origin) | None => Happening::Got(id, bytes),
    }
}

pub(crate) fn ended(side: Option<Side>, id: u64) -> Happening
    ensures is { result ≡ by_side side (Happening.HungUp id) (Happening.Ended id) }
    ensures keeps { KeepsConnections result }
    ensures files { KeepsFiles result }
{
    match side {
        Some(Side::Client) => Happening::HungUp(id),
        Some(Side::Origin) | None => Happening::Ended(id),
    }
}

pub(crate) fn said(side: Option<Side>, id: u64, offered: u64, bytes: Octets) -> Happening
    ensures is { result ≡ by_side side (Happening.Said id offered bytes) (Happening.Asked id bytes) }
    ensures keeps { KeepsConnections result }
    ensures files { KeepsFiles result }
{
    match side {
        Some(Side::Client) => Happening::Said(id, offered, bytes),
        Some(Side::Origin) | None => Happening::Asked(id, bytes),
    }
}

pub(crate) fn lost(side: Option<Side>, id: u64) -> Happening
    ensures is { result ≡ by_side side (Happening.HungUp id) (Happening.Broke id) }
    ensures keeps { KeepsConnections result }
    ensures files { KeepsFiles result }
{
    match side {
        Some(Side::Client) => Happening::HungUp(id),
        Some(Side::Origin) | None => Happening::Broke(id),
    }
}

pub(crate) fn closed(side: Option<Side>, id: u64) -> Happening
    ensures { result ≡ by_side side (Happening.Shut id) (Happening.Dropped id) }
{
    match side {
        Some(Side::Client) => Happening::Shut(id),
        Some(Side::Origin) | None => Happening::Dropped(id),
    }
}
