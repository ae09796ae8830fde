// What a world in memory tells, by the names of its happenings.
use pp_memworld::MemWorld;
use pp_world::Happening;

/// Whether the log is told, and its happenings have these names.
pub fn tells(world: &MemWorld, names: &[&str]) -> bool {
    let Some(log) = world.log() else {
        return false;
    };
    log.len() == names.len()
        && log
            .iter()
            .zip(names.iter())
            .all(|(happening, name)| name_of(happening) == *name)
}

fn name_of(happening: &Happening) -> &'static str {
    match happening {
        Happening::Woke(_) => "Woke",
        Happening::Waits(_) => "Waits",
        Happening::Clock(_) => "Clock",
        Happening::Opened(_) => "Opened",
        Happening::CanRead(_) => "CanRead",
        Happening::CanWrite(_) => "CanWrite",
        Happening::Heard(_, _) => "Heard",
        Happening::HungUp(_) => "HungUp",
        Happening::Said(_, _, _) => "Said",
        Happening::Shut(_) => "Shut",
        Happening::Dialled(_, _, _) => "Dialled",
        Happening::Undialled(_, _) => "Undialled",
        Happening::Reached(_) => "Reached",
        Happening::Ended(_) => "Ended",
        Happening::Broke(_) => "Broke",
        Happening::Asked(_, _) => "Asked",
        Happening::Got(_, _) => "Got",
        Happening::Dropped(_) => "Dropped",
        Happening::NoneYet(_) => "NoneYet",
        Happening::Began(_) => "Began",
        Happening::Did(_, true) => "Did",
        Happening::Did(_, false) => "Failed",
        Happening::Unread(_) => "Unread",
        Happening::Noted(_) => "Noted",
        Happening::Rooted(_) => "Rooted",
        Happening::Listed(true) => "Listed",
        Happening::Listed(false) => "Unlisted",
        Happening::Listens(_, _) => "Listens",
        Happening::Configured(_, _) => "Configured",
        Happening::Printed(_) => "Printed",
        Happening::Stopped => "Stopped",
    }
}
