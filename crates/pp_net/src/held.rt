// A file that is held open from one call to the next.
use pp_world::Name;
use std::fs::File;

/// The file of this name.
#[derive(Drop)]
pub struct Held {
    pub name: Name,
    pub file: File,
}

impl Held {
    pub fn of(name: Name, file: File) -> Held {
        Held { name, file }
    }
}

/// Whether the file of this name is held.
pub fn is_held(held: &Option<Held>, name: &Name) -> bool {
    match held {
        Some(held) => held.name == *name,
        None => false,
    }
}

/// What is held, where it is the file of this name.
pub fn take_held(held: &mut Option<Held>, name: &Name) -> Option<Held> {
    if is_held(held, name) {
        held.take()
    } else {
        None
    }
}
