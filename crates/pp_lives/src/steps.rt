// Operations on the disk, as a course writes them down.
use crate::entries::Entry;
use pp_world::{DiskOp, Happening};

/// An operation on the name of an entry, or on the draft.
#[derive(Clone, Copy)]
pub enum Step {
    /// The draft is to have so many bytes.
    Draft(usize),
    SyncDraft,
    Publish,
    /// At this place are written the bytes of the body between two offsets.
    Body(u64, usize, usize),
    /// At this place these gates are written.
    Gates(u64, &'static [u8]),
    Sync,
    Remove,
}

/// Whether these operations, each of them done, are all that happened.
pub fn are_just(happenings: &[Happening], entry: &Entry, noise: &[u8], steps: &[Step]) -> bool {
    happenings.len() / 2 == steps.len()
        && happenings.len() % 2 == 0
        && happenings
            .chunks(2)
            .zip(steps.iter())
            .all(|(pair, step)| is_run(pair, entry, noise, step))
}

/// Whether this operation was begun and done.
fn is_run(pair: &[Happening], entry: &Entry, noise: &[u8], step: &Step) -> bool {
    match pair {
        [Happening::Began(begun), Happening::Did(done, true)] => {
            is_op(begun, entry, noise, step) && is_op(done, entry, noise, step)
        }
        _ => false,
    }
}

fn is_op(op: &DiskOp, entry: &Entry, noise: &[u8], step: &Step) -> bool {
    match (op, step) {
        (DiskOp::Draft(bytes), Step::Draft(count)) => bytes.as_slice().len() == *count,
        (DiskOp::SyncDraft, Step::SyncDraft) => true,
        (DiskOp::Publish(name), Step::Publish)
        | (DiskOp::Sync(name), Step::Sync)
        | (DiskOp::Remove(name), Step::Remove) => *name == entry.name,
        (DiskOp::Write(name, at, bytes), Step::Body(place, from, to)) => {
            *name == entry.name && at == place && bytes.as_slice() == entry.part(noise, *from, *to)
        }
        (DiskOp::Write(name, at, bytes), Step::Gates(place, gates)) => {
            *name == entry.name && at == place && bytes.as_slice() == *gates
        }
        _ => false,
    }
}
